// The planes of each format.
ghost use Rattle.std.specs.Prelude.{◌≡◌, ◌≤◌, ◌<◌, ◌+◌, ◌^◌, length};
ghost use Rattle.picture_planes.specs.Planes.{across, down, sample_size, samples_in};
ghost use Rattle.picture_planes.specs.Planes.{row_of, rows_of, plane_size, planes_of, planes_in};

use wc_base::PictureFormat;

/// What a plane of a picture holds: a byte for each pixel, for two pixels of a row, or for four pixels of
/// two rows; or a pair of bytes for four pixels.
#[derive(Clone, Copy, Debug, PartialEq, Eq)]
pub enum Plane {
    Whole,
    HalfAcross,
    Quarter,
    Pairs,
}

/// The two or three planes of a picture, in the order in which they stand in its bytes.
#[derive(Clone, Copy, Debug, PartialEq, Eq)]
pub struct Planes {
    pub first: Plane,
    pub second: Plane,
    pub third: Option<Plane>,
}

/// The planes of a format (W3C WebCodecs, VideoPixelFormat): Y, U and V, or for NV12 Y and one of both.
pub fn planes_of(format: PictureFormat) -> Planes
    ensures { planes_in result ≡ planes_of format }
{
    let (second, third) = match format {
        PictureFormat::I420 => (Plane::Quarter, Some(Plane::Quarter)),
        PictureFormat::I422 => (Plane::HalfAcross, Some(Plane::HalfAcross)),
        PictureFormat::I444 => (Plane::Whole, Some(Plane::Whole)),
        PictureFormat::Nv12 => (Plane::Pairs, None),
    };
    Planes {
        first: Plane::Whole,
        second,
        third,
    }
}

impl Planes {
    /// How many planes there are: 2 or 3.
    pub fn count(&self) -> usize
        ensures { result ≡ length (planes_in self.now) }
    {
        if self.third.is_some() { 3 } else { 2 }
    }
}

impl Plane {
    /// How many pixels of a row have one sample.
    pub fn across(self) -> u32
        ensures value { result ≡ across self }
        ensures some { 1 ≤ result }
        ensures few { result ≤ 2 }
    {
        match self {
            Plane::Whole => 1,
            Plane::HalfAcross | Plane::Quarter | Plane::Pairs => 2,
        }
    }

    /// How many rows of pixels have one row of samples.
    pub fn down(self) -> u32
        ensures value { result ≡ down self }
        ensures some { 1 ≤ result }
        ensures few { result ≤ 2 }
    {
        match self {
            Plane::Whole | Plane::HalfAcross => 1,
            Plane::Quarter | Plane::Pairs => 2,
        }
    }

    /// How many bytes a sample has.
    pub fn sample_size(self) -> usize
        ensures value { result ≡ sample_size self }
        ensures some { 1 ≤ result }
        ensures few { result ≤ 2 }
    {
        match self {
            Plane::Whole | Plane::HalfAcross | Plane::Quarter => 1,
            Plane::Pairs => 2,
        }
    }

    /// The bytes of a row of so many pixels.
    pub fn row_bytes(self, width: u32) -> usize
        ensures value { result ≡ row_of self width }
        ensures few { result ≤ 2 ^ 32 }
    {
        self.sample_size() * samples_in(width, self.across())
    }

    /// The rows of so many rows of pixels.
    pub fn rows(self, height: u32) -> usize
        ensures value { result ≡ rows_of self height }
        ensures few { result < 2 ^ 32 }
    {
        samples_in(height, self.down())
    }

    /// The bytes of the plane of a picture.
    pub fn size(self, width: u32, height: u32) -> usize
        ensures { result ≡ plane_size self width height }
    {
        self.row_bytes(width) * self.rows(height)
    }
}

/// The samples of so many pixels, `each` of which have one, and fewer at the end.
fn samples_in(pixels: u32, each: u32) -> usize
    requires some { 1 ≤ each }
    requires few { each ≤ 2 }
    ensures { result ≡ samples_in pixels each }
{
    (pixels as usize + each as usize - 1) / each as usize
}
