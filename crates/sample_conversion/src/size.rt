// How many bytes a sample has.
ghost use Rattle.std.specs.Prelude.{◌≡◌};
ghost use Rattle.sample_conversion.specs.Sizes.{size_of};

/// How many bytes a sample of linear PCM has.
#[derive(Clone, Copy, Debug, PartialEq, Eq)]
pub enum SampleSize {
    One,
    Two,
    Three,
    Four,
}

impl SampleSize {
    pub fn bytes(self) -> usize
        ensures { result ≡ size_of self }
    {
        match self {
            SampleSize::One => 1,
            SampleSize::Two => 2,
            SampleSize::Three => 3,
            SampleSize::Four => 4,
        }
    }
}
