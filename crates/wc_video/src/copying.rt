// Copies of video frames (W3C WebCodecs, VideoFrame, `allocationSize` and `copyTo`).
ghost use Rattle.std.specs.Prelude.{◌≡◌, ◌≤◌, true, length, Ok, Err, IfOk, IfErr, OnOk, OnErr};
ghost use Rattle.std.specs.Prelude.{is_some};
ghost use Rattle.std.specs.Option.{option_copied};
ghost use Rattle.picture_planes.specs.Planes.{picture_size};
ghost use Rattle.std.specs.List.{list_all};
ghost use Rattle.wc_video.specs.Layouts.{copies_in, is_fit, are_apart, size_of, layouts_of};
ghost use Rattle.wc_video.specs.Copies.{IsLaid, follows, is_straight, plan_for, copy_of};
ghost use Rattle.wc_video.specs.Copies.{allocation_size, layouts_for, copied_frame};

use crate::frame::VideoFrame;
use crate::layout::{Layouts, Plan, PlaneCopy, PlaneLayout, Rect};
use crate::planning::{end_of, plan_of};
use crate::rows::copy_plane;
use wc_base::DomError;

impl VideoFrame {
    /// The bytes that a copy needs: the greatest end of its planes. Without a rect it is the whole picture,
    /// and without a layout rows and planes stand one after another. `InvalidState` where the frame is
    /// detached; then `TypeErr` where the rect is empty, does not lie in the picture, or begins where some
    /// plane has no sample; where the layout has another number of planes; where a stride is less than the
    /// bytes of the rect's row; where 32 bits do not count a plane's end; or where two planes meet. It
    /// takes no memory.
    pub fn allocation_size(
        &self,
        rect: Option<Rect>,
        layout: Option<&[PlaneLayout]>,
    ) -> Result<u64, DomError>
        ensures { result ≡ allocation_size self.now rect (option_copied layout.entry) }
    {
        let p = plan(self, rect, layout)?;
        Ok(size_of(&p) as u64)
    }

    /// Copies a rect of the picture: the byte in a column of a row of a plane goes to the plane's offset,
    /// the row times the stride, and the column. The answer is where the planes went. It is refused as
    /// `allocation_size` is, and then with `TypeErr` where `dst` is shorter than that; after a refusal
    /// `dst` is unchanged, and so is each byte of it to which nothing goes. It takes no memory.
    pub fn copy_to(
        &self,
        dst: &mut [u8],
        rect: Option<Rect>,
        layout: Option<&[PlaneLayout]>,
    ) -> Result<Layouts, DomError>
        ensures ok { let copy = copied_frame self.now dst.old rect (option_copied layout.entry) in
            IfOk result (λ l. copy ≡ Ok dst.new) }
        ensures layouts { IfOk result
            (λ l. layouts_for (plan_for self.now rect (option_copied layout.entry)) ≡ Ok l) }
        ensures err { let copy = copied_frame self.now dst.old rect (option_copied layout.entry) in
            IfErr result (λ e. copy ≡ Err e) }
        ensures same { OnErr result (dst.new ≡ dst.old) }
    {
        let p = plan(self, rect, layout)?;
        if dst.len() < size_of(&p) as usize {
            return Err(DomError::TypeErr);
        }
        write(&p, self.content(), dst);
        Ok(layouts_of(&p))
    }
}

/// The planes of a copy, or its first refusal.
fn plan(
    frame: &VideoFrame,
    rect: Option<Rect>,
    layout: Option<&[PlaneLayout]>,
) -> Result<Plan, DomError>
    ensures ok { IfOk result
        (λ p. plan_for frame.now rect (option_copied layout.entry) ≡ Ok (copies_in p)) }
    ensures laid { IfOk result (IsLaid (picture_size frame.now.shape)) }
    ensures apart { IfOk result (λ p. are_apart (copies_in p) ≡ true) }
    ensures open { OnOk result (is_some frame.now.held ≡ true) }
    ensures err { IfErr result
        (λ e. plan_for frame.now rect (option_copied layout.entry) ≡ Err e) }
{
    if frame.is_detached() {
        return Err(DomError::InvalidState);
    }
    let _bytes = frame.content().len();
    plan_of(frame.shape(), rect, layout)
}

/// The greatest end of the planes.
fn size_of(p: &Plan) -> u32
    requires { list_all is_fit (copies_in p.now) ≡ true }
    ensures { result ≡ size_of (copies_in p.now) }
{
    let two = end_of(&p.first).max(end_of(&p.second));
    match &p.third {
        Some(c) => two.max(end_of(c)),
        None => two,
    }
}

fn layouts_of(p: &Plan) -> Layouts
    ensures { result ≡ layouts_of (copies_in p.now) }
{
    let none = PlaneLayout {
        offset: 0,
        stride: 0,
    };
    let (count, third) = match &p.third {
        Some(c) => (3, c.layout),
        None => (2, none),
    };
    Layouts {
        count,
        first: p.first.layout,
        second: p.second.layout,
        third,
    }
}

/// Whether a plane has no space between its rows, here and there, and begins at the same place in both.
fn follows(c: &PlaneCopy, at: usize) -> bool
    ensures { result ≡ follows c.now at }
{
    c.row == c.step
        && c.row == c.layout.stride as usize
        && c.from == at
        && c.layout.offset as usize == at
}

/// Whether all planes stand one after another, here and there.
fn is_straight(p: &Plan) -> bool
    requires { list_all is_fit (copies_in p.now) ≡ true }
    ensures { result ≡ is_straight 0 (copies_in p.now) }
{
    if !follows(&p.first, 0) || !follows(&p.second, end_of(&p.first) as usize) {
        return false;
    }
    match &p.third {
        Some(c) => follows(c, end_of(&p.second) as usize),
        None => true,
    }
}

/// Copies the planes of a plan: in one piece where all bytes keep their places.
fn write(p: &Plan, bytes: &[u8], to: &mut [u8])
    requires laid { IsLaid (length bytes.now) p.now }
    requires apart { are_apart (copies_in p.now) ≡ true }
    requires room { size_of (copies_in p.now) ≤ length to.old }
    ensures { to.new ≡ copy_of (copies_in p.now) bytes.now to.old }
{
    if is_straight(p) {
        let size = size_of(p) as usize;
        to[..size].copy_from_slice(&bytes[..size]);
    } else {
        write_planes(p, bytes, to);
    }
}

fn write_planes(p: &Plan, bytes: &[u8], to: &mut [u8])
    requires laid { IsLaid (length bytes.now) p.now }
    requires apart { are_apart (copies_in p.now) ≡ true }
    requires room { size_of (copies_in p.now) ≤ length to.old }
    ensures { to.new ≡ copy_of (copies_in p.now) bytes.now to.old }
{
    copy_plane(&p.first, bytes, to);
    copy_plane(&p.second, bytes, to);
    match &p.third {
        Some(c) => copy_plane(c, bytes, to),
        None => {}
    }
}
