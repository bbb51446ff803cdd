// What a copy of a frame is asked for, and what it takes.

/// A part of a picture, in pixels (W3C WebCodecs, DOMRectInit).
#[derive(Clone, Copy, Debug, PartialEq, Eq)]
pub struct Rect {
    pub x: u32,
    pub y: u32,
    pub width: u32,
    pub height: u32,
}

/// Where a plane is copied to (W3C WebCodecs, PlaneLayout): its first byte's place, and the bytes from one
/// row to the next.
#[derive(Clone, Copy, Debug, PartialEq, Eq)]
pub struct PlaneLayout {
    pub offset: u32,
    pub stride: u32,
}

/// Where the planes of a copy went: `count` is 2 or 3, and with 2 the third is all zero.
#[derive(Clone, Copy, Debug, PartialEq, Eq)]
pub struct Layouts {
    pub count: u32,
    pub first: PlaneLayout,
    pub second: PlaneLayout,
    pub third: PlaneLayout,
}

/// A plane of a copy: `rows` rows of `row` bytes, the first from the place `from` of the picture's bytes,
/// and each `step` bytes after the one before.
#[derive(Clone, Copy, Debug, PartialEq, Eq)]
pub struct PlaneCopy {
    pub layout: PlaneLayout,
    pub from: usize,
    pub step: usize,
    pub row: usize,
    pub rows: usize,
}

/// The planes of a copy.
#[derive(Clone, Copy, Debug, PartialEq, Eq)]
pub struct Plan {
    pub first: PlaneCopy,
    pub second: PlaneCopy,
    pub third: Option<PlaneCopy>,
}

/// Where a plane is to be copied to, also where 32 bits do not count it.
#[derive(Clone, Copy, Debug, PartialEq, Eq)]
pub struct Placement {
    pub offset: usize,
    pub stride: usize,
}
