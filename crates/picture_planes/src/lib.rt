//! The planes of pictures (W3C WebCodecs, VideoPixelFormat): what each holds, and how many bytes it has.
#![tactic(auto)]

mod plane;
mod size;

pub use plane::{Plane, Planes, planes_of};
pub use size::picture_size;
