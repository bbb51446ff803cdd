//! Video frames: pictures in media resources (W3C WebCodecs, VideoFrame), cloned, transferred, closed and
//! copied in a layout.
#![tactic(auto)]

mod copying;
mod frame;
mod layout;
mod planning;
mod rows;

pub use frame::VideoFrame;
pub use layout::{Layouts, PlaneLayout, Rect};
