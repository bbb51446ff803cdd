//! Laws of what the threads of a run made together: how it fits the script.
#![tactic(auto)]

mod laws;

pub use laws::{
    boxes_are_tried, codecs_are_paid, codecs_rest, ends_are_told, moments_fit, reclaims_are_few,
    threads_fit,
};
