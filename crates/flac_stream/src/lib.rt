//! FLAC for streams: heads of native streams, frames found behind damage, and the sum of samples (RFC 9639).
#![tactic(auto)]

mod head;
mod next;
mod sum;

pub use head::{HeadRead, SeekTable, StreamHead, read_head};
pub use next::{NextFrame, next_frame};
pub use sum::{SampleSum, sum_samples};
