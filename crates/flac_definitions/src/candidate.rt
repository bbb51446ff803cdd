// Ways to code a subframe.
use crate::plan::RicePlan;

/// A way to code the samples of one channel (RFC 9639, section 9.2): as one sample that all are, as they are, or by a
/// fixed predictor with a partition order for its residual.
#[derive(Clone, Copy, Debug, PartialEq, Eq)]
pub enum Candidate {
    Constant,
    Verbatim,
    Fixed { order: u32, partition: u32 },
}

/// A candidate, how many bits its subframe has, and the plan of its residual, which has no parameters where there is
/// none.
#[derive(Drop)]
pub struct Choice {
    pub candidate: Candidate,
    pub bits: u64,
    pub plan: RicePlan,
}
