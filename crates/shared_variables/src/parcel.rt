//! What callers post into ports.
use media_variables::Medium;
use shared_port::Carried;
use std::marker::Model;

/// A medium on its way through a port, with the time of the step that posted it. Contracts see both.
#[derive(Drop)]
pub struct Parcel {
    pub(crate) medium: Medium,
    pub(crate) time: u64,
}

impl Model for Parcel {
    ghost use Rattle.shared_variables.specs.Ports.{WholeParcel};

    ghost Value = { WholeParcel };

    ghost view = { λ p. record { medium = p.medium; time = p.time } };
}

// The reference that it holds, if it holds one, is of the port's pool, and its time is not too late to be counted on.
impl Carried for Parcel {
    ghost use Rattle.shared_variables.specs.Ports.{IsParcelOf};

    ghost is_of = { IsParcelOf };
}
