//! Coded residuals of FLAC, written with the fewest bits (RFC 9639, section 9.2.7).
#![tactic(auto)]

mod laws;
mod plan;
mod residual;
mod sums;

pub use flac_definitions::RicePlan;
pub use laws::{no_plan_is_below, no_plan_is_below_leasts, written_residuals_are_read};
pub use plan::{best_below, best_parameters, finest, least_bits};
pub use residual::write_residual;
pub use sums::bound_of;
