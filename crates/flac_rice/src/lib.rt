//! Coded residuals of FLAC (RFC 9639, section 9.2.7).
#![tactic(auto)]

mod laws;
mod partition;
mod residual;
mod value;

pub use flac_definitions::ResidualFault;
pub use laws::residuals_are_spelled;
pub use residual::{read_residual, read_residual_into};
