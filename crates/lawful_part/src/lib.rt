//! The part of a run that is lawful: of each codec its entries before the first that is not legal, with what its definition
//! shows for them; of the pool and of the registry their entries before the first that is not legal.
#![tactic(auto)]

mod part;

pub use codec_judge::Lender;
pub use part::lawful;
