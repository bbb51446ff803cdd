//! A codec behind a lock: threads call it, and do its work, each through a seat of its own. What each call answers is what the
//! plain codec answers at that point of one legal history.
#![tactic(auto)]

mod calls;
mod codec;
mod encodes;
mod laws;
mod lender;
mod looks;
mod passage;
mod settling;
mod takes;
mod workers;

pub use codec::{About, CodecSeat, Locked, SharedCodec};
pub use laws::{dues_add_up, order_is_kept};
pub use lender::{Lender, OpenMedium};
pub use passage::no_acquires;
pub use settling::Answer;
pub use takes::NextOutput;
pub use workers::{Acquired, Lack, Tried, one_acquire, two_acquires};
