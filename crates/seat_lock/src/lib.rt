//! Locks that count their history: a value behind a lock stands for the list of all passages through it, and each thread
//! knows of its seat what it has seen of that list.
#![tactic(auto)]

mod held;
mod laws;
mod lock;
mod picks;
mod steps;
mod told;

pub use held::Held;
pub use laws::none_has_seen_more;
pub use lock::{Seat, SeatLock};
pub use told::Told;
pub use wc_base::{Passage, Token};
