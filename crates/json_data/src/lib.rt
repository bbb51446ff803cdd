//! JSON values of scripts, as trees over borrowed text. What a value stands for is the data that serde_json reads from
//! the same text: of equal keys the last holds, and a number out of range is refused.
#![tactic(auto)]

mod lookup;
mod numeral;
mod range;
mod reader;

pub use json::{Scratch, Value};
pub use lookup::{as_items, as_natural, as_signed, as_text, is_object, member};
pub use reader::read;
