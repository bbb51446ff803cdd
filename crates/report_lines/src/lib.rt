//! How a report is read: its fields, from the front of some bytes, and the line that stands there. What is written is read
//! again, and what is read is within its type.
#![tactic(auto)]

mod copies;
mod field_laws;
mod fields;
mod laws;
mod reading;
mod vocabulary;
mod words;

pub use field_laws::{
    bytes_are_read_again, fields_that_are_read_fit, numbers_are_read_again, words_are_read_again,
};
pub use fields::{
    FieldFault, bytes_upto, number_or_dash_upto, number_upto, short_upto, signed_upto,
};
pub use laws::{lines_are_read_again, lines_that_are_read_fit};
pub use reading::line_at;
pub use vocabulary::codec_id_of;
pub use words::{after, are_digits, upto, word_at};
