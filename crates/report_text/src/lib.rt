//! The lines of a report: what stands on each, and its text.
#![tactic(auto)]

mod events;
mod line;
mod names;
mod pieces;
mod result;
mod text;
mod words;

pub use line::{CallWord, EntryLine, EventLine, Line};
pub use names::{caller_name, codec_name};
pub use result::StepResult;
pub use text::{line_text, push_line};
pub use words::{
    CALL_WORDS, answer_text, call_word, chunk_type_text, codec_text, error_name,
    picture_format_text, role_text, sample_format_text, state_text,
};
