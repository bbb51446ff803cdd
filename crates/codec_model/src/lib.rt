//! One codec's algorithms (W3C WebCodecs): the entries of its history, its states, the step of each entry, and the queues
//! that run them.
#![tactic(auto)]

mod calls;
mod entry;
mod facts;
mod showing;

pub use calls::{is_background_decoder, is_decoder, is_key_chunk};
pub use entry::{
    Answer, Call, CodecState, Coded, Content, Ended, Entry, Event, Handed, HeldMedium, Item,
    MediaShape, Message, Opening, Outcome, Pair, PromiseEnd, PromiseState, Running, Showing, Shown,
    Task, TurnWord, Work, WorkKind,
};
pub use facts::{never_stuck, references_are_held, steps_leave_fewer};
pub use showing::shown_list;
pub use wc_config::Kind;
