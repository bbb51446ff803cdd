// The places of a script, in words.

use crate::notes::Notes;
use crate::script::Script;
use script_types::Place;
use std::alloc::AllocError;

// A caller by its name, or by its number where it has none.
fn say_caller(notes: &mut Notes<'_>, script: &Script<'_>, i: usize) -> Result<(), AllocError> {
    notes.say("caller ")?;
    match script.caller(i).and_then(|at| script.text_of(at, b"name")) {
        Some(name) => notes.bytes(name),
        None => notes.number(i),
    }
}

/// Begins a line on what stands at `at`, within a place.
pub fn begin_at(
    notes: &mut Notes<'_>,
    script: &Script<'_>,
    place: Place,
    at: usize,
) -> Result<(), AllocError> {
    notes.begin(at)?;
    match place {
        Place::Top => return Ok(()),
        Place::Codec(i) => {
            notes.say("codec ")?;
            notes.number(i as usize)?;
        }
        Place::Caller(i) => {
            notes.say("caller ")?;
            notes.number(i as usize)?;
        }
        Place::Step(i, j) => {
            notes.say("step ")?;
            notes.number(j as usize)?;
            notes.say(" of ")?;
            say_caller(notes, script, i as usize)?;
        }
        Place::Order(i) => {
            notes.say("item ")?;
            notes.number(i as usize)?;
            notes.say(" of the order")?;
        }
    }
    notes.say(": ")
}

/// The word of a step.
pub fn say_step_word(
    notes: &mut Notes<'_>,
    script: &Script<'_>,
    step: usize,
) -> Result<(), AllocError> {
    match script.text_of(step, b"do") {
        Some(word) => {
            notes.say("\"")?;
            notes.bytes(word)?;
            notes.say("\"")
        }
        None => notes.say("a step"),
    }
}
