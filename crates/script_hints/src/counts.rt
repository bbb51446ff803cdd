// Counts: how often callers stand in the order, and what there is too much of.

use crate::notes::Notes;
use crate::places::begin_at;
use crate::scan::{count_items, find_member, inside, next_item, string_at};
use crate::script::Script;
use script_types::{Counted, Place, limit_of};
use std::alloc::AllocError;

// How often a name stands in the order, and where it stands once more than it may.
fn turns_of(text: &[u8], order: usize, name: &[u8], steps: usize) -> (usize, Option<usize>) {
    let mut count: usize = 0;
    let mut beyond = None;
    let mut at = inside(order);
    for _ in 0..text.len() {
        let Some(item) = next_item(text, at) else {
            break;
        };
        if string_at(text, item.value) == Some(name) {
            if count == steps {
                beyond = Some(item.value);
            }
            count = count.saturating_add(1);
        }
        at = item.next;
    }
    (count, beyond)
}

// The line on a caller that stands in the order more or less often than it has steps.
fn tell_turns(
    notes: &mut Notes<'_>,
    script: &Script<'_>,
    order: usize,
    caller: usize,
) -> Result<bool, AllocError> {
    let text = script.text;
    let Some(name) = script.text_of(caller, b"name") else {
        return Ok(false);
    };
    let Some(steps) = find_member(text, caller, b"steps") else {
        return Ok(false);
    };
    let steps = count_items(text, steps);
    let (turns, beyond) = turns_of(text, order, name, steps);
    if turns == steps {
        return Ok(false);
    }
    begin_at(notes, script, Place::Top, beyond.unwrap_or(order))?;
    notes.say("caller ")?;
    notes.bytes(name)?;
    notes.say(" stands in \"order\" ")?;
    notes.number(turns)?;
    notes.say(if turns == 1 { " time" } else { " times" })?;
    notes.say(", and has ")?;
    notes.number(steps)?;
    notes.say(if steps == 1 { " step" } else { " steps" })?;
    notes.say("; as many of both are wanted")?;
    notes.end()?;
    Ok(true)
}

/// The first caller that stands in the order more or less often than it has steps.
pub fn turns(notes: &mut Notes<'_>, script: &Script<'_>) -> Result<(), AllocError> {
    let (Some(order), Some(callers)) = (script.order(), script.callers()) else {
        return Ok(());
    };
    let mut at = inside(callers);
    for _ in 0..16 {
        let Some(caller) = next_item(script.text, at) else {
            break;
        };
        if tell_turns(notes, script, order, caller.value)? {
            return Ok(());
        }
        at = caller.next;
    }
    Ok(())
}

/// The line on an array with too many items.
pub fn tell_items(
    notes: &mut Notes<'_>,
    script: &Script<'_>,
    place: Place,
    at: usize,
    member: &str,
    most: usize,
) -> Result<(), AllocError> {
    begin_at(notes, script, place, at)?;
    notes.member(member)?;
    notes.say(" has ")?;
    notes.number(count_items(script.text, at))?;
    notes.say(" items; at most ")?;
    notes.number(most)?;
    notes.say(" are wanted")?;
    notes.end()
}

// The line on an array at the top with too many items.
fn tell_many(
    notes: &mut Notes<'_>,
    script: &Script<'_>,
    array: Option<usize>,
    member: &str,
    what: Counted,
) -> Result<(), AllocError> {
    match array {
        Some(at) => tell_items(notes, script, Place::Top, at, member, limit_of(what)),
        None => Ok(()),
    }
}

// How many steps the callers have.
fn steps_of_all(script: &Script<'_>) -> usize {
    let mut count: usize = 0;
    let Some(callers) = script.callers() else {
        return count;
    };
    let mut at = inside(callers);
    for _ in 0..16 {
        let Some(caller) = next_item(script.text, at) else {
            break;
        };
        if let Some(steps) = find_member(script.text, caller.value, b"steps") {
            count = count.saturating_add(count_items(script.text, steps));
        }
        at = caller.next;
    }
    count
}

// The line on the bytes of the script, of a chunk or of the media, which are more than their limit.
fn tell_bytes(notes: &mut Notes<'_>, words: &str, what: Counted) -> Result<(), AllocError> {
    notes.begin_file()?;
    notes.say(words)?;
    notes.number(limit_of(what))?;
    notes.say(" bytes")?;
    notes.end()
}

/// What there is too much of.
pub fn too_many(
    notes: &mut Notes<'_>,
    script: &Script<'_>,
    what: Counted,
) -> Result<(), AllocError> {
    match what {
        Counted::Codecs => tell_many(notes, script, script.codecs(), "codecs", what),
        Counted::Callers => tell_many(notes, script, script.callers(), "callers", what),
        Counted::Order => tell_many(notes, script, script.order(), "order", what),
        Counted::Steps => {
            notes.begin_file()?;
            notes.say("its callers have ")?;
            notes.number(steps_of_all(script))?;
            notes.say(" steps; at most ")?;
            notes.number(limit_of(what))?;
            notes.say(" are wanted")?;
            notes.end()
        }
        Counted::Script => tell_bytes(notes, "a script has at most ", what),
        Counted::Chunk => tell_bytes(notes, "a chunk, or inline data, has at most ", what),
        Counted::File => tell_bytes(notes, "a chunk file has at most ", what),
        Counted::Report => tell_bytes(notes, "a report has at most ", what),
        Counted::Media => tell_bytes(
            notes,
            "all chunks of its chunk files and all inline data have at most ",
            what,
        ),
    }
}
