//! Hints on a script's file for a person: what was met and what was wanted, with line and column, beside the line that the
//! program writes of a fault, and members that no rule knows.
//!
//! Of this crate it is proved that each call is safe and ends. No clause says what a hint holds, and no line of a report
//! or of a fault depends on one.
#![tactic(auto)]

mod counts;
mod json_faults;
mod names;
mod notes;
mod places;
mod rules;
mod scan;
mod script;
mod shapes;
mod values;
mod warnings;

use crate::notes::Notes;
use crate::rules::Form;
use crate::scan::past_blanks;
use crate::script::Script;
use crate::warnings::Warner;
use chunk_files::{ChunkFault, DemuxFault, MediaFault};
use script_types::{Fault, Place, Wrong};
use std::alloc::{AllocError, Global};
use wc_base::NoMemory;

// What is wrong at a codec or at a caller.
fn at_head(
    notes: &mut Notes<'_>,
    script: &Script<'_>,
    place: Place,
    at: Option<usize>,
    form: Form,
    wrong: Wrong,
) -> Result<(), AllocError> {
    let Some(at) = at else {
        return Ok(());
    };
    match wrong {
        Wrong::Shape => shapes::head(notes, script, place, at, form),
        Wrong::Twice => names::twice_in_head(notes, script, place, at),
        Wrong::UnknownName => Ok(()),
    }
}

// What is wrong at step `j` of caller `i`.
fn at_step(
    notes: &mut Notes<'_>,
    script: &Script<'_>,
    i: usize,
    j: usize,
    place: Place,
    wrong: Wrong,
) -> Result<(), AllocError> {
    let Some(at) = script.step(i, j) else {
        return Ok(());
    };
    match wrong {
        Wrong::Shape => shapes::step(notes, script, i, j, place, at),
        Wrong::Twice => names::twice_in_step(notes, script, i, j, place, at),
        Wrong::UnknownName => names::unknown_in_step(notes, script, i, j, place, at),
    }
}

// What is wrong at an item of the order.
fn at_item(
    notes: &mut Notes<'_>,
    script: &Script<'_>,
    i: usize,
    place: Place,
    wrong: Wrong,
) -> Result<(), AllocError> {
    let Some(at) = script.item(i) else {
        return Ok(());
    };
    match wrong {
        Wrong::Shape => shapes::item(notes, script, place, at),
        Wrong::Twice => Ok(()),
        Wrong::UnknownName => names::unknown_in_item(notes, script, place, at),
    }
}

// What is wrong at the top.
fn at_top(notes: &mut Notes<'_>, script: &Script<'_>, wrong: Wrong) -> Result<(), AllocError> {
    if wrong == Wrong::Twice {
        return names::twice_in_ports(notes, script);
    }
    if shapes::top(notes, script)? {
        Ok(())
    } else {
        counts::turns(notes, script)
    }
}

// What is wrong at a place.
fn at_place(
    notes: &mut Notes<'_>,
    script: &Script<'_>,
    place: Place,
    wrong: Wrong,
) -> Result<(), AllocError> {
    match place {
        Place::Top => at_top(notes, script, wrong),
        Place::Codec(i) => {
            let at = script.codec(i as usize);
            at_head(notes, script, place, at, Form::Codec, wrong)
        }
        Place::Caller(i) => {
            let at = script.caller(i as usize);
            at_head(notes, script, place, at, Form::Caller, wrong)
        }
        Place::Step(i, j) => at_step(notes, script, i as usize, j as usize, place, wrong),
        Place::Order(i) => at_item(notes, script, i as usize, place, wrong),
    }
}

// The first fault of a chunk file.
fn in_chunks(notes: &mut Notes<'_>, name: &str, fault: ChunkFault) -> Result<(), AllocError> {
    notes.say(name)?;
    match fault {
        ChunkFault::BadMark { at } => {
            notes.say(": a chunk file begins with WCC1, and the first ")?;
            notes.number(at as usize)?;
            notes.say(" bytes of this one agree with that")?;
        }
        ChunkFault::BadKind { at, found } => {
            notes.say(": byte ")?;
            notes.number(at as usize)?;
            notes.say(" is ")?;
            notes.number(found as usize)?;
            notes.say(
                "; 0 or 1 is wanted, for the type of a chunk or for whether it has a duration",
            )?;
        }
        ChunkFault::Short { at } => {
            notes.say(": it ends inside what begins at byte ")?;
            notes.number(at as usize)?;
        }
    }
    notes.end()
}

// The first fault of a WAV file or a native FLAC file.
fn in_sound(notes: &mut Notes<'_>, name: &str, fault: DemuxFault) -> Result<(), AllocError> {
    notes.say(name)?;
    match fault {
        DemuxFault::BadWav { at } => {
            notes.say(
                ": a WAV file is RIFF, a size and WAVE, and then parts, of which a fmt stands before the data; at byte ",
            )?;
            notes.number(at as usize)?;
            notes.say(" one is cut, lacks or does not agree with itself")?;
        }
        DemuxFault::Unsupported { tag, bits } => {
            notes.say(": its format has the tag ")?;
            notes.number(tag as usize)?;
            notes.say(" and ")?;
            notes.number(bits as usize)?;
            notes.say(" bits; 1 with 8, 16, 24 or 32, or 6 or 7 with 8 is wanted")?;
        }
        DemuxFault::BadFlac { at } => {
            notes.say(": a FLAC file is fLaC, its blocks and then frames to its end; at byte ")?;
            notes.number(at as usize)?;
            notes.say(" stands no description, or a block that is cut, or no frame of the stream")?;
        }
    }
    notes.end()
}

// Why a file is no media file.
fn in_media(notes: &mut Notes<'_>, name: &str, fault: MediaFault) -> Result<(), AllocError> {
    match fault {
        MediaFault::Chunks(fault) => in_chunks(notes, name, fault),
        MediaFault::Sound(fault) => in_sound(notes, name, fault),
    }
}

// The chunk that a step takes from a file with too few.
fn lacking(
    notes: &mut Notes<'_>,
    script: &Script<'_>,
    name: &str,
    place: Place,
    held: Option<usize>,
) -> Result<(), AllocError> {
    let Place::Step(i, j) = place else {
        return Ok(());
    };
    let Some(step) = script.step(i as usize, j as usize) else {
        return Ok(());
    };
    let at = scan::find_member(script.text, step, b"index").unwrap_or(step);
    places::begin_at(notes, script, place, at)?;
    notes.say("\"index\" is ")?;
    notes.met(at)?;
    notes.say(", and the chunk file ")?;
    notes.say(name)?;
    if let Some(held) = held {
        notes.say(" has ")?;
        notes.number(held)?;
        notes.say(" chunks, numbered from 0")?;
    } else {
        notes.say(" has no such chunk")?;
    }
    notes.end()
}

fn explain(
    alloc: Global,
    notes: &mut Notes<'_>,
    fault: &Fault,
    held: Option<usize>,
) -> Result<(), AllocError> {
    let text = notes.text();
    let script = Script::at(text, past_blanks(text, 0));
    match fault {
        Fault::NotJson => json_faults::not_json(alloc, notes),
        Fault::At { place, wrong } => at_place(notes, &script, *place, *wrong),
        Fault::TooMany(what) => counts::too_many(notes, &script, *what),
        Fault::Unread { name: _ } => Ok(()),
        Fault::Chunks { name, fault } => in_media(notes, name.as_str(), *fault),
        Fault::NoIndex { name, place } => { lacking(notes, &script, name.as_str(), *place, held) }
    }
}

/// Lines on the fault of the script that these bytes of the file spell: what was met, and what is wanted. `held` is how
/// many chunks the chunk file has that lacks one. No line where nothing is found; of a file that was not read neither.
pub fn fault_hints(
    alloc: Global,
    file: &str,
    text: &[u8],
    fault: &Fault,
    held: Option<usize>,
) -> Result<Vec<u8>, NoMemory> {
    let mut notes = Notes::new(alloc, file, text);
    explain(alloc, &mut notes, fault, held)?;
    Ok(notes.into_lines())
}

/// Lines on the members that no rule knows, in the script that these bytes of the file spell.
pub fn member_warnings(alloc: Global, file: &str, text: &[u8]) -> Result<Vec<u8>, NoMemory> {
    let mut notes = Notes::new(alloc, file, text);
    let mut warner = Warner::new(&mut notes);
    warner.script(past_blanks(text, 0))?;
    Ok(notes.into_lines())
}
