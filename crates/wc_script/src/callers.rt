// Reads callers, with their steps.
ghost use Rattle.std.specs.Prelude.{◌≡◌, ◌≢◌, ◌≤◌, ◌+◌, ◌||◌, [], IfOk, IfErr, OnOk, Some, None, Option, length, codes};
ghost use Rattle.json_data.specs.View.{view, items_view};
ghost use Rattle.wc_script.specs.Faults as faults;
ghost use Rattle.wc_script.specs.Callers.{counted_step_of, steps_of, heading_of, caller_of, callers_of};
ghost use Rattle.wc_script.specs.Callers as spec;
ghost use Rattle.script_steps.specs.Steps.{step_of};
ghost use Rattle.script_steps.specs.Words.{word_in, inline_data};
ghost use Rattle.script_steps.specs.Words as words;
ghost use Rattle.script_types.specs.Reading.{Gives, GivesAs};

use crate::faults::fault_at;
use bytes::Bytes;
use json_data::Value;
use script_steps::{
    Files, Ports, StepWord, Variables, array_member, is_caller_name, is_codec_name, name_member,
    read_inline_data, read_step, steps_are_sound, word_member,
};
use script_types::{
    CallerItem, CodecItem, Counted, Fault, Place, Step, Stop, Wrong, copied, limit_of,
};
use std::alloc::Global;
use wc_base::{List, Text};

/// How many steps, and how many bytes of inline data, may still come.
#[derive(Clone, Copy, Debug, PartialEq, Eq)]
pub struct Room {
    pub steps: usize,
    pub media: usize,
}

/// What stands before a step: the steps of its caller, the chunk files mentioned so far, and the room that is left.
#[derive(Drop)]
pub struct Walked {
    pub steps: Variables,
    pub files: Files,
    pub room: Room,
}

/// A caller, with the chunk files mentioned so far, and the room that is left after it.
#[derive(Drop)]
pub struct Heard {
    pub caller: CallerItem,
    pub files: Files,
    pub room: Room,
}

// The room after a step with so many bytes of inline data.
fn room_after(room: Room, bytes: usize) -> Result<Room, Stop<Fault>>
    ensures value { result ≡ spec.room_after room bytes }
    ensures less { IfOk result (λ r. r.steps + 1 ≡ room.steps) }
{
    if room.steps == 0 {
        Err(Stop::Fault(Fault::TooMany(Counted::Steps)))
    } else if bytes > limit_of(Counted::Chunk) {
        Err(Stop::Fault(Fault::TooMany(Counted::Chunk)))
    } else if bytes > room.media {
        Err(Stop::Fault(Fault::TooMany(Counted::Media)))
    } else {
        Ok(Room {
            steps: room.steps - 1,
            media: room.media - bytes,
        })
    }
}

fn byte_count(content: &Option<Bytes>) -> usize
    ensures { result ≡ words.byte_count content.now }
{
    match content {
        Some(bytes) => bytes.len(),
        None => 0,
    }
}

// The step of a value whose word and inline data were read before.
fn read_word_step(
    alloc: Global,
    codecs: &[CodecItem],
    ports: &Ports,
    files: &mut Files,
    before: &Variables,
    value: &Value<'_>,
    word: Option<StepWord>,
    content: Option<Bytes>,
) -> Result<Step, Stop<Wrong>>
    requires codecs { length codecs.now ≤ 64 }
    requires files { length files.old ≤ 100000 }
    requires steps { length before.now ≤ 100000 }
    requires word { word ≡ word_in (view value.now) }
    requires content { content ≡ inline_data (view value.now) }
    ensures { GivesAs
        (λ s. (s, files.new)) result (step_of codecs.now ports.now files.old before.now
        (view value.now)) }
{
    match word {
        Some(word) => read_step(alloc, codecs, ports, files, before, value, word, content),
        None => Err(Stop::Fault(Wrong::Shape)),
    }
}

fn read_step_at(
    alloc: Global,
    codecs: &[CodecItem],
    ports: &Ports,
    place: Place,
    walked: &mut Walked,
    value: &Value<'_>,
    word: Option<StepWord>,
    content: Option<Bytes>,
) -> Result<Step, Stop<Fault>>
    requires codecs { length codecs.now ≤ 64 }
    requires files { length walked.old.files ≤ 100000 }
    requires steps { length walked.old.steps ≤ 100000 }
    requires word { word ≡ word_in (view value.now) }
    requires content { content ≡ inline_data (view value.now) }
    ensures given { GivesAs
        (λ s. (s, walked.new.files)) result
        (faults.at place
        (step_of codecs.now ports.now walked.old.files walked.old.steps (view value.now))) }
    ensures steps { walked.new.steps ≡ walked.old.steps }
{
    let before = &walked.steps;
    match read_word_step(
        alloc,
        codecs,
        ports,
        &mut walked.files,
        before,
        value,
        word,
        content,
    ) {
        Ok(step) => Ok(step),
        Err(stop) => Err(fault_at(place, stop)),
    }
}

// One more step of caller `i`.
#[tactic(auto, unfolding(crate::specs::Callers::counted_step_of))]
fn read_counted_step(
    alloc: Global,
    codecs: &[CodecItem],
    ports: &Ports,
    i: u32,
    walked: &mut Walked,
    value: &Value<'_>,
) -> Result<(), Stop<Fault>>
    requires codecs { length codecs.now ≤ 64 }
    requires files { length walked.old.files + walked.old.room.steps ≤ 100000 }
    requires steps { length walked.old.steps + walked.old.room.steps ≤ 100000 }
    ensures { GivesAs
        (λ _. walked.new) result (counted_step_of codecs.now ports.now i walked.old
        (view value.now)) }
{
    let word = word_member(value);
    let content = read_inline_data(alloc, word, value)?;
    let room = room_after(walked.room, byte_count(&content))?;
    let place = Place::Step(i, walked.steps.len() as u32);
    let step = read_step_at(alloc, codecs, ports, place, walked, value, word, content)?;
    walked.steps.push(step)?;
    walked.room = room;
    Ok(())
}

// The same, with what may still come after it.
#[tactic(auto, using(crate::proofs::StepLaws::files_grow, crate::proofs::StepLaws::steps_grow))]
fn read_next_step(
    alloc: Global,
    codecs: &[CodecItem],
    ports: &Ports,
    i: u32,
    walked: &mut Walked,
    value: &Value<'_>,
) -> Result<(), Stop<Fault>>
    requires codecs { length codecs.now ≤ 64 }
    requires files { length walked.old.files + walked.old.room.steps ≤ 100000 }
    requires steps { length walked.old.steps + walked.old.room.steps ≤ 100000 }
    ensures given { GivesAs
        (λ _. walked.new) result (counted_step_of codecs.now ports.now i walked.old
        (view value.now)) }
    ensures files { OnOk result (length walked.new.files + walked.new.room.steps ≤ 100000) }
    ensures steps { OnOk result (length walked.new.steps + walked.new.room.steps ≤ 100000) }
{
    steps_are_sound();
    read_counted_step(alloc, codecs, ports, i, walked, value)
}

// The steps of caller `i`.
fn read_steps(
    alloc: Global,
    codecs: &[CodecItem],
    ports: &Ports,
    i: u32,
    files: Files,
    room: Room,
    items: &[Value<'_>],
) -> Result<Walked, Stop<Fault>>
    requires codecs { length codecs.now ≤ 64 }
    requires files { length files + room.steps ≤ 100000 }
    ensures given { Gives result
        (steps_of codecs.now ports.now i (record { steps = []; files = files; room = room })
        (items_view items.now)) }
    ensures files { IfOk result (λ w. length w.files + w.room.steps ≤ 100000) }
{
    let mut walked = Walked {
        steps: Variables::new(alloc),
        files,
        room,
    };
    for value in items {
        read_next_step(alloc, codecs, ports, i, &mut walked, value)?;
    }
    Ok(walked)
}

// The name of a caller, and its steps, not yet read.
#[tactic(auto, unfolding(crate::specs::Callers::heading_of))]
fn read_heading<'v, 'a>(
    alloc: Global,
    codecs: &[CodecItem],
    before: &[CallerItem],
    value: &'v Value<'a>,
) -> Result<(Text, &'v [Value<'a>]), Stop<Wrong>>
    ensures { GivesAs
        (λ h. (h.0, items_view h.1.now)) result
        (heading_of codecs.now before.now (view value.now)) }
{
    let name = name_member(value, "name")?;
    let Some(items) = array_member(value, "steps") else {
        return Err(Stop::Fault(Wrong::Shape));
    };
    if is_codec_name(codecs, name) || is_caller_name(before, name) {
        return Err(Stop::Fault(Wrong::Twice));
    }
    let name = copied(alloc, name)?;
    Ok((name, items))
}

fn read_heading_at<'v, 'a>(
    alloc: Global,
    codecs: &[CodecItem],
    before: &[CallerItem],
    value: &'v Value<'a>,
) -> Result<(Text, &'v [Value<'a>]), Stop<Fault>>
    requires { length before.now ≤ 16 }
    ensures { GivesAs
        (λ h. (h.0, items_view h.1.now)) result
        (faults.at (Place.Caller (length before.now))
        (heading_of codecs.now before.now (view value.now))) }
{
    match read_heading(alloc, codecs, before, value) {
        Ok(heading) => Ok(heading),
        Err(stop) => Err(fault_at(Place::Caller(before.len() as u32), stop)),
    }
}

// A caller, after those before it.
#[tactic(auto, unfolding(crate::specs::Callers::caller_of))]
fn read_caller(
    alloc: Global,
    codecs: &[CodecItem],
    ports: &Ports,
    before: &[CallerItem],
    files: Files,
    room: Room,
    value: &Value<'_>,
) -> Result<Heard, Stop<Fault>>
    requires codecs { length codecs.now ≤ 64 }
    requires callers { length before.now ≤ 16 }
    requires files { length files + room.steps ≤ 100000 }
    ensures given { Gives result (caller_of codecs.now ports.now before.now files room
        (view value.now)) }
    ensures files { IfOk result (λ h. length h.files + h.room.steps ≤ 100000) }
{
    let (name, items) = read_heading_at(alloc, codecs, before, value)?;
    let walked = read_steps(
        alloc,
        codecs,
        ports,
        before.len() as u32,
        files,
        room,
        items,
    )?;
    let steps = List::of(walked.steps.into_steps());
    Ok(Heard {
        caller: CallerItem { name, steps },
        files: walked.files,
        room: walked.room,
    })
}

/// The callers, with the chunk files that they mention and the room that is left.
pub fn read_callers(
    alloc: Global,
    codecs: &[CodecItem],
    ports: &Ports,
    room: Room,
    items: &[Value<'_>],
) -> Result<(Vec<CallerItem>, (Files, Room)), Stop<Fault>>
    requires codecs { length codecs.now ≤ 64 }
    requires callers { length items.now ≤ 16 }
    requires room { room.steps ≤ 100000 }
    ensures given { GivesAs
        (λ r. (r.0.items, (r.1.0, r.1.1))) result
        (callers_of codecs.now ports.now [] [] room (items_view items.now)) }
    ensures few { IfOk result (λ r. length r.0.items ≤ 16) }
{
    let mut callers = Vec::new(alloc);
    let mut files = Files::new(alloc);
    let mut left = room;
    for value in items {
        let heard = read_caller(alloc, codecs, ports, &callers, files, left, value)?;
        files = heard.files;
        left = heard.room;
        if callers.push(heard.caller).is_err() {
            return Err(Stop::NoMemory);
        }
    }
    Ok((callers, (files, left)))
}
