// What is wrong with the shape of one place.

use crate::counts::tell_items;
use crate::notes::Notes;
use crate::places::{begin_at, say_step_word};
use crate::rules::{Form, MOST_TRANSFER, Rule, STEP_WORDS, TRANSFER, Wanted, rules_of, words_of};
use crate::scan::{byte_at, count_items, find_member, inside, next_start, past_value, string_at};
use crate::script::Script;
use crate::values::{Owner, is_name, may_stand};
use script_types::Place;
use std::alloc::AllocError;

// What the name that stands here names, where that is of another kind than is wanted.
fn say_named(
    notes: &mut Notes<'_>,
    script: &Script<'_>,
    owner: Owner,
    name: &[u8],
    wanted: Wanted,
) -> Result<(), AllocError> {
    if matches!(wanted, Wanted::Decoder | Wanted::Encoder) {
        if let Some(kind) = script.kind_of(name) {
            notes.say(", a codec of kind ")?;
            notes.bytes(kind)?;
        }
        return Ok(());
    }
    if let Owner::Step(i, j) = owner {
        if let Some((n, step)) = script.find_variable(i, name, j) {
            notes.say(", which step ")?;
            notes.number(n)?;
            notes.say(" names in ")?;
            say_step_word(notes, script, step)?;
        }
    }
    Ok(())
}

// The line on a member with a value that may not stand there.
fn tell_met(
    notes: &mut Notes<'_>,
    script: &Script<'_>,
    owner: Owner,
    place: Place,
    at: usize,
    rule: Rule,
) -> Result<(), AllocError> {
    begin_at(notes, script, place, at)?;
    notes.member(rule.name())?;
    notes.say(" is ")?;
    notes.met(at)?;
    if let Some(name) = string_at(script.text, at) {
        if is_name(name) {
            say_named(notes, script, owner, name, rule.wanted())?;
        } else if !matches!(
            rule.wanted(),
            Wanted::Kind
                | Wanted::PortKind
                | Wanted::Ground
                | Wanted::Hex
                | Wanted::Data
                | Wanted::Text
                | Wanted::Object
                | Wanted::Array
        ) {
            notes.say(", and a name has 1 to 32 of a to z, 0 to 9, _ and -")?;
        }
    }
    notes.say("; ")?;
    notes.say(words_of(rule.wanted()))?;
    notes.say(" is wanted")?;
    notes.end()
}

fn tell_missing(
    notes: &mut Notes<'_>,
    script: &Script<'_>,
    place: Place,
    object: usize,
    rule: Rule,
) -> Result<(), AllocError> {
    begin_at(notes, script, place, object)?;
    notes.member(rule.name())?;
    notes.say(" is missing; ")?;
    notes.say(words_of(rule.wanted()))?;
    notes.say(" is wanted")?;
    notes.end()
}

// The first member of an object that breaks its rule; whether there is one.
fn members_of(
    notes: &mut Notes<'_>,
    script: &Script<'_>,
    owner: Owner,
    place: Place,
    object: usize,
    form: Form,
) -> Result<bool, AllocError> {
    for rule in rules_of(form) {
        match find_member(script.text, object, rule.name().as_bytes()) {
            Some(at) => {
                if !may_stand(script, owner, at, rule.wanted()) {
                    tell_met(notes, script, owner, place, at, *rule)?;
                    return Ok(true);
                }
            }
            None => {
                if rule.is_needed() {
                    tell_missing(notes, script, place, object, *rule)?;
                    return Ok(true);
                }
            }
        }
    }
    Ok(false)
}

// The line on a value that is no object.
fn tell_no_object(
    notes: &mut Notes<'_>,
    script: &Script<'_>,
    place: Place,
    at: usize,
    what: &str,
) -> Result<(), AllocError> {
    begin_at(notes, script, place, at)?;
    notes.say(what)?;
    notes.say(" is ")?;
    notes.met(at)?;
    notes.say("; an object is wanted")?;
    notes.end()
}

// The same of a member that is an object, if it is there.
fn within(
    notes: &mut Notes<'_>,
    script: &Script<'_>,
    place: Place,
    object: usize,
    member: &str,
    form: Form,
) -> Result<bool, AllocError> {
    match find_member(script.text, object, member.as_bytes()) {
        Some(at) => members_of(notes, script, Owner::Other, place, at, form),
        None => Ok(false),
    }
}

// The same of the planes of a layout.
fn planes(
    notes: &mut Notes<'_>,
    script: &Script<'_>,
    place: Place,
    options: usize,
) -> Result<bool, AllocError> {
    let text = script.text;
    let Some(layout) = find_member(text, options, b"layout") else {
        return Ok(false);
    };
    let mut at = inside(layout);
    for _ in 0..text.len() {
        let Some(plane) = next_start(text, at) else {
            break;
        };
        if byte_at(text, plane) != b'{' {
            tell_no_object(notes, script, place, plane, "a plane of \"layout\"")?;
            return Ok(true);
        }
        if members_of(notes, script, Owner::Other, place, plane, Form::Plane)? {
            return Ok(true);
        }
        at = past_value(text, plane);
    }
    Ok(false)
}

// A chunk has `init`, or `file` and `index`.
fn source(
    notes: &mut Notes<'_>,
    script: &Script<'_>,
    place: Place,
    step: usize,
) -> Result<bool, AllocError> {
    let text = script.text;
    let init = find_member(text, step, b"init").is_some();
    let file = find_member(text, step, b"file").is_some();
    let index = find_member(text, step, b"index").is_some();
    if (init && !file && !index) || (!init && file && index) {
        return Ok(false);
    }
    begin_at(notes, script, place, step)?;
    notes.say("it has")?;
    for (is_there, name) in [(init, "init"), (file, "file"), (index, "index")] {
        if is_there {
            notes.say(" ")?;
            notes.member(name)?;
        }
    }
    if !init && !file && !index {
        notes.say(" neither of both")?;
    }
    notes.say("; either \"init\" or both \"file\" and \"index\" is wanted")?;
    notes.end()?;
    Ok(true)
}

// The data of an init, where it is an object that names a buffer.
fn data(
    notes: &mut Notes<'_>,
    script: &Script<'_>,
    owner: Owner,
    place: Place,
    init: usize,
) -> Result<bool, AllocError> {
    match find_member(script.text, init, b"data") {
        Some(at) if byte_at(script.text, at) == b'{' => {
            members_of(notes, script, owner, place, at, Form::Data)
        }
        _ => Ok(false),
    }
}

// The transfer list of an init: too many names, or one that is no buffer's.
fn transfer(
    notes: &mut Notes<'_>,
    script: &Script<'_>,
    owner: Owner,
    place: Place,
    init: usize,
) -> Result<bool, AllocError> {
    let text = script.text;
    let Some(list) = find_member(text, init, b"transfer") else {
        return Ok(false);
    };
    if count_items(text, list) > MOST_TRANSFER {
        tell_items(notes, script, place, list, "transfer", MOST_TRANSFER)?;
        return Ok(true);
    }
    let mut at = inside(list);
    for _ in 0..MOST_TRANSFER {
        let Some(name) = next_start(text, at) else {
            break;
        };
        if !may_stand(script, owner, name, Wanted::Buffer) {
            tell_met(notes, script, owner, place, name, TRANSFER)?;
            return Ok(true);
        }
        at = past_value(text, name);
    }
    Ok(false)
}

// What stands in the objects of a step.
fn deeper(
    notes: &mut Notes<'_>,
    script: &Script<'_>,
    owner: Owner,
    place: Place,
    step: usize,
    form: Form,
) -> Result<bool, AllocError> {
    let text = script.text;
    if form == Form::Chunk && source(notes, script, place, step)? {
        return Ok(true);
    }
    if within(notes, script, place, step, "config", Form::Config)?
        || within(notes, script, place, step, "init", Form::Init)?
        || within(notes, script, place, step, "options", Form::Options)?
    {
        return Ok(true);
    }
    if let Some(config) = find_member(text, step, b"config") {
        return within(notes, script, place, config, "flac", Form::Flac);
    }
    if let Some(init) = find_member(text, step, b"init") {
        return Ok(
            data(notes, script, owner, place, init)?
                || transfer(notes, script, owner, place, init)?,
        );
    }
    if let Some(options) = find_member(text, step, b"options") {
        return Ok(
            within(notes, script, place, options, "rect", Form::Rect)?
                || planes(notes, script, place, options)?,
        );
    }
    Ok(false)
}

// The line on a step whose word is missing or none.
fn tell_word(
    notes: &mut Notes<'_>,
    script: &Script<'_>,
    place: Place,
    step: usize,
) -> Result<(), AllocError> {
    match find_member(script.text, step, b"do") {
        Some(at) => {
            begin_at(notes, script, place, at)?;
            notes.say("\"do\" is ")?;
            notes.met(at)?;
        }
        None => {
            begin_at(notes, script, place, step)?;
            notes.say("\"do\" is missing")?;
        }
    }
    notes.say("; one of ")?;
    notes.say(STEP_WORDS)?;
    notes.say(" is wanted")?;
    notes.end()
}

/// What is wrong with the shape of a step.
pub fn step(
    notes: &mut Notes<'_>,
    script: &Script<'_>,
    i: usize,
    j: usize,
    place: Place,
    at: usize,
) -> Result<(), AllocError> {
    if byte_at(script.text, at) != b'{' {
        return tell_no_object(notes, script, place, at, "it");
    }
    let Some(form) = script.form_of(at) else {
        return tell_word(notes, script, place, at);
    };
    let owner = Owner::Step(i, j);
    if !members_of(notes, script, owner, place, at, form)? {
        let _ = deeper(notes, script, owner, place, at, form)?;
    }
    Ok(())
}

/// What is wrong with the shape of a codec or of a caller.
pub fn head(
    notes: &mut Notes<'_>,
    script: &Script<'_>,
    place: Place,
    at: usize,
    form: Form,
) -> Result<(), AllocError> {
    if byte_at(script.text, at) != b'{' {
        return tell_no_object(notes, script, place, at, "it");
    }
    let _ = members_of(notes, script, Owner::Other, place, at, form)?;
    Ok(())
}

// How many of `start`, `done`, `turn` and `reclaim` an item of the order has, and whether it has one with a moment.
fn words_in(text: &[u8], at: usize) -> (usize, bool) {
    let mut count: usize = 0;
    let mut timed = false;
    for rule in rules_of(Form::Item) {
        if rule.is_codec() && find_member(text, at, rule.name().as_bytes()).is_some() {
            count = count.saturating_add(1);
            timed = timed || matches!(rule.name(), "done" | "reclaim");
        }
    }
    (count, timed)
}

/// What is wrong with the shape of an item of the order.
pub fn item(
    notes: &mut Notes<'_>,
    script: &Script<'_>,
    place: Place,
    at: usize,
) -> Result<(), AllocError> {
    let text = script.text;
    if byte_at(text, at) == b'{' {
        let (count, timed) = words_in(text, at);
        if count == 1 {
            if members_of(notes, script, Owner::Other, place, at, Form::Item)? {
                return Ok(());
            }
            if timed && find_member(text, at, b"at").is_none() {
                begin_at(notes, script, place, at)?;
                notes.say("\"at\" is missing; the moment in microseconds is wanted")?;
                return notes.end();
            }
            return Ok(());
        }
        begin_at(notes, script, place, at)?;
        notes.say("it has ")?;
        notes.number(count)?;
        notes.say(" of \"start\", \"done\", \"turn\" and \"reclaim\"; just one is wanted")?;
        return notes.end();
    }
    begin_at(notes, script, place, at)?;
    notes.say("it is ")?;
    notes.met(at)?;
    notes.say(
        "; the name of a caller, or an object with \"start\", \"done\", \"turn\" or \"reclaim\" is wanted",
    )?;
    notes.end()
}

// The most ports.
const MOST_PORTS: usize = 64;

// Too many ports, or the first of them that has no name, or is of no such kind.
fn ports(notes: &mut Notes<'_>, script: &Script<'_>) -> Result<bool, AllocError> {
    let Some(array) = script.ports() else {
        return Ok(false);
    };
    if count_items(script.text, array) > MOST_PORTS {
        tell_items(notes, script, Place::Top, array, "ports", MOST_PORTS)?;
        return Ok(true);
    }
    let mut at = inside(array);
    for _ in 0..script.text.len() {
        let Some(port) = next_start(script.text, at) else {
            break;
        };
        if byte_at(script.text, port) != b'{' {
            tell_no_object(notes, script, Place::Top, port, "a port")?;
            return Ok(true);
        }
        if members_of(notes, script, Owner::Other, Place::Top, port, Form::Port)? {
            return Ok(true);
        }
        at = past_value(script.text, port);
    }
    Ok(false)
}

/// What is wrong at the top, where the callers stand in the order as often as they have steps.
pub fn top(notes: &mut Notes<'_>, script: &Script<'_>) -> Result<bool, AllocError> {
    if byte_at(script.text, script.top) != b'{' {
        tell_no_object(notes, script, Place::Top, script.top, "the script")?;
        return Ok(true);
    }
    let whole = members_of(
        notes,
        script,
        Owner::Other,
        Place::Top,
        script.top,
        Form::Script,
    )?;
    Ok(whole || ports(notes, script)?)
}
