// Names that were given before, and names that name nothing.

use crate::notes::Notes;
use crate::places::{begin_at, say_step_word};
use crate::rules::{Form, MOST_TRANSFER, Rule, TRANSFER, Wanted, rules_of};
use crate::scan::{byte_at, find_member, inside, next_item, string_at};
use crate::script::Script;
use script_types::Place;
use std::alloc::AllocError;

// The most names that are listed.
const MOST_LISTED: usize = 12;

// The names of the codecs, of the callers, or of the ports.
fn list(
    notes: &mut Notes<'_>,
    script: &Script<'_>,
    array: Option<usize>,
) -> Result<(), AllocError> {
    let Some(array) = array else {
        return Ok(());
    };
    let mut at = inside(array);
    for n in 0..MOST_LISTED {
        let Some(item) = next_item(script.text, at) else {
            break;
        };
        if let Some(name) = script.text_of(item.value, b"name") {
            notes.say(if n == 0 { " " } else { ", " })?;
            notes.bytes(name)?;
        }
        at = item.next;
    }
    Ok(())
}

fn no_codec(
    notes: &mut Notes<'_>,
    script: &Script<'_>,
    place: Place,
    at: usize,
    member: &str,
) -> Result<(), AllocError> {
    begin_at(notes, script, place, at)?;
    notes.member(member)?;
    notes.say(" is ")?;
    notes.met(at)?;
    notes.say(", and no codec has this name; the codecs are")?;
    list(notes, script, script.codecs())?;
    notes.end()
}

fn no_port(
    notes: &mut Notes<'_>,
    script: &Script<'_>,
    place: Place,
    at: usize,
    member: &str,
) -> Result<(), AllocError> {
    begin_at(notes, script, place, at)?;
    notes.member(member)?;
    notes.say(" is ")?;
    notes.met(at)?;
    match script.ports() {
        Some(ports) => {
            notes.say(", and no port has this name; the ports are")?;
            list(notes, script, Some(ports))?;
        }
        None => notes.say(", and the script has no \"ports\"")?,
    }
    notes.end()
}

fn no_variable(
    notes: &mut Notes<'_>,
    script: &Script<'_>,
    place: Place,
    at: usize,
    member: &str,
) -> Result<(), AllocError> {
    begin_at(notes, script, place, at)?;
    notes.member(member)?;
    notes.say(" is ")?;
    notes.met(at)?;
    notes.say(", and no earlier step of this caller names it by \"as\"")?;
    notes.end()
}

// The name that stands at a member of a step, where it names nothing; whether it does.
fn unknown_member(
    notes: &mut Notes<'_>,
    script: &Script<'_>,
    i: usize,
    j: usize,
    place: Place,
    at: usize,
    rule: Rule,
) -> Result<bool, AllocError> {
    let Some(name) = string_at(script.text, at) else {
        return Ok(false);
    };
    match rule.wanted() {
        Wanted::Codec | Wanted::Decoder | Wanted::Encoder => {
            if script.find_codec(name, 64).is_none() {
                no_codec(notes, script, place, at, rule.name())?;
                return Ok(true);
            }
        }
        Wanted::Port => {
            if script.find_port(name).is_none() {
                no_port(notes, script, place, at, rule.name())?;
                return Ok(true);
            }
        }
        Wanted::Chunk
        | Wanted::Audio
        | Wanted::Frame
        | Wanted::Medium
        | Wanted::Copied
        | Wanted::Promise
        | Wanted::Buffer
        | Wanted::Sized => {
            if script.find_variable(i, name, j).is_none() {
                no_variable(notes, script, place, at, rule.name())?;
                return Ok(true);
            }
        }
        _ => {}
    }
    Ok(false)
}

// The first member of an object of a step that names nothing; whether there is one.
fn unknown_in_object(
    notes: &mut Notes<'_>,
    script: &Script<'_>,
    i: usize,
    j: usize,
    place: Place,
    object: usize,
    form: Form,
) -> Result<bool, AllocError> {
    for rule in rules_of(form) {
        let Some(at) = find_member(script.text, object, rule.name().as_bytes()) else {
            continue;
        };
        if unknown_member(notes, script, i, j, place, at, *rule)? {
            return Ok(true);
        }
    }
    Ok(false)
}

// The first name of a transfer list that names nothing.
fn unknown_in_list(
    notes: &mut Notes<'_>,
    script: &Script<'_>,
    i: usize,
    j: usize,
    place: Place,
    list: usize,
) -> Result<(), AllocError> {
    let mut at = inside(list);
    for _ in 0..MOST_TRANSFER {
        let Some(item) = next_item(script.text, at) else {
            break;
        };
        if unknown_member(notes, script, i, j, place, item.value, TRANSFER)? {
            break;
        }
        at = item.next;
    }
    Ok(())
}

// The first name of an init that names nothing: that of its data, or one of its transfer list.
fn unknown_in_init(
    notes: &mut Notes<'_>,
    script: &Script<'_>,
    i: usize,
    j: usize,
    place: Place,
    init: usize,
) -> Result<(), AllocError> {
    if let Some(data) = find_member(script.text, init, b"data") {
        if unknown_in_object(notes, script, i, j, place, data, Form::Data)? {
            return Ok(());
        }
    }
    match find_member(script.text, init, b"transfer") {
        Some(list) => unknown_in_list(notes, script, i, j, place, list),
        None => Ok(()),
    }
}

/// The name in a step that names nothing.
pub fn unknown_in_step(
    notes: &mut Notes<'_>,
    script: &Script<'_>,
    i: usize,
    j: usize,
    place: Place,
    step: usize,
) -> Result<(), AllocError> {
    let Some(form) = script.form_of(step) else {
        return Ok(());
    };
    if unknown_in_object(notes, script, i, j, place, step, form)? {
        return Ok(());
    }
    match find_member(script.text, step, b"init") {
        Some(init) => unknown_in_init(notes, script, i, j, place, init),
        None => Ok(()),
    }
}

/// The name in an item of the order that names nothing.
pub fn unknown_in_item(
    notes: &mut Notes<'_>,
    script: &Script<'_>,
    place: Place,
    item: usize,
) -> Result<(), AllocError> {
    let text = script.text;
    if byte_at(text, item) == b'"' {
        begin_at(notes, script, place, item)?;
        notes.say("it is ")?;
        notes.met(item)?;
        notes.say(", and no caller has this name; the callers are")?;
        list(notes, script, script.callers())?;
        return notes.end();
    }
    for rule in rules_of(Form::Item) {
        let found = find_member(text, item, rule.name().as_bytes());
        if let (true, Some(at)) = (rule.is_codec(), found) {
            return no_codec(notes, script, place, at, rule.name());
        }
    }
    Ok(())
}

/// The name of a step that an earlier one gave.
pub fn twice_in_step(
    notes: &mut Notes<'_>,
    script: &Script<'_>,
    i: usize,
    j: usize,
    place: Place,
    step: usize,
) -> Result<(), AllocError> {
    let Some(at) = find_member(script.text, step, b"as") else {
        return Ok(());
    };
    let Some(name) = string_at(script.text, at) else {
        return Ok(());
    };
    let Some((n, earlier)) = script.find_variable(i, name, j) else {
        return Ok(());
    };
    begin_at(notes, script, place, at)?;
    notes.say("\"as\" is ")?;
    notes.met(at)?;
    notes.say(", which step ")?;
    notes.number(n)?;
    notes.say(" names already, in ")?;
    say_step_word(notes, script, earlier)?;
    notes.say("; a new name is wanted")?;
    notes.end()
}

// What has a name, among the codecs, and the callers and ports that stand before.
fn say_whose(
    notes: &mut Notes<'_>,
    script: &Script<'_>,
    object: usize,
    name: &[u8],
) -> Result<(), AllocError> {
    match script.find_codec(name, 64) {
        Some((n, codec)) if codec != object => {
            notes.say(", as that of codec ")?;
            return notes.number(n);
        }
        _ => {}
    }
    match script.find_caller(name, 16) {
        Some((n, caller)) if caller != object => {
            notes.say(", as that of caller ")?;
            return notes.number(n);
        }
        _ => {}
    }
    match script.find_port(name) {
        Some((n, port)) if port != object => {
            notes.say(", as that of port ")?;
            notes.number(n)
        }
        _ => Ok(()),
    }
}

/// The name of a codec, a caller or a port that was given before.
pub fn twice_in_head(
    notes: &mut Notes<'_>,
    script: &Script<'_>,
    place: Place,
    object: usize,
) -> Result<(), AllocError> {
    let Some(at) = find_member(script.text, object, b"name") else {
        return Ok(());
    };
    let Some(name) = string_at(script.text, at) else {
        return Ok(());
    };
    begin_at(notes, script, place, at)?;
    notes.say("\"name\" is ")?;
    notes.met(at)?;
    say_whose(notes, script, object, name)?;
    notes.say("; codecs, callers and ports all have names of their own")?;
    notes.end()
}

// Whether a codec, a caller or an earlier port has the name of this port.
fn is_taken(script: &Script<'_>, port: usize) -> bool {
    let Some(name) = script.text_of(port, b"name") else {
        return false;
    };
    if script.find_codec(name, 64).is_some() || script.find_caller(name, 16).is_some() {
        return true;
    }
    match script.find_port(name) {
        Some((_, first)) => first != port,
        None => false,
    }
}

/// The first name of a port that was given before.
pub fn twice_in_ports(notes: &mut Notes<'_>, script: &Script<'_>) -> Result<(), AllocError> {
    let Some(array) = script.ports() else {
        return Ok(());
    };
    let mut at = inside(array);
    for _ in 0..64 {
        let Some(port) = next_item(script.text, at) else {
            break;
        };
        if is_taken(script, port.value) {
            return twice_in_head(notes, script, Place::Top, port.value);
        }
        at = port.next;
    }
    Ok(())
}
