// Reads inits that name array buffers.
ghost use Rattle.std.specs.Prelude.{◌≡◌, ◌≢◌, ◌≤◌, IfOk, IfErr, [], Result, length, codes, option_and_then, option_map};
ghost use Rattle.json_data.specs.View.{view, items_view};
ghost use Rattle.serde_json.specs.Find.{get, as_str};
ghost use Rattle.script_steps.specs.Members.{needed, checked_name};
ghost use Rattle.script_types.specs.Reading.{Gives};
ghost use Rattle.script_steps.specs.Media.{data_of_init, data_of_step};
ghost use Rattle.script_steps.specs.Buffers.{buffer_if, data_words, listed_of, transfer_words, known_buffer, known_data, known_buffers, buffered_of};
ghost use Rattle.script_steps.specs.Buffers as spec;

use crate::lookups::{find_variable, read_unused, variable_of};
use crate::media::read_init_shape;
use crate::members::{as_name, has, name_member, object_member};
use crate::references::Needed;
use crate::{Stop, Variables, Wrong, copied};
use bytes::Bytes;
use json_data::{Value, as_items, as_text, is_object, member};
use script_types::{BufferedInit, FoundVariable, InitData, InitShape, Variable, VariableKind};
use std::alloc::Global;
use wc_base::{List, Text};

const MOST_TRANSFER: usize = 16;

/// A buffer that an init names, before names have to name something.
#[derive(Debug, PartialEq, Drop)]
pub struct BufferWords {
    pub name: Text,
    pub found: Option<FoundVariable>,
}

/// The data of an init that names buffers, before names have to name something.
#[derive(Debug, PartialEq, Drop)]
pub enum DataWords {
    Hex(Bytes),
    Buffer(BufferWords),
}

fn names_buffers(init: &Value<'_>) -> bool
    ensures { result ≡ spec.names_buffers (view init.now) }
{
    has(init, "transfer") || member(init, "data").is_some_and(|data| is_object(data))
}

/// Whether the step has an init that names buffers.
pub fn has_buffers(value: &Value<'_>) -> bool
    ensures { result ≡ spec.has_buffers (view value.now) }
{
    match member(value, "init") {
        Some(init) => names_buffers(init),
        None => false,
    }
}

// A buffer by its name. `Shape` where something else has the name.
fn find_buffer(alloc: Global, before: &Variables, name: &str) -> Result<BufferWords, Stop<Wrong>>
    requires { length before.now ≤ 100000 }
    ensures { Gives result (buffer_if before.now name.now) }
{
    let found = find_variable(before, name, Needed::Buffer)?;
    Ok(BufferWords {
        name: copied(alloc, name)?,
        found,
    })
}

// The data of an init, of which the bytes were read before where it is hex text.
fn read_data(
    alloc: Global,
    before: &Variables,
    init: &Value<'_>,
    content: Option<Bytes>,
) -> Result<Option<DataWords>, Stop<Wrong>>
    requires steps { length before.now ≤ 100000 }
    requires content { content ≡ data_of_init (view init.now) }
    ensures { Gives result (data_words before.now (get (codes "data") (view init.now))) }
{
    if let Some(bytes) = content {
        return Ok(Some(DataWords::Hex(bytes)));
    }
    match member(init, "data") {
        None => Ok(None),
        Some(data) => {
            let buffer = find_buffer(alloc, before, name_member(data, "buffer")?)?;
            Ok(Some(DataWords::Buffer(buffer)))
        }
    }
}

// The name that stands in a list.
fn listed_name<'v>(value: &'v Value<'_>) -> Result<&'v str, Stop<Wrong>>
    ensures ok { IfOk result
        (λ n. needed (option_and_then checked_name (as_str (view value.now))) ≡ Result.Ok n.now) }
    ensures err { IfErr result
        (λ e. needed (option_and_then checked_name (as_str (view value.now))) ≡ Result.Err e) }
{
    match as_text(value).and_then(as_name) {
        Some(name) => Ok(name),
        None => Err(Stop::Fault(Wrong::Shape)),
    }
}

fn read_listed(
    alloc: Global,
    before: &Variables,
    items: &[Value<'_>],
) -> Result<List<BufferWords>, Stop<Wrong>>
    requires { length before.now ≤ 100000 }
    ensures { Gives result (listed_of before.now [] (items_view items.now)) }
{
    let mut listed = Vec::new(alloc);
    for value in items {
        let name = listed_name(value)?;
        let buffer = find_buffer(alloc, before, name)?;
        listed.push(buffer)?;
    }
    Ok(List::of(listed))
}

#[tactic(auto, using(crate::specs::Counts::count_of_view))]
// The list of an init, which may be absent. `Shape` where it is longer than a list may be.
fn read_transfer(
    alloc: Global,
    before: &Variables,
    list: Option<&Value<'_>>,
) -> Result<List<BufferWords>, Stop<Wrong>>
    requires { length before.now ≤ 100000 }
    ensures { Gives result (transfer_words before.now (option_map (λ v. view v.now) list.entry)) }
{
    let Some(list) = list else {
        return Ok(List::empty(alloc));
    };
    match as_items(list) {
        None => Err(Stop::Fault(Wrong::Shape)),
        Some(items) => {
            if items.len() > MOST_TRANSFER {
                return Err(Stop::Fault(Wrong::Shape));
            }
            read_listed(alloc, before, items)
        }
    }
}

fn know_buffer(alloc: Global, words: &BufferWords) -> Result<Variable, Stop<Wrong>>
    ensures { Gives result (known_buffer words.now) }
{
    match words.found {
        Some(found) => Ok(variable_of(alloc, words.name.as_str(), found)?),
        None => Err(Stop::Fault(Wrong::UnknownName)),
    }
}

fn know_data(alloc: Global, words: Option<DataWords>) -> Result<Option<InitData>, Stop<Wrong>>
    ensures { Gives result (known_data words) }
{
    match words {
        None => Ok(None),
        Some(DataWords::Hex(bytes)) => Ok(Some(InitData::Hex(bytes))),
        Some(DataWords::Buffer(words)) => {
            let buffer = know_buffer(alloc, &words)?;
            Ok(Some(InitData::Buffer(buffer)))
        }
    }
}

fn know_buffers(alloc: Global, words: &[BufferWords]) -> Result<List<Variable>, Stop<Wrong>>
    ensures { Gives result (known_buffers [] words.now) }
{
    let mut known = Vec::new(alloc);
    for buffer in words {
        let variable = know_buffer(alloc, buffer)?;
        known.push(variable)?;
    }
    Ok(List::of(known))
}

fn buffered_with(
    shape: Option<InitShape>,
    content: Option<InitData>,
    transfer: List<Variable>,
) -> Option<BufferedInit>
    ensures { result ≡ spec.buffered_with shape content transfer }
{
    match (shape, content) {
        (Some(shape), Some(content)) => Some(BufferedInit {
            shape,
            content,
            transfer,
        }),
        _ => None,
    }
}

/// Reads an init that names buffers, of what is of this kind, and the new name of its step; the bytes of its data were read
/// before where they are hex text. No init where a rule of WebIDL is broken.
pub fn read_buffered(
    alloc: Global,
    kind: VariableKind,
    before: &Variables,
    value: &Value<'_>,
    content: Option<Bytes>,
) -> Result<(Text, Option<BufferedInit>), Stop<Wrong>>
    requires steps { length before.now ≤ 100000 }
    requires content { content ≡ data_of_step (view value.now) }
    ensures { Gives result (buffered_of kind before.now (view value.now)) }
{
    let name = name_member(value, "as")?;
    let init = object_member(value, "init")?;
    let shape = read_init_shape(kind, init)?;
    let data = read_data(alloc, before, init, content)?;
    let listed = read_transfer(alloc, before, member(init, "transfer"))?;
    let bind = read_unused(alloc, before, name)?;
    let content = know_data(alloc, data)?;
    let transfer = know_buffers(alloc, listed.as_slice())?;
    Ok((bind, buffered_with(shape, content, transfer)))
}
