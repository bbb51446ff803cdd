// The ports that steps name.
ghost use Rattle.std.specs.Prelude.{◌≡◌, ◌≢◌, ◌≤◌, ◌++◌, ◌∷◌, [], IfOk, OnOk, OnErr, length, Some, None, position};
ghost use Rattle.json_data.specs.View.{view};
ghost use Rattle.script_steps.specs.Places.{IsTable};
ghost use Rattle.script_steps.specs.Ports.{has_name, port_named_in, found_at, post_of, receive_of};
ghost use Rattle.script_steps.specs.Ports as spec;
ghost use Rattle.script_types.specs.Reading.{Gives};

use crate::lookups::{find_variable, read_unused, variable_of};
use crate::members::{as_name, name_member, text_member};
use crate::places::{place_of, put};
use crate::references::Needed;
use crate::{Stop, Variables, Wrong, copied};
use json_data::Value;
use script_types::{MediaStep, PortItem, PortKind, port_named, posted_at};
use std::alloc::Global;
use std::collections::BTreeMap;
use std::marker::Model;
use wc_base::NoMemory;

/// A port, by its number in the script, and what it is of.
#[derive(Clone, Copy, Debug, PartialEq, Eq)]
pub struct FoundPort {
    pub number: u64,
    pub of: PortKind,
}

/// The ports of a script, each at its place; none where no port is spelled.
#[derive(Drop)]
pub struct Ports {
    alloc: Global,
    items: Vec<Option<PortItem>>,
    // the first port of a name
    places: BTreeMap<String, usize>,
}

impl Model for Ports {
    ghost use Rattle.std.specs.Prelude.{List, Option, position};
    ghost use Rattle.script_types.specs.declared.script.PortItem.{PortItem};
    ghost use Rattle.script_steps.specs.Ports.{has_name};
    ghost use Rattle.script_steps.specs.Places.{IsTable};

    ghost Value = { List (Option PortItem) };

    ghost view = { λ p. p.items.items };

    ghost invariant = { λ p. IsTable p.places (λ name. position (λ x. has_name name x) p.items.items) };
}

/// The port that a value spells, if it spells one: an object with a name, and what the port is of.
pub fn read_port(alloc: Global, value: &Value<'_>) -> Result<Option<PortItem>, NoMemory>
    ensures { IfOk result (λ p. p ≡ spec.port_of (view value.now)) }
{
    let name = text_member(value, "name").and_then(as_name);
    let of = text_member(value, "of").and_then(|of| port_named(of));
    match (name, of) {
        (Some(name), Some(of)) => {
            let name = copied(alloc, name)?;
            Ok(Some(PortItem { name, of }))
        }
        _ => Ok(None),
    }
}

fn found_of(number: u64, item: &Option<PortItem>) -> Option<FoundPort>
    ensures { result ≡ spec.found_of number item.now }
{
    match item {
        Some(port) => Some(FoundPort {
            number,
            of: port.of,
        }),
        None => None,
    }
}

// Notes a port that stands behind these, by its name.
#[tactic(auto, using(crate::proofs::PortTables::port_none))]
fn note(
    alloc: Global,
    places: &mut BTreeMap<String, usize>,
    items: &[Option<PortItem>],
    item: &Option<PortItem>,
) -> Result<(), NoMemory>
    requires { IsTable places.old (λ q. position (λ x. has_name q x) items.now) }
    ensures ok { OnOk result
        (IsTable places.new (λ q. position (λ x. has_name q x) (items.now ++ item.now ∷ []))) }
    ensures err { OnErr result
        (IsTable places.new (λ q. position (λ x. has_name q x) items.now)) }
{
    let name = match item {
        None => return Ok(()),
        Some(port) => port.name.as_str(),
    };
    match place_of(places, name) {
        Some(_) => Ok(()),
        None => put(alloc, places, name, items.len()),
    }
}

impl Ports {
    /// No ports yet.
    pub fn new(alloc: Global) -> Ports
        ensures { result ≡ [] }
    {
        Ports {
            alloc,
            items: Vec::new(alloc),
            places: BTreeMap::new(alloc),
        }
    }

    /// Adds what stands at the next place. Want of memory leaves the ports as they were.
    pub fn push(&mut self, item: Option<PortItem>) -> Result<(), NoMemory>
        ensures ok { OnOk result (self.new ≡ self.old ++ item ∷ []) }
        ensures err { OnErr result (self.new ≡ self.old) }
    {
        self.items.reserve(1)?;
        note(self.alloc, &mut self.places, &self.items, &item)?;
        self.items.push_reserved(item);
        Ok(())
    }

    /// The first port of this name.
    pub fn find(&self, name: &str) -> Option<FoundPort>
        ensures { result ≡ port_named_in self.now name.now }
    {
        let number = place_of(&self.places, name)?;
        let item = self.items.get(number)?;
        found_of(number as u64, item)
    }
}

// What is posted at a port that was found; where none was, any medium.
fn posted_by(port: Option<FoundPort>) -> Needed
    ensures { result ≡ spec.posted_by port }
{
    match port {
        Some(port) => posted_by_kind(port.of),
        None => Needed::Medium,
    }
}

fn posted_by_kind(of: PortKind) -> Needed
    ensures { result ≡ spec.posted_by_kind of }
{
    match of {
        PortKind::Audio => Needed::Audio,
        PortKind::Frame => Needed::Frame,
    }
}

/// Reads a step that posts a medium.
pub fn read_post(
    alloc: Global,
    ports: &Ports,
    before: &Variables,
    value: &Value<'_>,
) -> Result<MediaStep, Stop<Wrong>>
    requires { length before.now ≤ 100000 }
    ensures { Gives result (post_of ports.now before.now (view value.now)) }
{
    let to = name_member(value, "to")?;
    let name = name_member(value, "data")?;
    let port = ports.find(to);
    let variable = find_variable(before, name, posted_by(port))?;
    let (Some(port), Some(found)) = (port, variable) else {
        return Err(Stop::Fault(Wrong::UnknownName));
    };
    Ok(MediaStep::Post {
        to: port.number,
        content: variable_of(alloc, name, found)?,
    })
}

/// Reads a step that receives a medium.
pub fn read_receive(
    alloc: Global,
    ports: &Ports,
    before: &Variables,
    value: &Value<'_>,
) -> Result<MediaStep, Stop<Wrong>>
    ensures { Gives result (receive_of ports.now before.now (view value.now)) }
{
    let from = name_member(value, "from")?;
    let name = name_member(value, "as")?;
    let bind = read_unused(alloc, before, name)?;
    match ports.find(from) {
        Some(port) => Ok(MediaStep::Receive {
            from: port.number,
            bind,
            kind: posted_at(port.of),
        }),
        None => Err(Stop::Fault(Wrong::UnknownName)),
    }
}
