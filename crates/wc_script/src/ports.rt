// Reads the ports of a script.
ghost use Rattle.std.specs.Prelude.{◌≡◌, ◌≢◌, ◌≤◌, [], IfOk, IfErr, Option, option_map, length};
ghost use Rattle.json_data.specs.View.{items_view};
ghost use Rattle.script_types.specs.Reading.{Gives};
ghost use Rattle.wc_script.specs.Faults as faults;
ghost use Rattle.wc_script.specs.Ports.{items_of, named_ports, few_ports, ports_of};
ghost use Rattle.wc_script.specs.Ports as spec;
ghost use Rattle.script_types.specs.Sound as sound;
ghost use Rattle.script_steps.specs.Members.{needed};

use crate::faults::fault_at;
use json_data::Value;
use script_steps::{Ports, is_caller_name, is_codec_name, read_port};
use script_types::{CallerItem, CodecItem, Fault, Place, PortItem, Stop, Wrong};
use std::alloc::Global;
use wc_base::{List, NoMemory};

const MOST_PORTS: usize = 64;

/// The ports that steps may name.
pub fn read_named_ports(alloc: Global, items: Option<&[Value<'_>]>) -> Result<Ports, NoMemory>
    ensures { IfOk result
        (λ p. p ≡ named_ports (option_map (λ v. items_view v.now) items.entry)) }
{
    let mut ports = Ports::new(alloc);
    match items {
        None => Ok(ports),
        Some(items) => {
            for value in items {
                let port = read_port(alloc, value)?;
                ports.push(port)?;
            }
            Ok(ports)
        }
    }
}

// All ports; `Shape` where a place has none.
fn read_all(alloc: Global, items: &[Value<'_>]) -> Result<List<PortItem>, Stop<Wrong>>
    ensures { Gives result (needed (spec.all_ports (items_of (items_view items.now)))) }
{
    let mut ports = Vec::new(alloc);
    for value in items {
        match read_port(alloc, value)? {
            Some(port) => ports.push(port)?,
            None => return Err(Stop::Fault(Wrong::Shape)),
        }
    }
    Ok(List::of(ports))
}

#[tactic(auto, using(crate::proofs::PortLaws::length_of_items))]
fn read_few(alloc: Global, items: &[Value<'_>]) -> Result<List<PortItem>, Stop<Wrong>>
    ensures { Gives result (needed (few_ports (items_of (items_view items.now)))) }
{
    if items.len() > MOST_PORTS {
        return Err(Stop::Fault(Wrong::Shape));
    }
    read_all(alloc, items)
}

fn is_port_name(ports: &[PortItem], name: &str) -> bool
    ensures { result ≡ sound.is_port_name ports.now name.now }
{
    ports.iter().any(|port| port.name.as_str() == name)
}

fn is_free_port(
    codecs: &[CodecItem],
    callers: &[CallerItem],
    before: &[PortItem],
    port: &PortItem,
) -> bool
    ensures { result ≡ spec.is_free_port codecs.now callers.now before.now port.now }
{
    let name = port.name.as_str();
    !(is_codec_name(codecs, name) || is_caller_name(callers, name) || is_port_name(before, name))
}

fn are_free_ports(codecs: &[CodecItem], callers: &[CallerItem], ports: &[PortItem]) -> bool
    ensures { result ≡ spec.are_free_ports codecs.now callers.now [] ports.now }
{
    for (i, port) in ports.iter().enumerate() {
        if !is_free_port(codecs, callers, &ports[..i], port) {
            return false;
        }
    }
    true
}

// The ports, which may be absent.
fn read_ports(
    alloc: Global,
    codecs: &[CodecItem],
    callers: &[CallerItem],
    there: bool,
    items: Option<&[Value<'_>]>,
) -> Result<List<PortItem>, Stop<Wrong>>
    ensures { Gives result
        (ports_of codecs.now callers.now there (option_map (λ v. items_view v.now) items.entry)) }
{
    match items {
        Some(items) => {
            let ports = read_few(alloc, items)?;
            if are_free_ports(codecs, callers, ports.as_slice()) {
                Ok(ports)
            } else {
                Err(Stop::Fault(Wrong::Twice))
            }
        }
        None if there => Err(Stop::Fault(Wrong::Shape)),
        None => Ok(List::empty(alloc)),
    }
}

/// The ports, which may be absent, or what is wrong with them, at the top.
pub fn read_ports_at(
    alloc: Global,
    codecs: &[CodecItem],
    callers: &[CallerItem],
    there: bool,
    items: Option<&[Value<'_>]>,
) -> Result<List<PortItem>, Stop<Fault>>
    ensures { Gives result
        (faults.at Place.Top
        (ports_of codecs.now callers.now there (option_map (λ v. items_view v.now) items.entry))) }
{
    match read_ports(alloc, codecs, callers, there, items) {
        Ok(ports) => Ok(ports),
        Err(stop) => Err(fault_at(Place::Top, stop)),
    }
}
