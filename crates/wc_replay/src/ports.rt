// The ports between callers.
ghost use Rattle.std.specs.Prelude.{◌≡◌, ◌<◌, ◌∷◌, ◌++◌, [], None, Some, IfOk, OnOk, OnErr};
ghost use Rattle.std.specs.Prelude.{drop, length, map, option_map, slice_set};
ghost use Rattle.codec_accounts.specs.Owed.{at};
ghost use Rattle.media_variables.specs.Held.{seen};
ghost use Rattle.run_model.specs.Follow.{front_of, posted_as};
ghost use Rattle.wc_replay.specs.Ports.{no_port};

use media_variables::Medium;
use script_types::PortItem;
use std::alloc::Global;
use std::collections::VecDeque;
use std::marker::Model;
use wc_base::{NoMemory, Who};

/// A medium that waits in a port, and the step that posted it.
#[derive(Drop)]
pub(crate) struct Posted {
    pub(crate) poster: Who,
    pub(crate) medium: Medium,
}

impl Model for Posted {
    ghost use Rattle.media_variables.specs.Variables.{Received};
    ghost use Rattle.media_variables.specs.Held.{seen};

    ghost Value = { Received };

    ghost view = { λ p. record { poster = p.poster; medium = seen p.medium } };
}

/// What waits in a port, the oldest first.
#[derive(Drop)]
pub(crate) struct Port {
    waiting: VecDeque<Posted>,
}

impl Model for Port {
    ghost use Rattle.std.specs.Prelude.{List};
    ghost use Rattle.media_variables.specs.Variables.{Received};

    ghost Value = { List Received };

    ghost view = { λ p. p.waiting.items };
}

impl Port {
    pub(crate) fn new(alloc: Global) -> Port
        ensures { result ≡ [] }
    {
        Port {
            waiting: VecDeque::new(alloc),
        }
    }

    /// The oldest medium that waits goes out, if one does.
    fn take(&mut self) -> Option<Posted>
        ensures front { result ≡ front_of self.old }
        ensures rest { self.new ≡ drop 1 self.old }
    {
        self.waiting.pop_front()
    }

    /// A medium goes in, behind those that wait.
    fn put(&mut self, posted: Posted) -> Result<(), NoMemory>
        ensures ok { OnOk result (self.new ≡ self.old ++ posted ∷ []) }
        ensures err { OnErr result (self.new ≡ self.old) }
    {
        self.waiting.reserve(1)?;
        self.waiting.push_back_reserved(posted);
        Ok(())
    }
}

/// The ports of a script, in each of which nothing waits.
pub(crate) fn open_ports(alloc: Global, ports: &[PortItem]) -> Result<Vec<Port>, NoMemory>
    ensures { IfOk result (λ opened. opened.items ≡ map no_port ports.now) }
{
    let opened = ports.iter().map(|_| Port::new(alloc));
    Ok(opened.collect(alloc)?)
}

/// A medium goes into the port with this number, if there is one.
pub(crate) fn put_at(
    ports: &mut Vec<Port>,
    port: u64,
    poster: Who,
    medium: Option<Medium>,
) -> Result<(), NoMemory>
    requires { port < length ports.old.items }
    ensures { OnOk result
        (ports.new.items ≡ posted_as poster port (option_map seen medium) ports.old.items) }
{
    let Some(medium) = medium else {
        return Ok(());
    };
    match ports.get_mut(port as usize) {
        Some(port) => port.put(Posted { poster, medium }),
        None => Ok(()),
    }
}

/// The oldest medium that waits in the port with this number goes out, if one does.
pub(crate) fn take_at(ports: &mut Vec<Port>, port: u64) -> Option<Posted>
    requires { port < length ports.old.items }
    ensures front { result ≡ front_of (at port ports.old.items) }
    ensures rest { ports.new.items
        ≡ slice_set ports.old.items port (drop 1 (at port ports.old.items)) }
{
    match ports.get_mut(port as usize) {
        Some(port) => port.take(),
        None => None,
    }
}
