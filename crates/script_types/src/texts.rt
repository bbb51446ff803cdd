// Names, copied into faults and scripts.
ghost use Rattle.std.specs.Prelude.{◌≡◌, ◌⊎◌, IfOk};

use crate::{Fault, Stop};
use std::alloc::Global;
use wc_base::{NoMemory, Text};

/// A name or another text, copied.
pub fn copied(alloc: Global, text: &str) -> Result<Text, NoMemory>
    ensures { IfOk result (λ t. t ≡ text.now) }
{
    match String::from_str(alloc, text) {
        Ok(text) => Ok(Text::of(text)),
        Err(_) => Err(NoMemory),
    }
}

/// Why there is no value, where the file of this name was not read.
pub fn unread(alloc: Global, name: &str) -> Stop<Fault>
    ensures { result ≡ Stop.NoMemory ⊎ result ≡ Stop.Fault (Fault.Unread name.now) }
{
    match copied(alloc, name) {
        Ok(name) => Stop::Fault(Fault::Unread { name }),
        Err(_) => Stop::NoMemory,
    }
}
