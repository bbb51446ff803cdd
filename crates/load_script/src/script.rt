// The script of a load.
ghost use Rattle.std.specs.Prelude.{◌≡◌, ◌≤◌, IfOk, []};
ghost use Rattle.load_script.specs.Script.{decoders, callers, load_script};

use crate::Draws;
use crate::callers::{caller, decoder};
use script_types::{CallerItem, CodecItem, PortItem, Script, ScriptData};
use std::alloc::Global;
use wc_base::{List, NoMemory, Text, try_push};

fn decoders(alloc: Global) -> Result<Vec<CodecItem>, NoMemory>
    ensures { IfOk result (λ c. c.items ≡ decoders) }
{
    let mut decoders = Vec::with_capacity(alloc, 4)?;
    try_push(&mut decoders, decoder(alloc, "d0")?)?;
    try_push(&mut decoders, decoder(alloc, "d1")?)?;
    try_push(&mut decoders, decoder(alloc, "d2")?)?;
    try_push(&mut decoders, decoder(alloc, "d3")?)?;
    Ok(decoders)
}

// The callers, one after the other.
fn callers(alloc: Global, start: u64, count: u32) -> Result<Vec<CallerItem>, NoMemory>
    requires { count ≤ 5000 }
    ensures { IfOk result (λ c. c.items ≡ callers start count) }
{
    let mut draws = Draws { state: start };
    let mut callers = Vec::with_capacity(alloc, 4)?;
    let first = caller(alloc, 0, "c0", "ulaw", count, &mut draws)?;
    try_push(&mut callers, first)?;
    let second = caller(alloc, 1, "c1", "alaw", count, &mut draws)?;
    try_push(&mut callers, second)?;
    let third = caller(alloc, 2, "c2", "pcm-s16", count, &mut draws)?;
    try_push(&mut callers, third)?;
    let fourth = caller(alloc, 3, "c3", "pcm-u8", count, &mut draws)?;
    try_push(&mut callers, fourth)?;
    Ok(callers)
}

/// The script of the load that begins with this number, with so many chunks for each of four callers: at most 5,000.
///
/// Each caller has a decoder of its own: of mu-law, A-law, PCM of 16 bits and of 8 bits, at 8,000 frames a second. It configures
/// it, makes and decodes chunks of 160 drawn bytes, flushes, awaits the flush, and takes the outputs. The script takes nothing from
/// chunk files, has no ports, and has no order.
#[tactic(auto, using(crate::proofs::Whole::load_is_sound))]
pub fn load_script(alloc: Global, start: u64, count: u32) -> Result<Script, NoMemory>
    requires { count ≤ 5000 }
    ensures script { IfOk result (λ s. s ≡ load_script start count) }
    ensures files { IfOk result (λ s. s.chunk_files ≡ []) }
{
    let codecs = decoders(alloc)?;
    let callers = callers(alloc, start, count)?;
    Ok(Script::of(ScriptData {
        codecs: List::of(codecs),
        callers: List::of(callers),
        order: None,
        chunk_files: List::<Text>::empty(alloc),
        ports: List::<PortItem>::empty(alloc),
        inline: 640 * u64::from(count),
    }))
}
