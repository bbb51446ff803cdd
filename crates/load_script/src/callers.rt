// Callers of a load.
ghost use Rattle.std.specs.Prelude.{◌≡◌, ◌≤◌, ◌*◌, ◌++◌, IfOk, OnOk};
ghost use Rattle.load_script.specs.Draws.{state_after};
ghost use Rattle.load_script.specs.Script.{configures, caller_from, decoder, flush_steps, steps_with};

use crate::Draws;
use crate::chunks::{name_of, push_chunks, push_takes, variable};
use script_types::{CallerItem, CodecItem, Kind, Step, VariableKind, copied};
use std::alloc::Global;
use wc_base::{List, NoMemory, try_push};
use wc_config::{AudioDecoderConfig, Config};

// A step that configures a decoder.
fn configures(alloc: Global, on: u32, codec: &str) -> Result<Step, NoMemory>
    ensures { IfOk result (λ s. s ≡ configures on codec.now) }
{
    Ok(Step::Configure {
        on,
        config: Config::AudioDecoder(AudioDecoderConfig {
            codec: copied(alloc, codec)?,
            rate: 8_000,
            channels: 1,
            description: None,
        }),
    })
}

// Appends a flush, which is the step of this number, and the wait for it.
fn push_flush(alloc: Global, on: u32, number: u32, steps: &mut Vec<Step>) -> Result<(), NoMemory>
    ensures { OnOk result (steps.new.items ≡ steps.old.items ++ flush_steps on number) }
{
    let flush = Step::Flush {
        on,
        bind: name_of(alloc, number)?,
    };
    try_push(steps, flush)?;
    let wait = Step::Await {
        promise: variable(alloc, number, VariableKind::Promise)?,
    };
    try_push(steps, wait)
}

// The steps of a caller with so many chunks.
fn steps_with(
    alloc: Global,
    on: u32,
    codec: &str,
    count: u32,
    draws: &mut Draws,
) -> Result<Vec<Step>, NoMemory>
    requires { count ≤ 5000 }
    ensures steps { IfOk result (λ s. s.items ≡ steps_with on codec.now count draws.old.state) }
    ensures state { OnOk result (draws.new.state ≡ state_after (count * 160) draws.old.state) }
{
    let mut steps = Vec::new(alloc);
    let first = configures(alloc, on, codec)?;
    try_push(&mut steps, first)?;
    push_chunks(alloc, on, count, draws, &mut steps)?;
    push_flush(alloc, on, 2 * count + 1, &mut steps)?;
    push_takes(alloc, on, count, 2 * count + 3, &mut steps)?;
    Ok(steps)
}

/// The caller of this name, of the decoder with this number, with so many chunks.
pub(crate) fn caller(
    alloc: Global,
    on: u32,
    name: &str,
    codec: &str,
    count: u32,
    draws: &mut Draws,
) -> Result<CallerItem, NoMemory>
    requires { count ≤ 5000 }
    ensures caller { IfOk result
        (λ c. c ≡ caller_from on name.now codec.now count draws.old.state) }
    ensures state { OnOk result (draws.new.state ≡ state_after (count * 160) draws.old.state) }
{
    Ok(CallerItem {
        name: copied(alloc, name)?,
        steps: List::of(steps_with(alloc, on, codec, count, draws)?),
    })
}

/// The decoder of this name.
pub(crate) fn decoder(alloc: Global, name: &str) -> Result<CodecItem, NoMemory>
    ensures { IfOk result (λ c. c ≡ decoder name.now) }
{
    Ok(CodecItem {
        name: copied(alloc, name)?,
        kind: Kind::AudioDecoder,
        saturation: 4,
    })
}
