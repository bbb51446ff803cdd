// Steps that make and decode chunks, and that take outputs.
ghost use Rattle.std.specs.Prelude.{◌≡◌, ◌≤◌, ◌<◌, ◌+◌, ◌*◌, ◌++◌, IfOk, OnOk};
ghost use Rattle.load_script.specs.Draws.{state_after};
ghost use Rattle.load_script.specs.Script.{name_of, variable, makes, decodes, chunk_steps, take_steps};

use crate::Draws;
use script_types::{ChunkInit, ChunkSource, MediaStep, Step, Variable, VariableKind};
use std::alloc::Global;
use wc_base::{NoMemory, Text, try_push};

// The name of the variable that the step of this number defines.
pub(crate) fn name_of(alloc: Global, number: u32) -> Result<Text, NoMemory>
    ensures { IfOk result (λ t. t ≡ name_of number) }
{
    Ok(Text::of(format!(in alloc; "v{number}")?))
}

// The variable that the step of this number defines.
pub(crate) fn variable(alloc: Global, number: u32, kind: VariableKind) -> Result<Variable, NoMemory>
    ensures { IfOk result (λ v. v ≡ variable number kind) }
{
    Ok(Variable {
        name: name_of(alloc, number)?,
        step: number,
        kind,
    })
}

// The number of the step that makes the chunk of this number.
fn maker(chunk: u32) -> u32
    requires { chunk ≤ 5000 }
    ensures { result ≡ 2 * chunk + 1 }
{
    2 * chunk + 1
}

// A step that makes a chunk of drawn bytes.
fn makes(alloc: Global, chunk: u32, draws: &mut Draws) -> Result<Step, NoMemory>
    requires { chunk ≤ 5000 }
    ensures step { IfOk result (λ s. s ≡ makes chunk draws.old.state) }
    ensures state { OnOk result (draws.new.state ≡ state_after 160 draws.old.state) }
{
    let content = draws.bytes(alloc, 160)?;
    Ok(Step::Chunk {
        bind: name_of(alloc, maker(chunk))?,
        source: ChunkSource::Init(Some(ChunkInit {
            key: true,
            timestamp: 20_000 * i64::from(chunk),
            duration: None,
            content,
        })),
    })
}

fn decodes(alloc: Global, on: u32, chunk: u32) -> Result<Step, NoMemory>
    requires { chunk ≤ 5000 }
    ensures { IfOk result (λ s. s ≡ decodes on chunk) }
{
    Ok(Step::Decode {
        on,
        chunk: variable(alloc, maker(chunk), VariableKind::Chunk)?,
    })
}

// Appends the steps that make and decode so many chunks.
#[tactic(auto, using(crate::proofs::Loops::all_chunks, crate::proofs::Loops::all_draws))]
pub(crate) fn push_chunks(
    alloc: Global,
    on: u32,
    count: u32,
    draws: &mut Draws,
    steps: &mut Vec<Step>,
) -> Result<(), NoMemory>
    requires { count ≤ 5000 }
    ensures steps { OnOk result
        (steps.new.items ≡ steps.old.items ++ chunk_steps on count 0 draws.old.state) }
    ensures state { OnOk result (draws.new.state ≡ state_after (count * 160) draws.old.state) }
{
    for chunk in 0..count {
        let step = makes(alloc, chunk, draws)?;
        try_push(steps, step)?;
        let step = decodes(alloc, on, chunk)?;
        try_push(steps, step)?;
    }
    Ok(())
}

// Appends the steps that take so many outputs; the first of them has this number.
#[tactic(auto, using(crate::proofs::Loops::all_takes))]
pub(crate) fn push_takes(
    alloc: Global,
    on: u32,
    count: u32,
    first: u32,
    steps: &mut Vec<Step>,
) -> Result<(), NoMemory>
    requires many { count ≤ 5000 }
    requires few { first ≤ 10003 }
    ensures { OnOk result (steps.new.items ≡ steps.old.items ++ take_steps on count first) }
{
    for n in 0..count {
        let step = Step::Media(MediaStep::Take {
            on,
            bind: name_of(alloc, first + n)?,
            kind: VariableKind::Audio,
        });
        try_push(steps, step)?;
    }
    Ok(())
}
