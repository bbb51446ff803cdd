// Steps of callers on media of their own.
ghost use Rattle.std.specs.Prelude.{ℕ, ◌≡◌, ◌∷◌, [], None, Some, false, IfOk, OnErr, length};
ghost use Rattle.shared_pool.specs.Refs.{IsPoolRef};
ghost use Rattle.codec_desk.specs.Clocks.{EndsAt};
ghost use Rattle.codec_desk.specs.Desks.{SitAt};
ghost use Rattle.codec_desk.specs.Each.{Each};
ghost use Rattle.codec_desk.specs.Runs.{EachRunsNone};
ghost use Rattle.script_types.specs.Names.{called, taken_from};
ghost use Rattle.script_types.specs.declared.steps.Step.TheVariants as step;
ghost use Rattle.media_variables.specs.Held.{AreOf, seen_in};
ghost use Rattle.media_variables.specs.Variables.{chunk_in, uses_port};
ghost use Rattle.run_model.specs.Recorded.{copied_chunk, steps_of};
ghost use Rattle.desk_callers.specs.Acts.{StaySeats, Did};

use codec_desk::{Desk, Seats};
use coder_api::Coder;
use media_variables::Variables;
use report_text::StepResult;
use run_model::find_chunk;
use script_types::{MediaStep, Options, ScriptData, Step};
use shared_variables::step_at;
use std::alloc::Global;
use std::sync::Wait;
use wc_base::{List, NoMemory, Who};
use wc_chunk::Chunk;

// The number of the step that defines the chunk which a step copies, if it copies one.
fn chunk_in(asked: &MediaStep) -> Option<u32>
    ensures { result ≡ chunk_in asked.now }
{
    match asked {
        MediaStep::Copy {
            of,
            options: Options::Nothing,
            size: _,
        } => Some(of.step),
        _ => None,
    }
}

// The chunk that a step copies, if it copies one that was made or is of a chunk file.
fn copied_chunk(
    media: &[List<Chunk>],
    steps: &[Step],
    asked: &MediaStep,
) -> Result<Option<Chunk>, NoMemory>
    ensures { IfOk result (λ o. o ≡ copied_chunk media.now steps.now asked.now) }
{
    match chunk_in(asked) {
        Some(number) => find_chunk(media, steps, number),
        None => Ok(None),
    }
}

/// A step of a caller on media of its own that uses no port: it makes the entries of the pool that it calls for, and no call.
/// Where memory is wanted none was made, and the variables are as they were.
pub fn media_step<C: Coder, R: Wait>(
    rt: &R,
    alloc: Global,
    desk: &Desk<C>,
    seats: &mut Seats<C>,
    script: &ScriptData,
    media: &[List<Chunk>],
    steps: &[Step],
    who: Who,
    asked: &MediaStep,
    results: &[StepResult],
    variables: &mut Variables,
) -> Result<StepResult, NoMemory>
    requires sits { SitAt desk.now seats.old }
    requires steps { steps_of script.now who.caller ≡ steps.now }
    requires takes { taken_from (step.Media asked.now) ≡ None }
    requires calls { called (step.Media asked.now) ≡ None }
    requires ports { uses_port asked.now ≡ false }
    requires held { AreOf (IsPoolRef desk.now.pool) variables.old }
    ensures sits { SitAt desk.now seats.new }
    ensures runs { EachRunsNone desk.now.codecs.items seats.old.codecs.items
        → EachRunsNone desk.now.codecs.items seats.new.codecs.items }
    ensures ends { Each (EndsAt [])
        desk.now.codecs.items seats.old.codecs.items seats.new.codecs.items }
    ensures stay { StaySeats desk.now seats.old seats.new }
    ensures held { AreOf (IsPoolRef desk.now.pool) variables.new }
    ensures did { let vs = seen_in variables.old in let after = seen_in variables.new in
        let s = script.now in let m = media.now in let x = step.Media asked.now in
        let did = Did s m desk.now who x results.now seats.old seats.new vs after in
        IfOk result did }
    ensures same { OnErr result (seen_in variables.new ≡ seen_in variables.old) }
{
    let chunk = copied_chunk(media, steps, asked)?;
    let answer = step_at(
        rt,
        alloc,
        &desk.pool,
        &mut seats.pool,
        who,
        &chunk,
        asked,
        variables,
    )?;
    match answer {
        Some(answer) => Ok(answer),
        None => unreachable!(),
    }
}
