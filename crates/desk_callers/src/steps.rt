// Steps of callers.
ghost use Rattle.std.specs.Prelude.{ℕ, ◌≡◌, ◌<◌, [], None, Some, IfOk, length, slice_get};
ghost use Rattle.codec_desk.specs.Clocks.{EndsAt, Clocked};
ghost use Rattle.codec_desk.specs.Desks.{SitAt};
ghost use Rattle.codec_desk.specs.Each.{Each};
ghost use Rattle.codec_desk.specs.Runs.{EachRunsNone};
ghost use Rattle.script_types.specs.Names.{called, looked_at};
ghost use Rattle.script_types.specs.declared.steps.Step.TheVariants as step;
ghost use Rattle.report_text.specs.declared.result.StepResult.TheVariants as came;
ghost use Rattle.media_variables.specs.Held.{seen_in};
ghost use Rattle.media_accounts.specs.Accounts.{media_of};
ghost use Rattle.run_model.specs.Fits.{HasArguments};
ghost use Rattle.run_model.specs.Recorded.{chunk_for, source_error, steps_of};
ghost use Rattle.desk_callers.specs.Acts.{AreOpened, StaySeats, Did, IsFlushed, HasFlushed, IsPromised, NamesWithin};

use crate::awaits::await_result;
use crate::calls::call_codec;
use crate::looks::{promise_result, state_result};
use codec_desk::{Clock, Desk, Gate, Seats};
use codec_model::Call;
use coder_api::Coder;
use media_variables::Variables;
use report_text::StepResult;
use run_model::find_chunk;
use script_types::{ChunkSource, ScriptData, Step, Variable};
use std::alloc::Global;
use std::sync::Wait;
use wc_base::{DomError, List, NoMemory, Who};
use wc_chunk::Chunk;

// The exception of a chunk's init; a chunk of a file has none.
fn chunk_result(source: &ChunkSource) -> StepResult
    ensures { result ≡ came.Local (source_error source.now) }
{
    let error = match source {
        ChunkSource::Init(None) => Some(DomError::TypeErr),
        ChunkSource::Init(Some(_)) => None,
        ChunkSource::File { file: _, index: _ } => None,
    };
    StepResult::Local { error }
}

// The chunk of a variable: its step made it or took it from a chunk file, or it was taken from an encoder.
fn chunk_for(
    media: &[List<Chunk>],
    steps: &[Step],
    variables: &Variables,
    variable: u32,
) -> Result<Option<Chunk>, NoMemory>
    ensures { let vs = seen_in variables.now in
        IfOk result (λ c. c ≡ chunk_for media.now steps.now vs variable) }
{
    match find_chunk(media, steps, variable)? {
        Some(chunk) => Ok(Some(chunk)),
        None => variables.chunk(variable),
    }
}

// A step that calls a codec, and none on media: its call has what the step gives.
fn called_step<C: Coder, R: Wait>(
    rt: &R,
    desk: &Desk<C>,
    seats: &mut Seats<C>,
    script: &ScriptData,
    media: &[List<Chunk>],
    who: Who,
    asked: &Step,
    codec: u32,
    call: Call,
    results: &[StepResult],
    variables: &Variables,
) -> Result<StepResult, NoMemory>
    requires sits { SitAt desk.now seats.old }
    requires opened { AreOpened script.now desk.now.codecs.items }
    requires codec { codec < length desk.now.codecs.items }
    requires plain { media_of asked.now ≡ None }
    requires called { called asked.now ≡ Some codec }
    requires arguments { let vs = seen_in variables.now in
        HasArguments script.now media.now vs who.caller call asked.now }
    ensures sits { SitAt desk.now seats.new }
    ensures runs { EachRunsNone desk.now.codecs.items seats.old.codecs.items
        → EachRunsNone desk.now.codecs.items seats.new.codecs.items }
    ensures ends { Each (EndsAt [])
        desk.now.codecs.items seats.old.codecs.items seats.new.codecs.items }
    ensures stay { StaySeats desk.now seats.old seats.new }
    ensures did { let vs = seen_in variables.now in let s = script.now in
        let did = Did s media.now desk.now who asked.now results.now seats.old seats.new vs vs in
        IfOk result did }
{
    call_codec(rt, desk, seats, who, codec, call)
}

// The codec and the place of a flush that was made.
fn flush_at(results: &[StepResult], step: u32) -> (u32, u64)
    requires { IsFlushed results.now step }
    ensures { HasFlushed results.now step result.0 result.1 }
{
    match results.get(step as usize) {
        Some(
            StepResult::Call {
                codec,
                place,
                error: _,
            },
        ) => (*codec, *place),
        _ => unreachable!(),
    }
}

// A look at the promise of a flush.
fn poll_step<C: Coder, R: Wait>(
    rt: &R,
    desk: &Desk<C>,
    seats: &mut Seats<C>,
    script: &ScriptData,
    media: &[List<Chunk>],
    who: Who,
    promise: &Variable,
    results: &[StepResult],
    variables: &Variables,
) -> StepResult
    requires sits { SitAt desk.now seats.old }
    requires opened { AreOpened script.now desk.now.codecs.items }
    requires promised { IsPromised (length desk.now.codecs.items) results.now (Some promise.now) }
    ensures sits { SitAt desk.now seats.new }
    ensures runs { EachRunsNone desk.now.codecs.items seats.old.codecs.items
        → EachRunsNone desk.now.codecs.items seats.new.codecs.items }
    ensures ends { Each (EndsAt [])
        desk.now.codecs.items seats.old.codecs.items seats.new.codecs.items }
    ensures stay { StaySeats desk.now seats.old seats.new }
    ensures did { let vs = seen_in variables.now in let x = step.Poll promise.now in
        Did script.now media.now desk.now who x results.now seats.old seats.new vs vs result }
{
    let (codec, place) = flush_at(results, promise.step);
    promise_result(rt, desk, seats, codec, place)
}

// A wait for the promise of a flush.
fn await_step<C: Coder, K: Clock, G: Gate, R: Wait>(
    rt: &R,
    alloc: Global,
    desk: &Desk<C>,
    seats: &mut Seats<C>,
    script: &ScriptData,
    media: &[List<Chunk>],
    who: Who,
    promise: &Variable,
    results: &[StepResult],
    variables: &Variables,
    clock: &mut K,
    gate: &mut G,
) -> StepResult
    requires sits { SitAt desk.now seats.old }
    requires opened { AreOpened script.now desk.now.codecs.items }
    requires promised { IsPromised (length desk.now.codecs.items) results.now (Some promise.now) }
    ensures sits { SitAt desk.now seats.new }
    ensures runs { EachRunsNone desk.now.codecs.items seats.old.codecs.items
        → EachRunsNone desk.now.codecs.items seats.new.codecs.items }
    ensures timed { Clocked desk.now seats.old seats.new (K.told clock.old) (K.told clock.new) }
    ensures stay { StaySeats desk.now seats.old seats.new }
    ensures did { let vs = seen_in variables.now in let x = step.Await promise.now in
        Did script.now media.now desk.now who x results.now seats.old seats.new vs vs result }
{
    let (codec, place) = flush_at(results, promise.step);
    await_result(rt, alloc, desk, seats, codec, place, clock, gate)
}

// A decode of the chunk of a variable, unless that is absent.
fn decode_step<C: Coder, R: Wait>(
    rt: &R,
    desk: &Desk<C>,
    seats: &mut Seats<C>,
    script: &ScriptData,
    media: &[List<Chunk>],
    steps: &[Step],
    who: Who,
    asked: &Step,
    codec: u32,
    chunk: &Variable,
    results: &[StepResult],
    variables: &Variables,
) -> Result<StepResult, NoMemory>
    requires sits { SitAt desk.now seats.old }
    requires opened { AreOpened script.now desk.now.codecs.items }
    requires steps { steps_of script.now who.caller ≡ steps.now }
    requires codec { codec < length desk.now.codecs.items }
    requires asked { asked.now ≡ step.Decode codec chunk.now }
    ensures sits { SitAt desk.now seats.new }
    ensures runs { EachRunsNone desk.now.codecs.items seats.old.codecs.items
        → EachRunsNone desk.now.codecs.items seats.new.codecs.items }
    ensures ends { Each (EndsAt [])
        desk.now.codecs.items seats.old.codecs.items seats.new.codecs.items }
    ensures stay { StaySeats desk.now seats.old seats.new }
    ensures did { let vs = seen_in variables.now in let s = script.now in
        let did = Did s media.now desk.now who asked.now results.now seats.old seats.new vs vs in
        IfOk result did }
{
    let found = chunk_for(media, steps, variables, chunk.step)?;
    match found {
        Some(value) => {
            let call = Call::Decode(value);
            called_step(
                rt, desk, seats, script, media, who, asked, codec, call, results, variables,
            )
        }
        None => Ok(StepResult::Absent),
    }
}

/// A step of a caller that is none on media: a call of a codec, a look, a wait, or a chunk that is made. `steps` has the caller's
/// steps, and `results` those of the steps before it. Where memory is wanted no entry was made for the step. Each end and each
/// reclaim is at a moment that the clock gave.
pub fn plain_step<C: Coder, K: Clock, G: Gate, R: Wait>(
    rt: &R,
    alloc: Global,
    desk: &Desk<C>,
    seats: &mut Seats<C>,
    script: &ScriptData,
    media: &[List<Chunk>],
    steps: &[Step],
    who: Who,
    asked: &Step,
    results: &[StepResult],
    variables: &Variables,
    clock: &mut K,
    gate: &mut G,
) -> Result<StepResult, NoMemory>
    requires sits { SitAt desk.now seats.old }
    requires opened { AreOpened script.now desk.now.codecs.items }
    requires steps { steps_of script.now who.caller ≡ steps.now }
    requires plain { media_of asked.now ≡ None }
    requires names { NamesWithin (length desk.now.codecs.items) asked.now }
    requires promised { let n = length desk.now.codecs.items in
        IsPromised n results.now (looked_at asked.now) }
    ensures sits { SitAt desk.now seats.new }
    ensures runs { EachRunsNone desk.now.codecs.items seats.old.codecs.items
        → EachRunsNone desk.now.codecs.items seats.new.codecs.items }
    ensures timed { Clocked desk.now seats.old seats.new (K.told clock.old) (K.told clock.new) }
    ensures stay { StaySeats desk.now seats.old seats.new }
    ensures did { let vs = seen_in variables.now in let s = script.now in
        let did = Did s media.now desk.now who asked.now results.now seats.old seats.new vs vs in
        IfOk result did }
{
    let (codec, call) = match asked {
        Step::Configure { on, config } => (*on, Call::Configure(config.copy()?)),
        Step::Flush { on, bind: _ } => (*on, Call::Flush),
        Step::Reset { on } => (*on, Call::Reset),
        Step::Close { on } => (*on, Call::Close),
        Step::Ground { on, to } => (*on, Call::Ground(*to)),
        Step::Decode { on, chunk } => {
            return decode_step(
                rt, desk, seats, script, media, steps, who, asked, *on, chunk, results, variables,
            );
        }
        Step::Chunk { bind: _, source } => return Ok(chunk_result(source)),
        Step::Poll { promise } => {
            return Ok(poll_step(
                rt, desk, seats, script, media, who, promise, results, variables,
            ));
        }
        Step::Await { promise } => {
            return Ok(await_step(
                rt, alloc, desk, seats, script, media, who, promise, results, variables, clock,
                gate,
            ));
        }
        Step::State { on } => return Ok(state_result(rt, desk, seats, *on)),
        Step::Media(_) => unreachable!(),
    };
    called_step(
        rt, desk, seats, script, media, who, asked, codec, call, results, variables,
    )
}
