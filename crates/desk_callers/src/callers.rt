// All kinds of steps of callers.
ghost use Rattle.std.specs.Prelude.{ℕ, ◌≡◌, ◌<◌, ◌≤◌, ◌^◌, [], IfOk, OnErr, length};
ghost use Rattle.shared_pool.specs.Refs.{IsPoolRef};
ghost use Rattle.codec_desk.specs.Clocks.{EndsAt, Clocked};
ghost use Rattle.codec_desk.specs.Desks.{SitAt};
ghost use Rattle.codec_desk.specs.Each.{Each};
ghost use Rattle.codec_desk.specs.Runs.{EachRunsNone};
ghost use Rattle.script_types.specs.Names.{looked_at};
ghost use Rattle.script_types.specs.declared.steps.Step.TheVariants as step;
ghost use Rattle.media_variables.specs.Held.{AreOf, seen_in};
ghost use Rattle.run_model.specs.Recorded.{steps_of};
ghost use Rattle.desk_callers.specs.Acts.{AreOpened, StaySeats, DidAtPorts, IsPromised, NamesWithin};
ghost use Rattle.desk_callers.specs.Passes.{ArePasses, KeepParts};
ghost use Rattle.desk_callers.specs.PortActs.{PortsWithin};

use crate::encodes::encode_step;
use crate::media::media_step;
use crate::ports::{post_step, receive_step};
use crate::steps::plain_step;
use crate::takes::take_step;
use codec_desk::{Clock, Desk, Gate, Seats};
use coder_api::Coder;
use media_variables::Variables;
use report_text::StepResult;
use script_types::{MediaStep, ScriptData, Step};
use shared_port::{PortPass, SharedPort};
use shared_variables::Parcel;
use std::alloc::Global;
use std::sync::Wait;
use wc_base::{List, NoMemory, Who};
use wc_chunk::Chunk;

// A step of a caller on media: of its own, an encode or a take of a codec, or a post or a receive at a port.
fn step_on_media<C: Coder, R: Wait>(
    rt: &R,
    alloc: Global,
    desk: &Desk<C>,
    seats: &mut Seats<C>,
    script: &ScriptData,
    media: &[List<Chunk>],
    ports: &[SharedPort<Parcel>],
    passes: &mut Vec<PortPass<Parcel>>,
    steps: &[Step],
    who: Who,
    asked: &MediaStep,
    time: &mut u64,
    results: &[StepResult],
    variables: &mut Variables,
) -> Result<StepResult, NoMemory>
    requires sits { SitAt desk.now seats.old }
    requires opened { AreOpened script.now desk.now.codecs.items }
    requires steps { steps_of script.now who.caller ≡ steps.now }
    requires names { NamesWithin (length desk.now.codecs.items) (step.Media asked.now) }
    requires passes { ArePasses desk.now.pool ports.now passes.old.items }
    requires ports { PortsWithin (length ports.now) (step.Media asked.now) }
    requires time { time.old ≤ 2 ^ 63 }
    requires held { AreOf (IsPoolRef desk.now.pool) variables.old }
    ensures sits { SitAt desk.now seats.new }
    ensures runs { EachRunsNone desk.now.codecs.items seats.old.codecs.items
        → EachRunsNone desk.now.codecs.items seats.new.codecs.items }
    ensures ends { Each (EndsAt [])
        desk.now.codecs.items seats.old.codecs.items seats.new.codecs.items }
    ensures stay { StaySeats desk.now seats.old seats.new }
    ensures passes { ArePasses desk.now.pool ports.now passes.new.items }
    ensures parts { KeepParts passes.old.items passes.new.items }
    ensures held { AreOf (IsPoolRef desk.now.pool) variables.new }
    ensures did { let vs = seen_in variables.old in let after = seen_in variables.new in
        let s = script.now in let m = media.now in let x = step.Media asked.now in
        let did = DidAtPorts s m desk.now who x results.now seats.old seats.new vs after in
        IfOk result (did passes.old.items passes.new.items time.old time.new) }
    ensures same { OnErr result (seen_in variables.new ≡ seen_in variables.old) }
{
    match asked {
        MediaStep::Encode { on, content } => encode_step(
            rt, desk, seats, script, media, who, *on, content, results, variables,
        ),
        MediaStep::Take { on, bind, kind } => take_step(
            rt, desk, seats, script, media, who, *on, bind, *kind, results, variables,
        ),
        MediaStep::Post { to, content } => post_step(
            rt, desk, seats, script, media, ports, passes, who, *to, content, *time, results,
            variables,
        ),
        MediaStep::Receive { from, bind, kind } => receive_step(
            rt, desk, seats, script, media, ports, passes, who, *from, bind, *kind, time, results,
            variables,
        ),
        _ => media_step(
            rt, alloc, desk, seats, script, media, steps, who, asked, results, variables,
        ),
    }
}

/// A step of a caller, and its result: a call of a codec, a look, a wait, a chunk that is made, or a step on media. `ports` has the
/// script's ports and `passes` the caller's pass of each. `steps` has the caller's steps, `results` those of the steps before it, and
/// `variables` what these left. `time` is the step's, later than those of the steps before it; where the step receives a medium, it is
/// later than that of its post too. Where memory is wanted the variables are as they were; a take may have been made. Whatever the
/// result, each end and each reclaim is at a moment that the clock gave, and each pass has the parts that it had.
pub fn caller_step<C: Coder, K: Clock, G: Gate, R: Wait>(
    rt: &R,
    alloc: Global,
    desk: &Desk<C>,
    seats: &mut Seats<C>,
    script: &ScriptData,
    media: &[List<Chunk>],
    ports: &[SharedPort<Parcel>],
    passes: &mut Vec<PortPass<Parcel>>,
    steps: &[Step],
    who: Who,
    asked: &Step,
    time: &mut u64,
    results: &[StepResult],
    variables: &mut Variables,
    clock: &mut K,
    gate: &mut G,
) -> Result<StepResult, NoMemory>
    requires sits { SitAt desk.now seats.old }
    requires opened { AreOpened script.now desk.now.codecs.items }
    requires steps { steps_of script.now who.caller ≡ steps.now }
    requires names { NamesWithin (length desk.now.codecs.items) asked.now }
    requires promised { let n = length desk.now.codecs.items in
        IsPromised n results.now (looked_at asked.now) }
    requires passes { ArePasses desk.now.pool ports.now passes.old.items }
    requires ports { PortsWithin (length ports.now) asked.now }
    requires time { time.old ≤ 2 ^ 63 }
    requires held { AreOf (IsPoolRef desk.now.pool) variables.old }
    ensures sits { SitAt desk.now seats.new }
    ensures runs { EachRunsNone desk.now.codecs.items seats.old.codecs.items
        → EachRunsNone desk.now.codecs.items seats.new.codecs.items }
    ensures timed { Clocked desk.now seats.old seats.new (K.told clock.old) (K.told clock.new) }
    ensures stay { StaySeats desk.now seats.old seats.new }
    ensures passes { ArePasses desk.now.pool ports.now passes.new.items }
    ensures parts { KeepParts passes.old.items passes.new.items }
    ensures held { AreOf (IsPoolRef desk.now.pool) variables.new }
    ensures did { let vs = seen_in variables.old in let after = seen_in variables.new in
        let s = script.now in let m = media.now in let x = asked.now in
        let did = DidAtPorts s m desk.now who x results.now seats.old seats.new vs after in
        IfOk result (did passes.old.items passes.new.items time.old time.new) }
    ensures same { OnErr result (seen_in variables.new ≡ seen_in variables.old) }
{
    match asked {
        Step::Media(on_media) => step_on_media(
            rt, alloc, desk, seats, script, media, ports, passes, steps, who, on_media, time,
            results, variables,
        ),
        _ => plain_step(
            rt, alloc, desk, seats, script, media, steps, who, asked, results, variables, clock,
            gate,
        ),
    }
}
