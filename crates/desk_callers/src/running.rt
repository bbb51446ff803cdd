// All steps of one caller.
ghost use Rattle.std.specs.Prelude.{ℕ, ◌≡◌, ◌<◌, ◌≤◌, ◌+◌, ◌^◌, [], IfOk, OnOk, length};
ghost use Rattle.shared_pool.specs.Refs.{IsPoolRef};
ghost use Rattle.codec_desk.specs.Clocks.{Clocked};
ghost use Rattle.codec_desk.specs.Desks.{SitAt};
ghost use Rattle.codec_desk.specs.Runs.{EachRunsNone};
ghost use Rattle.media_variables.specs.Held.{AreOf, seen_in};
ghost use Rattle.run_model.specs.Recorded.{steps_of};
ghost use Rattle.order_laws.specs.Sound.{IsSound};
ghost use Rattle.desk_callers.specs.Acts.{AreOpened, HasDone, StaySeats};
ghost use Rattle.desk_callers.specs.Passes.{ArePasses, AreUnused, KeepParts};

use crate::callers::caller_step;
use codec_desk::{Clock, Desk, Gate, Seats};
use coder_api::Coder;
use media_variables::Variables;
use report_text::StepResult;
use run_model::steps_of;
use script_types::ScriptData;
use shared_port::{PortPass, SharedPort};
use shared_variables::Parcel;
use std::alloc::Global;
use std::sync::Wait;
use wc_base::{List, NoMemory, Who};
use wc_chunk::Chunk;

// The time of a caller's step, by that of the step before it. It cannot be that there are none left: a run would have to make 2^63
// steps, each behind the one before it.
fn next_time(time: u64) -> Result<u64, NoMemory>
    ensures { IfOk result (λ next. (next ≡ time + 1) × (next ≤ 2 ^ 63)) }
{
    if time < 1 << 63 {
        Ok(time + 1)
    } else {
        Err(NoMemory)
    }
}

/// All steps of the caller with this number, one after the other: their results, and what its variables hold then. `media` has the
/// chunks of the script's chunk files, `ports` the script's ports, and `passes` the caller's pass of each. Where memory is wanted the
/// run is to be given up: the last step may have made its entry. Whatever the result, each end and each reclaim is at a moment that
/// the clock gave, and each pass has the parts that it had.
pub fn caller_steps<C: Coder, K: Clock, G: Gate, R: Wait>(
    rt: &R,
    alloc: Global,
    desk: &Desk<C>,
    seats: &mut Seats<C>,
    script: &ScriptData,
    media: &[List<Chunk>],
    ports: &[SharedPort<Parcel>],
    passes: &mut Vec<PortPass<Parcel>>,
    caller: u32,
    results: &mut Vec<StepResult>,
    variables: &mut Variables,
    clock: &mut K,
    gate: &mut G,
) -> Result<(), NoMemory>
    requires sits { SitAt desk.now seats.old }
    requires opened { AreOpened script.now desk.now.codecs.items }
    requires codecs { length script.now.codecs ≡ length desk.now.codecs.items }
    requires sound { IsSound script.now }
    requires few { length (steps_of script.now caller) < 2 ^ 32 }
    requires ports { length script.now.ports ≡ length ports.now }
    requires passes { ArePasses desk.now.pool ports.now passes.old.items }
    requires unused { AreUnused passes.old.items }
    requires first { (results.old.items ≡ []) × (variables.old ≡ []) }
    ensures sits { SitAt desk.now seats.new }
    ensures runs { EachRunsNone desk.now.codecs.items seats.old.codecs.items
        → EachRunsNone desk.now.codecs.items seats.new.codecs.items }
    ensures timed { Clocked desk.now seats.old seats.new (K.told clock.old) (K.told clock.new) }
    ensures stay { StaySeats desk.now seats.old seats.new }
    ensures passes { ArePasses desk.now.pool ports.now passes.new.items }
    ensures parts { KeepParts passes.old.items passes.new.items }
    ensures held { AreOf (IsPoolRef desk.now.pool) variables.new }
    ensures done { let after = seen_in variables.new in let rs = results.new.items in
        let s = script.now in let m = media.now in
        let done = HasDone s m desk.now caller rs seats.old seats.new after in
        OnOk result (done passes.new.items) }
    ensures all { OnOk result (length results.new.items ≡ length (steps_of script.now caller)) }
{
    let steps = steps_of(script, caller);
    results.reserve(steps.len())?;
    let mut time: u64 = 0;
    for number in 0..steps.len() {
        let who = Who {
            caller,
            step: number as u32,
        };
        let asked = &steps[number];
        time = next_time(time)?;
        match caller_step(
            rt,
            alloc,
            desk,
            seats,
            script,
            media,
            ports,
            passes,
            steps,
            who,
            asked,
            &mut time,
            results.as_slice(),
            variables,
            clock,
            gate,
        ) {
            Ok(result) => results.push_reserved(result),
            Err(NoMemory) => return Err(NoMemory),
        }
    }
    Ok(())
}
