// Waits of a caller for promises of flushes, with help.
ghost use Rattle.std.specs.Prelude.{ℕ, ◌≡◌, ◌<◌, length};
ghost use Rattle.codec_desk.specs.Clocks.{Clocked};
ghost use Rattle.codec_desk.specs.Desks.{SitAt};
ghost use Rattle.codec_desk.specs.Runs.{EachRunsNone};
ghost use Rattle.desk_callers.specs.Deeds.{HasEnded};
ghost use Rattle.desk_callers.specs.Acts.{Helped, SawPromise};

use crate::looks::look_at_promise;
use codec_desk::{Clock, Desk, Gate, Seats, await_helping};
use coder_api::Coder;
use report_text::StepResult;
use std::alloc::Global;
use std::sync::Wait;

/// The result of a wait for the promise of the flush at this place of a codec's history: a look that saw it ended. Until then the
/// caller works and turns on the codec. Each end and each reclaim is at a moment that the clock gave.
pub fn await_result<C: Coder, K: Clock, G: Gate, R: Wait>(
    rt: &R,
    alloc: Global,
    desk: &Desk<C>,
    seats: &mut Seats<C>,
    codec: u32,
    place: u64,
    clock: &mut K,
    gate: &mut G,
) -> StepResult
    requires sits { SitAt desk.now seats.old }
    requires codec { codec < length desk.now.codecs.items }
    ensures sits { SitAt desk.now seats.new }
    ensures helped { Helped desk.now seats.old seats.new }
    ensures runs { EachRunsNone desk.now.codecs.items seats.old.codecs.items
        → EachRunsNone desk.now.codecs.items seats.new.codecs.items }
    ensures timed { Clocked desk.now seats.old seats.new (K.told clock.old) (K.told clock.new) }
    ensures saw { SawPromise desk.now codec place result seats.old seats.new }
    ensures ended { HasEnded result }
{
    let _ = await_helping(rt, alloc, desk, seats, codec as usize, place, clock, gate);
    let (length, end) = look_at_promise(rt, desk, seats, codec as usize, place);
    StepResult::Look { codec, length, end }
}
