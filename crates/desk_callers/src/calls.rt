// Calls of a caller on codecs of a desk.
ghost use Rattle.std.specs.Prelude.{ℕ, ◌≡◌, ◌<◌, [], length, IfOk, OnErr};
ghost use Rattle.shared_codec.specs.Calls.{MayAlways};
ghost use Rattle.codec_desk.specs.Clocks.{EndsAt};
ghost use Rattle.codec_desk.specs.Desks.{SitAt};
ghost use Rattle.codec_desk.specs.Each.{Each};
ghost use Rattle.codec_desk.specs.Runs.{EachRunsNone};
ghost use Rattle.desk_callers.specs.Acts.{CalledAs, Helped};

use codec_desk::{Desk, Seats, call_once};
use codec_model::Call;
use coder_api::Coder;
use report_text::StepResult;
use std::sync::Wait;
use wc_base::{NoMemory, Who};

/// A call of a caller that can be made in each state, and its result; what it lets go has gone back. Where memory is wanted
/// no entry was made.
pub fn call_codec<C: Coder, R: Wait>(
    rt: &R,
    desk: &Desk<C>,
    seats: &mut Seats<C>,
    who: Who,
    codec: u32,
    call: Call,
) -> Result<StepResult, NoMemory>
    requires sits { SitAt desk.now seats.old }
    requires codec { codec < length desk.now.codecs.items }
    requires may { MayAlways call }
    ensures sits { SitAt desk.now seats.new }
    ensures called { IfOk result (CalledAs desk.now who codec call seats.old seats.new) }
    ensures err { OnErr result (Helped desk.now seats.old seats.new) }
    ensures runs { EachRunsNone desk.now.codecs.items seats.old.codecs.items
        → EachRunsNone desk.now.codecs.items seats.new.codecs.items }
    ensures ends { Each (EndsAt [])
        desk.now.codecs.items seats.old.codecs.items seats.new.codecs.items }
{
    match call_once(rt, desk, seats, codec as usize, who, call) {
        Ok(answer) => Ok(StepResult::Call {
            codec,
            place: answer.place,
            error: answer.exception,
        }),
        Err(NoMemory) => Err(NoMemory),
    }
}
