// Looks of a caller at codecs of a desk.
ghost use Rattle.std.specs.Prelude.{ℕ, ◌≡◌, ◌<◌, [], length};
ghost use Rattle.shared_codec.specs.Looks.{LookTells, PromiseTells};
ghost use Rattle.codec_desk.specs.Clocks.{EndsAt};
ghost use Rattle.codec_desk.specs.Desks.{SitAt};
ghost use Rattle.codec_desk.specs.Each.{Each, OneAt};
ghost use Rattle.codec_desk.specs.Runs.{EachRunsNone};
ghost use Rattle.desk_callers.specs.Acts.{Helped, SawState, SawPromise};

use codec_desk::{Desk, Seats};
use codec_model::{CodecState, PromiseState};
use coder_api::Coder;
use report_text::StepResult;
use shared_codec::dues_add_up;
use std::sync::Wait;

/// The number of entries of a codec, its state, and the number of coded messages in its queue, by one look. It takes no memory.
pub fn look_codec<C: Coder, R: Wait>(
    rt: &R,
    desk: &Desk<C>,
    seats: &mut Seats<C>,
    codec: usize,
) -> (u64, CodecState, u64)
    requires sits { SitAt desk.now seats.old }
    requires codec { codec < length desk.now.codecs.items }
    ensures sits { SitAt desk.now seats.new }
    ensures looked { OneAt codec (λ s a b. LookTells s result a b)
        desk.now.codecs.items seats.old.codecs.items seats.new.codecs.items }
    ensures helped { Helped desk.now seats.old seats.new }
    ensures runs { EachRunsNone desk.now.codecs.items seats.old.codecs.items
        → EachRunsNone desk.now.codecs.items seats.new.codecs.items }
    ensures ends { Each (EndsAt [])
        desk.now.codecs.items seats.old.codecs.items seats.new.codecs.items }
{
    dues_add_up();
    desk.codecs[codec].look(rt, &mut seats.codecs[codec])
}

/// The result of a look at a codec's state. It takes no memory.
pub fn state_result<C: Coder, R: Wait>(
    rt: &R,
    desk: &Desk<C>,
    seats: &mut Seats<C>,
    codec: u32,
) -> StepResult
    requires sits { SitAt desk.now seats.old }
    requires codec { codec < length desk.now.codecs.items }
    ensures sits { SitAt desk.now seats.new }
    ensures helped { Helped desk.now seats.old seats.new }
    ensures runs { EachRunsNone desk.now.codecs.items seats.old.codecs.items
        → EachRunsNone desk.now.codecs.items seats.new.codecs.items }
    ensures ends { Each (EndsAt [])
        desk.now.codecs.items seats.old.codecs.items seats.new.codecs.items }
    ensures saw { SawState desk.now codec result seats.old seats.new }
{
    let (length, state, size) = look_codec(rt, desk, seats, codec as usize);
    StepResult::State {
        codec,
        length,
        state,
        size,
    }
}

/// The number of entries of a codec, and how the promise of the flush at this place stands, by one look. It takes no memory.
pub fn look_at_promise<C: Coder, R: Wait>(
    rt: &R,
    desk: &Desk<C>,
    seats: &mut Seats<C>,
    codec: usize,
    place: u64,
) -> (u64, PromiseState)
    requires sits { SitAt desk.now seats.old }
    requires codec { codec < length desk.now.codecs.items }
    ensures sits { SitAt desk.now seats.new }
    ensures looked { OneAt codec (λ s a b. PromiseTells s place result a b)
        desk.now.codecs.items seats.old.codecs.items seats.new.codecs.items }
    ensures helped { Helped desk.now seats.old seats.new }
    ensures runs { EachRunsNone desk.now.codecs.items seats.old.codecs.items
        → EachRunsNone desk.now.codecs.items seats.new.codecs.items }
    ensures ends { Each (EndsAt [])
        desk.now.codecs.items seats.old.codecs.items seats.new.codecs.items }
{
    dues_add_up();
    desk.codecs[codec].look_at_promise(rt, &mut seats.codecs[codec], place)
}

/// The result of a look at the promise of the flush at this place of a codec's history. It takes no memory.
pub fn promise_result<C: Coder, R: Wait>(
    rt: &R,
    desk: &Desk<C>,
    seats: &mut Seats<C>,
    codec: u32,
    place: u64,
) -> StepResult
    requires sits { SitAt desk.now seats.old }
    requires codec { codec < length desk.now.codecs.items }
    ensures sits { SitAt desk.now seats.new }
    ensures helped { Helped desk.now seats.old seats.new }
    ensures runs { EachRunsNone desk.now.codecs.items seats.old.codecs.items
        → EachRunsNone desk.now.codecs.items seats.new.codecs.items }
    ensures ends { Each (EndsAt [])
        desk.now.codecs.items seats.old.codecs.items seats.new.codecs.items }
    ensures saw { SawPromise desk.now codec place result seats.old seats.new }
{
    let (length, end) = look_at_promise(rt, desk, seats, codec as usize, place);
    StepResult::Look { codec, length, end }
}
