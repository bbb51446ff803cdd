// Takes of a shared codec's outputs.
ghost use Rattle.std.specs.Prelude.{◌≡◌, [], length, IfOk};
ghost use Rattle.codec_model.specs.Control.{may_take};
ghost use Rattle.codec_core.specs.Codec.{state_at};
ghost use Rattle.seat_lock.specs.Seats.{IsIdleAt};
ghost use Rattle.shared_codec.specs.Gives.{TakeGives};
ghost use Rattle.shared_codec.specs.Keeps.{Keeps};
ghost use Rattle.shared_codec.specs.Owes.{Owes};
ghost use Rattle.shared_codec.specs.Takes.{NextIs, OutputTells, TakeTells, NextTells, took};

use crate::calls::call_placed;
use crate::codec::{CodecSeat, SharedCodec};
use crate::passage::{no_acquires, passage_if};
use codec_core::Core;
use codec_media::HoldingCore;
use codec_model::Call;
use coder_api::{Coder, Unit};
use seat_lock::Passage;
use std::sync::Wait;
use wc_base::{NoMemory, Who};

/// The first output that was shown and not taken yet, with its number. Outputs are numbered from 0 as they are shown.
#[derive(Debug, PartialEq, Drop)]
pub struct NextOutput {
    pub number: u64,
    pub unit: Unit,
}

// The next output, again.
fn next_in<C: Coder>(core: &Core<C>) -> Result<Option<NextOutput>, NoMemory>
    ensures { IfOk result
        (NextIs core.now.opening core.now.history (state_at core.now).control) }
{
    match core.next_output() {
        Some(unit) => Ok(Some(NextOutput {
            number: core.taken(),
            unit: unit.copy()?,
        })),
        None => Ok(None),
    }
}

// The number of entries, and the next output, again.
fn output_in<C: Coder>(core: &Core<C>) -> Result<(u64, Option<NextOutput>), NoMemory>
    ensures length { IfOk result (λ x. x.0 ≡ length core.now.history) }
    ensures next { IfOk result
        (λ x. NextIs core.now.opening core.now.history (state_at core.now).control x.1) }
{
    let (length, _, _) = core.look();
    let next = next_in(core)?;
    Ok((length, next))
}

// Whether this is the number of the next output.
fn is_next<C: Coder>(core: &Core<C>, number: u64) -> bool
    ensures { result ≡ may_take number (state_at core.now).control }
{
    number == core.taken() && core.next_output().is_some()
}

// A take of this output, and the place of its entry; none where it is not the next one.
fn take_in<C: Coder>(
    core: &mut HoldingCore<C>,
    who: Who,
    number: u64,
) -> Result<Option<u64>, NoMemory>
    ensures { TakeGives core.old core.new who number result }
{
    if !is_next(core.core(), number) {
        return Ok(None);
    }
    let reply = call_placed(core, who, Call::Take(number))?;
    Ok(Some(reply.place))
}

// Whether a take made an entry.
fn has_taken(place: &Result<Option<u64>, NoMemory>) -> bool
    ensures { result ≡ took place.now }
{
    match place {
        Ok(Some(_)) => true,
        Ok(None) => false,
        Err(NoMemory) => false,
    }
}

impl<C: Coder> SharedCodec<C> {
    /// The number of entries, and the first output that was shown and not taken yet, again, over the same shared bytes; none
    /// exactly where there is none. It is one look. Memory is wanted for the copy alone.
    pub fn look_for_output<R: Wait>(
        &self,
        rt: &R,
        seat: &mut CodecSeat<C>,
    ) -> Result<(u64, Option<NextOutput>), NoMemory>
        requires { IsIdleAt self.now.id seat.old }
        ensures kept { Keeps self.now.id seat.old seat.new }
        ensures tells { OutputTells self.now result seat.old seat.new }
        ensures owes { Owes self.now [] [] [] seat.old.me.0 seat.new.me.0 }
    {
        let mut held = self.lock.enter(rt, seat);
        let seen = output_in(held.state().core.core());
        self.lock.leave(seat, held, Passage::Look);
        seen
    }

    /// The first output that was shown and not taken yet, again, over the same shared bytes; none exactly where there is
    /// none. It is a look. Memory is wanted for the copy alone.
    pub fn next_output<R: Wait>(
        &self,
        rt: &R,
        seat: &mut CodecSeat<C>,
    ) -> Result<Option<NextOutput>, NoMemory>
        requires { IsIdleAt self.now.id seat.old }
        ensures kept { Keeps self.now.id seat.old seat.new }
        ensures next { NextTells self.now result seat.old seat.new }
        ensures owes { Owes self.now [] [] [] seat.old.me.0 seat.new.me.0 }
    {
        match self.look_for_output(rt, seat) {
            Ok((_, next)) => Ok(next),
            Err(NoMemory) => Err(NoMemory),
        }
    }

    /// A caller takes the output of this number, which a look gave. It answers the place of the take's entry; none exactly
    /// where the output is not the next one to be taken, as another thread took it. Memory is wanted only where as many
    /// calls that send no message were made as the codec was opened for.
    pub fn take<R: Wait>(
        &self,
        rt: &R,
        seat: &mut CodecSeat<C>,
        who: Who,
        number: u64,
    ) -> Result<Option<u64>, NoMemory>
        requires { IsIdleAt self.now.id seat.old }
        ensures kept { Keeps self.now.id seat.old seat.new }
        ensures taken { TakeTells self.now who number result seat.old seat.new }
        ensures owes { Owes self.now [] [] [] seat.old.me.0 seat.new.me.0 }
    {
        let mut held = self.lock.enter(rt, seat);
        let place = take_in(&mut held.state().core, who, number);
        let made = has_taken(&place);
        let passage = passage_if(made, held.state().core.core(), no_acquires());
        self.lock.leave(seat, held, passage);
        place
    }
}
