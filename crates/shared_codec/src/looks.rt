// Calls that only look at a shared codec.
ghost use Rattle.std.specs.Prelude.{◌≡◌, [], length};
ghost use Rattle.codec_model.specs.Shown.{shown, ends_in, promise_state};
ghost use Rattle.seat_lock.specs.Seats.{IsIdleAt};
ghost use Rattle.shared_codec.specs.Keeps.{Keeps};
ghost use Rattle.shared_codec.specs.Looks.{LookTells, PromiseTells, EndTells, ProgressTells};
ghost use Rattle.shared_codec.specs.Looks.{GroundTells, HoldingTells};
ghost use Rattle.shared_codec.specs.Owes.{Owes};

use crate::codec::{CodecSeat, SharedCodec};
use codec_core::Core;
use codec_model::{CodecState, Kind, PromiseState};
use coder_api::Coder;
use seat_lock::Passage;
use std::sync::Wait;
use wc_base::Ground;

// The number of entries, and what became of a promise.
fn promise_in<C: Coder>(core: &Core<C>, promise: u64) -> (u64, PromiseState)
    ensures length { result.0 ≡ length core.now.history }
    ensures end { result.1
        ≡ promise_state (ends_in (shown core.now.opening core.now.history)) promise }
{
    let (length, _, _) = core.look();
    (length, core.end_of(promise))
}

impl<C: Coder> SharedCodec<C> {
    /// The number of entries, the state, and the number of coded messages in the queue.
    pub fn look<R: Wait>(&self, rt: &R, seat: &mut CodecSeat<C>) -> (u64, CodecState, u64)
        requires { IsIdleAt self.now.id seat.old }
        ensures kept { Keeps self.now.id seat.old seat.new }
        ensures look { LookTells self.now result seat.old seat.new }
        ensures owes { Owes self.now [] [] [] seat.old.me.0 seat.new.me.0 }
    {
        let mut held = self.lock.enter(rt, seat);
        let seen = held.state().core.core().look();
        self.lock.leave(seat, held, Passage::Look);
        seen
    }

    /// What became of the promise of a flush, by its entry's place, and the number of entries, in one look.
    pub fn look_at_promise<R: Wait>(
        &self,
        rt: &R,
        seat: &mut CodecSeat<C>,
        promise: u64,
    ) -> (u64, PromiseState)
        requires { IsIdleAt self.now.id seat.old }
        ensures kept { Keeps self.now.id seat.old seat.new }
        ensures tells { PromiseTells self.now promise result seat.old seat.new }
        ensures owes { Owes self.now [] [] [] seat.old.me.0 seat.new.me.0 }
    {
        let mut held = self.lock.enter(rt, seat);
        let seen = promise_in(held.state().core.core(), promise);
        self.lock.leave(seat, held, Passage::Look);
        seen
    }

    /// What became of the promise of a flush, by its entry's place.
    pub fn end_of<R: Wait>(&self, rt: &R, seat: &mut CodecSeat<C>, promise: u64) -> PromiseState
        requires { IsIdleAt self.now.id seat.old }
        ensures kept { Keeps self.now.id seat.old seat.new }
        ensures end { EndTells self.now promise result seat.old seat.new }
        ensures owes { Owes self.now [] [] [] seat.old.me.0 seat.new.me.0 }
    {
        let (_, end) = self.look_at_promise(rt, seat, promise);
        end
    }

    /// The moment when the last item of this epoch ended, of a configured codec.
    pub fn progress<R: Wait>(&self, rt: &R, seat: &mut CodecSeat<C>) -> Option<u64>
        requires { IsIdleAt self.now.id seat.old }
        ensures kept { Keeps self.now.id seat.old seat.new }
        ensures progress { ProgressTells self.now result seat.old seat.new }
        ensures owes { Owes self.now [] [] [] seat.old.me.0 seat.new.me.0 }
    {
        let mut held = self.lock.enter(rt, seat);
        let moment = held.state().core.core().progress();
        self.lock.leave(seat, held, Passage::Look);
        moment
    }

    /// Where the codec is at work.
    pub fn ground<R: Wait>(&self, rt: &R, seat: &mut CodecSeat<C>) -> Ground
        requires { IsIdleAt self.now.id seat.old }
        ensures kept { Keeps self.now.id seat.old seat.new }
        ensures tells { GroundTells self.now result seat.old seat.new }
        ensures owes { Owes self.now [] [] [] seat.old.me.0 seat.new.me.0 }
    {
        let mut held = self.lock.enter(rt, seat);
        let at = held.state().core.core().ground();
        self.lock.leave(seat, held, Passage::Look);
        at
    }

    /// What decides over a reclaim, in one look: the moment when the last item of this epoch ended, of a configured codec,
    /// where the codec is at work, and what it is.
    pub fn holding<R: Wait>(&self, rt: &R, seat: &mut CodecSeat<C>) -> (Option<u64>, Ground, Kind)
        requires { IsIdleAt self.now.id seat.old }
        ensures kept { Keeps self.now.id seat.old seat.new }
        ensures tells { HoldingTells self.now result seat.old seat.new }
        ensures owes { Owes self.now [] [] [] seat.old.me.0 seat.new.me.0 }
    {
        let mut held = self.lock.enter(rt, seat);
        let seen = held.state().core.core().holding();
        self.lock.leave(seat, held, Passage::Look);
        seen
    }
}
