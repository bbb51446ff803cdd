// The calls of a shared codec that may change it, each in one passage.
ghost use Rattle.std.specs.Result.{is_ok};
ghost use Rattle.std.specs.Prelude.{◌≡◌, [], true};
ghost use Rattle.codec_model.specs.declared.entry.Entry.TheVariants as entry;
ghost use Rattle.codec_model.specs.Held.{adds_held};
ghost use Rattle.codec_model.specs.Replay.{may_call};
ghost use Rattle.codec_core.specs.Codec.{state_at};
ghost use Rattle.seat_lock.specs.Seats.{IsIdleAt};
ghost use Rattle.codec_logs.specs.Logs.{acquires_of};
ghost use Rattle.shared_codec.specs.Shared.{MayEnd};
ghost use Rattle.shared_codec.specs.Keeps.{Keeps};
ghost use Rattle.shared_codec.specs.Owes.{CallOwes, StartOwes, DoneOwes, TurnOwes, ReclaimOwes};
ghost use Rattle.shared_codec.specs.Jobs.{StartTells, DoneIn};
ghost use Rattle.shared_codec.specs.Calls.{MayAlways, CallTells, TurnTells, ReclaimTells};
ghost use Rattle.shared_codec.specs.Gives.{CallGives};

use crate::codec::{CodecSeat, SharedCodec};
use crate::passage::{no_acquires, passage_if};
use codec_core::{DoneJob, Job};
use codec_logs::Acquires;
use codec_media::{Ended, HoldingCore, Removed, Reply, Turned};
use codec_model::Call;
use coder_api::Coder;
use std::sync::Wait;
use wc_base::{NoMemory, Who};

// A call that brings no reference, where there is a place for its entry.
pub(crate) fn call_placed<C: Coder>(
    core: &mut HoldingCore<C>,
    who: Who,
    call: Call,
) -> Result<Reply<C>, NoMemory>
    requires may { may_call call (state_at core.old.codec).control ≡ true }
    requires alone { adds_held (entry.Call who call) ≡ [] }
    ensures { CallGives core.old core.new who call result }
{
    if !call.sends() && core.core().spare() == 0 {
        return Err(NoMemory);
    }
    match core.call(who, call, None) {
        Ok(reply) => Ok(reply),
        Err(_) => Err(NoMemory),
    }
}

// Whether a call made an entry.
pub(crate) fn has_replied<C: Coder>(reply: &Result<Reply<C>, NoMemory>) -> bool
    ensures { result ≡ is_ok reply.now }
{
    match reply {
        Ok(_) => true,
        Err(NoMemory) => false,
    }
}

impl<C: Coder> SharedCodec<C> {
    /// A call of a caller that can be made in each state: a configure, decode, flush, reset or close, an encode of detached
    /// data, or a ground. It answers what `Core::call` answers; what a removal lets go is handed back. Memory is wanted of a
    /// call that sends no message only where as many such calls were made as the codec was opened for.
    pub fn call<R: Wait>(
        &self,
        rt: &R,
        seat: &mut CodecSeat<C>,
        who: Who,
        call: Call,
    ) -> Result<Reply<C>, NoMemory>
        requires seat { IsIdleAt self.now.id seat.old }
        requires may { MayAlways call }
        ensures kept { Keeps self.now.id seat.old seat.new }
        ensures reply { CallTells self.now who call result seat.old seat.new }
        ensures owes { CallOwes self.now result seat.old.me.0 seat.new.me.0 }
    {
        let mut held = self.lock.enter(rt, seat);
        let reply = call_placed(&mut held.state().core, who, call);
        let made = has_replied(&reply);
        let passage = passage_if(made, held.state().core.core(), no_acquires());
        self.lock.leave(seat, held, passage);
        reply
    }

    /// The front item becomes running, and its job leaves. None exactly where no item may start. It takes no memory.
    pub fn start<R: Wait>(&self, rt: &R, seat: &mut CodecSeat<C>) -> Option<Job<C>>
        requires { IsIdleAt self.now.id seat.old }
        ensures kept { Keeps self.now.id seat.old seat.new }
        ensures job { StartTells self.now result seat.old seat.new }
        ensures owes { StartOwes self.now result seat.old.me.0 seat.new.me.0 }
    {
        let mut held = self.lock.enter(rt, seat);
        let job = held.state().core.start();
        let passage = passage_if(job.is_some(), held.state().core.core(), no_acquires());
        self.lock.leave(seat, held, passage);
        job
    }

    /// The running item ends at a moment in microseconds, through the seat whose start gave its job, with the acquires that
    /// were made for it. What it lets go is handed back. It takes no memory.
    pub fn done<R: Wait>(
        &self,
        rt: &R,
        seat: &mut CodecSeat<C>,
        d: DoneJob<C>,
        acquires: Acquires,
        moment: u64,
    ) -> Ended<C>
        requires seat { IsIdleAt self.now.id seat.old }
        requires own { MayEnd self.now seat.old.me.0 d (acquires_of acquires) }
        ensures kept { Keeps self.now.id seat.old seat.new }
        ensures done { let acquired = acquires_of acquires in
            DoneIn self.now d acquired moment result seat.old seat.new }
        ensures owes { let acquired = acquires_of acquires in
            DoneOwes self.now d acquired result seat.old.me.0 seat.new.me.0 }
    {
        let mut held = self.lock.enter(rt, seat);
        let back = held.state().core.done(d, moment);
        let passage = passage_if(true, held.state().core.core(), acquires);
        self.lock.leave(seat, held, passage);
        back
    }

    /// The front event task runs; where it closes the codec, what that lets go is handed back. None exactly where no task is
    /// queued. It takes no memory.
    pub fn turn<R: Wait>(&self, rt: &R, seat: &mut CodecSeat<C>) -> Option<Turned<C>>
        requires { IsIdleAt self.now.id seat.old }
        ensures kept { Keeps self.now.id seat.old seat.new }
        ensures turned { TurnTells self.now result seat.old seat.new }
        ensures owes { TurnOwes self.now result seat.old.me.0 seat.new.me.0 }
    {
        let mut held = self.lock.enter(rt, seat);
        let turned = held.state().core.turn();
        let passage = passage_if(turned.is_some(), held.state().core.core(), no_acquires());
        self.lock.leave(seat, held, passage);
        turned
    }

    /// The codec is reclaimed at a moment in microseconds, and what that lets go is handed back. None exactly where that may
    /// not be. It takes no memory.
    pub fn reclaim<R: Wait>(&self, rt: &R, seat: &mut CodecSeat<C>, now: u64) -> Option<Removed<C>>
        requires { IsIdleAt self.now.id seat.old }
        ensures kept { Keeps self.now.id seat.old seat.new }
        ensures removed { ReclaimTells self.now now result seat.old seat.new }
        ensures owes { ReclaimOwes self.now result seat.old.me.0 seat.new.me.0 }
    {
        let mut held = self.lock.enter(rt, seat);
        let removed = held.state().core.reclaim(now);
        let passage = passage_if(removed.is_some(), held.state().core.core(), no_acquires());
        self.lock.leave(seat, held, passage);
        removed
    }
}
