// Polls of the promise of a flush.
ghost use Rattle.std.specs.Prelude.{◌≡◌, ℕ};
ghost use Rattle.futures.specs.Poll.{IfReady, OnPending};
ghost use Rattle.futures.specs.Task as tasks;
ghost use Rattle.seat_lock.specs.Seats.{IsIdleAt};
ghost use Rattle.shared_codec.specs.Keeps.{Keeps};
ghost use Rattle.shared_codec.specs.Looks.{EndTells};
ghost use Rattle.flush_promise.specs.Ends.{state_of};
ghost use Rattle.flush_future.specs.Polls.{BeginsWith, MayEndAs, end_in};

use coder_api::Coder;
use flush_promise::{FlushEnd, FlushPromise};
use futures::task::{Context, Poll};
use std::sync::Wait;

/// A poll, as that of a future: one look. It is pending exactly where the promise is pending after the history that this look saw,
/// and then the task has yielded, so an executor polls again. It takes no memory.
#[tactic(auto, using(crate::proofs::Logs::look_goes_on, crate::proofs::Logs::may_end))]
pub fn poll_promise<'a, C: Coder, R: Wait>(
    promise: &mut FlushPromise<'a, C, R>,
    cx: &mut Context<'_>,
) -> Poll<FlushEnd>
    requires { IsIdleAt promise.old.codec.now.id promise.old.seat.now }
    ensures codec { promise.new.codec.now ≡ promise.old.codec.now }
    ensures promise { promise.new.promise ≡ promise.old.promise }
    ensures borrowed { promise.new.seat.ghost_name ≡ promise.old.seat.ghost_name }
    ensures seat { Keeps promise.old.codec.now.id promise.old.seat.now promise.new.seat.now }
    ensures look { EndTells promise.old.codec.now promise.old.promise (state_of (end_in result))
        promise.old.seat.now promise.new.seat.now }
    ensures ends { IfReady result
        (MayEndAs promise.old.codec.now promise.old.promise promise.old.seat.now.me.0.log) }
    ensures goes_on { BeginsWith promise.new.seat.now.me.0.log promise.old.seat.now.me.0.log }
    ensures yields { OnPending result ((source : ℕ) → tasks.Hears cx.new source) }
    ensures armed { OnPending result (tasks.IsArmed cx.new) }
    ensures kept { tasks.Keeps cx.old cx.new }
{
    match promise.look() {
        Some(end) => Poll::Ready(end),
        None => cx.yield_now(),
    }
}
