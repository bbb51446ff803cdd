// The promise of a flush at a shared codec.
ghost use Rattle.std.specs.Prelude.{◌≡◌};
ghost use Rattle.seat_lock.specs.Seats.{IsIdleAt};
ghost use Rattle.shared_codec.specs.Keeps.{Keeps};
ghost use Rattle.shared_codec.specs.Looks.{EndTells};
ghost use Rattle.flush_promise.specs.Ends.{state_of};

use codec_model::PromiseState;
use coder_api::Coder;
use shared_codec::{CodecSeat, SharedCodec};
use std::sync::Wait;
use wc_base::DomError;

/// How the promise of a flush ended.
#[derive(Clone, Copy, Debug, PartialEq, Eq)]
pub enum FlushEnd {
    Resolved,
    Rejected(DomError),
}

impl FlushEnd {
    /// How a promise that stands so has ended. None exactly where it is pending.
    pub fn of(state: PromiseState) -> Option<FlushEnd>
        ensures { state_of result ≡ state }
    {
        match state {
            PromiseState::Pending => None,
            PromiseState::Resolved => Some(FlushEnd::Resolved),
            PromiseState::Rejected(error) => Some(FlushEnd::Rejected(error)),
        }
    }
}

/// The promise of the flush whose entry has this place, looked at through one seat. A place at which no flush stands is
/// pending for ever.
#[derive(Drop)]
pub struct FlushPromise<'a, C: Coder, R> {
    rt: &'a R,
    codec: &'a SharedCodec<C>,
    seat: &'a mut CodecSeat<C>,
    promise: u64,
}

impl<'a, C: Coder, R> FlushPromise<'a, C, R> {
    /// The promise of the flush at this place of a codec's history.
    pub fn new(
        rt: &'a R,
        codec: &'a SharedCodec<C>,
        seat: &'a mut CodecSeat<C>,
        promise: u64,
    ) -> FlushPromise<'a, C, R>
        requires { IsIdleAt codec.now.id seat.old }
        ensures codec { result.codec.now ≡ codec.now }
        ensures borrowed { result.seat.ghost_name ≡ seat.entry.ghost_name }
        ensures seat { result.seat.now ≡ seat.old }
        ensures promise { result.promise ≡ promise }
    {
        FlushPromise {
            rt,
            codec,
            seat,
            promise,
        }
    }
}

impl<'a, C: Coder, R: Wait> FlushPromise<'a, C, R> {
    /// How the promise has ended, by one look. None exactly where it is pending after the history that this look saw. It takes
    /// no memory.
    pub fn look(&mut self) -> Option<FlushEnd>
        requires { IsIdleAt self.old.codec.now.id self.old.seat.now }
        ensures codec { self.new.codec.now ≡ self.old.codec.now }
        ensures promise { self.new.promise ≡ self.old.promise }
        ensures borrowed { self.new.seat.ghost_name ≡ self.old.seat.ghost_name }
        ensures seat { Keeps self.old.codec.now.id self.old.seat.now self.new.seat.now }
        ensures look { EndTells self.old.codec.now self.old.promise (state_of result)
            self.old.seat.now self.new.seat.now }
    {
        let state = self.codec.end_of(self.rt, self.seat, self.promise);
        FlushEnd::of(state)
    }
}
