// The codec behind its lock.
ghost use Rattle.std.specs.Prelude.{◌≡◌, ◌≤◌, ◌^◌, IfOk};
ghost use Rattle.seat_lock.specs.Passages.{IsNewSeat, IsUnion};
ghost use Rattle.seat_lock.specs.Seats.{IsSameSeat, IsIdleAt, HasView, Becomes};
ghost use Rattle.seat_lock.specs.Seats.{first_view, less_part};
ghost use Rattle.shared_codec.specs.Shared.{FinishedAs};

use codec_logs::Event;
use codec_media::HoldingCore;
use codec_model::{Kind, Opening};
use coder_api::Coder;
use seat_lock::{Seat, SeatLock, Told};
use shared_pool::SharedPool;
use shared_slots::SlotRegistry;
use std::alloc::Global;
use std::marker::Model;
use std::snapshot::Snapshot;
use wc_base::NoMemory;

/// What is fixed when a codec is opened: its number, its opening, the number of places for calls that send no message, and
/// its pool and registry.
#[derive(Drop)]
pub struct About<C: Coder> {
    pub codec: u32,
    pub opening: Opening,
    pub calls: u64,
    pub pool: Snapshot<SharedPool>,
    pub slots: Snapshot<SlotRegistry<C>>,
}

/// A codec in its lock. It stands for the lists of passages that are its history (`StandsFor`). It is boxed, since each passage
/// moves what is locked.
#[derive(Drop)]
pub struct Locked<C: Coder> {
    pub core: Box<HoldingCore<C>>,
}

impl<C: Coder> Told for Locked<C> {
    ghost use Rattle.shared_codec.specs.Shared.{no_mint, no_spend, StandsFor};

    type Entry = Event;

    type About = About<C>;

    ghost mints = { no_mint };

    ghost spends = { no_spend };

    ghost tells = { λ about x log. StandsFor about.codec about.opening about.calls about.pool.value about.slots.value.id x.core.value log };
}

/// A seat at a shared codec, with which one thread at a time makes its calls.
pub type CodecSeat<C> = Seat<Locked<C>>;

/// A codec that threads share, each by a seat of its own. The references that it holds are of one shared pool, and its box
/// is of one shared registry.
pub struct SharedCodec<C: Coder> {
    pub(crate) lock: SeatLock<Locked<C>>,
    pub(crate) codec: u32,
}

impl<C: Coder> Model for SharedCodec<C> {
    ghost use Rattle.std.specs.Prelude.{◌≡◌};
    ghost use Rattle.shared_codec.specs.Shared.{Shared};

    ghost Value = { Shared };

    ghost view = { λ s. record { id = s.lock.id; codec = s.lock.about.codec; opening = s.lock.about.opening; calls = s.lock.about.calls; pool = s.lock.about.pool.value; slots = s.lock.about.slots.value.id } };

    ghost invariant = { λ s. s.codec ≡ s.lock.about.codec };
}

impl<C: Coder> SharedCodec<C> {
    /// A codec with an empty history, with its number, and its first seat, which has all 2^32 parts. It has places for so
    /// many calls that send no message.
    pub fn open(
        alloc: Global,
        codec: u32,
        kind: Kind,
        saturation: u32,
        calls: u64,
        pool: &SharedPool,
        slots: &SlotRegistry<C>,
    ) -> Result<(SharedCodec<C>, CodecSeat<C>), NoMemory>
        requires low { 1 ≤ saturation }
        requires high { saturation ≤ 64 }
        ensures codec { IfOk result (λ r. r.0.codec ≡ codec) }
        ensures opening { IfOk result
            (λ r. r.0.opening ≡ record { kind = kind; saturation = saturation }) }
        ensures calls { IfOk result (λ r. r.0.calls ≡ calls) }
        ensures pool { IfOk result (λ r. r.0.pool ≡ pool.now) }
        ensures slots { IfOk result (λ r. r.0.slots ≡ slots.now.id) }
        ensures seat { IfOk result (λ r. (r.1.table_id ≡ r.0.id) × HasView first_view r.1) }
    {
        let core = HoldingCore::open(alloc, kind, saturation, calls)?;
        let Ok(core) = Box::new(alloc, core) else {
            return Err(NoMemory);
        };
        let about = About {
            codec,
            opening: Opening { kind, saturation },
            calls,
            pool: Snapshot::of(pool),
            slots: Snapshot::of(slots),
        };
        let (lock, seat) = SeatLock::open(alloc, Locked { core }, &about)?;
        Ok((SharedCodec { lock, codec }, seat))
    }

    /// Its number.
    pub fn number(&self) -> u32
        ensures { result ≡ self.now.codec }
    {
        self.codec
    }

    /// One part of a seat goes to a new seat, which has seen what it has and has made nothing. It takes no memory.
    pub fn split(&self, seat: &mut CodecSeat<C>) -> CodecSeat<C>
        requires seat { IsIdleAt self.now.id seat.old }
        requires parts { 2 ≤ seat.old.me.0.parts }
        ensures old { Becomes (less_part seat.old.me.0) seat.old seat.new }
        ensures new { (result.table_id ≡ self.now.id) × IsNewSeat seat.old.me.0 result }
    {
        self.lock.split(seat)
    }

    /// A seat takes in another one: its parts and its passages. It has then seen the longer of both logs. It takes no memory.
    pub fn join(&self, into: &mut CodecSeat<C>, from: CodecSeat<C>)
        requires into { IsIdleAt self.now.id into.old }
        requires from { IsIdleAt self.now.id from }
        ensures { IsSameSeat into.old into.new × IsUnion into.old.me.0 from.me.0 into.new }
    {
        self.lock.join(into, from);
    }

    /// The codec, once every other seat was joined to this one: it has all 2^32 parts. The codec stands for all that the seat
    /// has seen, each passage of which is of one of the seats that were joined. It takes no memory.
    pub fn finish(self, seat: CodecSeat<C>) -> HoldingCore<C>
        requires seat { IsIdleAt self.id seat }
        requires parts { seat.me.0.parts ≡ 2 ^ 32 }
        ensures { FinishedAs self result seat.me.0 }
    {
        let SharedCodec { lock, codec: _ } = self;
        let Locked { core } = lock.close(seat);
        Box::into_inner(core)
    }
}
