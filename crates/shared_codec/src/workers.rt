// Workers: one item, from its start to its end, with its acquires.
ghost use Rattle.std.specs.Prelude.{◌≡◌, ◌++◌, [], ◌∷◌, None, Some, is_some, true, Option};
ghost use Rattle.codec_core.specs.Job.{IsJobOf, IsEndOf, missing_id, outcome_of, stopped_box};
ghost use Rattle.codec_model.specs.Replay.{State};
ghost use Rattle.seat_lock.specs.Logs.{entries_of};
ghost use Rattle.seat_lock.specs.Seats.{IsSameSeat, IsIdleAt};
ghost use Rattle.seat_lock.specs.Since.{MadeSince};
ghost use Rattle.codec_logs.specs.Logs.{acquires_of, track};
ghost use Rattle.shared_pool.specs.Refs.{AreOf, IfOf};
ghost use Rattle.shared_pool.specs.Steps as pools;
ghost use Rattle.shared_slots.specs.Boxes.{IfOut};
ghost use Rattle.shared_slots.specs.Steps.{IsFree};
ghost use Rattle.wc_base.specs.declared.seat.View.{View};
ghost use Rattle.wc_pool.specs.declared.entry.PoolEntry.{PoolEntry};
ghost use Rattle.shared_codec.specs.Dues.{IsLater, gives_of, given_if};
ghost use Rattle.shared_codec.specs.Keeps.{Keeps};
ghost use Rattle.shared_codec.specs.Shared.{HasJob, MayEnd};
ghost use Rattle.shared_codec.specs.Settles.{Settles, SettlesAfter};
ghost use Rattle.shared_codec.specs.Told.{IsTold, asked_in, ending_of};
ghost use Rattle.shared_codec.specs.Workers.{EndsIf, EndsAll, IsBareOf, IsAtWork, AcquireGives};
ghost use Rattle.shared_codec.specs.Workers.{MayWork, LackIs, WorkEnds, BeginTells, FinishTells, WorkTells};

use crate::codec::{CodecSeat, SharedCodec};
use crate::passage::no_acquires;
use codec_core::{DoneJob, Job};
use codec_logs::Acquires;
use coder_api::{Coder, SlotBox, SlotEntry, SlotOp};
use shared_pool::{PoolSeat, SharedPool};
use shared_slots::{SlotRegistry, SlotSeat};
use slot_registry::AcquireFault;
use std::alloc::Global;
use std::sync::Wait;
use wc_base::By;
use wc_config::CoderId;
use wc_pool::MediaRef;
use work_moments::{Clock, Gate};

/// What became of an acquire for a job that lacks a box.
#[derive(Clone, Copy, Debug, PartialEq, Eq)]
pub enum Acquired {
    /// A box went out by this entry of the registry, and the job has it.
    Granted(SlotEntry),
    /// All boxes were out, by this entry of the registry, which has this place there.
    Refused(SlotEntry, u64),
    /// Memory was wanted, and no entry was made.
    NoMemory,
}

/// Why a job has no box that needs one.
#[derive(Clone, Copy, Debug, PartialEq, Eq)]
pub enum Lack {
    /// All boxes were out, by the entry with this place in the registry's history.
    NoSlot(u64),
    NoMemory,
}

/// The acquires that were made for a job, and why it has no box still, if it needs one.
#[derive(Clone, Copy, Debug, PartialEq, Eq)]
pub struct Tried {
    pub acquires: Acquires,
    pub lack: Option<Lack>,
}

/// One acquire.
pub fn one_acquire(entry: SlotEntry) -> Acquires
    ensures { acquires_of result ≡ entry ∷ [] }
{
    Acquires {
        first: Some(entry),
        second: None,
    }
}

/// Two acquires, one after the other.
pub fn two_acquires(first: SlotEntry, second: SlotEntry) -> Acquires
    ensures { acquires_of result ≡ first ∷ second ∷ [] }
{
    Acquires {
        first: Some(first),
        second: Some(second),
    }
}

// A box goes back by the codec's entry at this place.
fn give_if<C: Coder, R: Wait>(
    rt: &R,
    codec: u32,
    place: u64,
    slot: Option<SlotBox<C>>,
    slots: &SlotRegistry<C>,
    seat: &mut SlotSeat<C>,
)
    requires seat { IsFree slots.now.id seat.old }
    requires out { IfOut slots.now.id slot }
    requires later { IsLater codec place slot }
    ensures same { IsSameSeat seat.old seat.new }
    ensures free { IsFree slots.now.id seat.new }
    ensures made { MadeSince seat.old.me.0 seat.new.me.0 (gives_of codec place slot) }
{
    if let Some(slot) = slot {
        slots.give_back(rt, seat, By::Codec { codec, place }, slot);
    }
}

// A reference is ended by the codec's entry at this place.
fn end_if<R: Wait>(
    rt: &R,
    codec: u32,
    place: u64,
    medium: Option<MediaRef>,
    pool: &SharedPool,
    seat: &mut PoolSeat,
)
    requires seat { pools.IsFree pool.now seat.old }
    requires of { IfOf pool.now medium }
    ensures same { IsSameSeat seat.old seat.new }
    ensures free { pools.IsFree pool.now seat.new }
    ensures ends { EndsIf codec place medium seat.old.me.0 seat.new.me.0 }
{
    if let Some(medium) = medium {
        pool.end(rt, seat, By::Codec { codec, place }, medium);
    }
}

// These references are ended, one after another, by the codec's entry at this place.
fn end_each<R: Wait>(
    rt: &R,
    codec: u32,
    place: u64,
    media: Vec<MediaRef>,
    pool: &SharedPool,
    seat: &mut PoolSeat,
)
    requires seat { pools.IsFree pool.now seat.old }
    requires of { AreOf pool.now media.items }
    ensures same { IsSameSeat seat.old seat.new }
    ensures free { pools.IsFree pool.now seat.new }
    ensures ends { EndsAll codec place media.items seat.old.me.0 seat.new.me.0 }
{
    for medium in media {
        end_if(rt, codec, place, Some(medium), pool, seat);
    }
}

impl<C: Coder> SharedCodec<C> {
    // A job that lacks a box gives back the one of another coder that it came with.
    fn give_old<R: Wait>(
        &self,
        rt: &R,
        seat: &CodecSeat<C>,
        job: &mut Job<C>,
        slots: &SlotRegistry<C>,
        slot_seat: &mut SlotSeat<C>,
    )
        requires has { HasJob self.now seat.now.me.0 job.old }
        requires later { is_some (missing_id job.old) ≡ true
            → IsLater self.now.codec job.old.place job.old.coder }
        requires slots { slots.now.id ≡ self.now.slots }
        requires slot_seat { IsFree slots.now.id slot_seat.old }
        ensures same { IsSameSeat slot_seat.old slot_seat.new }
        ensures free { IsFree slots.now.id slot_seat.new }
        ensures bare { IsBareOf job.old job.new }
        ensures work { IsAtWork self.now seat.now.me.0 (missing_id job.old) job.new [] }
        ensures made { MadeSince slot_seat.old.me.0 slot_seat.new.me.0
            (given_if self.now.codec (missing_id job.old) job.old.place job.old.coder) }
    {
        let _ = seat;
        match job.lacks() {
            None => {}
            Some(_) => {
                let place = job.place();
                let old = job.take_box();
                give_if(rt, self.codec, place, old, slots, slot_seat);
            }
        }
    }

    /// An item starts, as `start` has it. Where its job lacks a box, the one of another coder that it came with has gone back.
    /// None exactly where no item may start. It takes no memory.
    pub fn start_once<R: Wait>(
        &self,
        rt: &R,
        seat: &mut CodecSeat<C>,
        slots: &SlotRegistry<C>,
        slot_seat: &mut SlotSeat<C>,
    ) -> Option<Job<C>>
        requires seat { IsIdleAt self.now.id seat.old }
        requires slots { slots.now.id ≡ self.now.slots }
        requires slot_seat { IsFree slots.now.id slot_seat.old }
        ensures kept { Keeps self.now.id seat.old seat.new }
        ensures kept_slots { Keeps slots.now.id slot_seat.old slot_seat.new }
        ensures free_slots { IsFree slots.now.id slot_seat.new }
        ensures begins { BeginTells self.now result seat.old seat.new }
        ensures settles { (p : View PoolEntry) → Settles self.now seat.old.me.0 seat.new.me.0
            slot_seat.old.me.0 slot_seat.new.me.0 p p }
    {
        let Some(mut job) = self.start(rt, seat) else {
            return None;
        };
        self.give_old(rt, seat, &mut job, slots, slot_seat);
        Some(job)
    }

    /// An acquire for a job of this codec that lacks a box of this coder and has none. Where one goes out, the job has it.
    pub fn acquire_once<R: Wait>(
        &self,
        rt: &R,
        job: &mut Job<C>,
        id: CoderId,
        slots: &SlotRegistry<C>,
        slot_seat: &mut SlotSeat<C>,
    ) -> Acquired
        requires lacks { missing_id job.old ≡ Some id }
        requires none { job.old.coder ≡ None }
        requires slot_seat { IsFree slots.now.id slot_seat.old }
        ensures same { IsSameSeat slot_seat.old slot_seat.new }
        ensures free { IsFree slots.now.id slot_seat.new }
        ensures acquired { AcquireGives slots.now self.now.codec id result job.old job.new
            slot_seat.old.me.0 slot_seat.new.me.0 }
    {
        let by = By::Codec {
            codec: self.codec,
            place: job.place(),
        };
        match slots.acquire(rt, slot_seat, by, id) {
            Ok(slot) => {
                let number = slot.number();
                job.put_box(slot);
                let op = SlotOp::Acquire { id, number };
                Acquired::Granted(SlotEntry { by, op })
            }
            Err(AcquireFault::NoSlot { entry, out, made }) => {
                let op = SlotOp::Refused { id, out, made };
                Acquired::Refused(SlotEntry { by, op }, entry)
            }
            Err(AcquireFault::NoMemory) => Acquired::NoMemory,
        }
    }

    /// The work of a job that leaves its codec: it passes the gate and is performed, or ends for what it lacks.
    pub fn work_job<G: Gate>(
        &self,
        alloc: Global,
        job: Job<C>,
        lack: Option<Lack>,
        gate: &mut G,
    ) -> DoneJob<C>
        requires { MayWork lack job }
        ensures end { (s : State) → IsJobOf s job → IsEndOf s result }
        ensures same { stopped_box result.coder ≡ stopped_box job.coder }
        ensures ends { WorkEnds lack job result.ended }
    {
        match lack {
            None => {
                let (epoch, item) = job.number();
                gate.pass(self.codec, epoch, item);
                job.perform(alloc)
            }
            Some(Lack::NoSlot(entry)) => job.no_slot(entry),
            Some(Lack::NoMemory) => job.no_memory(),
        }
    }

    /// The item at work ends, as `done` has it, with the acquires that were made for it; what its end lets go has gone back by
    /// its entry. Answers the entry's place. It takes no memory.
    pub fn end_once<R: Wait>(
        &self,
        rt: &R,
        seat: &mut CodecSeat<C>,
        done: DoneJob<C>,
        acquires: Acquires,
        moment: u64,
        slots: &SlotRegistry<C>,
        slot_seat: &mut SlotSeat<C>,
        pool: &SharedPool,
        pool_seat: &mut PoolSeat,
    ) -> u64
        requires seat { IsIdleAt self.now.id seat.old }
        requires own { MayEnd self.now seat.old.me.0 done (acquires_of acquires) }
        requires told { let asked = asked_in (track self.now.opening seat.old.me.0.log) in
            IsTold (entries_of slot_seat.old.me.0.log)
            (ending_of asked (acquires_of acquires) (outcome_of done.ended)) }
        requires slots { slots.now.id ≡ self.now.slots }
        requires pool { pool.now ≡ self.now.pool }
        requires slot_seat { IsFree slots.now.id slot_seat.old }
        requires pool_seat { pools.IsFree pool.now pool_seat.old }
        ensures kept { Keeps self.now.id seat.old seat.new }
        ensures kept_slots { Keeps slots.now.id slot_seat.old slot_seat.new }
        ensures free_slots { IsFree slots.now.id slot_seat.new }
        ensures kept_pool { Keeps pool.now pool_seat.old pool_seat.new }
        ensures free_pool { pools.IsFree pool.now pool_seat.new }
        ensures ended { FinishTells self.now done (acquires_of acquires) moment result
            seat.old seat.new }
        ensures settles { SettlesAfter (acquires_of acquires) self.now
            seat.old.me.0 seat.new.me.0 slot_seat.old.me.0 slot_seat.new.me.0
            pool_seat.old.me.0 pool_seat.new.me.0 }
    {
        let ended = self.done(rt, seat, done, acquires, moment);
        end_if(rt, self.codec, ended.place, ended.media, pool, pool_seat);
        give_if(rt, self.codec, ended.place, ended.coder, slots, slot_seat);
        ended.place
    }

    /// What an entry of this codec let go goes back: each reference is ended, in order, and then the box is given back, by
    /// the entry at this place. It takes no memory.
    pub fn let_go<R: Wait>(
        &self,
        rt: &R,
        place: u64,
        media: Vec<MediaRef>,
        coder: Option<SlotBox<C>>,
        slots: &SlotRegistry<C>,
        slot_seat: &mut SlotSeat<C>,
        pool: &SharedPool,
        pool_seat: &mut PoolSeat,
    )
        requires slots { slots.now.id ≡ self.now.slots }
        requires pool { pool.now ≡ self.now.pool }
        requires slot_seat { IsFree slots.now.id slot_seat.old }
        requires pool_seat { pools.IsFree pool.now pool_seat.old }
        requires media { AreOf self.now.pool media.items }
        requires coder { IfOut self.now.slots coder }
        requires later { IsLater self.now.codec place coder }
        ensures kept_slots { Keeps slots.now.id slot_seat.old slot_seat.new }
        ensures free_slots { IsFree slots.now.id slot_seat.new }
        ensures kept_pool { Keeps pool.now pool_seat.old pool_seat.new }
        ensures free_pool { pools.IsFree pool.now pool_seat.new }
        ensures ended { EndsAll self.now.codec place media.items
            pool_seat.old.me.0 pool_seat.new.me.0 }
        ensures given { MadeSince slot_seat.old.me.0 slot_seat.new.me.0
            (gives_of self.now.codec place coder) }
    {
        end_each(rt, self.codec, place, media, pool, pool_seat);
        give_if(rt, self.codec, place, coder, slots, slot_seat);
    }

    // One acquire for a job that lacks a box; none for one that lacks none.
    fn try_once<R: Wait>(
        &self,
        rt: &R,
        seat: &CodecSeat<C>,
        job: &mut Job<C>,
        slots: &SlotRegistry<C>,
        slot_seat: &mut SlotSeat<C>,
    ) -> Tried
        requires work { IsAtWork self.now seat.now.me.0 (missing_id job.old) job.old [] }
        requires none { is_some (missing_id job.old) ≡ true → job.old.coder ≡ None }
        requires slots { slots.now.id ≡ self.now.slots }
        requires slot_seat { IsFree slots.now.id slot_seat.old }
        ensures same { IsSameSeat slot_seat.old slot_seat.new }
        ensures free { IsFree slots.now.id slot_seat.new }
        ensures work { IsAtWork self.now seat.now.me.0 (missing_id job.old) job.new
            (acquires_of result.acquires) }
        ensures made { MadeSince slot_seat.old.me.0 slot_seat.new.me.0
            (acquires_of result.acquires) }
        ensures may { MayWork result.lack job.new }
        ensures lack { LackIs (entries_of slot_seat.new.me.0.log) (missing_id job.old)
            (acquires_of result.acquires) result.lack }
    {
        let _ = seat;
        let Some(id) = job.lacks() else {
            return Tried {
                acquires: no_acquires(),
                lack: None,
            };
        };
        match self.acquire_once(rt, job, id, slots, slot_seat) {
            Acquired::Granted(entry) => Tried {
                acquires: one_acquire(entry),
                lack: None,
            },
            Acquired::Refused(entry, place) => Tried {
                acquires: one_acquire(entry),
                lack: Some(Lack::NoSlot(place)),
            },
            Acquired::NoMemory => Tried {
                acquires: no_acquires(),
                lack: Some(Lack::NoMemory),
            },
        }
    }

    /// One item, from its start to its end: at most one acquire, the gate, its work, and what its end lets go. The moment of the
    /// end is read after the work. None exactly where no item may start. Answers the place of the end.
    pub fn work_once<K: Clock, G: Gate, R: Wait>(
        &self,
        rt: &R,
        alloc: Global,
        seat: &mut CodecSeat<C>,
        slots: &SlotRegistry<C>,
        slot_seat: &mut SlotSeat<C>,
        pool: &SharedPool,
        pool_seat: &mut PoolSeat,
        clock: &mut K,
        gate: &mut G,
    ) -> Option<u64>
        requires seat { IsIdleAt self.now.id seat.old }
        requires slots { slots.now.id ≡ self.now.slots }
        requires pool { pool.now ≡ self.now.pool }
        requires slot_seat { IsFree slots.now.id slot_seat.old }
        requires pool_seat { pools.IsFree pool.now pool_seat.old }
        ensures kept { Keeps self.now.id seat.old seat.new }
        ensures kept_slots { Keeps slots.now.id slot_seat.old slot_seat.new }
        ensures free_slots { IsFree slots.now.id slot_seat.new }
        ensures kept_pool { Keeps pool.now pool_seat.old pool_seat.new }
        ensures free_pool { pools.IsFree pool.now pool_seat.new }
        ensures work { WorkTells self.now result (K.told clock.old) (K.told clock.new)
            seat.old seat.new }
        ensures settles { Settles self.now seat.old.me.0 seat.new.me.0
            slot_seat.old.me.0 slot_seat.new.me.0 pool_seat.old.me.0 pool_seat.new.me.0 }
    {
        let Some(mut job) = self.start_once(rt, seat, slots, slot_seat) else {
            return None;
        };
        let tried = self.try_once(rt, seat, &mut job, slots, slot_seat);
        let done = self.work_job(alloc, job, tried.lack, gate);
        let moment = clock.now();
        Some(self.end_once(
            rt,
            seat,
            done,
            tried.acquires,
            moment,
            slots,
            slot_seat,
            pool,
            pool_seat,
        ))
    }
}
