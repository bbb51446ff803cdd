// One item of a codec of a desk: its start, its box, its work and its end.
ghost use Rattle.std.specs.Prelude.{ℕ, ◌≡◌, ◌<◌, true, [], ◌∷◌, List, None, Option, Some, is_some, length, slice_get};
ghost use Rattle.codec_core.specs.Job.{missing_id};
ghost use Rattle.codec_logs.specs.Logs.{acquires_of};
ghost use Rattle.seat_lock.specs.Logs.{entries_of};
ghost use Rattle.shared_codec.specs.declared.workers.Acquired.{Acquired};
ghost use Rattle.shared_codec.specs.declared.workers.Lack.TheVariants as lack;
ghost use Rattle.shared_codec.specs.Keeps.{Keeps};
ghost use Rattle.shared_codec.specs.Looks.{HoldingTells};
ghost use Rattle.shared_codec.specs.Settled.{ReclaimOnceTells};
ghost use Rattle.shared_codec.specs.Shared.{Shared};
ghost use Rattle.shared_codec.specs.Told.{StandIn};
ghost use Rattle.shared_codec.specs.Workers.{AcquireGives, BeginTells};
ghost use Rattle.shared_pool.specs.Steps as pools;
ghost use Rattle.shared_slots.specs.Steps as registries;
ghost use Rattle.work_moments.specs.Moments.{Telling, Given};
ghost use Rattle.codec_desk.specs.Clocks.{Clocked};
ghost use Rattle.codec_desk.specs.Desks.{SitAt, Settled};
ghost use Rattle.codec_desk.specs.Each.{OneAt, IsAt};
ghost use Rattle.codec_desk.specs.Items.{EndsIn, MayEndAt, Meanwhile, OnlySlots, Seeks, Sought, WorksAt};
ghost use Rattle.codec_desk.specs.Items.{made_by, lack_of};
ghost use Rattle.codec_desk.specs.Named.{Calls};
ghost use Rattle.codec_desk.specs.Rests.{Rested, Served, Stirred, NoItem};
ghost use Rattle.codec_desk.specs.Rooms.{AcquiresOnce, BoxSought, ItemTells, SoughtAgain};
ghost use Rattle.codec_desk.specs.Runs.{EachRunsNone};

use crate::desk::{Desk, Seats};
use crate::rooms::{Room, make_room};
use codec_core::{DoneJob, Job};
use codec_logs::Acquires;
use codec_model::Kind;
use coder_api::{Coder, SlotEntry};
use shared_codec::{Acquired, Lack, Tried, dues_add_up, no_acquires, one_acquire, two_acquires};
use std::alloc::Global;
use std::sync::Wait;
use wc_base::Ground;
use wc_config::CoderId;
use work_moments::{Clock, Gate};

// What decides over a reclaim of a codec, in one look.
pub(crate) fn look_at_holding<C: Coder, R: Wait>(
    rt: &R,
    desk: &Desk<C>,
    seats: &mut Seats<C>,
    codec: usize,
) -> (Option<u64>, Ground, Kind)
    requires sits { SitAt desk.now seats.old }
    requires codec { codec < length desk.now.codecs.items }
    ensures looked { OneAt codec (λ s a b. HoldingTells s result a b)
        desk.now.codecs.items seats.old.codecs.items seats.new.codecs.items }
    ensures meanwhile { (t : Telling)
        → Meanwhile desk.now t t seats.old seats.new }
{
    dues_add_up();
    desk.codecs[codec].holding(rt, &mut seats.codecs[codec])
}

// A reclaim of a codec at a moment in microseconds, where it may be; what it lets go has gone back. It takes no memory.
pub(crate) fn reclaim_codec<C: Coder, R: Wait>(
    rt: &R,
    desk: &Desk<C>,
    seats: &mut Seats<C>,
    codec: usize,
    now: u64,
) -> Option<u64>
    requires sits { SitAt desk.now seats.old }
    requires codec { codec < length desk.now.codecs.items }
    ensures reclaimed { OneAt codec (λ s a b. ReclaimOnceTells s now result a b)
        desk.now.codecs.items seats.old.codecs.items seats.new.codecs.items }
    ensures meanwhile { (t u : Telling) → Given t (now ∷ []) u
        → Meanwhile desk.now t u seats.old seats.new }
{
    dues_add_up();
    desk.codecs[codec].reclaim_once(
        rt,
        &mut seats.codecs[codec],
        now,
        &desk.slots,
        &mut seats.slots,
        &desk.pool,
        &mut seats.pool,
    )
}

// The start of an item of a codec; where its job lacks a box, the one that it came with has gone back.
fn start_item<C: Coder, R: Wait>(
    rt: &R,
    desk: &Desk<C>,
    seats: &mut Seats<C>,
    codec: usize,
) -> Option<Job<C>>
    requires sits { SitAt desk.now seats.old }
    requires codec { codec < length desk.now.codecs.items }
    ensures sits { SitAt desk.now seats.new }
    ensures begins { OneAt codec (λ s a b. BeginTells s result a b)
        desk.now.codecs.items seats.old.codecs.items seats.new.codecs.items }
    ensures settled { Settled desk.now seats.old seats.new }
{
    dues_add_up();
    desk.codecs[codec].start_once(rt, &mut seats.codecs[codec], &desk.slots, &mut seats.slots)
}

// An acquire for the job of a codec's item that lacks a box and has none.
fn acquire_at<C: Coder, R: Wait>(
    rt: &R,
    desk: &Desk<C>,
    seats: &mut Seats<C>,
    codec: usize,
    job: &mut Job<C>,
    id: CoderId,
) -> Acquired
    requires sits { SitAt desk.now seats.old }
    requires codec { codec < length desk.now.codecs.items }
    requires lacks { missing_id job.old ≡ Some id }
    requires none { job.old.coder ≡ None }
    ensures only { OnlySlots desk.now seats.old seats.new }
    ensures gives { (s : Shared) → slice_get desk.now.codecs.items codec ≡ Some s
        → AcquireGives desk.now.slots s.codec id result job.old job.new
        seats.old.slots.me.0 seats.new.slots.me.0 }
{
    desk.codecs[codec].acquire_once(rt, job, id, &desk.slots, &mut seats.slots)
}

// The second acquire for a job, after the first was refused.
fn acquire_again<C: Coder, R: Wait>(
    rt: &R,
    desk: &Desk<C>,
    seats: &mut Seats<C>,
    codec: usize,
    job: &mut Job<C>,
    id: CoderId,
    first: SlotEntry,
) -> Tried
    requires sits { SitAt desk.now seats.old }
    requires codec { codec < length desk.now.codecs.items }
    requires lacks { missing_id job.old ≡ Some id }
    requires none { job.old.coder ≡ None }
    requires stands { StandIn (first ∷ []) (entries_of seats.old.slots.me.0.log) }
    ensures acquires { (r : Acquired)
        × AcquiresOnce desk.now codec id r job.old job.new seats.old seats.new
        × (acquires_of result.acquires ≡ first ∷ made_by r) × (result.lack ≡ lack_of r) }
    ensures sought { (t u : Telling) (a : Seats C)
        → Seeks desk.now codec (Some id) job.old (first ∷ []) t u a seats.old
        → Sought desk.now codec (Some id) job.new (acquires_of result.acquires) result.lack
        t u a seats.new }
{
    match acquire_at(rt, desk, seats, codec, job, id) {
        Acquired::Granted(entry) => Tried {
            acquires: two_acquires(first, entry),
            lack: None,
        },
        Acquired::Refused(entry, place) => Tried {
            acquires: two_acquires(first, entry),
            lack: Some(Lack::NoSlot(place)),
        },
        Acquired::NoMemory => Tried {
            acquires: one_acquire(first),
            lack: Some(Lack::NoMemory),
        },
    }
}

// A job whose first acquire was refused, by the entry with this place: room is looked for, and where a codec was picked there is a
// second acquire.
fn seek_again<C: Coder, K: Clock, R: Wait>(
    rt: &R,
    alloc: Global,
    desk: &Desk<C>,
    seats: &mut Seats<C>,
    codec: usize,
    job: &mut Job<C>,
    id: CoderId,
    first: SlotEntry,
    place: u64,
    clock: &mut K,
) -> Tried
    requires sits { SitAt desk.now seats.old }
    requires codec { codec < length desk.now.codecs.items }
    requires lacks { missing_id job.old ≡ Some id }
    requires none { job.old.coder ≡ None }
    requires stands { StandIn (first ∷ []) (entries_of seats.old.slots.me.0.log) }
    ensures again { SoughtAgain desk.now codec id first place job.old job.new
        (acquires_of result.acquires) result.lack
        (K.told clock.old) (K.told clock.new) seats.old seats.new }
    ensures sought { (t : Telling) (a : Seats C)
        → Sought desk.now codec (Some id) job.old (first ∷ []) (Some (lack.NoSlot place))
        t (K.told clock.old) a seats.old
        → Sought desk.now codec (Some id) job.new (acquires_of result.acquires) result.lack
        t (K.told clock.new) a seats.new }
{
    match make_room(rt, alloc, desk, seats, clock) {
        Room::Picked(_) => acquire_again(rt, desk, seats, codec, job, id, first),
        Room::Unpicked => Tried {
            acquires: one_acquire(first),
            lack: Some(Lack::NoSlot(place)),
        },
        Room::NoMemory => Tried {
            acquires: one_acquire(first),
            lack: Some(Lack::NoMemory),
        },
    }
}

// A box for a job that lacks one: an acquire, and where that was refused and a codec could be picked, its reclaim and a second
// acquire.
fn seek_box<C: Coder, K: Clock, R: Wait>(
    rt: &R,
    alloc: Global,
    desk: &Desk<C>,
    seats: &mut Seats<C>,
    codec: usize,
    job: &mut Job<C>,
    clock: &mut K,
) -> Tried
    requires sits { SitAt desk.now seats.old }
    requires codec { codec < length desk.now.codecs.items }
    requires works { WorksAt desk.now codec (missing_id job.old) job.old [] seats.old }
    requires bare { is_some (missing_id job.old) ≡ true → job.old.coder ≡ None }
    ensures sits { SitAt desk.now seats.new }
    ensures boxed { BoxSought (missing_id job.old) desk.now codec job.old job.new
        (acquires_of result.acquires) result.lack
        (K.told clock.old) (K.told clock.new) seats.old seats.new }
    ensures sought { Sought desk.now codec (missing_id job.old) job.new
        (acquires_of result.acquires) result.lack
        (K.told clock.old) (K.told clock.new) seats.old seats.new }
{
    let Some(id) = job.lacks() else {
        return Tried {
            acquires: no_acquires(),
            lack: None,
        };
    };
    match acquire_at(rt, desk, seats, codec, job, id) {
        Acquired::Granted(entry) => Tried {
            acquires: one_acquire(entry),
            lack: None,
        },
        Acquired::Refused(entry, place) => seek_again(
            rt, alloc, desk, seats, codec, job, id, entry, place, clock,
        ),
        Acquired::NoMemory => Tried {
            acquires: no_acquires(),
            lack: Some(Lack::NoMemory),
        },
    }
}

// The end of an item of a codec at a moment in microseconds, with its acquires, and what it lets go. It takes no memory.
fn end_item<C: Coder, R: Wait>(
    rt: &R,
    desk: &Desk<C>,
    seats: &mut Seats<C>,
    codec: usize,
    done: DoneJob<C>,
    acquires: Acquires,
    moment: u64,
) -> u64
    requires sits { SitAt desk.now seats.old }
    requires codec { codec < length desk.now.codecs.items }
    requires may { MayEndAt desk.now codec done (acquires_of acquires) seats.old }
    ensures ends { OneAt codec (EndsIn (acquires_of acquires) done moment result
        seats.old.slots.me.0 seats.new.slots.me.0 seats.old.pool.me.0 seats.new.pool.me.0)
        desk.now.codecs.items seats.old.codecs.items seats.new.codecs.items }
    ensures kept_slots { Keeps desk.now.slots.id seats.old.slots seats.new.slots }
    ensures free_slots { registries.IsFree desk.now.slots.id seats.new.slots }
    ensures kept_pool { Keeps desk.now.pool seats.old.pool seats.new.pool }
    ensures free_pool { pools.IsFree desk.now.pool seats.new.pool }
{
    desk.codecs[codec].end_once(
        rt,
        &mut seats.codecs[codec],
        done,
        acquires,
        moment,
        &desk.slots,
        &mut seats.slots,
        &desk.pool,
        &mut seats.pool,
    )
}

/// One item of a codec, from its start to its end: its box, the gate, its work, and what its end lets go. Where its
/// box is not free it looks at each codec, and one that may be reclaimed is, before a second acquire. An item that has
/// no box ends for what it lacks, and else as its codec's definition answers or out of memory inside its coder. The
/// moment of the end is one that the clock gave after the work. None exactly where no item may start; else the seats
/// made an entry. Answers the place of the end.
pub fn work_item<C: Coder, K: Clock, G: Gate, R: Wait>(
    rt: &R,
    alloc: Global,
    desk: &Desk<C>,
    seats: &mut Seats<C>,
    codec: usize,
    clock: &mut K,
    gate: &mut G,
) -> Option<u64>
    requires sits { SitAt desk.now seats.old }
    requires codec { codec < length desk.now.codecs.items }
    ensures sits { SitAt desk.now seats.new }
    ensures worked { ItemTells desk.now codec result (K.told clock.old) (K.told clock.new)
        seats.old seats.new }
    ensures rests { result ≡ None → OneAt codec (Rested NoItem)
        desk.now.codecs.items seats.old.codecs.items seats.new.codecs.items }
    ensures served { IsAt codec (Served NoItem)
        desk.now.codecs.items seats.old.codecs.items seats.new.codecs.items }
    ensures stirs { is_some result ≡ true → IsAt codec Stirred
        desk.now.codecs.items seats.old.codecs.items seats.new.codecs.items }
    ensures settled { Settled desk.now seats.old seats.new }
    ensures calls { Calls desk.now [] seats.old seats.new }
    ensures runs { EachRunsNone desk.now.codecs.items seats.old.codecs.items
        → EachRunsNone desk.now.codecs.items seats.new.codecs.items }
    ensures timed { Clocked desk.now seats.old seats.new (K.told clock.old) (K.told clock.new) }
{
    dues_add_up();
    let Some(mut job) = start_item(rt, desk, seats, codec) else {
        return None;
    };
    let tried = seek_box(rt, alloc, desk, seats, codec, &mut job, clock);
    let done = desk.codecs[codec].work_job(alloc, job, tried.lack, gate);
    let moment = clock.now();
    Some(end_item(rt, desk, seats, codec, done, tried.acquires, moment))
}
