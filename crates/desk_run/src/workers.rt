// Workers and a turner on a desk, each in a thread.
ghost use Rattle.std.specs.Prelude.{ℕ, ◌≡◌, ◌+◌, ◌-◌, ◌≤◌, [], length, vec_capacity, IfOk, IfErr};
ghost use Rattle.codec_desk.specs.Desks.{SitAt};
ghost use Rattle.desk_threads.specs.Parts.{HaveParts};
ghost use Rattle.desk_threads.specs.Rested.{CameToRest};
ghost use Rattle.desk_run.specs.Going.{GoesOn, MayJoin, AllMayJoin};

use codec_desk::{Clock, Desk, Gate, Seats, Watch};
use coder_api::Coder;
use desk_threads::{Job, Role, join_seats, order_stands, run_jobs, settle_desk, split_seats};
use std::alloc::Global;
use std::sync::Wait;
use std::sync::atomic::AtomicU64;
use std::thread::Threads;
use wc_base::NoMemory;

// A job with seats that are split off.
fn make_job<C: Coder, K: Drop, G: Drop>(
    alloc: Global,
    desk: &Desk<C>,
    seats: &mut Seats<C>,
    role: Role,
    watch: Watch<K, G>,
) -> Result<Job<C, K, G>, NoMemory>
    requires sits { SitAt desk.now seats.old }
    requires parts { HaveParts seats.old.pool.me.0.parts seats.old }
    requires two { 2 ≤ seats.old.pool.me.0.parts }
    ensures joins { IfOk result (MayJoin desk.now) }
    ensures goes { GoesOn desk.now seats.old seats.new }
    ensures parts { IfOk result (λ job. HaveParts (seats.old.pool.me.0.parts - 1) seats.new) }
    ensures same { IfErr result (λ e. seats.new ≡ seats.old) }
{
    order_stands::<C>();
    let codecs = Vec::with_capacity(alloc, desk.codecs.len())?;
    Ok(Job {
        role,
        seats: split_seats(desk, seats, codecs),
        watch,
    })
}

// A job for each clock with its gate, as far as there is memory: first a turner, and then workers.
fn make_jobs<C: Coder, K: Drop, G: Drop>(
    alloc: Global,
    desk: &Desk<C>,
    seats: &mut Seats<C>,
    watches: Vec<Watch<K, G>>,
    jobs: &mut Vec<Job<C, K, G>>,
)
    requires sits { SitAt desk.now seats.old }
    requires parts { HaveParts seats.old.pool.me.0.parts seats.old }
    requires few { length watches.items + 1 ≤ seats.old.pool.me.0.parts }
    requires empty { jobs.old.items ≡ [] }
    requires room { length watches.items ≤ vec_capacity jobs.old }
    ensures joins { AllMayJoin desk.now jobs.new.items }
    ensures goes { GoesOn desk.now seats.old seats.new }
    ensures parts { (n : ℕ) × HaveParts n seats.new
        × (n + length jobs.new.items ≡ seats.old.pool.me.0.parts) }
{
    let mut role = Role::Turner;
    for watch in watches {
        let Ok(job) = make_job(alloc, desk, seats, role, watch) else {
            return;
        };
        jobs.push_reserved(job);
        role = Role::Worker;
    }
}

// Joins the seats of jobs into these, one after the other. It takes no memory.
fn join_all<C: Coder, K: Drop, G: Drop>(
    desk: &Desk<C>,
    seats: &mut Seats<C>,
    jobs: Vec<Job<C, K, G>>,
)
    requires sits { SitAt desk.now seats.old }
    requires jobs { AllMayJoin desk.now jobs.items }
    ensures goes { GoesOn desk.now seats.old seats.new }
    ensures parts { (n : ℕ) → HaveParts n seats.old
        → HaveParts (n + length jobs.items) seats.new }
{
    order_stands::<C>();
    for job in jobs {
        let Job { seats: other, .. } = job;
        join_seats(desk, seats, other);
    }
}

// A turner and workers, each in a thread of its own where one can be made, as many as there is
// memory for.
fn run_threads<C: Coder, K: Clock + Send + Drop, G: Gate + Send + Drop, R: Threads + Wait + Sync>(
    rt: &R,
    alloc: Global,
    desk: &Desk<C>,
    seats: &mut Seats<C>,
    watches: Vec<Watch<K, G>>,
)
    requires sits { SitAt desk.now seats.old }
    requires parts { HaveParts seats.old.pool.me.0.parts seats.old }
    requires few { length watches.items + 1 ≤ seats.old.pool.me.0.parts }
    ensures goes { GoesOn desk.now seats.old seats.new }
    ensures parts { HaveParts seats.old.pool.me.0.parts seats.new }
{
    order_stands::<C>();
    let Ok(mut jobs) = Vec::with_capacity(alloc, watches.len()) else {
        return;
    };
    make_jobs(alloc, desk, seats, watches, &mut jobs);
    let callers = AtomicU64::new(0);
    run_jobs(rt, alloc, desk, &callers, jobs.as_mut_slice());
    join_all(desk, seats, jobs);
}

/// A turner and workers, each in a thread of its own where one can be made, with a clock and a gate
/// for each;
/// and then all that is left to do. All calls were made before. Where memory is wanted for a
/// thread's seats, fewer threads work. The seats have all their parts again, and came to rest: they
/// looked at each codec, no item could start and no task was queued, and they made no entry since.
pub fn run_workers<
    C: Coder,
    K: Clock + Send + Drop,
    G: Gate + Send + Drop,
    R: Threads + Wait + Sync,
>(
    rt: &R,
    alloc: Global,
    desk: &Desk<C>,
    seats: &mut Seats<C>,
    watches: Vec<Watch<K, G>>,
    clock: &mut K,
    gate: &mut G,
)
    requires sits { SitAt desk.now seats.old }
    requires parts { HaveParts seats.old.pool.me.0.parts seats.old }
    requires few { length watches.items + 1 ≤ seats.old.pool.me.0.parts }
    ensures goes { GoesOn desk.now seats.old seats.new }
    ensures parts { HaveParts seats.old.pool.me.0.parts seats.new }
    ensures rested { (a : Seats C) × CameToRest desk.now a seats.new }
{
    order_stands::<C>();
    run_threads(rt, alloc, desk, seats, watches);
    settle_desk(rt, alloc, desk, seats, clock, gate);
}
