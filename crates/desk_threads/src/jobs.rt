// What threads do on a desk, each through seats of its own.
ghost use Rattle.std.specs.Prelude.{ℕ, ◌≡◌, ◌+◌, List, length};
ghost use Rattle.shared_codec.specs.Dues.{Called};
ghost use Rattle.codec_desk.specs.Desks.{SitAt};
ghost use Rattle.codec_desk.specs.Runs.{EachRunsNone};
ghost use Rattle.desk_threads.specs.Accounts.{Balanced, Named};
ghost use Rattle.desk_threads.specs.Jobs.{IsReady, IsDone, AreReady, AreDone, NoneCalled};
ghost use Rattle.desk_threads.specs.Longer.{EachSawAll};
ghost use Rattle.desk_threads.specs.Parts.{HaveParts};

use crate::parts::join_seats;
use codec_desk::{Clock, Desk, Gate, Seats, Watch, item_loop, turn_loop};
use coder_api::Coder;
use std::alloc::Global;
use std::sync::Wait;
use std::sync::atomic::AtomicU64;
use std::thread;
use std::thread::Threads;

/// What a thread does.
#[derive(Clone, Copy, Debug, PartialEq, Eq)]
pub enum Role {
    /// It works on items of all codecs.
    Worker,
    /// It runs event tasks of all codecs.
    Turner,
}

/// The job of one thread: its role, its seats at the desk, and its clock and gate.
#[derive(Drop)]
pub struct Job<C: Coder, K, G> {
    pub role: Role,
    pub seats: Seats<C>,
    pub watch: Watch<K, G>,
}

/// Does a job to its end, once a whole round that began with no caller left found nothing. `callers` counts the callers that still
/// go on, and no clause rests on it. Each end is at a moment that the job's clock gave.
pub fn run_job<C: Coder, K: Clock, G: Gate, R: Wait>(
    rt: &R,
    alloc: Global,
    desk: &Desk<C>,
    callers: &AtomicU64,
    job: &mut Job<C, K, G>,
)
    requires { IsReady desk.now job.old }
    ensures ready { IsReady desk.now job.new }
    ensures done { IsDone K.told desk.now job.old job.new }
{
    match job.role {
        Role::Worker => {
            let watch = &mut job.watch;
            item_loop(
                rt,
                alloc,
                desk,
                &mut job.seats,
                callers,
                &mut watch.clock,
                &mut watch.gate,
            );
        }
        Role::Turner => turn_loop(rt, desk, &mut job.seats, callers),
    }
}

/// Does all jobs, each in a thread of its own where one can be made, and else one after the other. Where a thread cannot be made,
/// std does the last half of the list first, so jobs that others wait for stand last. It takes no memory of its own.
pub fn run_jobs<C: Coder, K: Clock + Send, G: Gate + Send, R: Threads + Wait + Sync>(
    rt: &R,
    alloc: Global,
    desk: &Desk<C>,
    callers: &AtomicU64,
    jobs: &mut [Job<C, K, G>],
)
    requires { AreReady desk.now jobs.old }
    ensures many { length jobs.new ≡ length jobs.old }
    ensures ready { AreReady desk.now jobs.new }
    ensures done { AreDone K.told desk.now jobs.old jobs.new }
{
    if jobs.is_empty() {
        return;
    }
    let threads = jobs.len();
    let run = move |_place: usize, job: &mut Job<C, K, G>|
        requires { IsReady desk.now job.now }
        ensures ready { IsReady desk.entry.now job.exit.now }
        ensures done { IsDone K.told desk.entry.now job.entry.now job.exit.now }
    { run_job(rt, alloc, desk, callers, job) };
    thread::for_each_mut(rt, jobs, threads, &run);
}

/// Joins the seats of jobs into these, one after the other. It takes no memory.
pub fn join_jobs<C: Coder, K: Drop, G: Drop>(
    desk: &Desk<C>,
    seats: &mut Seats<C>,
    jobs: Vec<Job<C, K, G>>,
)
    requires sits { SitAt desk.now seats.old }
    requires jobs { AreReady desk.now jobs.items }
    ensures sits { SitAt desk.now seats.new }
    ensures parts { (n : ℕ) → HaveParts n seats.old
        → HaveParts (n + length jobs.items) seats.new }
    ensures balanced { Balanced desk.now seats.old → Balanced desk.now seats.new }
    ensures calls { NoneCalled desk.now jobs.items → (calls : List Called)
        → Named desk.now calls seats.old → Named desk.now calls seats.new }
    ensures seen { EachSawAll desk.now seats.old seats.new }
    ensures runs { EachRunsNone desk.now.codecs.items seats.old.codecs.items
        → EachRunsNone desk.now.codecs.items seats.new.codecs.items }
{
    for job in jobs {
        let Job { seats: other, .. } = job;
        join_seats(desk, seats, other);
    }
}
