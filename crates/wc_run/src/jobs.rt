// What each thread of a run does, through seats of its own.
ghost use Rattle.std.specs.Prelude.{ℕ, ◌≡◌, false, length};
ghost use Rattle.codec_desk.specs.Clocks.{Clocked};
ghost use Rattle.wc_run.specs.Jobs.{IsReady, IsNew, AreNew, CallerDid, HasDone, IsDone, AreDone};
ghost use Rattle.wc_run.specs.Paid.{IsPaid};
ghost use Rattle.wc_run.specs.Runnable.{IsRunnable, IsDeskOf};

use codec_desk::{Clock, Desk, Gate, Seats, Watch, item_loop, turn_loop};
use coder_api::Coder;
use desk_callers::caller_steps;
use desk_threads::{accounts_are_kept, order_stands};
use media_variables::Variables;
use report_text::StepResult;
use script_types::ScriptData;
use shared_codec::{dues_add_up, order_is_kept};
use shared_port::{PortPass, SharedPort};
use shared_variables::Parcel;
use std::alloc::Global;
use std::sync::Wait;
use std::sync::atomic::{AtomicU64, Ordering};
use std::thread;
use std::thread::Threads;
use wc_base::{List, NoMemory};
use wc_chunk::Chunk;

/// What a thread does.
#[derive(Clone, Copy, Debug, PartialEq, Eq)]
pub enum Role {
    /// It runs event tasks of all codecs.
    Turner,
    /// It works on items of all codecs.
    Worker,
    /// It makes the steps of the caller with this number.
    Caller(u32),
}

/// The job of one thread: its role, its seats at the desk, its clock and gate, and a pass of each port. A caller has the results of its
/// steps, its variables, and whether it wanted memory.
#[derive(Drop)]
pub struct Job<C: Coder, K, G> {
    pub role: Role,
    pub seats: Seats<C>,
    pub watch: Watch<K, G>,
    pub passes: Vec<PortPass<Parcel>>,
    pub results: Vec<StepResult>,
    pub variables: Variables,
    pub wanted: bool,
}

// Makes all steps of a caller, and notes whether memory was wanted.
fn make_steps<C: Coder, K: Clock, G: Gate, R: Wait>(
    rt: &R,
    alloc: Global,
    desk: &Desk<C>,
    script: &ScriptData,
    media: &[List<Chunk>],
    ports: &[SharedPort<Parcel>],
    caller: u32,
    job: &mut Job<C, K, G>,
)
    requires runnable { IsRunnable script.now }
    requires desk { IsDeskOf script.now desk.now }
    requires ports { length script.now.ports ≡ length ports.now }
    requires new { IsNew desk.now ports.now job.old }
    ensures ready { IsReady desk.now ports.now job.new }
    ensures paid { job.new.wanted ≡ false → IsPaid desk.now job.new.seats }
    ensures did { job.new.wanted ≡ false
        → CallerDid script.now media.now desk.now caller job.new }
    ensures timed { let told = K.told in Clocked desk.now job.old.seats job.new.seats
        (told job.old.watch.clock) (told job.new.watch.clock) }
{
    dues_add_up();
    order_is_kept();
    match caller_steps(
        rt,
        alloc,
        desk,
        &mut job.seats,
        script,
        media,
        ports,
        &mut job.passes,
        caller,
        &mut job.results,
        &mut job.variables,
        &mut job.watch.clock,
        &mut job.watch.gate,
    ) {
        Ok(()) => job.wanted = false,
        Err(NoMemory) => job.wanted = true,
    }
}

// Does a job to its end. `callers` counts the callers that still go on, and no clause rests on it.
fn run_job<C: Coder, K: Clock, G: Gate, R: Wait>(
    rt: &R,
    alloc: Global,
    desk: &Desk<C>,
    script: &ScriptData,
    media: &[List<Chunk>],
    ports: &[SharedPort<Parcel>],
    callers: &AtomicU64,
    job: &mut Job<C, K, G>,
)
    requires runnable { IsRunnable script.now }
    requires desk { IsDeskOf script.now desk.now }
    requires ports { length script.now.ports ≡ length ports.now }
    requires new { IsNew desk.now ports.now job.old }
    ensures { IsDone K.told script.now media.now desk.now ports.now job.old job.new }
{
    accounts_are_kept::<C>();
    order_stands::<C>();
    match job.role {
        Role::Turner => turn_loop(rt, desk, &mut job.seats, callers),
        Role::Worker => item_loop(
            rt,
            alloc,
            desk,
            &mut job.seats,
            callers,
            &mut job.watch.clock,
            &mut job.watch.gate,
        ),
        Role::Caller(caller) => {
            make_steps(rt, alloc, desk, script, media, ports, caller, job);
            callers.fetch_sub(1, Ordering::SeqCst);
        }
    }
}

/// Does all jobs, each in a thread of its own where one can be made, and else one after the other. Where a thread cannot be made,
/// std does the last half of the list first, so callers stand last.
pub(crate) fn run_jobs<C: Coder, K: Clock + Send, G: Gate + Send, R: Threads + Wait + Sync>(
    rt: &R,
    alloc: Global,
    desk: &Desk<C>,
    script: &ScriptData,
    media: &[List<Chunk>],
    ports: &[SharedPort<Parcel>],
    callers: &AtomicU64,
    jobs: &mut [Job<C, K, G>],
)
    requires runnable { IsRunnable script.now }
    requires desk { IsDeskOf script.now desk.now }
    requires ports { length script.now.ports ≡ length ports.now }
    requires new { AreNew desk.now ports.now jobs.old }
    ensures many { length jobs.new ≡ length jobs.old }
    ensures done { AreDone K.told script.now media.now desk.now ports.now jobs.old jobs.new }
{
    if jobs.is_empty() {
        return;
    }
    let threads = jobs.len();
    let run = move |_place: usize, job: &mut Job<C, K, G>|
        requires { IsRunnable script.now × (IsDeskOf script.now desk.now
            × ((length script.now.ports ≡ length ports.now) × IsNew desk.now ports.now job.now)) }
        ensures { IsDone K.told
            script.entry.now media.entry.now desk.entry.now ports.entry.now job.entry.now
            job.exit.now }
    { run_job(rt, alloc, desk, script, media, ports, callers, job) };
    thread::for_each_mut(rt, jobs, threads, &run);
}
