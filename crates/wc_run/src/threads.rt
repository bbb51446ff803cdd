// The threads of a run on a desk.
ghost use Rattle.std.specs.Prelude.{ℕ, ◌≡◌, ◌+◌, ◌^◌, ◌<◌, ◌≤◌, [], Bool, map, length, vec_capacity, Some, slice_get, IfOk};
ghost use Rattle.codec_desk.specs.Desks.{SitAt};
ghost use Rattle.codec_desk.specs.Runs.{EachRunsNone};
ghost use Rattle.desk_callers.specs.Passes.{ArePasses, AreUnused};
ghost use Rattle.desk_threads.specs.Parts.{HaveParts};
ghost use Rattle.desk_threads.specs.Rested.{CameToRest};
ghost use Rattle.desk_threads.specs.Timely.{InTime};
ghost use Rattle.port_laws.specs.PortAccounts.{PortsMade};
ghost use Rattle.wc_run.specs.declared.jobs.Job.{Job};
ghost use Rattle.wc_run.specs.InTime.{Fits, FitEach};
ghost use Rattle.wc_run.specs.Jobs.{AreNew};
ghost use Rattle.wc_run.specs.Ports.{HoldParts, KnowAll};
ghost use Rattle.wc_run.specs.Roles.{role_at};
ghost use Rattle.wc_run.specs.Runnable.{IsRunnable, IsDeskOf};
ghost use Rattle.wc_run.specs.Threads.{RunsFrom};

use crate::jobs::{Job, run_jobs};
use crate::joining::join_jobs;
use crate::making::make_jobs;
use crate::ports::{finish_ports, open_ports};
use codec_desk::{Clock, Desk, Gate, Seats, Watch};
use coder_api::Coder;
use desk_threads::{accounts_are_kept, order_stands, settle_desk, time_stands};
use run_model::CallerTrace;
use script_types::ScriptData;
use shared_port::{PortPass, SharedPort};
use shared_variables::Parcel;
use std::alloc::Global;
use std::sync::Wait;
use std::sync::atomic::AtomicU64;
use std::thread::Threads;
use wc_base::{List, NoMemory};
use wc_chunk::Chunk;

// Does all jobs, and joins their seats: then what the callers' steps came to.
fn do_jobs<C: Coder, K: Clock + Send + Drop, G: Gate + Send + Drop, R: Threads + Wait + Sync>(
    rt: &R,
    alloc: Global,
    desk: &Desk<C>,
    seats: &mut Seats<C>,
    script: &ScriptData,
    media: &[List<Chunk>],
    ports: &[SharedPort<Parcel>],
    passes: &mut Vec<PortPass<Parcel>>,
    workers: usize,
    mut jobs: Vec<Job<C, K, G>>,
    mut traces: Vec<CallerTrace>,
) -> Result<Vec<CallerTrace>, NoMemory>
    requires runnable { IsRunnable script.now }
    requires desk { IsDeskOf script.now desk.now }
    requires ports { length script.now.ports ≡ length ports.now }
    requires sits { SitAt desk.now seats.old }
    requires passes { ArePasses desk.now.pool ports.now passes.old.items }
    requires unused { AreUnused passes.old.items }
    requires new { AreNew desk.now ports.now jobs.items }
    requires roles { (i : ℕ) (job : Job C K G) → slice_get jobs.items i ≡ Some job
        → job.role ≡ role_at workers i }
    requires few { length jobs.items < 4294967296 }
    requires empty { traces.items ≡ [] }
    requires room { length jobs.items ≤ vec_capacity traces }
    requires many { length jobs.items ≡ workers + 1 + length script.now.callers }
    ensures sits { SitAt desk.now seats.new }
    ensures passes { ArePasses desk.now.pool ports.now passes.new.items }
    ensures parts { (n : ℕ) → HoldParts n seats.old passes.old.items
        → HoldParts (n + length jobs.items) seats.new passes.new.items }
    ensures runs { EachRunsNone desk.now.codecs.items seats.old.codecs.items
        → EachRunsNone desk.now.codecs.items seats.new.codecs.items }
    ensures many { IfOk result (λ ts. length ts.items ≡ length script.now.callers) }
    ensures ran { IfOk result
        (λ ts. let known = KnowAll script.now media.now passes.new.items in
        RunsFrom script.now media.now known desk.now seats.old ts.items seats.new) }
    ensures timed { (fits : ℕ → Bool) → FitEach fits (map (λ j. K.told j.watch.clock) jobs.items)
        → InTime fits desk.now seats.old → InTime fits desk.now seats.new }
{
    time_stands::<C>();
    let callers = AtomicU64::new(script.callers.as_slice().len() as u64);
    run_jobs(
        rt,
        alloc,
        desk,
        script,
        media,
        ports,
        &callers,
        jobs.as_mut_slice(),
    );
    if join_jobs(desk, seats, ports, passes, workers, jobs, &mut traces) {
        return Err(NoMemory);
    }
    Ok(traces)
}

// Callers, workers and a turner, each in a thread of its own where one can be made; then what the callers' steps came to.
fn run_threads<C: Coder, K: Clock + Send + Drop, G: Gate + Send + Drop, R: Threads + Wait + Sync>(
    rt: &R,
    alloc: Global,
    desk: &Desk<C>,
    seats: &mut Seats<C>,
    script: &ScriptData,
    media: &[List<Chunk>],
    ports: &[SharedPort<Parcel>],
    passes: &mut Vec<PortPass<Parcel>>,
    workers: usize,
    watches: Vec<Watch<K, G>>,
) -> Result<Vec<CallerTrace>, NoMemory>
    requires runnable { IsRunnable script.now }
    requires desk { IsDeskOf script.now desk.now }
    requires ports { length script.now.ports ≡ length ports.now }
    requires sits { SitAt desk.now seats.old }
    requires passes { ArePasses desk.now.pool ports.now passes.old.items }
    requires unused { AreUnused passes.old.items }
    requires parts { HoldParts (2 ^ 32) seats.old passes.old.items }
    requires few { length watches.items < 4294967295 }
    requires watches { length watches.items ≡ workers + 1 + length script.now.callers }
    ensures sits { SitAt desk.now seats.new }
    ensures passes { ArePasses desk.now.pool ports.now passes.new.items }
    ensures parts { HoldParts (2 ^ 32) seats.new passes.new.items }
    ensures runs { EachRunsNone desk.now.codecs.items seats.old.codecs.items
        → EachRunsNone desk.now.codecs.items seats.new.codecs.items }
    ensures many { IfOk result (λ ts. length ts.items ≡ length script.now.callers) }
    ensures ran { IfOk result
        (λ ts. let known = KnowAll script.now media.now passes.new.items in
        RunsFrom script.now media.now known desk.now seats.old ts.items seats.new) }
    ensures timed { (fits : ℕ → Bool) → FitEach fits (map (λ w. K.told w.clock) watches.items)
        → InTime fits desk.now seats.old → InTime fits desk.now seats.new }
{
    let Ok(mut traces) = Vec::with_capacity(alloc, watches.len()) else {
        return Err(NoMemory);
    };
    let Ok(mut jobs) = Vec::with_capacity(alloc, watches.len()) else {
        return Err(NoMemory);
    };
    match make_jobs(
        alloc, desk, seats, ports, passes, workers, watches, &mut jobs,
    ) {
        Ok(()) => do_jobs(
            rt, alloc, desk, seats, script, media, ports, passes, workers, jobs, traces,
        ),
        Err(NoMemory) => {
            let _ = join_jobs(desk, seats, ports, passes, workers, jobs, &mut traces);
            Err(NoMemory)
        }
    }
}

// The same with ports for the script's, which are finished in the end whatever memory was wanted.
fn run_ports<C: Coder, K: Clock + Send + Drop, G: Gate + Send + Drop, R: Threads + Wait + Sync>(
    rt: &R,
    alloc: Global,
    desk: &Desk<C>,
    seats: &mut Seats<C>,
    script: &ScriptData,
    media: &[List<Chunk>],
    workers: usize,
    watches: Vec<Watch<K, G>>,
) -> Result<Vec<CallerTrace>, NoMemory>
    requires runnable { IsRunnable script.now }
    requires desk { IsDeskOf script.now desk.now }
    requires sits { SitAt desk.now seats.old }
    requires parts { HaveParts (2 ^ 32) seats.old }
    requires few { length watches.items < 4294967295 }
    requires watches { length watches.items ≡ workers + 1 + length script.now.callers }
    ensures sits { SitAt desk.now seats.new }
    ensures parts { HaveParts (2 ^ 32) seats.new }
    ensures runs { EachRunsNone desk.now.codecs.items seats.old.codecs.items
        → EachRunsNone desk.now.codecs.items seats.new.codecs.items }
    ensures many { IfOk result (λ ts. length ts.items ≡ length script.now.callers) }
    ensures ran { IfOk result (λ ts. let known = PortsMade script.now media.now in
        RunsFrom script.now media.now known desk.now seats.old ts.items seats.new) }
    ensures timed { (fits : ℕ → Bool) → FitEach fits (map (λ w. K.told w.clock) watches.items)
        → InTime fits desk.now seats.old → InTime fits desk.now seats.new }
{
    let count = script.ports.as_slice().len();
    let Ok(mut passes) = Vec::with_capacity(alloc, count) else {
        return Err(NoMemory);
    };
    let Ok(mut ports) = Vec::with_capacity(alloc, count) else {
        return Err(NoMemory);
    };
    let Ok(()) = open_ports(alloc, &desk.pool, count, &mut ports, &mut passes) else {
        finish_ports(rt, ports, passes);
        return Err(NoMemory);
    };
    let traces = run_threads(
        rt,
        alloc,
        desk,
        seats,
        script,
        media,
        ports.as_slice(),
        &mut passes,
        workers,
        watches,
    );
    finish_ports(rt, ports, passes);
    traces
}

/// The callers of a script, so many workers and a turner on a desk, each in a thread of its own where one can be made; and then
/// all that is left to do. The answer is what the callers' steps came to. Whatever it is, the seats have all their parts again, and
/// came to rest.
pub(crate) fn run_desk<
    C: Coder,
    K: Clock + Send + Drop,
    G: Gate + Send + Drop,
    R: Threads + Wait + Sync,
>(
    rt: &R,
    alloc: Global,
    desk: &Desk<C>,
    seats: &mut Seats<C>,
    script: &ScriptData,
    media: &[List<Chunk>],
    workers: usize,
    watches: Vec<Watch<K, G>>,
    clock: &mut K,
    gate: &mut G,
) -> Result<Vec<CallerTrace>, NoMemory>
    requires runnable { IsRunnable script.now }
    requires desk { IsDeskOf script.now desk.now }
    requires sits { SitAt desk.now seats.old }
    requires parts { HaveParts (2 ^ 32) seats.old }
    requires few { length watches.items < 4294967295 }
    requires watches { length watches.items ≡ workers + 1 + length script.now.callers }
    ensures sits { SitAt desk.now seats.new }
    ensures parts { HaveParts (2 ^ 32) seats.new }
    ensures runs { EachRunsNone desk.now.codecs.items seats.old.codecs.items
        → EachRunsNone desk.now.codecs.items seats.new.codecs.items }
    ensures rested { (a : Seats C) × CameToRest desk.now a seats.new }
    ensures many { IfOk result (λ ts. length ts.items ≡ length script.now.callers) }
    ensures ran { IfOk result (λ ts. let known = PortsMade script.now media.now in
        RunsFrom script.now media.now known desk.now seats.old ts.items seats.new) }
    ensures timed { (fits : ℕ → Bool) → Fits fits (K.told clock.old)
        → FitEach fits (map (λ w. K.told w.clock) watches.items)
        → InTime fits desk.now seats.old → InTime fits desk.now seats.new }
{
    accounts_are_kept::<C>();
    order_stands::<C>();
    time_stands::<C>();
    let traces = run_ports(rt, alloc, desk, seats, script, media, workers, watches);
    settle_desk(rt, alloc, desk, seats, clock, gate);
    traces
}
