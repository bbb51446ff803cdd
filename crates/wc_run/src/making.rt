// Jobs with seats of their own.
ghost use Rattle.std.specs.Prelude.{ℕ, ◌≡◌, ◌+◌, ◌-◌, ◌<◌, ◌≤◌, ◌++◌, [], map, length};
ghost use Rattle.std.specs.Prelude.{List, vec_capacity, Some, slice_get, IfOk, IfErr, OnOk};
ghost use Rattle.work_moments.specs.Moments.{Telling};
ghost use Rattle.codec_desk.specs.Desks.{SitAt};
ghost use Rattle.desk_callers.specs.Passes.{ArePasses, AreUnused};
ghost use Rattle.wc_run.specs.declared.jobs.Job.{Job};
ghost use Rattle.wc_run.specs.Jobs.{IsNew, AreNew};
ghost use Rattle.wc_run.specs.Paid.{Stays};
ghost use Rattle.wc_run.specs.Ports.{HoldParts};
ghost use Rattle.wc_run.specs.Roles.{role_at};

use crate::jobs::{Job, Role};
use crate::ports::split_passes;
use codec_desk::{Clock, Desk, Seats, Watch};
use coder_api::Coder;
use desk_threads::{order_stands, split_seats, time_stands};
use media_variables::Variables;
use shared_port::{PortPass, SharedPort};
use shared_variables::Parcel;
use std::alloc::Global;
use wc_base::NoMemory;

/// The role of the job at a place: a turner, then so many workers, then the callers.
#[tactic(auto, using(crate::proofs::Lists::is_worker, crate::proofs::Lists::is_caller))]
pub(crate) fn role_at(place: usize, workers: usize) -> Role
    requires { place < 4294967296 }
    ensures { result ≡ role_at workers place }
{
    if place == 0 {
        return Role::Turner;
    }
    if place <= workers {
        return Role::Worker;
    }
    Role::Caller((place - workers - 1) as u32)
}

// A job with seats and passes that are split off.
fn make_job<C: Coder, K: Drop, G: Drop>(
    alloc: Global,
    desk: &Desk<C>,
    seats: &mut Seats<C>,
    ports: &[SharedPort<Parcel>],
    passes: &mut Vec<PortPass<Parcel>>,
    role: Role,
    watch: Watch<K, G>,
) -> Result<Job<C, K, G>, NoMemory>
    requires sits { SitAt desk.now seats.old }
    requires passes { ArePasses desk.now.pool ports.now passes.old.items }
    requires parts { HoldParts seats.old.pool.me.0.parts seats.old passes.old.items }
    requires two { 2 ≤ seats.old.pool.me.0.parts }
    ensures new { IfOk result (IsNew desk.now ports.now) }
    ensures role { IfOk result (λ job. job.role ≡ role) }
    ensures watch { IfOk result (λ job. job.watch ≡ watch) }
    ensures stays { Stays desk.now seats.old seats.new }
    ensures passes { ArePasses desk.now.pool ports.now passes.new.items }
    ensures unused { AreUnused passes.old.items → AreUnused passes.new.items }
    ensures parts { IfOk result
        (λ job. HoldParts (seats.old.pool.me.0.parts - 1) seats.new passes.new.items) }
    ensures same { IfErr result
        (λ e. (seats.new ≡ seats.old) × (passes.new.items ≡ passes.old.items)) }
{
    order_stands::<C>();
    time_stands::<C>();
    let codecs = Vec::with_capacity(alloc, desk.codecs.len())?;
    let parts = Vec::with_capacity(alloc, ports.len())?;
    let results = Vec::new(alloc);
    let variables = Variables::new(alloc);
    Ok(Job {
        role,
        seats: split_seats(desk, seats, codecs),
        watch,
        passes: split_passes(ports, passes, parts),
        results,
        variables,
        wanted: false,
    })
}

/// A job for each clock with its gate, as far as there is memory: first a turner, then so many workers, and then the callers.
pub(crate) fn make_jobs<C: Coder, K: Clock + Drop, G: Drop>(
    alloc: Global,
    desk: &Desk<C>,
    seats: &mut Seats<C>,
    ports: &[SharedPort<Parcel>],
    passes: &mut Vec<PortPass<Parcel>>,
    workers: usize,
    watches: Vec<Watch<K, G>>,
    jobs: &mut Vec<Job<C, K, G>>,
) -> Result<(), NoMemory>
    requires sits { SitAt desk.now seats.old }
    requires passes { ArePasses desk.now.pool ports.now passes.old.items }
    requires parts { HoldParts seats.old.pool.me.0.parts seats.old passes.old.items }
    requires few { length watches.items + 1 ≤ seats.old.pool.me.0.parts }
    requires short { length watches.items < 4294967296 }
    requires empty { jobs.old.items ≡ [] }
    requires room { length watches.items ≤ vec_capacity jobs.old }
    ensures new { AreNew desk.now ports.now jobs.new.items }
    ensures roles { (i : ℕ) (job : Job C K G) → slice_get jobs.new.items i ≡ Some job
        → job.role ≡ role_at workers i }
    ensures stays { Stays desk.now seats.old seats.new }
    ensures passes { ArePasses desk.now.pool ports.now passes.new.items }
    ensures unused { AreUnused passes.old.items → AreUnused passes.new.items }
    ensures parts { (n : ℕ) × HoldParts n seats.new passes.new.items
        × (n + length jobs.new.items ≡ seats.old.pool.me.0.parts) }
    ensures all { OnOk result (length jobs.new.items ≡ length watches.items) }
    ensures within { length jobs.new.items ≤ length watches.items }
    ensures clocks { (rest : List Telling)
        × (map (λ j. K.told j.watch.clock) jobs.new.items ++ rest
        ≡ map (λ w. K.told w.clock) watches.items) }
{
    for watch in watches {
        let role = role_at(jobs.len(), workers);
        let Ok(job) = make_job(alloc, desk, seats, ports, passes, role, watch) else {
            return Err(NoMemory);
        };
        jobs.push_reserved(job);
    }
    Ok(())
}
