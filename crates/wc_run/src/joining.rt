// Jobs that are done.
ghost use Rattle.std.specs.Prelude.{ℕ, ◌≡◌, ◌+◌, ◌-◌, ◌<◌, ◌≤◌, [], Bool, false, List, length, vec_capacity};
ghost use Rattle.codec_desk.specs.Desks.{SitAt};
ghost use Rattle.codec_desk.specs.Runs.{EachRunsNone};
ghost use Rattle.desk_callers.specs.Passes.{ArePasses, AreUnused};
ghost use Rattle.script_types.specs.declared.script.ScriptData.{ScriptData};
ghost use Rattle.wc_chunk.specs.declared.chunk.Chunk.{Chunk};
ghost use Rattle.desk_threads.specs.Timely.{InTime};
ghost use Rattle.wc_run.specs.Jobs.{AreReady, AreInTime, AllDone};
ghost use Rattle.wc_run.specs.Ports.{HoldParts, KnowAll};
ghost use Rattle.wc_run.specs.Roles.{noted};
ghost use Rattle.wc_run.specs.Threads.{RunsFrom};

use crate::jobs::{Job, Role};
use crate::making::role_at;
use crate::ports::join_passes;
use codec_desk::{Desk, Seats};
use coder_api::Coder;
use desk_threads::{join_seats, order_stands, time_stands};
use report_text::StepResult;
use run_model::CallerTrace;
use shared_port::{PortPass, SharedPort};
use shared_variables::Parcel;
use wc_base::List;

// Whether one of both wanted memory.
fn either(any: bool, wanted: bool) -> bool
    ensures { result ≡ false → (any ≡ false) × (wanted ≡ false) }
{
    any || wanted
}

// Puts what a caller's steps came to behind what those of others did.
fn note(role: Role, results: Vec<StepResult>, traces: &mut Vec<CallerTrace>)
    requires { length traces.old.items < vec_capacity traces.old }
    ensures noted { traces.new.items ≡ noted role results.items traces.old.items }
    ensures room { vec_capacity traces.new ≡ vec_capacity traces.old }
{
    match role {
        Role::Caller(_) => traces.push_reserved(CallerTrace {
            results: List::of(results),
        }),
        Role::Turner => {}
        Role::Worker => {}
    }
}

/// Joins the seats and passes of jobs into these, one after the other, and puts together what the callers' steps came to: those of
/// the jobs behind a turner and so many workers. The answer is whether a caller wanted memory. It takes no memory.
pub(crate) fn join_jobs<C: Coder, K: Drop, G: Drop>(
    desk: &Desk<C>,
    seats: &mut Seats<C>,
    ports: &[SharedPort<Parcel>],
    passes: &mut Vec<PortPass<Parcel>>,
    workers: usize,
    jobs: Vec<Job<C, K, G>>,
    traces: &mut Vec<CallerTrace>,
) -> bool
    requires sits { SitAt desk.now seats.old }
    requires passes { ArePasses desk.now.pool ports.now passes.old.items }
    requires ready { AreReady desk.now ports.now jobs.items }
    requires few { length jobs.items < 4294967296 }
    requires empty { traces.old.items ≡ [] }
    requires room { length jobs.items ≤ vec_capacity traces.old }
    ensures sits { SitAt desk.now seats.new }
    ensures passes { ArePasses desk.now.pool ports.now passes.new.items }
    ensures parts { (n : ℕ) → HoldParts n seats.old passes.old.items
        → HoldParts (n + length jobs.items) seats.new passes.new.items }
    ensures runs { EachRunsNone desk.now.codecs.items seats.old.codecs.items
        → EachRunsNone desk.now.codecs.items seats.new.codecs.items }
    ensures many { length traces.new.items ≡ length jobs.items - (workers + 1) }
    ensures timed { (fits : ℕ → Bool) → AreInTime desk.now fits jobs.items
        → InTime fits desk.now seats.old → InTime fits desk.now seats.new }
    ensures ran { (s : ScriptData) (media : List (List Chunk))
        → AllDone s media desk.now workers jobs.items → result ≡ false
        → AreUnused passes.old.items
        → RunsFrom s media (KnowAll s media passes.new.items) desk.now seats.old traces.new.items
        seats.new }
{
    order_stands::<C>();
    time_stands::<C>();
    let mut any = false;
    let mut place = 0;
    for job in jobs {
        let Job {
            seats: other,
            passes: others,
            results,
            wanted,
            ..
        } = job;
        join_seats(desk, seats, other);
        join_passes(ports, passes, others);
        any = either(any, wanted);
        note(role_at(place, workers), results, traces);
        place += 1;
    }
    any
}
