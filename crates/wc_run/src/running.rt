// A run of a script with threads.
ghost use Rattle.std.specs.Prelude.{◌≡◌, ◌+◌, ◌<◌, ◌≤◌, None, IfOk, List, length, map, true};
ghost use Rattle.run_model.specs.Fits.{IsLegalRun};
ghost use Rattle.run_model.specs.Missing.{missing_in};
ghost use Rattle.script_types.specs.Sound.{is_sound};
ghost use Rattle.work_moments.specs.Moments.{Telling};
ghost use Rattle.wc_run.specs.Fits.{FitsByThreads};
ghost use Rattle.wc_run.specs.InTime.{Fits, FitEach, some_may_give};

use crate::laws::made_fits;
use crate::openings::{count_steps, openings_of};
use crate::threads::run_desk;
use crate::traces::run_of;
use codec_desk::{Clock, Gate, Watch};
use coder_api::Coder;
use desk_run::{finish_desk, open_desk, runs_begin};
use desk_threads::{accounts_are_kept, calls_are_kept, order_stands, rest_is_quiet, time_stands};
use run_laws::{codecs_rest, ends_are_told, moments_fit};
use run_model::Run;
use script_types::{Script, ScriptData};
use std::alloc::Global;
use std::sync::Wait;
use std::thread::Threads;
use wc_base::{List, NoMemory};
use wc_chunk::Chunk;

// The clocks, each with a gate.
fn watches_of<K: Clock + Drop, G: Drop>(
    alloc: Global,
    clocks: Vec<K>,
    mut gates: Vec<G>,
) -> Result<Vec<Watch<K, G>>, NoMemory>
    requires { length clocks.items ≤ length gates.items }
    ensures many { IfOk result (λ watches. length watches.items ≡ length clocks.items) }
    ensures same { IfOk result
        (λ watches. map (λ w. K.told w.clock) watches.items ≡ map K.told clocks.items) }
{
    let mut watches = Vec::with_capacity(alloc, clocks.len())?;
    for clock in clocks {
        let Some(gate) = gates.pop() else {
            unreachable!()
        };
        watches.push_reserved(Watch { clock, gate });
    }
    Ok(watches)
}

fn run_script<C: Coder, K: Clock + Send + Drop, G: Gate + Send + Drop, R: Threads + Wait + Sync>(
    rt: &R,
    alloc: Global,
    script: &ScriptData,
    media: &[List<Chunk>],
    coders: Vec<C>,
    workers: usize,
    watches: Vec<Watch<K, G>>,
    clock: &mut K,
    gate: &mut G,
) -> Result<Run, NoMemory>
    requires sound { is_sound script.now ≡ true }
    requires few { length watches.items < 4294967295 }
    requires watches { length watches.items ≡ workers + 1 + length script.now.callers }
    ensures legal { IfOk result (λ run. IsLegalRun script.now run) }
    ensures fits { (clocks : List Telling) → Fits (some_may_give clocks) (K.told clock.old)
        → FitEach (some_may_give clocks) (map (λ w. K.told w.clock) watches.items)
        → let made = map C.coder coders.items in
        IfOk result (λ run. FitsByThreads script.now media.now made clocks run) }
{
    accounts_are_kept::<C>();
    order_stands::<C>();
    calls_are_kept::<C>();
    rest_is_quiet::<C>();
    time_stands::<C>();
    runs_begin::<C>();
    codecs_rest();
    ends_are_told();
    moments_fit();
    made_fits();
    let openings = openings_of(alloc, script.codecs.as_slice())?;
    let calls = count_steps(script.callers.as_slice());
    let cores = Vec::with_capacity(alloc, openings.len())?;
    let (desk, mut seats) = open_desk(alloc, openings.as_slice(), calls, coders)?;
    let ran = run_desk(
        rt, alloc, &desk, &mut seats, script, media, workers, watches, clock, gate,
    );
    let left = finish_desk(desk, seats, cores);
    match ran {
        Ok(callers) => run_of(alloc, callers, left),
        Err(NoMemory) => Err(NoMemory),
    }
}

/// Runs a script with threads, with these coders for its codecs: each caller makes its steps in a thread of its own, beside so many
/// workers and a turner. Where a thread cannot be made, its job is done in another. It ends when each caller has made its steps and
/// nothing is left to do. There are at least 34 clocks and gates, of which each thread has one.
///
/// `media` has the chunks of each of the script's chunk files, in their order, and each chunk that a step takes is there.
pub fn run<C: Coder, K: Clock + Send + Drop, G: Gate + Send + Drop, R: Threads + Wait + Sync>(
    rt: &R,
    alloc: Global,
    script: &Script,
    media: &[List<Chunk>],
    coders: Vec<C>,
    workers: u32,
    mut clocks: Vec<K>,
    mut gates: Vec<G>,
) -> Result<Run, NoMemory>
    requires workers { 1 ≤ workers }
    requires few { workers ≤ 16 }
    requires clocks { 34 ≤ length clocks.items }
    requires gates { 34 ≤ length gates.items }
    requires files { length media.now ≡ length script.now.chunk_files }
    requires chunks { missing_in script.now media.now ≡ None }
    ensures legal { IfOk result (λ run. IsLegalRun script.now run) }
    ensures fits { let made = map C.coder coders.items in
        let told = map K.told clocks.items in
        IfOk result (λ run. FitsByThreads script.now media.now made told run) }
{
    let Some(mut clock) = clocks.pop() else {
        unreachable!()
    };
    let Some(mut gate) = gates.pop() else {
        unreachable!()
    };
    let data = script.data();
    let workers = workers as usize;
    clocks.truncate(workers + 1 + data.callers.as_slice().len());
    let watches = watches_of(alloc, clocks, gates)?;
    run_script(
        rt, alloc, data, media, coders, workers, watches, &mut clock, &mut gate,
    )
}
