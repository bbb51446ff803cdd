// A load, run with four workers, and its summary.
ghost use Rattle.std.specs.Prelude.{◌≡◌, ◌≢◌, ◌≤◌, IfOk, Some, length, map, string_bytes};
ghost use Rattle.wcrun.specs.Headline.{Reading, writing, verb_in, Headline, Decides, IsComplete};
ghost use Rattle.wcrun.specs.Load.{supply_of, IsLoaded};
ghost use Rattle.wcrun.specs.declared.command.Verb.TheVariants as verb;

use crate::calls::{tell, want_memory};
use codec_desk::{Clock, Gate};
use coder_api::Coder;
use load_script::{Load, load_script};
use load_summary::{load_text, loads_lack_nothing};
use std::alloc::Global;
use std::sync::Wait;
use std::thread::Threads;
use wc_base::{List, NoMemory, Sink};
use wc_chunk::Chunk;
use wc_run::run;

// The summary of a run of a load's script.
#[tactic(auto, using(crate::proofs::Loads::lacks_nothing))]
fn loaded<C: Coder, K: Clock + Send + Drop, G: Gate + Send + Drop, R: Threads + Wait + Sync>(
    rt: &R,
    alloc: Global,
    load: Load,
    coders: Vec<C>,
    clocks: Vec<K>,
    gates: Vec<G>,
) -> Result<String, NoMemory>
    requires few { load.chunks ≤ 5000 }
    requires clocks { 34 ≤ length clocks.items }
    requires gates { 34 ≤ length gates.items }
    ensures { let supply = supply_of (map C.coder coders.items) (map K.told clocks.items) in
        IfOk result (λ text. IsLoaded load supply (string_bytes text)) }
{
    loads_lack_nothing();
    let script = load_script(alloc, load.start, load.chunks)?;
    let media: Vec<List<Chunk>> = Vec::new(alloc);
    let run = run(rt, alloc, &script, &media, coders, 4, clocks, gates)?;
    load_text(alloc, load.start, load.chunks, &run)
}

/// Ends with the summary of a run of a load. It reads no file.
pub(crate) fn run_load<
    S: Sink,
    C: Coder,
    K: Clock + Send + Drop,
    G: Gate + Send + Drop,
    R: Threads + Wait + Sync,
>(
    rt: &R,
    alloc: Global,
    load: Load,
    sink: &mut S,
    coders: Vec<C>,
    clocks: Vec<K>,
    gates: Vec<G>,
) -> u8
    requires few { load.chunks ≤ 5000 }
    requires clocks { 34 ≤ length clocks.items }
    requires gates { 34 ≤ length gates.items }
    ensures headline { (r : Reading) → verb_in r.command ≡ Some (verb.Load load) → Headline r
        (supply_of (map C.coder coders.items) (map K.told clocks.items))
        (writing (S.told sink.old) (S.told sink.new) (S.faults sink.old) (S.faults sink.new) result) }
    ensures decided { (r : Reading) → verb_in r.command ≡ Some (verb.Load load) → Decides r
        (supply_of (map C.coder coders.items) (map K.told clocks.items))
        (writing (S.told sink.old) (S.told sink.new) (S.faults sink.old) (S.faults sink.new) result) }
    ensures complete { (r : Reading) → verb_in r.command ≡ Some (verb.Load load) → IsComplete r
        (writing (S.told sink.old) (S.told sink.new) (S.faults sink.old) (S.faults sink.new) result) }
    ensures done { result ≢ 5 → result ≢ 6 → result ≡ 0 }
{
    match loaded(rt, alloc, load, coders, clocks, gates) {
        Ok(text) => tell(text.as_str(), sink),
        Err(NoMemory) => want_memory(sink),
    }
}
