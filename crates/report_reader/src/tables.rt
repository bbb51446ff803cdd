// Tables in which what encodes were given is looked up.
ghost use Rattle.std.specs.Prelude.{ℕ, ◌≡◌, ◌==◌, ◌&&◌, [], ◌∷◌, IfOk, OnOk, Some, None, length, if◌then◌else◌};
ghost use Rattle.std.specs.BTreeMap.{get};
ghost use Rattle.std.specs.Option.{option_or};
ghost use Rattle.media_accounts.specs.Accounts.{is_by_entry};
ghost use Rattle.media_variables.specs.Variables.{steps_in};
ghost use Rattle.run_model.specs.Recorded.{steps_of};
ghost use Rattle.report_reader.specs.Arguments as spec;
ghost use Rattle.report_reader.specs.Tables.{key_cmp, is_named, named_at, first_named, end_of, is_before, AreTables};

use crate::known::{Known, is_ok, results_at};
use codec_model::Pair;
use run_model::{CallerTrace, StepResult};
use script_types::{MediaStep, ScriptData, Step, Variable};
use std::alloc::Global;
use std::collections::BTreeMap;
use wc_base::{By, NoMemory};
use wc_pool::{PoolEntry, PoolOp};

/// The first clone that an entry of a codec made, by the codec's number and the entry's place; the first step that
/// detached the data of a variable, by the numbers of its caller and of the step that defines it; and how many results there are.
#[derive(Debug, PartialEq, Drop)]
pub struct Tables {
    pub clones: BTreeMap<(u64, u64), Pair>,
    pub ends: BTreeMap<(u64, u64), u64>,
    pub depth: u64,
}

// This value for the key, unless it has one.
fn put_first<V: Drop>(
    table: &mut BTreeMap<(u64, u64), V>,
    key: (u64, u64),
    value: V,
) -> Result<(), NoMemory>
    ensures { OnOk result ((k n : ℕ) → get key_cmp table.new (k, n)
        ≡ option_or (get key_cmp table.old (k, n))
        (if (key.0 == k) && (key.1 == n) then Some value else None)) }
{
    if table.contains_key(&key) {
        return Ok(());
    }
    match table.insert(key, value) {
        Ok(_) => Ok(()),
        Err(_) => Err(NoMemory),
    }
}

// A clone, by the entry of a codec that made it, if one did.
fn put_pair(clones: &mut BTreeMap<(u64, u64), Pair>, by: By, pair: Pair) -> Result<(), NoMemory>
    ensures { OnOk result ((k place : ℕ) → get key_cmp clones.new (k, place)
        ≡ option_or (get key_cmp clones.old (k, place))
        (if is_by_entry k place by then Some pair else None)) }
{
    match by {
        By::Caller(_) => Ok(()),
        By::Codec { codec, place } => put_first(clones, (codec as u64, place), pair),
    }
}

// The clone of one entry of the pool, if it is one that a codec made.
fn put_clone(clones: &mut BTreeMap<(u64, u64), Pair>, entry: &PoolEntry) -> Result<(), NoMemory>
    ensures { OnOk result ((k place : ℕ) → get key_cmp clones.new (k, place)
        ≡ option_or (get key_cmp clones.old (k, place)) (spec.cloned_by k place entry.now)) }
{
    match entry.op {
        PoolOp::Clone {
            resource,
            reference,
        } => {
            let pair = Pair {
                resource,
                reference,
            };
            put_pair(clones, entry.by, pair)
        }
        _ => Ok(()),
    }
}

// The clones of the pool's entries.
fn clones_of(alloc: Global, pool: &[PoolEntry]) -> Result<BTreeMap<(u64, u64), Pair>, NoMemory>
    ensures { IfOk result
        (λ t. (k place : ℕ) → get key_cmp t (k, place) ≡ spec.pair_for k place pool.now) }
{
    let mut clones = BTreeMap::new(alloc);
    let mut rest = pool;
    while let [entry, more @ ..] = rest {
        put_clone(&mut clones, entry)?;
        rest = more;
    }
    Ok(clones)
}

// That this step detached the variables of a list, unless an earlier one did.
#[tactic(auto, using(crate::proofs::TableLaws::named_more))]
fn put_listed(
    ends: &mut BTreeMap<(u64, u64), u64>,
    caller: usize,
    number: usize,
    listed: &[Variable],
) -> Result<(), NoMemory>
    ensures { OnOk result ((k j : ℕ) → get key_cmp ends.new (k, j)
        ≡ option_or (get key_cmp ends.old (k, j))
        (named_at caller k (is_named j (steps_in listed.now)) number)) }
{
    let mut rest = listed;
    while let [variable, more @ ..] = rest {
        put_first(ends, (caller as u64, variable.step as u64), number as u64)?;
        rest = more;
    }
    Ok(())
}

// That this step detached a variable, unless an earlier one did.
fn put_named(
    ends: &mut BTreeMap<(u64, u64), u64>,
    caller: usize,
    number: usize,
    variable: &Variable,
) -> Result<(), NoMemory>
    ensures { OnOk result ((k j : ℕ) → get key_cmp ends.new (k, j)
        ≡ option_or (get key_cmp ends.old (k, j))
        (named_at caller k (is_named j (variable.now.step ∷ [])) number)) }
{
    put_first(ends, (caller as u64, variable.step as u64), number as u64)
}

// That this step detached what it hands on or ends, unless an earlier one did.
fn put_detached(
    ends: &mut BTreeMap<(u64, u64), u64>,
    caller: usize,
    number: usize,
    step: &Step,
) -> Result<(), NoMemory>
    ensures { OnOk result ((k j : ℕ) → get key_cmp ends.new (k, j)
        ≡ option_or (get key_cmp ends.old (k, j))
        (named_at caller k (is_named j (spec.detached_in step.now)) number)) }
{
    match step {
        Step::Media(MediaStep::Transfer { of, bind: _ }) => put_named(ends, caller, number, of),
        Step::Media(MediaStep::CloseData { of }) => put_named(ends, caller, number, of),
        Step::Media(MediaStep::Post { to: _, content }) => put_named(ends, caller, number, content),
        Step::Media(MediaStep::Buffered { bind: _, init }) => {
            put_listed(ends, caller, number, init.transfer.as_slice())
        }
        _ => Ok(()),
    }
}

// That the step with this number detached what it handed on or ended, unless an earlier one did.
fn put_step(
    ends: &mut BTreeMap<(u64, u64), u64>,
    caller: usize,
    number: usize,
    steps: &[Step],
    results: &[StepResult],
) -> Result<(), NoMemory>
    ensures { OnOk result ((k j : ℕ) → get key_cmp ends.new (k, j)
        ≡ option_or (get key_cmp ends.old (k, j))
        (named_at caller k (is_named j (spec.detached_by steps.now results.now number)) number)) }
{
    match (steps.get(number), results.get(number)) {
        (Some(step), Some(answer)) if is_ok(answer) => put_detached(ends, caller, number, step),
        _ => Ok(()),
    }
}

// The ends of the variables of one caller.
fn put_ends(
    ends: &mut BTreeMap<(u64, u64), u64>,
    caller: usize,
    steps: &[Step],
    results: &[StepResult],
) -> Result<(), NoMemory>
    ensures { OnOk result ((k j : ℕ) → get key_cmp ends.new (k, j) ≡ option_or
        (get key_cmp ends.old (k, j))
        (end_of caller steps.now results.now (length steps.now) k j)) }
{
    for number in 0..steps.len() {
        put_step(ends, caller, number, steps, results)?;
    }
    Ok(())
}

// The steps of a caller; none where no caller has the number.
fn steps_at(script: &ScriptData, caller: usize) -> &[Step]
    ensures { result.now ≡ steps_of script.now caller }
{
    match script.callers.as_slice().get(caller) {
        Some(caller) => caller.steps.as_slice(),
        None => &[],
    }
}

// The ends of the variables of all callers.
fn ends_of(
    alloc: Global,
    script: &ScriptData,
    callers: &[CallerTrace],
) -> Result<BTreeMap<(u64, u64), u64>, NoMemory>
    ensures { IfOk result (λ t. (c j : ℕ) → get key_cmp t (c, j) ≡ first_named
        (spec.detached_by (steps_of script.now c) (spec.results_of callers.now c))
        (length (steps_of script.now c)) j) }
{
    let mut ends = BTreeMap::new(alloc);
    for caller in 0..script.callers.len() {
        let steps = steps_at(script, caller);
        put_ends(&mut ends, caller, steps, results_at(callers, caller))?;
    }
    Ok(ends)
}

// How many results callers have.
fn results_in(callers: &[CallerTrace]) -> Result<u64, NoMemory>
    ensures { IfOk result (λ n. n ≡ spec.results_in callers.now) }
{
    let mut count: u64 = 0;
    let mut rest = callers;
    while let [caller, more @ ..] = rest {
        let Some(sum) = count.checked_add(caller.results.len() as u64) else {
            return Err(NoMemory);
        };
        count = sum;
        rest = more;
    }
    Ok(count)
}

/// The tables of what a report shows.
pub fn tables_of(alloc: Global, script: &ScriptData, known: &Known) -> Result<Tables, NoMemory>
    ensures { IfOk result (AreTables script.now known.now) }
{
    let clones = clones_of(alloc, known.pool.as_slice())?;
    let ends = ends_of(alloc, script, known.callers.as_slice())?;
    let depth = results_in(known.callers.as_slice())?;
    Ok(Tables {
        clones,
        ends,
        depth,
    })
}

/// The resource and the reference of the first clone that a codec made by its entry at this place.
pub fn pair_at(tables: &Tables, codec: usize, place: u64) -> Option<Pair>
    ensures { result ≡ get key_cmp tables.now.clones (codec, place) }
{
    tables.clones.get(&(codec as u64, place)).copied()
}

/// Whether the data of the variable that the step with this number defines was detached before a step of its caller.
pub fn is_ended(tables: &Tables, caller: u32, before: u32, step: u32) -> bool
    ensures { result ≡ is_before (get key_cmp tables.now.ends (caller, step)) before }
{
    match tables.ends.get(&(caller as u64, step as u64)) {
        Some(end) => *end < before as u64,
        None => false,
    }
}
