// What the arguments of calls are found in, beside the script and its chunk files.
ghost use Rattle.std.specs.Prelude.{◌≡◌, slice_get, Some};
ghost use Rattle.std.specs.Option.{option_copied};
ghost use Rattle.codec_accounts.specs.Owed.{at};
ghost use Rattle.report_reader.specs.Arguments as spec;

use coder_api::Unit;
use run_model::{CallerTrace, StepResult};
use wc_base::{List, Who};
use wc_pool::PoolEntry;

/// What a report shows of arguments: the results of each caller, the outputs of each codec, and the history of the pool of
/// media.
#[derive(Debug, PartialEq, Drop)]
pub struct Known {
    pub callers: List<CallerTrace>,
    pub outputs: List<List<Unit>>,
    pub pool: List<PoolEntry>,
}

/// The results of a caller; none where no caller has the number.
pub fn results_at(callers: &[CallerTrace], caller: usize) -> &[StepResult]
    ensures { result.now ≡ spec.results_of callers.now caller }
{
    match callers.get(caller) {
        Some(caller) => caller.results.as_slice(),
        None => &[],
    }
}

/// Whether a step was answered without an exception.
pub fn is_ok(answer: &StepResult) -> bool
    ensures { result ≡ spec.is_ok answer.now }
{
    match answer {
        StepResult::Local { error: None } => true,
        _ => false,
    }
}

// Whether a step with this result gave its variable something.
fn gives(answer: &StepResult) -> bool
    ensures { result ≡ spec.gives answer.now }
{
    match answer {
        StepResult::Unit { .. } => true,
        StepResult::From { who: _ } => true,
        _ => is_ok(answer),
    }
}

/// Whether this step of a caller gave its variable something.
pub fn is_given(known: &Known, caller: u32, step: u32) -> bool
    ensures { result ≡ spec.is_given (spec.results_of known.now.callers caller) step }
{
    match results_at(known.callers.as_slice(), caller as usize).get(step as usize) {
        Some(answer) => gives(answer),
        None => false,
    }
}

// The outputs of a codec; none where no codec has the number.
fn outputs_of(outputs: &[List<Unit>], codec: u32) -> &[Unit]
    ensures { result.now ≡ at codec outputs.now }
{
    match outputs.get(codec as usize) {
        Some(units) => units.as_slice(),
        None => &[],
    }
}

// The output with this number, if there is one.
fn output_at(units: &[Unit], number: u64) -> Option<&Unit>
    ensures { option_copied result ≡ slice_get units.now number }
{
    match units.get(number as usize) {
        Some(unit) => Some(unit),
        None => None,
    }
}

// The output that a step with this result took, if it took one.
fn output_of<'a>(outputs: &'a [List<Unit>], answer: &StepResult) -> Option<&'a Unit>
    ensures { option_copied result ≡ spec.output_of outputs.now (Some answer.now) }
{
    match answer {
        StepResult::Unit {
            codec,
            place: _,
            number,
        } => output_at(outputs_of(outputs, *codec), *number),
        _ => None,
    }
}

/// The output that this step of a caller took, if it took one.
pub fn taken_in(known: &Known, caller: u32, step: u32) -> Option<&Unit>
    ensures { option_copied result ≡ spec.taken_in known.now caller step }
{
    match results_at(known.callers.as_slice(), caller as usize).get(step as usize) {
        Some(answer) => output_of(known.outputs.as_slice(), answer),
        None => None,
    }
}

/// The step whose post this step of a caller received, if it received one.
pub fn poster_in(known: &Known, caller: u32, step: u32) -> Option<Who>
    ensures { result ≡ spec.poster_of (slice_get (spec.results_of known.now.callers caller) step) }
{
    match results_at(known.callers.as_slice(), caller as usize).get(step as usize) {
        Some(StepResult::From { who }) => Some(*who),
        _ => None,
    }
}
