// What the callers' steps came to.
ghost use Rattle.std.specs.Prelude.{◌≡◌, [], ◌∷◌, ◌++◌, OnOk, IfOk, length, slice_get, option_copied, map};
ghost use Rattle.codec_accounts.specs.Owed.{at, append_at};

use run_model::StepResult;
use std::alloc::Global;
use std::marker::Model;
use wc_base::{NoMemory, try_push};

/// The results of one caller's steps so far.
#[derive(Drop)]
pub(crate) struct Results {
    steps: Vec<StepResult>,
}

impl Model for Results {
    ghost use Rattle.std.specs.Prelude.{List};
    ghost use Rattle.report_text.specs.declared.result.StepResult.{StepResult};

    ghost Value = { List StepResult };

    ghost view = { λ r. r.steps.items };
}

impl Results {
    pub(crate) fn new(alloc: Global) -> Results
        ensures { result ≡ [] }
    {
        Results {
            steps: Vec::new(alloc),
        }
    }

    pub(crate) fn push(&mut self, came: StepResult) -> Result<(), NoMemory>
        ensures { OnOk result (self.new ≡ self.old ++ came ∷ []) }
    {
        try_push(&mut self.steps, came)
    }

    pub(crate) fn into_steps(self) -> Vec<StepResult>
        ensures { result.items ≡ self }
    {
        self.steps
    }
}

/// One more result of a caller.
pub(crate) fn note(
    callers: &mut Vec<Results>,
    caller: u32,
    came: StepResult,
) -> Result<(), NoMemory>
    ensures { OnOk result (callers.new.items ≡ append_at caller came callers.old.items) }
{
    match callers.get_mut(caller as usize) {
        Some(results) => results.push(came),
        None => Ok(()),
    }
}

/// What a caller's steps came to so far; nothing where it is not there.
fn results_at(callers: &[Results], caller: u32) -> &[StepResult]
    ensures { result.now ≡ at caller callers.now }
{
    match callers.get(caller as usize) {
        Some(results) => results.steps.as_slice(),
        None => &[],
    }
}

/// How many steps a caller made.
pub(crate) fn made_by(callers: &[Results], caller: u32) -> usize
    ensures { result ≡ length (at caller callers.now) }
{
    results_at(callers, caller).len()
}

/// What a step of a caller came to, if it was made.
pub(crate) fn result_of(callers: &[Results], caller: u32, step: u32) -> Option<&StepResult>
    ensures { option_copied result ≡ slice_get (at caller callers.now) step }
{
    results_at(callers, caller).get(step as usize)
}
