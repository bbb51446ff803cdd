// What a step answers, and what it gives the variable that it defines.
ghost use Rattle.std.specs.Prelude.{◌≡◌, None, Some};
ghost use Rattle.report_text.specs.declared.result.StepResult.TheVariants as step_result;
ghost use Rattle.media_variables.specs.Variables.{refused};

use crate::medium::Medium;
use report_text::StepResult;
use wc_base::DomError;

/// A step's answer, and the medium that the step's variable is to hold, if it is to hold one.
#[derive(Drop)]
pub(crate) struct Given {
    pub(crate) answer: StepResult,
    pub(crate) medium: Option<Medium>,
}

/// A step went through.
pub(crate) fn done() -> StepResult
    ensures { result ≡ step_result.Local None }
{
    StepResult::Local { error: None }
}

/// A step was refused.
pub(crate) fn refused(error: DomError) -> StepResult
    ensures { result ≡ refused error }
{
    StepResult::Local { error: Some(error) }
}

/// The step's variable is to hold a medium.
pub(crate) fn gives(medium: Medium) -> Given
    ensures { result ≡ record { answer = step_result.Local None; medium = Some medium } }
{
    Given {
        answer: done(),
        medium: Some(medium),
    }
}

/// A step that is refused gives its variable nothing.
pub(crate) fn gives_nothing(error: DomError) -> Given
    ensures { result ≡ record { answer = refused error; medium = None } }
{
    Given {
        answer: refused(error),
        medium: None,
    }
}

/// A step whose variable is absent gives nothing.
pub(crate) fn absent() -> Given
    ensures { result ≡ record { answer = step_result.Absent; medium = None } }
{
    Given {
        answer: StepResult::Absent,
        medium: None,
    }
}
