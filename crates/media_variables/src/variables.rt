// The variables of one caller.
ghost use Rattle.std.specs.Prelude.{◌≡◌, ◌≤◌, ◌+◌, Option, OnOk, vec_capacity};
ghost use Rattle.media_variables.specs.Variables.{with_medium};
ghost use Rattle.media_variables.specs.Given.{given_to};

use crate::given::Given;
use crate::medium::Medium;
use report_text::StepResult;
use wc_base::NoMemory;

/// Room for the variable of the step with this number, and for those before it.
pub(crate) fn make_room(variables: &mut Vec<Option<Medium>>, step: u32) -> Result<(), NoMemory>
    ensures same { variables.new.items ≡ variables.old.items }
    ensures room { OnOk result (step + 1 ≤ vec_capacity variables.new) }
{
    let wanted = step as usize + 1;
    if variables.len() < wanted {
        variables.reserve(wanted - variables.len())?;
    }
    Ok(())
}

/// The variable of a step holds a medium; those before it that hold none are absent.
#[tactic(auto, using(crate::proofs::Places::with_padded, crate::proofs::Places::set_with))]
pub(crate) fn put(variables: &mut Vec<Option<Medium>>, step: u32, medium: Medium)
    requires { step + 1 ≤ vec_capacity variables.old }
    ensures { variables.new.items ≡ with_medium step medium variables.old.items }
{
    let step = step as usize;
    while variables.len() <= step {
        variables.push_reserved(None);
    }
    variables[step] = Some(medium);
}

/// The variable of a step holds what is given, if something is.
pub(crate) fn keep(variables: &mut Vec<Option<Medium>>, step: u32, given: Given) -> StepResult
    requires { step + 1 ≤ vec_capacity variables.old }
    ensures answer { result ≡ given.answer }
    ensures variables { variables.new.items ≡ given_to step given.medium variables.old.items }
{
    let Given { answer, medium } = given;
    if let Some(medium) = medium {
        put(variables, step, medium);
    }
    answer
}
