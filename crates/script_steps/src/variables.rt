// The variables of a caller.
ghost use Rattle.std.specs.Prelude.{◌≡◌, ◌≤◌, ◌++◌, ◌∷◌, [], IfSome, OnOk, OnErr, Some, length};
ghost use Rattle.std.specs.List.{position};
ghost use Rattle.script_steps.specs.Places.{IsTable};
ghost use Rattle.script_types.specs.Names.{variable_named, is_variable_name, variable_at};
ghost use Rattle.script_types.specs.Names as spec;

use crate::places::{place_of, put};
use script_types::{FoundVariable, Step};
use std::alloc::Global;
use std::collections::BTreeMap;
use std::marker::Model;
use wc_base::NoMemory;

/// The steps of a caller so far, with the variables that they define.
#[derive(Drop)]
pub struct Variables {
    alloc: Global,
    steps: Vec<Step>,
    // the first step that defines a name
    places: BTreeMap<String, usize>,
}

impl Model for Variables {
    ghost use Rattle.std.specs.Prelude.{List};
    ghost use Rattle.std.specs.List.{position};
    ghost use Rattle.script_types.specs.declared.steps.Step.{Step};
    ghost use Rattle.script_types.specs.Names.{defines};
    ghost use Rattle.script_steps.specs.Places.{IsTable};

    ghost Value = { List Step };

    ghost view = { λ v. v.steps.items };

    ghost invariant = { λ v. IsTable v.places (λ name. position (λ s. defines name s) v.steps.items) };
}

// The variable that step `number` defines.
fn found_at(number: u32, step: &Step) -> Option<FoundVariable>
    ensures { result ≡ variable_at number (Some step.now) }
{
    let (_, kind) = step.bound()?;
    Some(FoundVariable { step: number, kind })
}

// Notes the variable that a step after these defines.
#[tactic(auto, using(crate::proofs::StepTables::step_same))]
fn note(
    alloc: Global,
    places: &mut BTreeMap<String, usize>,
    steps: &[Step],
    step: &Step,
) -> Result<(), NoMemory>
    requires { IsTable places.old (λ q. position (λ s. spec.defines q s) steps.now) }
    ensures ok { OnOk result
        (IsTable places.new (λ q. position (λ s. spec.defines q s) (steps.now ++ step.now ∷ []))) }
    ensures err { OnErr result
        (IsTable places.new (λ q. position (λ s. spec.defines q s) steps.now)) }
{
    let name = match step.bound() {
        None => return Ok(()),
        Some((name, _)) => name,
    };
    match place_of(places, name) {
        Some(_) => Ok(()),
        None => put(alloc, places, name, steps.len()),
    }
}

impl Variables {
    /// No steps yet.
    pub fn new(alloc: Global) -> Variables
        ensures { result ≡ [] }
    {
        Variables {
            alloc,
            steps: Vec::new(alloc),
            places: BTreeMap::new(alloc),
        }
    }

    /// How many steps there are.
    pub fn len(&self) -> usize
        ensures { result ≡ length self.now }
    {
        self.steps.len()
    }

    /// The variable of this name, after these steps.
    pub fn find(&self, name: &str) -> Option<FoundVariable>
        requires { length self.now ≤ 100000 }
        ensures { result ≡ variable_named self.now name.now }
    {
        let number = place_of(&self.places, name)?;
        let step = self.steps.get(number)?;
        found_at(number as u32, step)
    }

    /// Whether one of the steps defines a variable of this name.
    pub fn defines(&self, name: &str) -> bool
        ensures { result ≡ is_variable_name self.now name.now }
    {
        self.places.contains_key(name)
    }

    /// Adds a step. Want of memory leaves the steps as they were.
    pub fn push(&mut self, step: Step) -> Result<(), NoMemory>
        ensures ok { OnOk result (self.new ≡ self.old ++ step ∷ []) }
        ensures err { OnErr result (self.new ≡ self.old) }
    {
        self.steps.reserve(1)?;
        note(self.alloc, &mut self.places, &self.steps, &step)?;
        self.steps.push_reserved(step);
        Ok(())
    }

    /// The steps.
    pub fn into_steps(self) -> Vec<Step>
        ensures { result.items ≡ self }
    {
        self.steps
    }
}
