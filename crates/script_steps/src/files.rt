// The chunk files that a script mentions.
ghost use Rattle.std.specs.Prelude.{◌≡◌, ◌≤◌, ◌++◌, ◌∷◌, [], IfOk, OnOk, OnErr, None, bytes_eq, length};
ghost use Rattle.std.specs.List.{position};
ghost use Rattle.script_steps.specs.Places.{IsTable};
ghost use Rattle.script_steps.specs.Files.{file_number, with_file};

use crate::places::{place_of, put};
use std::alloc::Global;
use std::collections::BTreeMap;
use std::marker::Model;
use wc_base::{NoMemory, Text};

/// The names of the chunk files that are mentioned so far, in order of first mention.
#[derive(Drop)]
pub struct Files {
    alloc: Global,
    names: Vec<Text>,
    places: BTreeMap<String, usize>,
}

impl Model for Files {
    ghost use Rattle.std.specs.Prelude.{ℕ, List, bytes_eq};
    ghost use Rattle.std.specs.List.{position};
    ghost use Rattle.script_steps.specs.Places.{IsTable};

    ghost Value = { List (List ℕ) };

    ghost view = { λ f. f.names.items };

    ghost invariant = { λ f. IsTable f.places (λ name. position (λ t. bytes_eq t name) f.names.items) };
}

// Notes a file that none of these is. Want of memory leaves the table as it was.
#[tactic(auto, using(crate::proofs::NumberLaws::file_put))]
fn note(
    alloc: Global,
    places: &mut BTreeMap<String, usize>,
    names: &[Text],
    name: &str,
) -> Result<(), NoMemory>
    requires table { IsTable places.old (λ q. position (λ f. bytes_eq f q) names.now) }
    requires new { position (λ f. bytes_eq f name.now) names.now ≡ None }
    ensures ok { OnOk result
        (IsTable places.new (λ q. position (λ f. bytes_eq f q) (names.now ++ name.now ∷ []))) }
    ensures err { OnErr result (IsTable places.new (λ q. position (λ f. bytes_eq f q) names.now)) }
{
    put(alloc, places, name, names.len())
}

impl Files {
    /// No files yet.
    pub fn new(alloc: Global) -> Files
        ensures { result ≡ [] }
    {
        Files {
            alloc,
            names: Vec::new(alloc),
            places: BTreeMap::new(alloc),
        }
    }

    /// How many files there are.
    pub fn len(&self) -> usize
        ensures { result ≡ length self.now }
    {
        self.names.len()
    }

    // The number of a file that was mentioned before.
    fn position(&self, name: &str) -> Option<u32>
        requires { length self.now ≤ 100000 }
        ensures { result ≡ position (λ f. bytes_eq f name.now) self.now }
    {
        let number = place_of(&self.places, name)?;
        Some(number as u32)
    }

    // Adds a file that was not mentioned before.
    fn add(&mut self, name: &str) -> Result<(), NoMemory>
        requires { position (λ f. bytes_eq f name.now) self.old ≡ None }
        ensures ok { OnOk result (self.new ≡ self.old ++ name.now ∷ []) }
        ensures err { OnErr result (self.new ≡ self.old) }
    {
        self.names.reserve(1)?;
        let Ok(text) = String::from_str(self.alloc, name) else {
            return Err(NoMemory);
        };
        note(self.alloc, &mut self.places, &self.names, name)?;
        self.names.push_reserved(Text::of(text));
        Ok(())
    }

    /// The number of a file, which is added if it was not mentioned before. Want of memory leaves the files as they were.
    #[tactic(auto, using(crate::proofs::NumberLaws::old_file, crate::proofs::NumberLaws::new_file))]
    pub fn number(&mut self, name: &str) -> Result<u32, NoMemory>
        requires { length self.old ≤ 100000 }
        ensures number { IfOk result (λ n. n ≡ file_number self.old name.now) }
        ensures files { OnOk result (self.new ≡ with_file self.old name.now) }
        ensures err { OnErr result (self.new ≡ self.old) }
    {
        match self.position(name) {
            Some(number) => Ok(number),
            None => {
                let next = self.names.len() as u32;
                self.add(name)?;
                Ok(next)
            }
        }
    }

    /// The names of the files.
    pub fn into_names(self) -> Vec<Text>
        ensures { result.items ≡ self }
    {
        self.names
    }
}
