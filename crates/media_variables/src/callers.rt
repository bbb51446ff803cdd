// The media of all callers.
ghost use Rattle.std.specs.Prelude.{◌≡◌, ◌<◌, ◌++◌, [], ◌∷◌, false, true, None, Some, IfOk, OnErr};
ghost use Rattle.std.specs.Prelude.{map, length, option_and_then, option_map, slice_set, unwrap_or};
ghost use Rattle.codec_model.specs.Held.{in_order};
ghost use Rattle.wc_pool.specs.Bag.{held_in, is_legal_pool};
ghost use Rattle.media_variables.specs.declared.lending.MediumFound.TheVariants as found;
ghost use Rattle.media_variables.specs.Variables.{Brought, CameTo, IsCome, Taken, next_numbers};
ghost use Rattle.media_variables.specs.Variables.{taken_came, uses_port, variables_of};
ghost use Rattle.media_variables.specs.Variables.{Received, post_came, posted_from, received_came};
ghost use Rattle.media_variables.specs.Held.{pairs_in, seen};
ghost use Rattle.media_variables.specs.Variables.{chunk_in_medium, medium_at, lendable_at};
ghost use Rattle.media_variables.specs.Held.{AreHeld, AreApart, IsEnoughUnit, IsLent};
ghost use Rattle.media_variables.specs.Held.{ends_behind, media_of, medium_found, pair_of, seen_in};

use crate::caller::Variables;
use crate::ending::{end_each, end_if};
use crate::lending::MediumFound;
use crate::medium::Medium;
use codec_definitions::Unit;
use codec_model::HeldMedium;
use report_text::StepResult;
use script_types::{CallerItem, MediaStep};
use std::alloc::Global;
use std::marker::Model;
use wc_base::{By, NoMemory, Who};
use wc_chunk::Chunk;
use wc_pool::{MediaRef, Pool, PoolEntry, references_are_apart};

/// The variables of all callers that hold media, and the pool of their references. A contract sees what
/// each variable holds, and the pool's history.
#[derive(Drop)]
pub struct CallerMedia {
    pool: Pool,
    callers: Vec<Variables>,
}

impl Model for CallerMedia {
    ghost use Rattle.std.specs.Prelude.{map};
    ghost use Rattle.media_variables.specs.Variables.{Media};
    ghost use Rattle.media_variables.specs.Held.{AreHeld, seen_in};

    ghost Value = { Media };

    ghost view = { λ m. record { variables = map seen_in m.callers.items; pool = m.pool } };

    ghost invariant = { λ m. AreHeld m.pool (map seen_in m.callers.items) };
}

impl CallerMedia {
    /// No variable holds a medium, and the pool has made nothing.
    #[tactic(auto, using(crate::proofs::HeldLaws::none_seen))]
    pub fn open(alloc: Global, callers: &[CallerItem]) -> Result<CallerMedia, NoMemory>
        ensures { IfOk result
            (λ m. m ≡ record { variables = map (λ c. []) callers.now; pool = [] }) }
    {
        Ok(CallerMedia {
            pool: Pool::open(alloc),
            callers: no_variables(alloc, callers)?,
        })
    }

    /// A step on media of a caller that uses no port, and its answer. A step that encodes or takes is the codec's: it has
    /// no answer here, and changes nothing. `chunk` is the one that the step copies, if it copies one that
    /// was made or is of a chunk file.
    pub fn step(
        &mut self,
        alloc: Global,
        who: Who,
        chunk: Option<Chunk>,
        step: &MediaStep,
    ) -> Result<Option<StepResult>, NoMemory>
        requires there { who.caller < length self.old.variables }
        requires ports { uses_port step.now ≡ false }
        ensures came { let b : Brought = record { chunk = chunk; taken = None; received = None } in
            IfOk result (CameTo self.old self.new who b step.now) }
        ensures err { OnErr result (self.new ≡ self.old) }
    {
        caller_step(alloc, &mut self.pool, &mut self.callers, who, &chunk, step)
    }

    /// A step of a caller that takes an output of a codec, and its answer. The step's variable holds
    /// audio data or a video frame with the output's bytes, or the output itself where it is a chunk.
    /// After a want of memory all is as it was.
    pub fn take(&mut self, who: Who, unit: Unit, answer: StepResult) -> Result<StepResult, NoMemory>
        requires there { who.caller < length self.old.variables }
        requires enough { IsEnoughUnit unit }
        ensures came { let taken : Taken = record { unit = unit; answer = answer } in
            let vs = variables_of who.caller self.old.variables in
            let numbers = next_numbers self.old.pool in
            let came = taken_came numbers who.step (Some taken) vs in
            IfOk result (λ r. IsCome self.old self.new who came (Some r)) }
        ensures err { OnErr result (self.new ≡ self.old) }
    {
        caller_take(&mut self.pool, &mut self.callers, who, unit, answer)
    }

    /// The medium of a variable of a caller, for a port, and the answer of the step that posts it. No variable holds its
    /// reference then. It takes no memory.
    pub fn post(&mut self, who: Who, variable: u32) -> (StepResult, Option<Medium>)
        requires { who.caller < length self.old.variables }
        ensures came { let came = post_came variable (variables_of who.caller self.old.variables) in
            IsCome self.old self.new who (Some came) (Some result.0) }
        ensures posted { let vs = variables_of who.caller self.old.variables in
            option_map seen result.1 ≡ posted_from vs variable }
        ensures apart { AreApart self.new.pool self.new.variables (pairs_in result.1) }
    {
        caller_post(&mut self.callers, who, variable)
    }

    /// A step of a caller that receives a medium which was posted by this step, and its answer. After a want of memory all is
    /// as it was, and the medium is gone.
    pub fn receive(&mut self, who: Who, poster: Who, medium: Medium) -> Result<StepResult, NoMemory>
        requires there { who.caller < length self.old.variables }
        requires apart { AreApart self.old.pool self.old.variables (pairs_in (Some medium)) }
        ensures came { let p : Received = record { poster = poster; medium = seen medium } in
            let came = received_came who.step (Some p) (variables_of who.caller self.old.variables) in
            IfOk result (λ r. IsCome self.old self.new who (Some came) (Some r)) }
        ensures err { OnErr result (self.new ≡ self.old) }
    {
        caller_receive(&mut self.callers, who, poster, medium)
    }

    /// The chunk that a variable of a caller holds, again; none where it holds none.
    pub fn chunk(&self, caller: u32, variable: u32) -> Result<Option<Chunk>, NoMemory>
        ensures { let vs = variables_of caller self.now.variables in
            IfOk result (λ o. o ≡ option_and_then chunk_in_medium (medium_at vs variable)) }
    {
        match caller_at(self.callers.as_slice(), caller) {
            Some(variables) => variables.chunk(variable),
            None => Ok(None),
        }
    }

    /// Whether a variable of a caller holds audio data or a frame, and whether that is open.
    pub fn find_medium(&self, caller: u32, variable: u32) -> MediumFound
        ensures { let vs = variables_of caller self.now.variables in
            result ≡ medium_found (lendable_at vs variable) }
    {
        match caller_at(self.callers.as_slice(), caller) {
            Some(variables) => variables.find_medium(variable),
            None => MediumFound::Absent,
        }
    }

    /// One more reference to the open medium of a variable, for a codec, with its shape and bytes: what an
    /// encode that is accepted is handed. The variable stays as it is.
    pub fn lend(
        &mut self,
        by: By,
        caller: u32,
        variable: u32,
    ) -> Result<(HeldMedium, MediaRef), NoMemory>
        requires { let vs = variables_of caller self.old.variables in
            medium_found (lendable_at vs variable) ≡ found.Open }
        ensures lent { let vs = variables_of caller self.old.variables in
            IfOk result (IsLent by self.old.pool self.new.pool (lendable_at vs variable)) }
        ensures same { self.new.variables ≡ self.old.variables }
        ensures apart { IfOk result
            (λ x. AreApart self.new.pool self.new.variables (pair_of x.1 ∷ [])) }
        ensures err { OnErr result (self.new ≡ self.old) }
    {
        caller_lend(&mut self.pool, &mut self.callers, by, caller, variable)
    }

    /// Ends these references by one cause, one after another. It takes no memory.
    pub fn end_all(&mut self, by: By, media: Vec<MediaRef>)
        requires { AreApart self.old.pool self.old.variables (map pair_of media.items) }
        ensures { let ends = ends_behind by self.old.pool (map pair_of media.items) in
            self.new ≡ record self.old { pool = self.old.pool ++ ends } }
    {
        end_each(&mut self.pool, by, media);
    }

    /// Ends this reference, if there is one. It takes no memory.
    pub fn end_one(&mut self, by: By, media: Option<MediaRef>)
        requires { AreApart self.old.pool self.old.variables (map pair_of (in_order media)) }
        ensures { let ends = ends_behind by self.old.pool (map pair_of (in_order media)) in
            self.new ≡ record self.old { pool = self.old.pool ++ ends } }
    {
        end_if(&mut self.pool, by, media);
    }

    /// How many resources have a live reference.
    pub fn held(&self) -> u64
        ensures { result ≡ held_in self.now.pool }
    {
        self.pool.held()
    }

    /// The pool's history.
    pub fn into_entries(self) -> Vec<PoolEntry>
        ensures entries { result.items ≡ self.pool }
        ensures legal { is_legal_pool self.pool ≡ true }
    {
        self.pool.into_entries()
    }
}

fn no_variables(alloc: Global, callers: &[CallerItem]) -> Result<Vec<Variables>, NoMemory>
    ensures { IfOk result (λ v. v.items ≡ map (λ c. []) callers.now) }
{
    let all = callers.iter().map(|_| Variables::new(alloc));
    Ok(all.collect(alloc)?)
}

/// The variables of a caller; none of one that is not there.
fn caller_at(callers: &[Variables], caller: u32) -> Option<&Variables>
    ensures { variables_of caller (map seen_in callers.now)
        ≡ unwrap_or (option_map (λ v. seen_in v.now) result) [] }
{
    match callers.get(caller as usize) {
        Some(variables) => Some(variables),
        None => None,
    }
}

/// A step of a caller, on the variables of all.
fn caller_step(
    alloc: Global,
    pool: &mut Pool,
    callers: &mut Vec<Variables>,
    who: Who,
    chunk: &Option<Chunk>,
    step: &MediaStep,
) -> Result<Option<StepResult>, NoMemory>
    requires there { who.caller < length callers.old.items }
    requires held { AreHeld pool.old (map seen_in callers.old.items) }
    requires ports { uses_port step.now ≡ false }
    ensures came { let b : Brought = record { chunk = chunk.now; taken = None; received = None } in
        let old = media_of callers.old.items pool.old in
        IfOk result (CameTo old (media_of callers.new.items pool.new) who b step.now) }
    ensures pool { OnErr result (pool.new ≡ pool.old) }
    ensures callers { OnErr result
        (map seen_in callers.new.items ≡ map seen_in callers.old.items) }
    ensures held { AreHeld pool.new (map seen_in callers.new.items) }
{
    references_are_apart();
    let _legal = pool.entries().len();
    match callers.get_mut(who.caller as usize) {
        Some(variables) => variables.step(alloc, pool, who, chunk, step),
        None => unreachable!(),
    }
}

/// A post of a caller, on the variables of all.
fn caller_post(
    callers: &mut Vec<Variables>,
    who: Who,
    variable: u32,
) -> (StepResult, Option<Medium>)
    requires { who.caller < length callers.old.items }
    ensures came { let vs = variables_of who.caller (map seen_in callers.old.items) in
        let came = post_came variable vs in
        (result.0 ≡ came.answer) × (map seen_in callers.new.items
        ≡ slice_set (map seen_in callers.old.items) who.caller came.variables) }
    ensures posted { let vs = variables_of who.caller (map seen_in callers.old.items) in
        option_map seen result.1 ≡ posted_from vs variable }
{
    match callers.get_mut(who.caller as usize) {
        Some(variables) => variables.post(variable),
        None => unreachable!(),
    }
}

/// A step of a caller that receives a medium, on the variables of all.
fn caller_receive(
    callers: &mut Vec<Variables>,
    who: Who,
    poster: Who,
    medium: Medium,
) -> Result<StepResult, NoMemory>
    requires { who.caller < length callers.old.items }
    ensures came { let p : Received = record { poster = poster; medium = seen medium } in
        let vs = variables_of who.caller (map seen_in callers.old.items) in
        let came = received_came who.step (Some p) vs in
        IfOk result (λ r. (r ≡ came.answer) × (map seen_in callers.new.items
        ≡ slice_set (map seen_in callers.old.items) who.caller came.variables)) }
    ensures err { OnErr result
        (map seen_in callers.new.items ≡ map seen_in callers.old.items) }
{
    match callers.get_mut(who.caller as usize) {
        Some(variables) => variables.receive(who, poster, medium),
        None => unreachable!(),
    }
}

/// A step of a caller that takes an output, on the variables of all.
fn caller_take(
    pool: &mut Pool,
    callers: &mut Vec<Variables>,
    who: Who,
    unit: Unit,
    answer: StepResult,
) -> Result<StepResult, NoMemory>
    requires there { who.caller < length callers.old.items }
    requires held { AreHeld pool.old (map seen_in callers.old.items) }
    requires enough { IsEnoughUnit unit }
    ensures came { let taken : Taken = record { unit = unit; answer = answer } in
        let old = media_of callers.old.items pool.old in
        let vs = variables_of who.caller old.variables in
        let came = taken_came (next_numbers pool.old) who.step (Some taken) vs in
        let new = media_of callers.new.items pool.new in
        IfOk result (λ r. IsCome old new who came (Some r)) }
    ensures pool { OnErr result (pool.new ≡ pool.old) }
    ensures callers { OnErr result
        (map seen_in callers.new.items ≡ map seen_in callers.old.items) }
    ensures held { AreHeld pool.new (map seen_in callers.new.items) }
{
    references_are_apart();
    let _legal = pool.entries().len();
    match callers.get_mut(who.caller as usize) {
        Some(variables) => variables.take(pool, who, unit, answer),
        None => unreachable!(),
    }
}

/// One more reference to the open audio data of a variable, with its samples; the variables of all stay
/// as they are.
fn caller_lend(
    pool: &mut Pool,
    callers: &mut Vec<Variables>,
    by: By,
    caller: u32,
    variable: u32,
) -> Result<(HeldMedium, MediaRef), NoMemory>
    requires open { let vs = variables_of caller (map seen_in callers.old.items) in
        medium_found (lendable_at vs variable) ≡ found.Open }
    requires held { AreHeld pool.old (map seen_in callers.old.items) }
    ensures ok { let vs = variables_of caller (map seen_in callers.old.items) in
        IfOk result (IsLent by pool.old pool.new (lendable_at vs variable)) }
    ensures apart { IfOk result
        (λ x. AreApart pool.new (map seen_in callers.new.items) (pair_of x.1 ∷ [])) }
    ensures same { map seen_in callers.new.items ≡ map seen_in callers.old.items }
    ensures err { OnErr result (pool.new ≡ pool.old) }
    ensures held { AreHeld pool.new (map seen_in callers.new.items) }
{
    references_are_apart();
    let _legal = pool.entries().len();
    match callers.get_mut(caller as usize) {
        Some(variables) => variables.lend(pool, by, variable),
        None => unreachable!(),
    }
}
