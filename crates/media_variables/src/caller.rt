// The variables of one caller, over any pool.
ghost use Rattle.std.specs.Prelude.{◌≡◌, ◌<◌, [], None, Some, false, IfOk, OnErr, OnOk};
ghost use Rattle.std.specs.Prelude.{length, option_and_then};
ghost use Rattle.media_variables.specs.declared.lending.MediumFound.TheVariants as found;
ghost use Rattle.media_variables.specs.Variables.{Brought, Numbers, media_came, unit_came};
ghost use Rattle.media_variables.specs.Variables.{chunk_in_medium, lendable_at, medium_at};
ghost use Rattle.media_variables.specs.Held.{AreOf, IsEnoughUnit, StayOf, medium_found, seen_in};
ghost use Rattle.media_variables.specs.Given.{Acts, DoesAll, Lends, MayMakeAndEnd};
ghost use Rattle.media_variables.specs.Given.{transferred_at};
ghost use Rattle.media_variables.specs.Held.{without_reference};
ghost use Rattle.media_variables.specs.Variables.{changed_at, uses_port, with_medium};
ghost use Rattle.report_text.specs.declared.result.StepResult.TheVariants as step_result;

use crate::lending::{MediumFound, lend_at};
use crate::medium::Medium;
use crate::steps::{chunk_at, find_medium, media_step, take_step, transfer_at};
use crate::variables::{make_room, put};
use codec_definitions::Unit;
use codec_model::HeldMedium;
use report_text::StepResult;
use script_types::MediaStep;
use std::alloc::Global;
use std::marker::Model;
use wc_base::{By, NoMemory, Who};
use wc_chunk::Chunk;
use wc_pool::{MediaRef, RefPool};

/// The variables of one caller that hold media, by the numbers of the steps that define them. A contract
/// sees each medium with all of its reference; what a step comes to is said without the key and the token
/// of a pool.
#[derive(Drop)]
pub struct Variables {
    media: Vec<Option<Medium>>,
}

impl Model for Variables {
    ghost use Rattle.std.specs.Prelude.{List, Option};
    ghost use Rattle.media_variables.specs.Held.{WholeMedium};

    ghost Value = { List (Option WholeMedium) };

    ghost view = { λ v. v.media.items };
}

impl Variables {
    /// No variable holds a medium. It takes no memory.
    pub fn new(alloc: Global) -> Variables
        ensures { result ≡ [] }
    {
        Variables {
            media: Vec::new(alloc),
        }
    }

    /// A step on media of the caller that uses no port, and its answer. A step that encodes or takes is the
    /// codec's: it has no answer here, and changes nothing. `chunk` is the one that the step copies, if it copies one that was
    /// made or is of a chunk file. After a want of memory all is as it was, but for what the pool does not
    /// keep of a reference that is cloned.
    pub fn step<P: RefPool>(
        &mut self,
        alloc: Global,
        pool: &mut P,
        who: Who,
        chunk: &Option<Chunk>,
        step: &MediaStep,
    ) -> Result<Option<StepResult>, NoMemory>
        requires held { AreOf (P.is_of pool.old) self.old }
        requires apart { MayMakeAndEnd P.adds P.is_of pool.old (seen_in self.old) }
        requires ports { uses_port step.now ≡ false }
        ensures acts { let did = DoesAll P.adds who pool.old pool.new in
            let b : Brought = record { chunk = chunk.now; taken = None; received = None } in
            let came = λ (n : Numbers). media_came n who b step.now (seen_in self.old) in
            IfOk result (Acts did came (seen_in self.old) (seen_in self.new)) }
        ensures of { StayOf (P.is_of pool.old) (P.is_of pool.new) self.old self.new }
        ensures err { OnErr result (P.stays pool.old pool.new) }
        ensures same { OnErr result (seen_in self.new ≡ seen_in self.old) }
    {
        media_step(alloc, pool, who, chunk, step, &mut self.media)
    }

    /// A step of the caller that takes an output of a codec, and its answer. The step's variable holds audio
    /// data or a video frame with the output's bytes, or the output itself where it is a chunk. After a want
    /// of memory all is as it was.
    pub fn take<P: RefPool>(
        &mut self,
        pool: &mut P,
        who: Who,
        unit: Unit,
        answer: StepResult,
    ) -> Result<StepResult, NoMemory>
        requires held { AreOf (P.is_of pool.old) self.old }
        requires enough { IsEnoughUnit unit }
        ensures acts { let did = DoesAll P.adds who pool.old pool.new in
            let vs = seen_in self.old in
            let came = λ (n : Numbers). Some (unit_came n who.step answer unit vs) in
            IfOk result (λ r. Acts did came vs (seen_in self.new) (Some r)) }
        ensures of { AreOf (P.is_of pool.new) self.new }
        ensures err { OnErr result (P.stays pool.old pool.new) }
        ensures same { OnErr result (seen_in self.new ≡ seen_in self.old) }
    {
        take_step(pool, who, unit, answer, &mut self.media)
    }

    /// The medium of a variable, for a port, and the answer of the step that posts it; the variable is detached. It takes no
    /// memory, and makes no entry.
    pub fn post(&mut self, variable: u32) -> (StepResult, Option<Medium>)
        ensures answer { result.0 ≡ (transferred_at (medium_at self.old variable)).answer }
        ensures medium { result.1 ≡ (transferred_at (medium_at self.old variable)).medium }
        ensures detached { self.new ≡ changed_at without_reference variable self.old }
    {
        let given = transfer_at(&mut self.media, variable);
        (given.answer, given.medium)
    }

    /// A medium that was posted from a variable goes back into it. It takes no memory.
    pub fn put_back(&mut self, variable: u32, medium: Medium)
        requires { variable < length self.old }
        ensures { self.new ≡ with_medium variable medium self.old }
    {
        put(&mut self.media, variable, medium);
    }

    /// Room for the variable of a step, before something is received that is to go into it. All is as it was.
    pub fn make_room(&mut self, variable: u32) -> Result<(), NoMemory>
        ensures { self.new ≡ self.old }
    {
        make_room(&mut self.media, variable)
    }

    /// The variable of a step holds a medium that was posted by this step. After a want of memory all is as it was, and the
    /// medium is gone.
    pub fn receive(&mut self, who: Who, poster: Who, medium: Medium) -> Result<StepResult, NoMemory>
        ensures ok { IfOk result (λ r. r ≡ step_result.From poster) }
        ensures variables { OnOk result (self.new ≡ with_medium who.step medium self.old) }
        ensures err { OnErr result (self.new ≡ self.old) }
    {
        make_room(&mut self.media, who.step)?;
        put(&mut self.media, who.step, medium);
        Ok(StepResult::From { who: poster })
    }

    /// The chunk that a variable holds, again; none where it holds none.
    pub fn chunk(&self, variable: u32) -> Result<Option<Chunk>, NoMemory>
        ensures { let vs = seen_in self.now in
            IfOk result (λ o. o ≡ option_and_then chunk_in_medium (medium_at vs variable)) }
    {
        match chunk_at(self.media.as_slice(), variable) {
            Some(chunk) => Ok(Some(chunk.copy()?)),
            None => Ok(None),
        }
    }

    /// Whether a variable holds audio data or a frame, and whether that is open.
    pub fn find_medium(&self, variable: u32) -> MediumFound
        ensures { result ≡ medium_found (lendable_at (seen_in self.now) variable) }
    {
        find_medium(self.media.as_slice(), variable)
    }

    /// One more reference to the open medium of a variable, for a codec, with its shape and bytes: what an
    /// encode that is accepted is handed. The variable stays as it is, but for what the pool does not keep of
    /// a reference that is cloned.
    pub fn lend<P: RefPool>(
        &mut self,
        pool: &mut P,
        by: By,
        variable: u32,
    ) -> Result<(HeldMedium, MediaRef), NoMemory>
        requires open { medium_found (lendable_at (seen_in self.old) variable) ≡ found.Open }
        requires held { AreOf (P.is_of pool.old) self.old }
        ensures same { seen_in self.new ≡ seen_in self.old }
        ensures still { AreOf (P.is_of pool.new) self.new }
        ensures lent { let adds = P.adds pool.old pool.new in
            IfOk result (Lends adds by (lendable_at (seen_in self.old) variable)) }
        ensures of { IfOk result (λ x. P.is_of pool.new x.1) }
        ensures err { OnErr result (P.stays pool.old pool.new) }
    {
        lend_at(&mut self.media, variable, pool, by)
    }
}
