// What the steps of one caller come to.
ghost use Rattle.std.specs.Prelude.{◌≡◌, Option, None, Some, IfOk, IfSome, OnErr, vec_capacity};
ghost use Rattle.std.specs.Prelude.{false};
ghost use Rattle.std.specs.Prelude.{option_map, option_and_then};
ghost use Rattle.wc_audio.specs.Sound.{KeepsButHeld};
ghost use Rattle.wc_pool.specs.Pools.{KeepsAll};
ghost use Rattle.media_variables.specs.Variables.{Brought, Numbers, audio_came, frame_came};
ghost use Rattle.media_variables.specs.Variables.{copy_came};
ghost use Rattle.media_variables.specs.Variables.{media_came, unit_came};
ghost use Rattle.media_variables.specs.Variables.{if_there, medium_at, clone_held, transfer_held};
ghost use Rattle.media_variables.specs.Variables.{close_held, only_answers, copy_medium};
ghost use Rattle.media_variables.specs.Variables.{size_of_medium, chunk_in_medium};
ghost use Rattle.media_variables.specs.Variables.{chunk_of_variable, lendable_at};
ghost use Rattle.media_variables.specs.Held.{AreOf, IsEnoughUnit, StayOf, medium_found};
ghost use Rattle.media_variables.specs.Held.{reference_of, seen, seen_in, whole_held};
ghost use Rattle.media_variables.specs.Held.{without_reference};
ghost use Rattle.media_variables.specs.Given.{Acts, Does, DoesAll, Gives, IsGivenOf};
ghost use Rattle.media_variables.specs.Given.{MayMakeAndEnd};
ghost use Rattle.media_variables.specs.Variables.{changed_at, uses_port};
ghost use Rattle.media_variables.specs.Given.{clone_done, closed_answer, closed_op, transferred_at};

use crate::buffered::{buffer_step, buffered_step};
use crate::copies::{copy_chunk, copy_medium, size_of_medium};
use crate::given::{Given, absent, done};
use crate::lending::MediumFound;
use crate::medium::{Medium, make_audio, make_frame, make_taken};
use crate::variables::{keep, make_room};
use codec_definitions::Unit;
use report_text::StepResult;
use script_types::{MediaStep, Options, PictureInit, SoundInit};
use std::alloc::Global;
use wc_base::{NoMemory, Who};
use wc_chunk::Chunk;
use wc_pool::RefPool;

/// A law: where no call is made, a pool makes no entry.
pub(crate) fn at_rest<P: RefPool>(pool: &P)
    ensures { P.stays pool.now pool.now }
{}

#[tactic(auto, using(crate::proofs::OfLaws::same_of, crate::proofs::OfLaws::kept_same_of))]
fn audio_step<P: RefPool>(
    alloc: Global,
    pool: &mut P,
    who: Who,
    init: &Option<SoundInit>,
    variables: &mut Vec<Option<Medium>>,
) -> Result<StepResult, NoMemory>
    requires { AreOf (P.is_of pool.old) variables.old.items }
    ensures ok { let did = DoesAll P.adds who pool.old pool.new in
        let vs = seen_in variables.old.items in
        let came = λ (n : Numbers). Some (audio_came n who.step init.now vs) in
        let after = seen_in variables.new.items in
        IfOk result (λ r. Acts did came vs after (Some r)) }
    ensures of { AreOf (P.is_of pool.new) variables.new.items }
    ensures err { OnErr result (P.stays pool.old pool.new) }
    ensures same { OnErr result (seen_in variables.new.items ≡ seen_in variables.old.items) }
{
    at_rest(pool);
    make_room(variables, who.step)?;
    let given = make_audio(alloc, pool, who, init)?;
    Ok(keep(variables, who.step, given))
}

#[tactic(auto, using(crate::proofs::OfLaws::same_of, crate::proofs::OfLaws::kept_same_of))]
fn frame_step<P: RefPool>(
    alloc: Global,
    pool: &mut P,
    who: Who,
    init: &Option<PictureInit>,
    variables: &mut Vec<Option<Medium>>,
) -> Result<StepResult, NoMemory>
    requires { AreOf (P.is_of pool.old) variables.old.items }
    ensures ok { let did = DoesAll P.adds who pool.old pool.new in
        let vs = seen_in variables.old.items in
        let came = λ (n : Numbers). Some (frame_came n who.step init.now vs) in
        let after = seen_in variables.new.items in
        IfOk result (λ r. Acts did came vs after (Some r)) }
    ensures of { AreOf (P.is_of pool.new) variables.new.items }
    ensures err { OnErr result (P.stays pool.old pool.new) }
    ensures same { OnErr result (seen_in variables.new.items ≡ seen_in variables.old.items) }
{
    at_rest(pool);
    make_room(variables, who.step)?;
    let given = make_frame(alloc, pool, who, init)?;
    Ok(keep(variables, who.step, given))
}

/// A step of a caller that takes an output: its variable holds audio data or a video frame with the
/// output's bytes, or the output itself where it is a chunk.
#[tactic(auto, using(crate::proofs::OfLaws::same_of, crate::proofs::OfLaws::kept_same_of))]
pub(crate) fn take_step<P: RefPool>(
    pool: &mut P,
    who: Who,
    unit: Unit,
    answer: StepResult,
    variables: &mut Vec<Option<Medium>>,
) -> Result<StepResult, NoMemory>
    requires held { AreOf (P.is_of pool.old) variables.old.items }
    requires enough { IsEnoughUnit unit }
    ensures ok { let did = DoesAll P.adds who pool.old pool.new in
        let vs = seen_in variables.old.items in
        let came = λ (n : Numbers). Some (unit_came n who.step answer unit vs) in
        let after = seen_in variables.new.items in
        IfOk result (λ r. Acts did came vs after (Some r)) }
    ensures of { AreOf (P.is_of pool.new) variables.new.items }
    ensures err { OnErr result (P.stays pool.old pool.new) }
    ensures same { OnErr result (seen_in variables.new.items ≡ seen_in variables.old.items) }
{
    at_rest(pool);
    make_room(variables, who.step)?;
    let given = make_taken(pool, who, unit, answer)?;
    Ok(keep(variables, who.step, given))
}

#[tactic(auto, using(crate::proofs::Made::absent_gives))]
fn clone_variable<P: RefPool>(
    variable: &mut Option<Medium>,
    pool: &mut P,
    who: Who,
) -> Result<Given, NoMemory>
    requires { IfSome (whole_held variable.old) (P.is_of pool.old) }
    ensures same { option_map seen variable.new ≡ option_map seen variable.old }
    ensures still { IfSome (whole_held variable.new) (P.is_of pool.new) }
    ensures ok { let adds = P.adds pool.old pool.new in let same = pool.new ≡ pool.old in
        let medium = option_map seen variable.old in
        IfOk result (Gives adds same who (clone_done medium)) }
    ensures of { IfOk result (IsGivenOf (P.is_of pool.new)) }
    ensures err { OnErr result (P.stays pool.old pool.new) }
    ensures kept { KeepsAll (P.is_of pool.old) (P.is_of pool.new) }
{
    match variable {
        Some(medium) => medium.clone_medium(pool, who),
        None => Ok(absent()),
    }
}

fn clone_at<P: RefPool>(
    variables: &mut Vec<Option<Medium>>,
    of: u32,
    pool: &mut P,
    who: Who,
) -> Result<Given, NoMemory>
    requires { AreOf (P.is_of pool.old) variables.old.items }
    ensures same { seen_in variables.new.items ≡ seen_in variables.old.items }
    ensures room { vec_capacity variables.new ≡ vec_capacity variables.old }
    ensures still { AreOf (P.is_of pool.new) variables.new.items }
    ensures ok { let adds = P.adds pool.old pool.new in let same = pool.new ≡ pool.old in
        let medium = medium_at (seen_in variables.old.items) of in
        IfOk result (Gives adds same who (clone_done medium)) }
    ensures of { IfOk result (IsGivenOf (P.is_of pool.new)) }
    ensures err { OnErr result (P.stays pool.old pool.new) }
{
    match variables.get_mut(of as usize) {
        Some(variable) => clone_variable(variable, pool, who),
        None => Ok(absent()),
    }
}

#[tactic(auto, using(crate::proofs::OfLaws::same_of, crate::proofs::OfLaws::kept_same_of))]
fn clone_step<P: RefPool>(
    pool: &mut P,
    who: Who,
    of: u32,
    variables: &mut Vec<Option<Medium>>,
) -> Result<StepResult, NoMemory>
    requires { AreOf (P.is_of pool.old) variables.old.items }
    ensures ok { let did = DoesAll P.adds who pool.old pool.new in
        let vs = seen_in variables.old.items in
        let came = λ (n : Numbers). Some (if_there (medium_at vs of) vs
        (λ m. clone_held n who.step m.shape m.held vs)) in
        let after = seen_in variables.new.items in
        IfOk result (λ r. Acts did came vs after (Some r)) }
    ensures of { AreOf (P.is_of pool.new) variables.new.items }
    ensures err { OnErr result (P.stays pool.old pool.new) }
    ensures same { OnErr result (seen_in variables.new.items ≡ seen_in variables.old.items) }
{
    at_rest(pool);
    make_room(variables, who.step)?;
    let given = clone_at(variables, of, pool, who)?;
    Ok(keep(variables, who.step, given))
}

fn transfer_variable(variable: &mut Option<Medium>) -> Given
    ensures given { result ≡ transferred_at variable.old }
    ensures detached { variable.new ≡ option_map without_reference variable.old }
{
    match variable {
        Some(medium) => medium.transfer(),
        None => absent(),
    }
}

pub(crate) fn transfer_at(variables: &mut Vec<Option<Medium>>, of: u32) -> Given
    ensures given { result ≡ transferred_at (medium_at variables.old.items of) }
    ensures detached { variables.new.items
        ≡ changed_at without_reference of variables.old.items }
    ensures room { vec_capacity variables.new ≡ vec_capacity variables.old }
{
    match variables.get_mut(of as usize) {
        Some(variable) => transfer_variable(variable),
        None => absent(),
    }
}

#[tactic(auto, using(crate::proofs::OfLaws::same_of, crate::proofs::OfLaws::kept_same_of))]
fn transfer_step<P: RefPool>(
    pool: &mut P,
    who: Who,
    of: u32,
    variables: &mut Vec<Option<Medium>>,
) -> Result<StepResult, NoMemory>
    requires { AreOf (P.is_of pool.old) variables.old.items }
    ensures ok { let did = DoesAll P.adds who pool.old pool.new in
        let vs = seen_in variables.old.items in
        let came = λ (n : Numbers). Some (if_there (medium_at vs of) vs
        (λ m. transfer_held who.step of m m.held vs)) in
        let after = seen_in variables.new.items in
        IfOk result (λ r. Acts did came vs after (Some r)) }
    ensures of { AreOf (P.is_of pool.new) variables.new.items }
    ensures pool { pool.new ≡ pool.old }
    ensures same { OnErr result (seen_in variables.new.items ≡ seen_in variables.old.items) }
{
    make_room(variables, who.step)?;
    let given = transfer_at(variables, of);
    Ok(keep(variables, who.step, given))
}

fn close_variable<P: RefPool>(variable: &mut Option<Medium>, pool: &mut P, who: Who) -> StepResult
    requires { IfSome (whole_held variable.old) (P.is_of pool.old) }
    ensures answer { result ≡ closed_answer variable.old }
    ensures detached { variable.new ≡ option_map without_reference variable.old }
    ensures does { let held = option_map reference_of (whole_held variable.old) in
        Does (P.adds pool.old pool.new) (pool.new ≡ pool.old) who (closed_op held) }
    ensures kept { KeepsButHeld (whole_held variable.old) (P.is_of pool.old) (P.is_of pool.new) }
{
    match variable {
        Some(medium) => {
            medium.close(pool, who);
            done()
        }
        None => StepResult::Absent,
    }
}

fn close_step<P: RefPool>(
    pool: &mut P,
    who: Who,
    of: u32,
    variables: &mut Vec<Option<Medium>>,
) -> StepResult
    requires { AreOf (P.is_of pool.old) variables.old.items }
    ensures acts { let did = DoesAll P.adds who pool.old pool.new in
        let vs = seen_in variables.old.items in
        let came = λ (n : Numbers). Some (if_there (medium_at vs of) vs
        (λ m. close_held of m m.held vs)) in
        Acts did came vs (seen_in variables.new.items) (Some result) }
    ensures of { let vs = variables.old.items in
        StayOf (P.is_of pool.old) (P.is_of pool.new) vs variables.new.items }
{
    match variables.get_mut(of as usize) {
        Some(variable) => close_variable(variable, pool, who),
        None => StepResult::Absent,
    }
}

fn copy_step(
    alloc: Global,
    variables: &[Option<Medium>],
    chunk: &Option<Chunk>,
    of: u32,
    options: &Options,
    size: u64,
) -> Result<StepResult, NoMemory>
    ensures { IfOk result
        (λ r. r ≡ (copy_came chunk.now of options.now size (seen_in variables.now)).answer) }
{
    if let Options::Nothing = options {
        return copy_chunk(alloc, chunk_for(chunk, variables, of), size);
    }
    match medium_at(variables, of) {
        Some(medium) => copy_medium(alloc, medium, options, size),
        None => Ok(StepResult::Absent),
    }
}

fn size_step(
    alloc: Global,
    variables: &[Option<Medium>],
    of: u32,
    options: &Options,
) -> Result<StepResult, NoMemory>
    ensures { let vs = seen_in variables.now in
        let came = if_there (medium_at vs of) vs
        (λ m. only_answers (size_of_medium m options.now) vs) in
        IfOk result (λ r. r ≡ came.answer) }
{
    match medium_at(variables, of) {
        Some(medium) => size_of_medium(alloc, medium, options),
        None => Ok(StepResult::Absent),
    }
}

/// What the variable of a step holds.
pub(crate) fn medium_at(variables: &[Option<Medium>], of: u32) -> Option<&Medium>
    ensures { option_map (λ m. seen m.now) result ≡ medium_at (seen_in variables.now) of }
{
    whole_at(variables, of)
}

/// The same, with all of its reference.
fn whole_at(variables: &[Option<Medium>], of: u32) -> Option<&Medium>
    ensures { option_map (λ m. m.now) result ≡ medium_at variables.now of }
{
    match variables.get(of as usize) {
        Some(Some(medium)) => Some(medium),
        _ => None,
    }
}

/// The chunk that was taken into the variable of a step, if that holds one.
pub(crate) fn chunk_at(variables: &[Option<Medium>], of: u32) -> Option<&Chunk>
    ensures { option_map (λ c. c.now) result
        ≡ option_and_then chunk_in_medium (medium_at (seen_in variables.now) of) }
{
    match medium_at(variables, of) {
        Some(medium) => medium.chunk(),
        None => None,
    }
}

/// The chunk of a variable: the one that its step makes, or the one that was taken.
fn chunk_for<'a>(
    made: &'a Option<Chunk>,
    variables: &'a [Option<Medium>],
    of: u32,
) -> Option<&'a Chunk>
    ensures { let vs = seen_in variables.now in
        option_map (λ c. c.now) result ≡ chunk_of_variable made.now vs of }
{
    match made {
        Some(chunk) => Some(chunk),
        None => chunk_at(variables, of),
    }
}

/// Whether the variable of a step holds audio data or a frame, and whether that is open.
pub(crate) fn find_medium(variables: &[Option<Medium>], of: u32) -> MediumFound
    ensures { result ≡ medium_found (lendable_at (seen_in variables.now) of) }
{
    match medium_at(variables, of) {
        Some(medium) => medium.find(),
        None => MediumFound::Absent,
    }
}

/// A step of a caller that takes no output and uses no port; none of one that encodes or is to take an output.
#[tactic(auto, using(crate::proofs::OfLaws::stay_of, crate::proofs::StepLaws::codecs_act))]
pub(crate) fn media_step<P: RefPool>(
    alloc: Global,
    pool: &mut P,
    who: Who,
    chunk: &Option<Chunk>,
    step: &MediaStep,
    variables: &mut Vec<Option<Medium>>,
) -> Result<Option<StepResult>, NoMemory>
    requires held { AreOf (P.is_of pool.old) variables.old.items }
    requires apart { MayMakeAndEnd P.adds P.is_of pool.old (seen_in variables.old.items) }
    requires ports { uses_port step.now ≡ false }
    ensures ok { let did = DoesAll P.adds who pool.old pool.new in
        let b : Brought = record { chunk = chunk.now; taken = None; received = None } in
        let vs = seen_in variables.old.items in
        let came = λ (n : Numbers). media_came n who b step.now vs in
        IfOk result (Acts did came vs (seen_in variables.new.items)) }
    ensures of { let vs = variables.old.items in
        StayOf (P.is_of pool.old) (P.is_of pool.new) vs variables.new.items }
    ensures err { OnErr result (P.stays pool.old pool.new) }
    ensures same { OnErr result (seen_in variables.new.items ≡ seen_in variables.old.items) }
{
    at_rest(pool);
    let answer = match step {
        MediaStep::Encode { .. } | MediaStep::Take { .. } => return Ok(None),
        MediaStep::Audio { bind: _, init } => audio_step(alloc, pool, who, init, variables)?,
        MediaStep::Frame { bind: _, init } => frame_step(alloc, pool, who, init, variables)?,
        MediaStep::Buffer { bind: _, content } => {
            buffer_step(alloc, pool, who, content.as_slice(), variables)?
        }
        MediaStep::Buffered { bind: _, init } => buffered_step(alloc, pool, who, init, variables)?,
        MediaStep::Clone { of, bind: _ } => clone_step(pool, who, of.step, variables)?,
        MediaStep::Transfer { of, bind: _ } => transfer_step(pool, who, of.step, variables)?,
        MediaStep::CloseData { of } => close_step(pool, who, of.step, variables),
        MediaStep::Copy { of, options, size } => {
            copy_step(alloc, variables, chunk, of.step, options, *size)?
        }
        MediaStep::Size { of, options } => size_step(alloc, variables, of.step, options)?,
        MediaStep::Post { .. } | MediaStep::Receive { .. } => unreachable!(),
    };
    Ok(Some(answer))
}
