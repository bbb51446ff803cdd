// Steps whose inits name array buffers.
ghost use Rattle.std.specs.Prelude.{◌≡◌, ◌≤◌, ◌+◌, [], ◌∷◌, None, Some, false, true, IfOk, IfSome, OnErr};
ghost use Rattle.std.specs.Prelude.{if◌then◌else◌};
ghost use Rattle.std.specs.Prelude.{length, option_and_then, option_map, vec_capacity};
ghost use Rattle.array_buffers.specs.Transfers.{may_transfer};
ghost use Rattle.wc_pool.specs.Pools.{KeepsAll};
ghost use Rattle.report_text.specs.declared.result.StepResult.TheVariants as step_result;
ghost use Rattle.media_variables.specs.Variables.{Numbers, all_but, adopted_in, buffer_at};
ghost use Rattle.media_variables.specs.Variables.{buffered_came, bytes_in, end_of, gone_at};
ghost use Rattle.media_variables.specs.Variables.{is_invalid_init, is_open_buffer, lets_all};
ghost use Rattle.media_variables.specs.Variables.{makes, medium_at, only_answers, steps_in};
ghost use Rattle.media_variables.specs.Variables.{BufferOf};
ghost use Rattle.media_variables.specs.Variables.{buffer_in, changed_at, is_listed};
ghost use Rattle.media_variables.specs.Held.{AreOf, reference_of, seen, seen_in, whole_held};
ghost use Rattle.media_variables.specs.Held.{without_reference};
ghost use Rattle.media_variables.specs.Given.{Acts, DoesAll, Gives, IsGivenOf, MayEnd};
ghost use Rattle.media_variables.specs.Given.{MayMakeAndEnd, before_given, made_or_adopted};

use crate::given::{Given, gives, refused};
use crate::medium::{Medium, adopt_medium, is_invalid_init, make_buffer, make_init};
use crate::steps::{at_rest, medium_at};
use crate::variables::{keep, make_room};
use report_text::StepResult;
use script_types::{BufferedInit, InitData, InitShape, Variable};
use std::alloc::Global;
use wc_base::{By, DomError, NoMemory, Who};
use wc_pool::{MediaRef, RefPool};

/// A step that makes a buffer.
#[tactic(auto, using(crate::proofs::OfLaws::same_of, crate::proofs::OfLaws::kept_same_of))]
pub(crate) fn buffer_step<P: RefPool>(
    alloc: Global,
    pool: &mut P,
    who: Who,
    content: &[u8],
    variables: &mut Vec<Option<Medium>>,
) -> Result<StepResult, NoMemory>
    requires { AreOf (P.is_of pool.old) variables.old.items }
    ensures ok { let did = DoesAll P.adds who pool.old pool.new in
        let vs = seen_in variables.old.items in
        let came = λ (n : Numbers). Some (makes n who.step BufferOf content.now vs) in
        let after = seen_in variables.new.items in
        IfOk result (λ r. Acts did came vs after (Some r)) }
    ensures of { AreOf (P.is_of pool.new) variables.new.items }
    ensures err { OnErr result (P.stays pool.old pool.new) }
    ensures same { OnErr result (seen_in variables.new.items ≡ seen_in variables.old.items) }
{
    at_rest(pool);
    make_room(variables, who.step)?;
    let given = make_buffer(alloc, pool, who, content)?;
    Ok(keep(variables, who.step, given))
}

/// Whether the variable of a step holds an open buffer.
fn is_open(variables: &[Option<Medium>], step: u32) -> bool
    ensures { result ≡ is_open_buffer (seen_in variables.now) step }
{
    match medium_at(variables, step) {
        Some(medium) => medium.is_open_buffer(),
        None => false,
    }
}

/// The bytes of an init. A buffer that is detached has none.
fn bytes_of<'a>(content: &'a InitData, variables: &'a [Option<Medium>]) -> &'a [u8]
    ensures { result.now ≡ bytes_in content.now (seen_in variables.now) }
{
    match content {
        InitData::Hex(bytes) => bytes.as_slice(),
        InitData::Buffer(variable) => match medium_at(variables, variable.step) {
            Some(medium) => medium.buffer_bytes(),
            None => &[],
        },
    }
}

/// Whether the variable of a step stands in a list.
fn is_listed(list: &[Variable], step: u32) -> bool
    ensures { result ≡ is_listed step (steps_in list.now) }
{
    let mut left = list;
    while let [first, rest @ ..] = left {
        if first.step == step {
            return true;
        }
        left = rest;
    }
    false
}

/// Whether each of these variables holds an open buffer, and none stands twice.
fn may_transfer(variables: &[Option<Medium>], list: &[Variable]) -> bool
    ensures { let is_open = is_open_buffer (seen_in variables.now) in
        result ≡ may_transfer is_open (steps_in list.now) }
{
    let mut left = list;
    while let [first, rest @ ..] = left {
        if !is_open(variables, first.step) || is_listed(rest, first.step) {
            return false;
        }
        left = rest;
    }
    true
}

/// The buffer whose reference is taken over, by the step that defines it.
fn adopted_in(init: &BufferedInit) -> Option<u32>
    ensures { result ≡ adopted_in init.now }
{
    match (&init.shape, &init.content) {
        (InitShape::Sound(_) | InitShape::Picture(_), InitData::Buffer(source)) => {
            if is_listed(init.transfer.as_slice(), source.step) {
                Some(source.step)
            } else {
                None
            }
        }
        _ => None,
    }
}

/// The reference of a buffer, which is detached.
fn detach_variable(variable: &mut Option<Medium>) -> Option<MediaRef>
    ensures given { option_map reference_of result
        ≡ option_and_then buffer_in (option_map seen variable.old) }
    ensures of { IfSome result (λ r. whole_held variable.old ≡ Some r) }
    ensures detached { IfSome result
        (λ r. variable.new ≡ option_map without_reference variable.old) }
    ensures same { result ≡ None → variable.new ≡ variable.old }
{
    match variable {
        Some(medium) => medium.detach_buffer(),
        None => None,
    }
}

/// The reference of the buffer of a variable, which is detached; none where that holds no open buffer.
fn detach(variables: &mut Vec<Option<Medium>>, step: u32) -> Option<MediaRef>
    ensures given { option_map reference_of result ≡ buffer_at (seen_in variables.old.items) step }
    ensures of { IfSome result (λ r. whole_held (medium_at variables.old.items step) ≡ Some r) }
    ensures detached { IfSome result (λ r.
        variables.new.items ≡ changed_at without_reference step variables.old.items) }
    ensures same { result ≡ None → variables.new.items ≡ variables.old.items }
    ensures room { vec_capacity variables.new ≡ vec_capacity variables.old }
{
    match variables.get_mut(step as usize) {
        Some(variable) => detach_variable(variable),
        None => None,
    }
}

/// The buffer of a variable is detached, and its reference ends.
fn let_go<P: RefPool>(variables: &mut Vec<Option<Medium>>, step: u32, pool: &mut P, who: Who)
    requires held { AreOf (P.is_of pool.old) variables.old.items }
    requires apart { MayEnd P.adds P.is_of (seen_in variables.old.items) }
    ensures variables { let vs = seen_in variables.old.items in
        seen_in variables.new.items ≡ gone_at (buffer_at vs step) step vs }
    ensures does { let ended = end_of (buffer_at (seen_in variables.old.items) step) in
        DoesAll P.adds who pool.old pool.new ended }
    ensures held { AreOf (P.is_of pool.new) variables.new.items }
    ensures apart { MayEnd P.adds P.is_of (seen_in variables.new.items) }
{
    match detach(variables, step) {
        Some(held) => {
            pool.end(By::Caller(who), held);
        }
        None => (),
    }
}

/// Whether a buffer of the list is let go: it is not the one that was taken over.
fn is_let_go(adopted: Option<u32>, step: u32) -> bool
    ensures { all_but adopted (step ∷ []) ≡ if result then step ∷ [] else [] }
{
    match adopted {
        Some(taken) => step != taken,
        None => true,
    }
}

/// A buffer of the list is let go, if it is not the one that was taken over.
fn let_other_go<P: RefPool>(
    variables: &mut Vec<Option<Medium>>,
    step: u32,
    adopted: Option<u32>,
    pool: &mut P,
    who: Who,
)
    requires held { AreOf (P.is_of pool.old) variables.old.items }
    requires apart { MayEnd P.adds P.is_of (seen_in variables.old.items) }
    ensures variables { let c = only_answers step_result.Absent (seen_in variables.old.items) in
        seen_in variables.new.items ≡ (lets_all (all_but adopted (step ∷ [])) c).variables }
    ensures does { let c = only_answers step_result.Absent (seen_in variables.old.items) in
        DoesAll P.adds who pool.old pool.new (lets_all (all_but adopted (step ∷ [])) c).does }
    ensures held { AreOf (P.is_of pool.new) variables.new.items }
    ensures apart { MayEnd P.adds P.is_of (seen_in variables.new.items) }
{
    if is_let_go(adopted, step) {
        let_go(variables, step, pool, who);
    }
}

/// The buffers of a list are detached, and their references end, in order: of all but the one that was taken over.
fn let_all_go<P: RefPool>(
    variables: &mut Vec<Option<Medium>>,
    list: &[Variable],
    adopted: Option<u32>,
    pool: &mut P,
    who: Who,
)
    requires held { AreOf (P.is_of pool.old) variables.old.items }
    requires apart { MayEnd P.adds P.is_of (seen_in variables.old.items) }
    ensures variables { let c = only_answers step_result.Absent (seen_in variables.old.items) in
        seen_in variables.new.items
        ≡ (lets_all (all_but adopted (steps_in list.now)) c).variables }
    ensures does { let c = only_answers step_result.Absent (seen_in variables.old.items) in
        DoesAll P.adds who pool.old pool.new
        (lets_all (all_but adopted (steps_in list.now)) c).does }
    ensures held { AreOf (P.is_of pool.new) variables.new.items }
{
    let mut left = list;
    while let [first, rest @ ..] = left {
        let_other_go(variables, first.step, adopted, pool, who);
        left = rest;
    }
}

/// What the init makes: a chunk, a medium over the buffer that is taken over, or one with a new resource.
fn give_init<P: RefPool>(
    alloc: Global,
    pool: &mut P,
    who: Who,
    init: &BufferedInit,
    adopted: Option<u32>,
    variables: &mut Vec<Option<Medium>>,
) -> Result<Given, NoMemory>
    requires held { AreOf (P.is_of pool.old) variables.old.items }
    requires adopted { adopted ≡ adopted_in init.now }
    requires valid { let vs = seen_in variables.old.items in
        is_invalid_init init.now.shape (length (bytes_in init.now.content vs)) ≡ false }
    requires may { let is_open = is_open_buffer (seen_in variables.old.items) in
        may_transfer is_open (steps_in init.now.transfer) ≡ true }
    ensures ok { let adds = P.adds pool.old pool.new in let same = pool.new ≡ pool.old in
        let done = made_or_adopted init.now adopted (seen_in variables.old.items) in
        IfOk result (Gives adds same who done) }
    ensures of { IfOk result (IsGivenOf (P.is_of pool.new)) }
    ensures variables { let vs = seen_in variables.old.items in
        IfOk result (λ g. seen_in variables.new.items ≡ before_given adopted vs) }
    ensures held { IfOk result (λ g. AreOf (P.is_of pool.new) variables.new.items) }
    ensures room { vec_capacity variables.new ≡ vec_capacity variables.old }
    ensures err { OnErr result (P.stays pool.old pool.new) }
    ensures same { OnErr result (variables.new.items ≡ variables.old.items) }
    ensures kept { KeepsAll (P.is_of pool.old) (P.is_of pool.new) }
{
    match adopted {
        Some(step) => match detach(variables, step) {
            Some(held) => Ok(gives(adopt_medium(init.shape, held))),
            None => unreachable!(),
        },
        None => {
            let bytes = bytes_of(&init.content, variables);
            make_init(alloc, pool, who, init.shape, bytes)
        }
    }
}

/// A step whose init names buffers. The refusals come in this order: the init is invalid, or its list names a buffer twice or
/// names a detached one. Memory is wanted before anything changes.
pub(crate) fn buffered_step<P: RefPool>(
    alloc: Global,
    pool: &mut P,
    who: Who,
    init: &BufferedInit,
    variables: &mut Vec<Option<Medium>>,
) -> Result<StepResult, NoMemory>
    requires held { AreOf (P.is_of pool.old) variables.old.items }
    requires apart { MayMakeAndEnd P.adds P.is_of pool.old (seen_in variables.old.items) }
    ensures ok { let did = DoesAll P.adds who pool.old pool.new in
        let vs = seen_in variables.old.items in
        let came = λ (n : Numbers). Some (buffered_came n who.step init.now vs) in
        let after = seen_in variables.new.items in
        IfOk result (λ r. Acts did came vs after (Some r)) }
    ensures of { AreOf (P.is_of pool.new) variables.new.items }
    ensures err { OnErr result (P.stays pool.old pool.new) }
    ensures same { OnErr result (seen_in variables.new.items ≡ seen_in variables.old.items) }
{
    at_rest(pool);
    if is_invalid_init(init.shape, bytes_of(&init.content, variables).len()) {
        return Ok(refused(DomError::TypeErr));
    }
    if !may_transfer(variables, init.transfer.as_slice()) {
        return Ok(refused(DomError::DataClone));
    }
    make_room(variables, who.step)?;
    let adopted = adopted_in(init);
    let given = give_init(alloc, pool, who, init, adopted, variables)?;
    let answer = keep(variables, who.step, given);
    let_all_go(variables, init.transfer.as_slice(), adopted, pool, who);
    Ok(answer)
}
