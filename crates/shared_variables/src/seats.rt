// Variables of a caller at a seat of a shared pool.
ghost use Rattle.std.specs.Prelude.{◌≡◌, ◌∷◌, [], None, Some, false, IfOk, OnErr};
ghost use Rattle.wc_pool.specs.declared.entry.PoolEntry.{PoolEntry};
ghost use Rattle.seat_lock.specs.Seats.{IsSameSeat};
ghost use Rattle.seat_lock.specs.Since.{MadeSince};
ghost use Rattle.shared_pool.specs.Refs.{IsPoolRef};
ghost use Rattle.shared_pool.specs.Steps.{IsFree};
ghost use Rattle.media_variables.specs.declared.lending.MediumFound.TheVariants as found;
ghost use Rattle.media_variables.specs.Given.{Acts, Lends};
ghost use Rattle.media_variables.specs.Held.{AreOf, IsEnoughUnit, medium_found, seen_in};
ghost use Rattle.media_variables.specs.Variables.{Brought, Numbers, lendable_at, media_came, unit_came};
ghost use Rattle.media_variables.specs.Variables.{uses_port};
ghost use Rattle.shared_variables.specs.Since.{DidSince};

use codec_definitions::Unit;
use codec_model::HeldMedium;
use media_variables::Variables;
use report_text::StepResult;
use script_types::MediaStep;
use shared_pool::{PoolAt, PoolSeat, SharedPool};
use std::alloc::Global;
use std::sync::Wait;
use wc_base::{By, NoMemory, Who};
use wc_chunk::Chunk;
use wc_pool::MediaRef;

/// A step on media of the caller that uses no port, and its answer, as `Variables::step` has it. It makes the entries of the pool
/// that it calls for. Where memory is wanted none was made, and the variables are as they were.
pub fn step_at<R: Wait>(
    rt: &R,
    alloc: Global,
    pool: &SharedPool,
    seat: &mut PoolSeat,
    who: Who,
    chunk: &Option<Chunk>,
    asked: &MediaStep,
    variables: &mut Variables,
) -> Result<Option<StepResult>, NoMemory>
    requires seat { IsFree pool.now seat.old }
    requires held { AreOf (IsPoolRef pool.now) variables.old }
    requires ports { uses_port asked.now ≡ false }
    ensures seat { IsSameSeat seat.old seat.new }
    ensures free { IsFree pool.now seat.new }
    ensures acts { let did = DidSince who seat.old.me.0 seat.new.me.0 in
        let b : Brought = record { chunk = chunk.now; taken = None; received = None } in
        let vs = seen_in variables.old in let after = seen_in variables.new in
        let came = λ (n : Numbers). media_came n who b asked.now vs in
        IfOk result (Acts did came vs after) }
    ensures held { AreOf (IsPoolRef pool.now) variables.new }
    ensures err { OnErr result (MadeSince seat.old.me.0 seat.new.me.0 []) }
    ensures same { OnErr result (seen_in variables.new ≡ seen_in variables.old) }
{
    let mut at = PoolAt::new(rt, pool, seat);
    variables.step(alloc, &mut at, who, chunk, asked)
}

/// A step of the caller that takes an output of a codec, and its answer, as `Variables::take` has it. Where memory is wanted no entry
/// was made, and the variables are as they were.
pub fn take_at<R: Wait>(
    rt: &R,
    pool: &SharedPool,
    seat: &mut PoolSeat,
    who: Who,
    unit: Unit,
    answer: StepResult,
    variables: &mut Variables,
) -> Result<StepResult, NoMemory>
    requires seat { IsFree pool.now seat.old }
    requires held { AreOf (IsPoolRef pool.now) variables.old }
    requires enough { IsEnoughUnit unit }
    ensures seat { IsSameSeat seat.old seat.new }
    ensures free { IsFree pool.now seat.new }
    ensures acts { let did = DidSince who seat.old.me.0 seat.new.me.0 in
        let vs = seen_in variables.old in let after = seen_in variables.new in
        let came = λ (n : Numbers). Some (unit_came n who.step answer unit vs) in
        IfOk result (λ r. Acts did came vs after (Some r)) }
    ensures held { AreOf (IsPoolRef pool.now) variables.new }
    ensures err { OnErr result (MadeSince seat.old.me.0 seat.new.me.0 []) }
    ensures same { OnErr result (seen_in variables.new ≡ seen_in variables.old) }
{
    let mut at = PoolAt::new(rt, pool, seat);
    variables.take(&mut at, who, unit, answer)
}

/// One more reference to the open medium of a variable, for a codec, as `Variables::lend` has it: one entry of the pool. The variables
/// are seen as they were. Where memory is wanted no entry was made.
pub fn lend_at<R: Wait>(
    rt: &R,
    pool: &SharedPool,
    seat: &mut PoolSeat,
    by: By,
    variables: &mut Variables,
    variable: u32,
) -> Result<(HeldMedium, MediaRef), NoMemory>
    requires seat { IsFree pool.now seat.old }
    requires held { AreOf (IsPoolRef pool.now) variables.old }
    requires open { medium_found (lendable_at (seen_in variables.old) variable) ≡ found.Open }
    ensures seat { IsSameSeat seat.old seat.new }
    ensures free { IsFree pool.now seat.new }
    ensures lent { let since = MadeSince seat.old.me.0 seat.new.me.0 in
        let adds = λ (e : PoolEntry). since (e ∷ []) in
        IfOk result (Lends adds by (lendable_at (seen_in variables.old) variable)) }
    ensures of { IfOk result (λ x. IsPoolRef pool.now x.1) }
    ensures held { AreOf (IsPoolRef pool.now) variables.new }
    ensures same { seen_in variables.new ≡ seen_in variables.old }
    ensures err { OnErr result (MadeSince seat.old.me.0 seat.new.me.0 []) }
{
    let mut at = PoolAt::new(rt, pool, seat);
    variables.lend(&mut at, by, variable)
}
