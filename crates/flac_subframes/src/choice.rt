// The candidate of least length.
ghost use Rattle.std.specs.Prelude.{◌≡◌, ◌<◌, ◌≤◌, ◌+◌, ◌-◌, ◌*◌, ◌^◌, true, length, map, min, IfOk, if◌then◌else◌};
ghost use Rattle.std.specs.Ordering.{int_eq};
ghost use Rattle.std.specs.List.{flat_map, range_with_len};
ghost use Rattle.flac_definitions.specs.Plans.{best_partition, IsPlan, IsUsable};
ghost use Rattle.flac_definitions.specs.FixedPredictors.{at, residuals, folded_residual, are_in_range};
ghost use Rattle.flac_subframes.specs.Search.{AreWithin, plain_candidate, best_of_order};
ghost use Rattle.flac_subframes.specs.Leasts.{AreLengths};
ghost use Rattle.flac_definitions.specs.Candidates.{is_constant, are_all, fixed_candidates, candidates, candidate_bits, shorter, first_shortest, best_candidate, IsChoice};
ghost use Rattle.flac_definitions.specs.declared.candidate.Candidate.TheVariants.{Constant, Verbatim, Fixed};

use crate::leasts::{least_lengths, least_place};
use crate::likely::likely_order;
use crate::orders::{are_within, residual_of, small_residual, to_next_order};
use flac_definitions::{Candidate, Choice, RicePlan};
use flac_plans::{best_below, best_parameters, least_bits};
use std::alloc::Global;
use wc_base::NoMemory;

/// The first candidate of least length at a level, for 1 to 65535 samples of at most `depth` bits.
pub fn best_choice(
    alloc: Global,
    samples: &[i32],
    depth: u32,
    level: u32,
) -> Result<Choice, NoMemory>
    requires some { 0 < length samples.now }
    requires count { length samples.now ≤ 65535 }
    requires depth { depth ≤ 33 }
    requires level { level ≤ 8 }
    ensures { IfOk result
        (IsChoice depth samples.now (best_candidate depth level samples.now)) }
{
    let most = level.min(6);
    let last = level.min(4);
    let plain = plain_choice(alloc, samples, depth);
    if is_settled(&plain, samples.len(), depth) {
        return Ok(plain);
    }
    if are_within(samples, 1 << 25) {
        with_small_orders(alloc, samples, depth, most, last, plain)
    } else {
        with_orders(alloc, samples, depth, most, last, plain)
    }
}

/// Whether a first choice is a constant of so many samples that no candidate of any order is shorter: each has a bit
/// for each sample, or one sample as it is.
fn is_settled(first: &Choice, count: usize, depth: u32) -> bool
    ensures constant { result ≡ true → first.now.candidate ≡ Constant }
    ensures long { result ≡ true → depth ≤ count }
{
    match first.candidate {
        Candidate::Constant => depth as usize <= count,
        Candidate::Verbatim => false,
        Candidate::Fixed { .. } => false,
    }
}

/// A first choice, or the first candidate of least length of the orders up to `last` where it is shorter.
fn with_orders(
    alloc: Global,
    samples: &[i32],
    depth: u32,
    most: u32,
    last: u32,
    first: Choice,
) -> Result<Choice, NoMemory>
    requires some { 0 < length samples.now }
    requires count { length samples.now ≤ 65535 }
    requires depth { depth ≤ 33 }
    requires most { most ≤ 6 }
    requires last { last ≤ 4 }
    requires first { IsChoice depth samples.now first.candidate first }
    ensures { IfOk result (IsChoice depth samples.now
        (first_shortest (candidate_bits depth samples.now) first.candidate
        (flat_map (fixed_candidates most samples.now) (range_with_len 0 (last + 1))))) }
{
    let mut best = first;
    for order in 0..last + 1 {
        best = with_order(alloc, samples, depth, most, order, best)?;
    }
    Ok(best)
}

/// The same for small samples, whose residuals are made one from another.
fn with_small_orders(
    alloc: Global,
    samples: &[i32],
    depth: u32,
    most: u32,
    last: u32,
    first: Choice,
) -> Result<Choice, NoMemory>
    requires some { 0 < length samples.now }
    requires count { length samples.now ≤ 65535 }
    requires depth { depth ≤ 33 }
    requires most { most ≤ 6 }
    requires last { last ≤ 4 }
    requires first { IsChoice depth samples.now first.candidate first }
    requires within { AreWithin (2 ^ 25) samples.now }
    ensures { IfOk result (IsChoice depth samples.now
        (first_shortest (candidate_bits depth samples.now) first.candidate
        (flat_map (fixed_candidates most samples.now) (range_with_len 0 (last + 1))))) }
{
    match least_lengths(samples, depth, most) {
        Some(lengths) => with_lengths(alloc, samples, depth, most, last, lengths, first),
        None => with_likely(alloc, samples, depth, most, last, first),
    }
}

/// The same, where lengths are known below which no candidate of an order is. The order of the least of these is searched
/// first, then those behind it, and then those before it; each only where its length lets it be the choice.
fn with_lengths(
    alloc: Global,
    samples: &[i32],
    depth: u32,
    most: u32,
    last: u32,
    lengths: [u64; 5],
    first: Choice,
) -> Result<Choice, NoMemory>
    requires long { 4 < length samples.now }
    requires count { length samples.now ≤ 65535 }
    requires depth { depth ≤ 33 }
    requires most { most ≤ 6 }
    requires last { last ≤ 4 }
    requires first { IsChoice depth samples.now first.candidate first }
    requires within { AreWithin (2 ^ 25) samples.now }
    requires lengths { AreLengths depth most samples.now lengths }
    ensures { IfOk result (IsChoice depth samples.now
        (first_shortest (candidate_bits depth samples.now) first.candidate
        (flat_map (fixed_candidates most samples.now) (range_with_len 0 (last + 1))))) }
{
    let begin = least_place(lengths, last);
    if first.bits <= lengths[begin as usize] {
        return Ok(first);
    }
    let residual = small_residual(alloc, samples, begin)?;
    let here = fixed_choice(alloc, samples, depth, most, begin, residual.as_slice())?;
    let behind = with_more(alloc, samples, depth, most, begin, last, lengths, here)?;
    let best = with_fewer(alloc, samples, depth, most, begin, last, lengths, behind)?;
    Ok(shorter(first, best))
}

/// A choice, or the first candidate of least length of the orders behind one up to `last` where it is shorter.
fn with_more(
    alloc: Global,
    samples: &[i32],
    depth: u32,
    most: u32,
    from: u32,
    last: u32,
    lengths: [u64; 5],
    first: Choice,
) -> Result<Choice, NoMemory>
    requires long { 4 < length samples.now }
    requires count { length samples.now ≤ 65535 }
    requires depth { depth ≤ 33 }
    requires most { most ≤ 6 }
    requires from { from ≤ last }
    requires last { last ≤ 4 }
    requires within { AreWithin (2 ^ 25) samples.now }
    requires lengths { AreLengths depth most samples.now lengths }
    requires first { IsChoice depth samples.now first.candidate first }
    ensures { IfOk result (IsChoice depth samples.now
        (first_shortest (candidate_bits depth samples.now) first.candidate
        (flat_map (fixed_candidates most samples.now)
        (range_with_len (from + 1) (last - from))))) }
{
    let mut best = first;
    for order in from..last {
        let least = lengths[order as usize + 1];
        best = with_next(alloc, samples, depth, most, order + 1, least, best)?;
    }
    Ok(best)
}

/// A choice, or that of one more order where it is shorter. The order is not searched where its least length shows that
/// it is not.
fn with_next(
    alloc: Global,
    samples: &[i32],
    depth: u32,
    most: u32,
    order: u32,
    least: u64,
    best: Choice,
) -> Result<Choice, NoMemory>
    requires long { 4 < length samples.now }
    requires count { length samples.now ≤ 65535 }
    requires depth { depth ≤ 33 }
    requires most { most ≤ 6 }
    requires order { order ≤ 4 }
    requires within { AreWithin (2 ^ 25) samples.now }
    requires least { least
        ≤ candidate_bits depth samples.now (best_of_order most samples.now order) }
    requires best { IsChoice depth samples.now best.candidate best }
    ensures { IfOk result (IsChoice depth samples.now
        (first_shortest (candidate_bits depth samples.now) best.candidate
        (fixed_candidates most samples.now order))) }
{
    if best.bits <= least {
        return Ok(best);
    }
    let residual = small_residual(alloc, samples, order)?;
    with_kept(
        alloc,
        samples,
        depth,
        most,
        order,
        residual.as_slice(),
        best,
    )
}

/// The choice of the first order and of those behind it, from that of an order and of those behind it.
fn with_fewer(
    alloc: Global,
    samples: &[i32],
    depth: u32,
    most: u32,
    from: u32,
    last: u32,
    lengths: [u64; 5],
    behind: Choice,
) -> Result<Choice, NoMemory>
    requires long { 4 < length samples.now }
    requires count { length samples.now ≤ 65535 }
    requires depth { depth ≤ 33 }
    requires most { most ≤ 6 }
    requires from { from ≤ last }
    requires last { last ≤ 4 }
    requires within { AreWithin (2 ^ 25) samples.now }
    requires lengths { AreLengths depth most samples.now lengths }
    requires behind { IsChoice depth samples.now
        (first_shortest (candidate_bits depth samples.now) (best_of_order most samples.now from)
        (flat_map (fixed_candidates most samples.now)
        (range_with_len (from + 1) (last - from)))) behind }
    ensures { IfOk result (IsChoice depth samples.now
        (first_shortest (candidate_bits depth samples.now) (best_of_order most samples.now 0)
        (flat_map (fixed_candidates most samples.now) (range_with_len 1 last)))) }
{
    let _last = last;
    let mut best = behind;
    for j in 0..from {
        let order = from - 1 - j;
        let least = lengths[order as usize];
        best = with_earlier(alloc, samples, depth, most, order, least, best)?;
    }
    Ok(best)
}

/// The same, with a likely order first.
fn with_likely(
    alloc: Global,
    samples: &[i32],
    depth: u32,
    most: u32,
    last: u32,
    first: Choice,
) -> Result<Choice, NoMemory>
    requires some { 0 < length samples.now }
    requires count { length samples.now ≤ 65535 }
    requires depth { depth ≤ 33 }
    requires most { most ≤ 6 }
    requires last { last ≤ 4 }
    requires first { IsChoice depth samples.now first.candidate first }
    requires within { AreWithin (2 ^ 25) samples.now }
    ensures { IfOk result (IsChoice depth samples.now
        (first_shortest (candidate_bits depth samples.now) first.candidate
        (flat_map (fixed_candidates most samples.now) (range_with_len 0 (last + 1))))) }
{
    let mut residual = Vec::from_slice(alloc, samples)?;
    let likely = likely_order(samples, last);
    let rises = likely == 0 || likely as usize >= samples.len();
    if rises {
        return in_turn(alloc, samples, depth, most, last, &mut residual, first);
    }
    from_likely(
        alloc,
        samples,
        depth,
        most,
        likely,
        last,
        &mut residual,
        first,
    )
}

/// The same, order by order.
fn in_turn(
    alloc: Global,
    samples: &[i32],
    depth: u32,
    most: u32,
    last: u32,
    residual: &mut Vec<i32>,
    first: Choice,
) -> Result<Choice, NoMemory>
    requires some { 0 < length samples.now }
    requires count { length samples.now ≤ 65535 }
    requires depth { depth ≤ 33 }
    requires most { most ≤ 6 }
    requires last { last ≤ 4 }
    requires first { IsChoice depth samples.now first.candidate first }
    requires within { AreWithin (2 ^ 25) samples.now }
    requires copied { residual.old.items ≡ samples.now }
    ensures { IfOk result (IsChoice depth samples.now
        (first_shortest (candidate_bits depth samples.now) first.candidate
        (flat_map (fixed_candidates most samples.now) (range_with_len 0 (last + 1))))) }
{
    let bound = 1u32 << 25;
    let best = with_kept(alloc, samples, depth, most, 0, residual.as_slice(), first)?;
    with_later(alloc, samples, depth, most, 0, last, residual, bound, best)
}

/// The same, with a likely order first.
fn from_likely(
    alloc: Global,
    samples: &[i32],
    depth: u32,
    most: u32,
    likely: u32,
    last: u32,
    residual: &mut Vec<i32>,
    first: Choice,
) -> Result<Choice, NoMemory>
    requires likely { likely ≤ last }
    requires there { likely < length samples.now }
    requires some { 0 < length samples.now }
    requires count { length samples.now ≤ 65535 }
    requires depth { depth ≤ 33 }
    requires most { most ≤ 6 }
    requires last { last ≤ 4 }
    requires first { IsChoice depth samples.now first.candidate first }
    requires within { AreWithin (2 ^ 25) samples.now }
    requires copied { residual.old.items ≡ samples.now }
    ensures { IfOk result (IsChoice depth samples.now
        (first_shortest (candidate_bits depth samples.now) first.candidate
        (flat_map (fixed_candidates most samples.now) (range_with_len 0 (last + 1))))) }
{
    let bound = 1u32 << 25;
    let best = from_order(
        alloc, samples, depth, most, 0, likely, last, residual, bound,
    )?;
    Ok(shorter(first, best))
}

/// A choice, or the first candidate of least length of the orders behind one up to `last` where it is shorter.
fn with_later(
    alloc: Global,
    samples: &[i32],
    depth: u32,
    most: u32,
    from: u32,
    last: u32,
    residual: &mut Vec<i32>,
    bound: u32,
    first: Choice,
) -> Result<Choice, NoMemory>
    requires some { 0 < length samples.now }
    requires count { length samples.now ≤ 65535 }
    requires depth { depth ≤ 33 }
    requires most { most ≤ 6 }
    requires from { from ≤ last }
    requires last { last ≤ 4 }
    requires residual { residual.old.items ≡ residuals from samples.now }
    requires bound { bound ≡ 2 ^ 25 * 2 ^ from }
    requires within { AreWithin bound residual.old.items }
    requires first { IsChoice depth samples.now first.candidate first }
    ensures { IfOk result (IsChoice depth samples.now
        (first_shortest (candidate_bits depth samples.now) first.candidate
        (flat_map (fixed_candidates most samples.now)
        (range_with_len (from + 1) (last - from))))) }
{
    let mut wide = bound;
    let mut best = first;
    for order in from..last {
        to_next_order(samples, order, residual, wide);
        wide *= 2;
        let kept = residual.as_slice();
        best = with_kept(alloc, samples, depth, most, order + 1, kept, best)?;
    }
    Ok(best)
}

/// The first candidate of least length of the orders from one up to `last`: what comes from the likely one on is found
/// first, and an order before it is not searched where its parts show that it is longer.
#[tactic(auto, using(crate::proofs::Earlier::doubled))]
fn from_order(
    alloc: Global,
    samples: &[i32],
    depth: u32,
    most: u32,
    order: u32,
    likely: u32,
    last: u32,
    residual: &mut Vec<i32>,
    bound: u32,
) -> Result<Choice, NoMemory>
    requires some { likely < length samples.now }
    requires count { length samples.now ≤ 65535 }
    requires depth { depth ≤ 33 }
    requires most { most ≤ 6 }
    requires order { order ≤ likely }
    requires likely { likely ≤ last }
    requires last { last ≤ 4 }
    requires small { AreWithin (2 ^ 25) samples.now }
    requires residual { residual.old.items ≡ residuals order samples.now }
    requires bound { bound ≡ 2 ^ 25 * 2 ^ order }
    requires within { AreWithin bound residual.old.items }
    ensures { IfOk result (IsChoice depth samples.now
        (first_shortest (candidate_bits depth samples.now)
        (best_of_order most samples.now order)
        (flat_map (fixed_candidates most samples.now)
        (range_with_len (order + 1) (last - order))))) }
{
    if order == likely {
        let first = fixed_choice(alloc, samples, depth, most, order, residual.as_slice())?;
        return with_later(
            alloc, samples, depth, most, order, last, residual, bound, first,
        );
    }
    let least = least_length(samples, depth, most, order, residual.as_slice());
    to_next_order(samples, order, residual, bound);
    let wide = 2 * bound;
    let next = order + 1;
    let behind = from_order(
        alloc, samples, depth, most, next, likely, last, residual, wide,
    )?;
    with_earlier(alloc, samples, depth, most, order, least, behind)
}

/// The choice of an order before others, or theirs where it is shorter. The order is not searched where its least
/// length shows that it is longer.
fn with_earlier(
    alloc: Global,
    samples: &[i32],
    depth: u32,
    most: u32,
    order: u32,
    least: u64,
    behind: Choice,
) -> Result<Choice, NoMemory>
    requires some { order < length samples.now }
    requires count { length samples.now ≤ 65535 }
    requires depth { depth ≤ 33 }
    requires most { most ≤ 6 }
    requires order { order ≤ 4 }
    requires small { AreWithin (2 ^ 25) samples.now }
    requires least { least
        ≤ candidate_bits depth samples.now (best_of_order most samples.now order) }
    requires behind { IsChoice depth samples.now behind.candidate behind }
    ensures { IfOk result (IsChoice depth samples.now (shorter (candidate_bits depth samples.now)
        (best_of_order most samples.now order) behind.candidate)) }
{
    if behind.bits < least {
        return Ok(behind);
    }
    let residual = small_residual(alloc, samples, order)?;
    let choice = fixed_choice(alloc, samples, depth, most, order, residual.as_slice())?;
    Ok(shorter(choice, behind))
}

/// The best choice of an order, by its residual.
fn fixed_choice(
    alloc: Global,
    samples: &[i32],
    depth: u32,
    most: u32,
    order: u32,
    residual: &[i32],
) -> Result<Choice, NoMemory>
    requires some { order < length samples.now }
    requires count { length samples.now ≤ 65535 }
    requires depth { depth ≤ 33 }
    requires most { most ≤ 6 }
    requires order { order ≤ 4 }
    requires residual { residual.now ≡ residuals order samples.now }
    requires range { are_in_range (residuals order samples.now) ≡ true }
    ensures { IfOk result
        (IsChoice depth samples.now (best_of_order most samples.now order)) }
{
    let block = samples.len() as u32;
    match best_parameters(alloc, residual, block, order, most) {
        Ok(plan) => Ok(Choice {
            candidate: Candidate::Fixed {
                order,
                partition: plan.partition,
            },
            bits: 8 + (depth * order) as u64 + plan.bits,
            plan,
        }),
        Err(e) => Err(e),
    }
}

/// A length below which no candidate of an order is.
fn least_length(samples: &[i32], depth: u32, most: u32, order: u32, residual: &[i32]) -> u64
    requires some { order < length samples.now }
    requires count { length samples.now ≤ 65535 }
    requires depth { depth ≤ 33 }
    requires most { most ≤ 6 }
    requires order { order ≤ 4 }
    requires residual { residual.now ≡ residuals order samples.now }
    ensures { result ≤ candidate_bits depth samples.now (best_of_order most samples.now order) }
{
    let block = samples.len() as u32;
    8 + (depth * order) as u64 + least_bits(residual, block, order, most)
}

/// Constant where that can be, and verbatim where not.
fn plain_choice(alloc: Global, samples: &[i32], depth: u32) -> Choice
    requires some { 0 < length samples.now }
    requires count { length samples.now ≤ 65535 }
    requires depth { depth ≤ 33 }
    ensures { IsChoice depth samples.now (plain_candidate samples.now) result }
{
    let plan = RicePlan {
        partition: 0,
        parameters: Vec::new(alloc),
        bits: 0,
    };
    if is_constant(samples) {
        Choice {
            candidate: Candidate::Constant,
            bits: 8 + depth as u64,
            plan,
        }
    } else {
        Choice {
            candidate: Candidate::Verbatim,
            bits: 8 + depth as u64 * samples.len() as u64,
            plan,
        }
    }
}

/// Whether all samples are one.
fn is_constant(samples: &[i32]) -> bool
    requires { 0 < length samples.now }
    ensures { result ≡ is_constant samples.now }
{
    let first = samples[0];
    for sample in samples {
        if !is_same(*sample, first) {
            return false;
        }
    }
    true
}

#[inline]
fn is_same(a: i32, b: i32) -> bool
    ensures { result ≡ int_eq a b }
{
    a == b
}

/// The best so far, or a candidate of one more order where it is shorter.
fn with_order(
    alloc: Global,
    samples: &[i32],
    depth: u32,
    most: u32,
    order: u32,
    best: Choice,
) -> Result<Choice, NoMemory>
    requires some { 0 < length samples.now }
    requires count { length samples.now ≤ 65535 }
    requires depth { depth ≤ 33 }
    requires most { most ≤ 6 }
    requires order { order ≤ 4 }
    requires best { IsChoice depth samples.now best.candidate best }
    ensures { IfOk result (IsChoice depth samples.now
        (first_shortest (candidate_bits depth samples.now) best.candidate
        (fixed_candidates most samples.now order))) }
{
    if order as usize >= samples.len() {
        return Ok(best);
    }
    match residual_of(alloc, samples, order) {
        Ok(Some(residual)) => {
            with_residual(
                alloc,
                samples,
                depth,
                most,
                order,
                residual.as_slice(),
                best,
            )
        }
        Ok(None) => Ok(best),
        Err(e) => Err(e),
    }
}

/// The same from the order's residual.
fn with_kept(
    alloc: Global,
    samples: &[i32],
    depth: u32,
    most: u32,
    order: u32,
    residual: &[i32],
    best: Choice,
) -> Result<Choice, NoMemory>
    requires some { 0 < length samples.now }
    requires count { length samples.now ≤ 65535 }
    requires depth { depth ≤ 33 }
    requires most { most ≤ 6 }
    requires order { order ≤ 4 }
    requires residual { residual.now ≡ residuals order samples.now }
    requires range { are_in_range (residuals order samples.now) ≡ true }
    requires best { IsChoice depth samples.now best.candidate best }
    ensures { IfOk result (IsChoice depth samples.now
        (first_shortest (candidate_bits depth samples.now) best.candidate
        (fixed_candidates most samples.now order))) }
{
    if order as usize >= samples.len() {
        return Ok(best);
    }
    with_residual(alloc, samples, depth, most, order, residual, best)
}

/// The best so far, or the candidate of a residual's first plan of the fewest bits where it is shorter. That is not
/// searched where its parts show that it is not.
fn with_residual(
    alloc: Global,
    samples: &[i32],
    depth: u32,
    most: u32,
    order: u32,
    residual: &[i32],
    best: Choice,
) -> Result<Choice, NoMemory>
    requires some { order < length samples.now }
    requires count { length samples.now ≤ 65535 }
    requires depth { depth ≤ 33 }
    requires most { most ≤ 6 }
    requires order { order ≤ 4 }
    requires residual { residual.now ≡ residuals order samples.now }
    requires range { are_in_range (residuals order samples.now) ≡ true }
    requires best { IsChoice depth samples.now best.candidate best }
    ensures { IfOk result (IsChoice depth samples.now
        (shorter (candidate_bits depth samples.now) best.candidate
        (Fixed order (best_partition (length samples.now) order most
        (folded_residual order samples.now))))) }
{
    let block = samples.len() as u32;
    let head = 8 + (depth * order) as u64;
    if best.bits <= head {
        return Ok(best);
    }
    let limit = best.bits - head;
    match best_below(alloc, residual, block, order, most, limit) {
        Ok(Some(plan)) => {
            let other = Choice {
                candidate: Candidate::Fixed {
                    order,
                    partition: plan.partition,
                },
                bits: head + plan.bits,
                plan,
            };
            Ok(shorter(best, other))
        }
        Ok(None) => Ok(best),
        Err(e) => Err(e),
    }
}

/// The first of two, where the second is not shorter.
fn shorter(first: Choice, second: Choice) -> Choice
    ensures first { first.bits ≤ second.bits → result ≡ first }
    ensures second { second.bits < first.bits → result ≡ second }
{
    if second.bits < first.bits {
        second
    } else {
        first
    }
}
