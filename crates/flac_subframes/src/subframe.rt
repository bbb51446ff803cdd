// Subframes, written.
ghost use Rattle.std.specs.Prelude.{◌≡◌, ◌<◌, ◌≤◌, ◌+◌, ◌-◌, ◌*◌, ◌^◌, ◌++◌, true, length, take, map, IfOk, OnOk};
ghost use Rattle.std.specs.List.{flat_map};
ghost use Rattle.flac_definitions.specs.Bits.{bits_of};
ghost use Rattle.flac_definitions.specs.Plans.{plan_parameters, IsPlan, IsUsable};
ghost use Rattle.flac_definitions.specs.ResidualWriting.{residual_bits};
ghost use Rattle.flac_definitions.specs.FixedPredictors.{at, residuals, folded_residual, are_in_range};
ghost use Rattle.flac_definitions.specs.Candidates.{IsChoice};
ghost use Rattle.flac_definitions.specs.SubframeWriting.{twos_complement, sample_bits, HasDepth, HaveDepth, subframe_bits};
ghost use Rattle.flac_definitions.specs.declared.candidate.Candidate.TheVariants.{Constant, Verbatim, Fixed};

use crate::orders::residual_of;
use flac_definitions::{Candidate, Choice, RicePlan};
use flac_plans::write_residual;
use flac_write::BitWriter;
use std::alloc::Global;
use wc_base::NoMemory;

/// Appends the subframe of 1 to 65535 samples of `depth` bits by a choice of theirs, with no wasted bits (RFC 9639,
/// section 9.2).
pub fn write_subframe(
    alloc: Global,
    w: &mut BitWriter,
    samples: &[i32],
    depth: u32,
    choice: &Choice,
) -> Result<(), NoMemory>
    requires some { 0 < length samples.now }
    requires count { length samples.now ≤ 65535 }
    requires depth { 1 ≤ depth }
    requires most { depth ≤ 33 }
    requires fit { HaveDepth depth samples.now }
    requires choice { IsChoice depth samples.now choice.now.candidate choice.now }
    ensures { OnOk result
        (w.new ≡ w.old ++ subframe_bits depth samples.now choice.now.candidate) }
{
    match choice.candidate {
        Candidate::Constant => write_constant(w, samples, depth),
        Candidate::Verbatim => write_verbatim(w, samples, depth),
        Candidate::Fixed { order, partition } => {
            write_fixed(alloc, w, samples, depth, order, partition, &choice.plan)
        }
    }
}

/// The subframe of samples that all are one.
fn write_constant(w: &mut BitWriter, samples: &[i32], depth: u32) -> Result<(), NoMemory>
    requires some { 0 < length samples.now }
    requires depth { 1 ≤ depth }
    requires most { depth ≤ 33 }
    requires fit { HaveDepth depth samples.now }
    ensures { OnOk result (w.new ≡ w.old ++ subframe_bits depth samples.now Constant) }
{
    w.put(8, 0)?;
    write_sample(w, samples, depth, 0)
}

/// The subframe of samples as they are.
fn write_verbatim(w: &mut BitWriter, samples: &[i32], depth: u32) -> Result<(), NoMemory>
    requires depth { 1 ≤ depth }
    requires most { depth ≤ 33 }
    requires fit { HaveDepth depth samples.now }
    ensures { OnOk result (w.new ≡ w.old ++ subframe_bits depth samples.now Verbatim) }
{
    w.put(8, 2)?;
    write_samples(w, samples, depth, samples.len())
}

/// The subframe of a fixed predictor, with the plan of its residual.
fn write_fixed(
    alloc: Global,
    w: &mut BitWriter,
    samples: &[i32],
    depth: u32,
    order: u32,
    partition: u32,
    plan: &RicePlan,
) -> Result<(), NoMemory>
    requires some { order < length samples.now }
    requires order { order ≤ 4 }
    requires count { length samples.now ≤ 65535 }
    requires depth { 1 ≤ depth }
    requires most { depth ≤ 33 }
    requires fit { HaveDepth depth samples.now }
    requires range { are_in_range (residuals order samples.now) ≡ true }
    requires plan { IsPlan (length samples.now) order (folded_residual order samples.now)
        partition plan.now }
    requires usable { IsUsable (length samples.now) order plan.now }
    ensures { OnOk result
        (w.new ≡ w.old ++ subframe_bits depth samples.now (Fixed order partition)) }
{
    let _partition = partition;
    w.put(8, 16 + 2 * order as u64)?;
    write_samples(w, samples, depth, order as usize)?;
    match residual_of(alloc, samples, order) {
        Ok(Some(residual)) => {
            write_residual(w, residual.as_slice(), samples.len() as u32, order, plan)
        }
        Ok(None) => unreachable!(),
        Err(e) => Err(e),
    }
}

/// The first samples.
fn write_samples(
    w: &mut BitWriter,
    samples: &[i32],
    depth: u32,
    count: usize,
) -> Result<(), NoMemory>
    requires count { count ≤ length samples.now }
    requires depth { 1 ≤ depth }
    requires most { depth ≤ 33 }
    requires fit { HaveDepth depth samples.now }
    ensures { OnOk result
        (w.new ≡ w.old ++ flat_map (sample_bits depth) (take count samples.now)) }
{
    let mut held = Held { word: 0, count: 0 };
    for i in 0..count {
        held = with_sample(w, held, samples, depth, i)?;
    }
    w.put(held.count, held.word)
}

/// Bits that are not written yet, at most a word: a number of so many bits.
#[derive(Clone, Copy)]
struct Held {
    word: u64,
    count: u32,
}

/// Holds one more sample, and writes what was held before it where both are more than a word.
#[inline]
fn with_sample(
    w: &mut BitWriter,
    held: Held,
    samples: &[i32],
    depth: u32,
    i: usize,
) -> Result<Held, NoMemory>
    requires within { i < length samples.now }
    requires depth { 1 ≤ depth }
    requires most { depth ≤ 33 }
    requires fit { HaveDepth depth samples.now }
    requires short { held.count ≤ 64 }
    requires word { held.word < 2 ^ held.count }
    ensures bits { IfOk result (λ h. w.new ++ bits_of h.count h.word
        ≡ (w.old ++ bits_of held.count held.word) ++ sample_bits depth (at samples.now i)) }
    ensures short { IfOk result (λ h. h.count ≤ 64) }
    ensures word { IfOk result (λ h. h.word < 2 ^ h.count) }
{
    let number = number_at(samples, depth, i);
    let room = 64 - held.count;
    if depth <= room {
        let word = joined(held.word, held.count, depth, number);
        return Ok(Held {
            word,
            count: held.count + depth,
        });
    }
    w.put(held.count, held.word)?;
    Ok(Held {
        word: number,
        count: depth,
    })
}

/// A number of so many bits, and `n` bits more.
#[inline]
fn joined(word: u64, count: u32, n: u32, value: u64) -> u64
    requires word { word < 2 ^ count }
    requires room { count + n ≤ 64 }
    requires few { n ≤ 33 }
    requires value { value < 2 ^ n }
    ensures value { result ≡ word * 2 ^ n + value }
    ensures bound { result < 2 ^ (count + n) }
{
    (word << n) | value
}

/// One of the samples.
#[inline]
fn write_sample(w: &mut BitWriter, samples: &[i32], depth: u32, i: usize) -> Result<(), NoMemory>
    requires within { i < length samples.now }
    requires depth { 1 ≤ depth }
    requires most { depth ≤ 33 }
    requires fit { HaveDepth depth samples.now }
    ensures { OnOk result (w.new ≡ w.old ++ sample_bits depth (at samples.now i)) }
{
    w.put(depth, number_at(samples, depth, i))
}

/// A sample as a number, in two's complement.
#[inline]
fn number_at(samples: &[i32], depth: u32, i: usize) -> u64
    requires within { i < length samples.now }
    requires depth { 1 ≤ depth }
    requires most { depth ≤ 33 }
    requires fit { HaveDepth depth samples.now }
    ensures value { result ≡ twos_complement depth (at samples.now i) }
    ensures bound { result < 2 ^ depth }
{
    twos_complement(samples[i], depth)
}

/// A number in two's complement.
#[inline]
fn twos_complement(sample: i32, depth: u32) -> u64
    requires depth { 1 ≤ depth }
    requires most { depth ≤ 33 }
    requires fit { HasDepth depth sample }
    ensures value { result ≡ twos_complement depth sample }
    ensures bound { result < 2 ^ depth }
{
    if sample >= 0 {
        sample as u64
    } else {
        (1 << depth) - 1 - (!sample) as u64
    }
}
