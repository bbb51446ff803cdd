// What four threads on two codecs left, in numbers.
use crate::runs::{Left, four_threads};
use codec_core::Core;
use codec_model::Entry;
use coder_api::SlotOp;
use sample_coder::SampleCoder;
use std::alloc::Global;
use std::sync::Wait;
use std::thread::Threads;
use wc_base::NoMemory;
use wc_pool::PoolOp;

/// How many references were made, ended and are held; how many boxes went out and came back; and how often the caller
/// changes between neighbouring calls of each codec.
#[derive(Clone, Copy)]
pub struct Counts {
    pub made: u64,
    pub ended: u64,
    pub held: u64,
    pub out: u64,
    pub back: u64,
    pub first_changes: u64,
    pub second_changes: u64,
}

// How often the caller changes between neighbouring calls.
fn changes(core: &Core<SampleCoder>) -> u64 {
    let mut last = 0;
    let mut changes: u64 = 0;
    let (entries, _, _) = core.look();
    for place in 0..entries {
        if let Some(Entry::Call { who, call: _ }) = core.entry(place) {
            if who.caller != last {
                changes = changes.saturating_add(1);
            }
            last = who.caller;
        }
    }
    changes
}

// How many references were made, and how many ended.
fn references(left: &Left) -> (u64, u64) {
    let mut made: u64 = 0;
    let mut ended: u64 = 0;
    for entry in left.pool.entries() {
        match entry.op {
            PoolOp::End {
                resource: _,
                reference: _,
                last: _,
            } => ended = ended.saturating_add(1),
            _ => made = made.saturating_add(1),
        }
    }
    (made, ended)
}

// How many boxes went out, and how many came back.
fn boxes(left: &Left) -> (u64, u64) {
    let mut out: u64 = 0;
    let mut back: u64 = 0;
    for entry in left.slots.entries() {
        match entry.op {
            SlotOp::Acquire { id: _, number: _ } => out = out.saturating_add(1),
            SlotOp::Give { id: _, number: _ } => back = back.saturating_add(1),
            SlotOp::Refused {
                id: _,
                out: _,
                made: _,
            } => (),
        }
    }
    (out, back)
}

fn count(left: &Left) -> Counts {
    let (made, ended) = references(left);
    let (out, back) = boxes(left);
    Counts {
        made,
        ended,
        held: left.pool.held(),
        out,
        back,
        first_changes: changes(left.first.core()),
        second_changes: changes(left.second.core()),
    }
}

/// Four threads that encode, reset and work on two codecs, so many steps each on each: what they left, in numbers.
pub fn count_four<R: Threads + Wait + Sync>(
    rt: &R,
    alloc: Global,
    steps: u32,
) -> Result<Counts, NoMemory> {
    let left = four_threads(rt, alloc, steps)?;
    Ok(count(&left))
}
