// Threads on a desk, with ample memory.
use crate::coders::{HeldCoder, Meeting};
use crate::desks::decode_by_threads;
use codec_core::Core;
use codec_model::Entry;
use coder_api::SlotOp;
use desk_run::Finished;
use std::alloc::Global;
use std::sync::Wait;
use std::test::*;
use std::thread::Threads;

// How many items of a codec ended.
fn ends(core: &Core<HeldCoder>) -> u64 {
    let mut all: u64 = 0;
    let (entries, _, _) = core.look();
    for place in 0..entries {
        if let Some(Entry::Done { .. }) = core.entry(place) {
            all = all.saturating_add(1);
        }
    }
    all
}

// How many items of all codecs ended.
fn all_ends(left: &Finished<HeldCoder>) -> u64 {
    let mut all: u64 = 0;
    for codec in &left.codecs {
        all = all.saturating_add(ends(codec.core()));
    }
    all
}

// How many boxes went out.
fn boxes(left: &Finished<HeldCoder>) -> u64 {
    let mut out: u64 = 0;
    for entry in left.slots.entries() {
        if let SlotOp::Acquire { .. } = entry.op {
            out = out.saturating_add(1);
        }
    }
    out
}

// What is seen of a run.
#[derive(Debug, PartialEq, Clone, Copy)]
struct Seen {
    // the configures, and those that waited in vain for the others
    met: (u64, u64),
    // the jobs that passed a gate, and those that waited there in vain
    passed: (u64, u64),
    boxes: u64,
    ended: u64,
    held: u64,
}

// A run of so many decoders, whose first jobs wait for one another at gates and again in their
// coders, by so many workers and a turner.
fn see<R: Threads + Wait + Sync>(
    rt: &R,
    alloc: Global,
    decoders: u8,
    workers: u8,
    calls: u32,
) -> Result<Seen, Fail> {
    let in_coders = Meeting::of(alloc, u64::from(decoders))?;
    let at_gates = Meeting::of(alloc, u64::from(decoders))?;
    let left = decode_by_threads(rt, alloc, decoders, workers, calls, &in_coders, &at_gates)?;
    Ok(Seen {
        met: in_coders.counts(),
        passed: at_gates.counts(),
        boxes: boxes(&left),
        ended: all_ends(&left),
        held: left.pool.held(),
    })
}

#[test]
fn four_configures_at_once(rt: HostRuntime) -> Result<(), Fail> {
    let wanted = Seen {
        met: (4, 0),
        passed: (8, 0),
        boxes: 4,
        ended: 8,
        held: 0,
    };
    assert_eq!(rt; see(&rt, rt.alloc(), 4, 4, 2)?, wanted);
    Ok(())
}

#[test]
fn three_workers_on_two_codecs_twenty_times(rt: HostRuntime) -> Result<(), Fail> {
    let wanted = Seen {
        met: (2, 0),
        passed: (34, 0),
        boxes: 2,
        ended: 34,
        held: 0,
    };
    for _ in 0..20 {
        assert_eq!(rt; see(&rt, rt.alloc(), 2, 3, 17)?, wanted);
    }
    Ok(())
}
