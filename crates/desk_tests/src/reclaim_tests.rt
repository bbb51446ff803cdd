// Reclaims of a coder that an idle codec holds, with ample memory.
use crate::reclaims::two_configures;
use codec_core::Core;
use codec_model::{Entry, Outcome};
use coder_api::{SlotEntry, SlotOp};
use desk_run::Finished;
use sample_coder::SampleCoder;
use std::test::*;
use wc_base::By;
use wc_config::{CodecId, CoderId, Role};

// What decodes mu-law.
const ULAW: CoderId = CoderId {
    role: Role::Decode,
    codec: CodecId::Ulaw,
};

// The box of the coder went out by the start of a codec's first item.
fn goes_out(codec: u32) -> SlotEntry {
    SlotEntry {
        by: By::Codec { codec, place: 1 },
        op: SlotOp::Acquire {
            id: ULAW,
            number: 0,
        },
    }
}

// The second codec's first acquire was refused.
const REFUSED: SlotEntry = SlotEntry {
    by: By::Codec { codec: 1, place: 1 },
    op: SlotOp::Refused {
        id: ULAW,
        out: 1,
        made: 1,
    },
};

// The box came back by the first codec's reclaim.
const CAME_BACK: SlotEntry = SlotEntry {
    by: By::Codec { codec: 0, place: 5 },
    op: SlotOp::Give {
        id: ULAW,
        number: 0,
    },
};

// The moment of the reclaim that a codec's entry at a place is, if it is one.
fn reclaimed(core: &Core<SampleCoder>, place: u64) -> Option<u64> {
    match core.entry(place) {
        Some(Entry::Reclaim { moment }) => Some(*moment),
        _ => None,
    }
}

// How a codec's first item ended, and when.
fn ended(core: &Core<SampleCoder>) -> Option<(u64, Outcome)> {
    match core.entry(2) {
        Some(
            Entry::Done {
                epoch: _,
                item: _,
                moment,
                outcome,
            },
        ) => Some((*moment, *outcome)),
        _ => None,
    }
}

// The first one's reclaim, and how both items ended.
fn see(left: &Finished<SampleCoder>) -> (Option<u64>, [Option<(u64, Outcome)>; 2]) {
    match left.codecs.as_slice() {
        [first, second] => (
            reclaimed(first.core(), 5),
            [ended(first.core()), ended(second.core())],
        ),
        _ => (None, [None, None]),
    }
}

#[test]
fn an_idle_decoder_is_reclaimed(rt: HostRuntime) -> Result<(), Fail> {
    let left = two_configures(&rt, rt.alloc(), 1_000, 10_001_000)?;
    let slots = [goes_out(0), REFUSED, CAME_BACK, goes_out(1)];
    assert_eq!(rt; left.slots.entries(), slots.as_slice());
    let ran = Outcome::Ran { units: 0 };
    let wanted = (
        Some(10_001_000),
        [Some((1_000, ran)), Some((10_001_000, ran))],
    );
    assert_eq!(rt; see(&left), wanted);
    Ok(())
}

#[test]
fn one_that_was_busy_is_not(rt: HostRuntime) -> Result<(), Fail> {
    let left = two_configures(&rt, rt.alloc(), 1_000, 10_000_999)?;
    let slots = [goes_out(0), REFUSED];
    assert_eq!(rt; left.slots.entries(), slots.as_slice());
    let ran = Outcome::Ran { units: 0 };
    let none = Outcome::NoSlot { entry: 1 };
    let wanted = (None, [Some((1_000, ran)), Some((10_000_999, none))]);
    assert_eq!(rt; see(&left), wanted);
    Ok(())
}
