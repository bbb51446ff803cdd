// The ends of a run that say that memory was wanted.
ghost use Rattle.std.specs.Prelude.{◌≡◌, ◌++◌, OnOk, IfOk, Some, map};
ghost use Rattle.order_laws.specs.Same.{wants_memory};
ghost use Rattle.report_check.specs.Ends.{end_at, ends_from, all_ends};

use codec_model::{Entry, Outcome};
use run_model::CodecTrace;
use segmented_list::{Items, SegmentedList};
use std::alloc::Global;
use wc_base::{NoMemory, try_push};

fn wants_memory(entry: &Entry) -> bool
    ensures { result ≡ wants_memory (Some entry.now) }
{
    match entry {
        Entry::Done {
            epoch: _,
            item: _,
            moment: _,
            outcome,
        } => matches!(outcome, Outcome::NoMemory),
        _ => false,
    }
}

// The end at this place, if it says so.
fn push_end(
    codec: u32,
    place: u64,
    entry: &Entry,
    ends: &mut Vec<(u32, u64)>,
) -> Result<(), NoMemory>
    ensures { OnOk result (ends.new.items ≡ ends.old.items ++ end_at codec place entry.now) }
{
    if wants_memory(entry) {
        try_push(ends, (codec, place))
    } else {
        Ok(())
    }
}

// Those of one codec.
fn push_ends(
    codec: u32,
    entries: &SegmentedList<Entry>,
    ends: &mut Vec<(u32, u64)>,
) -> Result<(), NoMemory>
    ensures { OnOk result (ends.new.items ≡ ends.old.items ++ ends_from codec 0 entries.now) }
{
    let mut left = Items::of(entries.segments());
    let mut place: u64 = 0;
    while let Some(entry) = left.next() {
        push_end(codec, place, entry, ends)?;
        // No memory holds as many entries.
        place = place.checked_add(1).ok_or(NoMemory)?;
    }
    Ok(())
}

/// The ends that say that memory was wanted, by their codec's number and their place.
pub fn ends_of(alloc: Global, codecs: &[CodecTrace]) -> Result<Vec<(u32, u64)>, NoMemory>
    ensures { IfOk result (λ ends. ends.items ≡ all_ends 0 (map (λ c. c.entries) codecs.now)) }
{
    let mut ends = Vec::new(alloc);
    let mut codec: u32 = 0;
    for trace in codecs {
        push_ends(codec, &trace.entries, &mut ends)?;
        // No memory holds as many codecs.
        codec = codec.checked_add(1).ok_or(NoMemory)?;
    }
    Ok(ends)
}
