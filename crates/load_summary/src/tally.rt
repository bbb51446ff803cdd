// What outputs come to, counted one after another.
ghost use Rattle.std.specs.Prelude.{◌≡◌, ◌+◌, IfOk, OnOk, length, flat_map, sum};
ghost use Rattle.load_summary.specs.Summary as spec;
ghost use Rattle.load_summary.specs.Tally.{with_outputs, no_outputs};

use codec_model::{Event, Shown};
use coder_api::Unit;
use run_model::{CodecTrace, Run};
use segmented_list::Items;
use wc_base::NoMemory;

/// How many outputs there are, how many bytes they have, and the sum of these.
#[derive(Clone, Copy, Debug, PartialEq, Eq)]
pub struct Tally {
    pub outputs: u64,
    pub bytes: u64,
    pub sum: u64,
}

fn bytes_of(unit: &Unit) -> &[u8]
    ensures { result.now ≡ spec.bytes_of unit.now }
{
    match unit {
        Unit::Sound(samples) => &samples.bytes,
        Unit::Image(picture) => &picture.bytes,
        Unit::Coded { chunk, config: _ } => &chunk.bytes,
    }
}

// The sum of bytes, where it fits.
fn sum_of(bytes: &[u8]) -> Result<u64, NoMemory>
    ensures { IfOk result (λ n. n ≡ sum bytes.now) }
{
    let mut all: u64 = 0;
    for byte in bytes {
        all = all.checked_add(u64::from(*byte)).ok_or(NoMemory)?;
    }
    Ok(all)
}

fn add_bytes(tally: &mut Tally, bytes: &[u8]) -> Result<(), NoMemory>
    ensures outputs { OnOk result (tally.new.outputs ≡ tally.old.outputs + 1) }
    ensures bytes { OnOk result (tally.new.bytes ≡ tally.old.bytes + length bytes.now) }
    ensures sum { OnOk result (tally.new.sum ≡ tally.old.sum + sum bytes.now) }
{
    let sum = sum_of(bytes)?;
    let outputs = tally.outputs.checked_add(1).ok_or(NoMemory)?;
    let count = tally.bytes.checked_add(bytes.len() as u64).ok_or(NoMemory)?;
    let sum = tally.sum.checked_add(sum).ok_or(NoMemory)?;
    *tally = Tally {
        outputs,
        bytes: count,
        sum,
    };
    Ok(())
}

fn add_event(tally: &mut Tally, event: &Event) -> Result<(), NoMemory>
    ensures { OnOk result (tally.new ≡ with_outputs tally.old (spec.output_in event.now)) }
{
    match event {
        Event::Output { number: _, unit } => add_bytes(tally, bytes_of(unit)),
        _ => Ok(()),
    }
}

fn add_shown(tally: &mut Tally, shown: &Shown) -> Result<(), NoMemory>
    ensures { OnOk result (tally.new ≡ with_outputs tally.old (spec.outputs_in shown.now)) }
{
    let mut left = shown.events.as_slice();
    while let [event, rest @ ..] = left {
        add_event(tally, event)?;
        left = rest;
    }
    Ok(())
}

fn add_codec(tally: &mut Tally, codec: &CodecTrace) -> Result<(), NoMemory>
    ensures { OnOk result (tally.new ≡ with_outputs tally.old (spec.outputs_of codec.now)) }
{
    let mut items = Items::of(codec.shown.segments());
    while let Some(shown) = items.next() {
        add_shown(tally, shown)?;
    }
    Ok(())
}

/// What the outputs come to that the histories of a run show. Sums that do not fit want memory.
pub(crate) fn tally_of(run: &Run) -> Result<Tally, NoMemory>
    ensures { IfOk result (λ t. t ≡ with_outputs no_outputs (spec.all_outputs run.now)) }
{
    let mut tally = Tally {
        outputs: 0,
        bytes: 0,
        sum: 0,
    };
    let mut left = run.codecs.as_slice();
    while let [codec, rest @ ..] = left {
        add_codec(&mut tally, codec)?;
        left = rest;
    }
    Ok(tally)
}
