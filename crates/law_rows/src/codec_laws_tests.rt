// What the calls of the laws by places answer.
ghost use Rattle.std.specs.Prelude.{◌≡◌, IfOk};
ghost use Rattle.codec_model.specs.declared.entry.Call.TheVariants as call_of;
ghost use Rattle.codec_model.specs.declared.entry.Entry.TheVariants as entry_of;
ghost use Rattle.codec_model.specs.declared.entry.Outcome.TheVariants as outcome_of;
ghost use Rattle.law_rows.specs.Rows.{four, made, pcm, sample, sound as the_sound, sounds as the_sounds, closing as the_closing, early_with, saturating as the_saturating};

use crate::rows::{closing_run, early_run, saturating_run};
use bytes::Bytes;
use codec_definitions::Unit;
use codec_laws::{output_configuration, output_source, promise_end, same_shown};
use codec_model::{Call, Entry, Kind, Opening, Outcome, PromiseState};
use segmented_list::SegmentedVec;
use std::alloc::Global;
use std::test::Fail;
use wc_base::{DomError, SampleFormat, Samples, SoundShape, Text, Who};
use wc_chunk::Chunk;
use wc_config::{AudioDecoderConfig, Config};

fn opening(saturation: u32) -> Opening
    ensures { result ≡ record four { saturation = saturation } }
{
    Opening {
        kind: Kind::AudioDecoder,
        saturation,
    }
}

fn called(step: u32, call: Call) -> Entry
    ensures { result ≡ made step call }
{
    Entry::Call {
        who: Who { caller: 0, step },
        call,
    }
}

fn configure(alloc: Global, step: u32) -> Result<Entry, Fail>
    ensures { IfOk result (λ e. e ≡ made step (call_of.Configure pcm)) }
{
    let config = AudioDecoderConfig {
        codec: Text::of(String::from_str(alloc, "pcm-s16")?),
        rate: 8000,
        channels: 1,
        description: None,
    };
    Ok(called(step, Call::Configure(Config::AudioDecoder(config))))
}

fn closing(alloc: Global) -> Result<Vec<Entry>, Fail>
    ensures { IfOk result (λ v. v.items ≡ the_closing) }
{
    let configure = configure(alloc, 0)?;
    let flush = called(1, Call::Flush);
    let second = called(2, Call::Flush);
    let close = called(3, Call::Close);
    let again = called(4, Call::Close);
    let refused = called(5, Call::Flush);
    Ok(vec![in alloc; configure, flush, second, close, again, refused]?)
}

fn in_segments(alloc: Global, entries: Vec<Entry>) -> Result<SegmentedVec<Entry>, Fail>
    ensures { IfOk result (λ v. v.items ≡ entries.items) }
{
    let mut list = SegmentedVec::new(alloc);
    for entry in entries {
        list.try_push(entry)?;
    }
    Ok(list)
}

#[test]
fn two_flushes_then_a_close(rt: HostRuntime) -> Result<(), Fail> {
    closing_run();
    let alloc = rt.alloc();
    let history = in_segments(alloc, closing(alloc)?)?;
    let history = history.segments();
    let end = promise_end(alloc, opening(4), history, 1);
    assert_eq!(rt; end, Ok(Some((3, PromiseState::Rejected(DomError::Abort)))));
    let refused = promise_end(alloc, opening(4), history, 5);
    let invalid = PromiseState::Rejected(DomError::InvalidState);
    assert_eq!(rt; refused, Ok(Some((5, invalid))));
    assert_eq!(rt; output_source(alloc, opening(4), history, 0), Ok(None));
    assert_eq!(rt;
        output_configuration(alloc, opening(4), history, 0),
        Ok(None)
    );
    Ok(())
}

fn decode(alloc: Global, step: u32, first: u8) -> Result<Entry, Fail>
    ensures { IfOk result (λ e. e ≡ made step (call_of.Decode (sample first))) }
{
    let chunk = Chunk {
        key: true,
        timestamp: 0,
        duration: None,
        bytes: Bytes::from_vec(vec![in alloc; first, 0]?)?,
    };
    Ok(called(step, Call::Decode(chunk)))
}

fn start(item: u64) -> Entry
    ensures { result ≡ entry_of.Start 0 item }
{
    Entry::Start { epoch: 0, item }
}

fn done(item: u64, moment: u64, units: u64) -> Entry
    ensures { result ≡ entry_of.Done 0 item moment (outcome_of.Ran units) }
{
    Entry::Done {
        epoch: 0,
        item,
        moment,
        outcome: Outcome::Ran { units },
    }
}

fn saturating(alloc: Global) -> Result<Vec<Entry>, Fail>
    ensures { IfOk result (λ v. v.items ≡ the_saturating) }
{
    let configure = configure(alloc, 0)?;
    let first = decode(alloc, 1, 1)?;
    let second = decode(alloc, 2, 2)?;
    let third = decode(alloc, 3, 3)?;
    Ok(vec![in alloc;
        configure,
        first,
        second,
        third,
        start(0),
        done(0, 1, 0),
        Entry::Turn,
        Entry::Turn,
        start(1),
        done(1, 2, 1),
        start(2),
        done(2, 3, 1),
        Entry::Turn,
        Entry::Turn,
        Entry::Turn,
        Entry::Turn,
        Entry::Turn,
        start(3),
        done(3, 4, 1),
        Entry::Turn,
    ]?)
}

fn early(alloc: Global, last: u8) -> Result<Vec<Entry>, Fail>
    ensures { IfOk result (λ v. v.items ≡ early_with last) }
{
    let configure = configure(alloc, 0)?;
    let first = decode(alloc, 1, 1)?;
    let second = decode(alloc, 2, 2)?;
    let third = decode(alloc, 3, last)?;
    Ok(vec![in alloc;
        configure,
        start(0),
        done(0, 1, 0),
        Entry::Turn,
        Entry::Turn,
        first,
        start(1),
        done(1, 2, 1),
        Entry::Turn,
        Entry::Turn,
        second,
        start(2),
        done(2, 3, 1),
        Entry::Turn,
        Entry::Turn,
        third,
        start(3),
        done(3, 4, 1),
        Entry::Turn,
        Entry::Turn,
    ]?)
}

fn sound(alloc: Global, first: u8) -> Result<Unit, Fail>
    ensures { IfOk result (λ u. u ≡ the_sound first) }
{
    let shape = SoundShape {
        format: SampleFormat::S16,
        rate: 8000,
        channels: 1,
        frames: 1,
        timestamp: 0,
    };
    let bytes = Bytes::from_vec(vec![in alloc; first, 0]?)?;
    Ok(Unit::Sound(Samples { shape, bytes }))
}

fn sounds(alloc: Global, last: u8) -> Result<Vec<Unit>, Fail>
    ensures { IfOk result (λ v. v.items ≡ the_sounds last) }
{
    Ok(vec![in alloc; sound(alloc, 1)?, sound(alloc, 2)?, sound(alloc, last)?]?)
}

#[test]
fn same_calls_show_the_same_at_other_times(rt: HostRuntime) -> Result<(), Fail> {
    saturating_run();
    early_run();
    let alloc = rt.alloc();
    let units = sounds(alloc, 3)?;
    let saturating = in_segments(alloc, saturating(alloc)?)?;
    let early = in_segments(alloc, early(alloc, 3)?)?;
    let same = same_shown(
        alloc,
        opening(2),
        saturating.segments(),
        &units,
        early.segments(),
        &units,
    );
    assert_eq!(rt; same, Ok(true));
    Ok(())
}

#[test]
fn another_chunk_shows_another_output(rt: HostRuntime) -> Result<(), Fail> {
    saturating_run();
    early_run();
    let alloc = rt.alloc();
    let units = sounds(alloc, 3)?;
    let others = sounds(alloc, 4)?;
    let saturating = in_segments(alloc, saturating(alloc)?)?;
    let other = in_segments(alloc, early(alloc, 4)?)?;
    let same = same_shown(
        alloc,
        opening(2),
        saturating.segments(),
        &units,
        other.segments(),
        &others,
    );
    assert_eq!(rt; same, Ok(false));
    Ok(())
}
