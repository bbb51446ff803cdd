// What the lines of a report show.
ghost use Rattle.std.specs.Prelude.{◌≡◌, ◌++◌, ◌∷◌, [], IfOk, OnOk, Some, None, drop, length, if◌then◌else◌};
ghost use Rattle.std.specs.Option.{option_copied, option_to_list};
ghost use Rattle.codec_definitions.specs.declared.unit.Unit.TheVariants as unit;
ghost use Rattle.codec_follow.specs.Outputs.{is_codec_string};
ghost use Rattle.wc_config.specs.declared.kind.Kind.TheVariants as kinds;
ghost use Rattle.report_text.specs.declared.line.EventLine.TheVariants as event_line;
ghost use Rattle.report_reader.specs.Read as spec;

use bytes::Bytes;
use codec_model::{Kind, Opening};
use coder_api::{SlotEntry, Unit};
use report_lines::codec_id_of;
use report_text::{EntryLine, EventLine, Line, codec_text};
use run_model::{CallerTrace, StepResult};
use std::alloc::{AllocError, Global};
use wc_base::{List, NoMemory, Picture, Samples, Text};
use wc_chunk::Chunk;
use wc_config::AudioDecoderConfig;
use wc_pool::PoolEntry;

/// One item more.
pub fn push<T: Drop>(items: &mut Vec<T>, item: T) -> Result<(), NoMemory>
    ensures { OnOk result (items.new.items ≡ items.old.items ++ item ∷ []) }
{
    match items.push(item) {
        Ok(()) => Ok(()),
        Err(_) => Err(NoMemory),
    }
}

// One result more.
fn push_result(results: &mut Vec<StepResult>, answer: &StepResult) -> Result<(), NoMemory>
    ensures { OnOk result (results.new.items ≡ results.old.items ++ answer.now ∷ []) }
{
    let answer = answer.copy()?;
    push(results, answer)
}

// The results in front, and the lines behind them.
fn results_of<'a>(
    alloc: Global,
    lines: &'a [Line],
) -> Result<(Vec<StepResult>, &'a [Line]), NoMemory>
    ensures results { IfOk result (λ x. x.0.items ≡ spec.results_in lines.now) }
    ensures behind { IfOk result (λ x. x.1.now ≡ spec.behind_results lines.now) }
{
    let mut results = Vec::new(alloc);
    let mut rest = lines;
    while let [Line::Result { step: _, answer }, more @ ..] = rest {
        push_result(&mut results, answer)?;
        rest = more;
    }
    Ok((results, rest))
}

/// The lines behind the first.
pub fn behind_first(lines: &[Line]) -> &[Line]
    ensures { result.now ≡ drop 1 lines.now }
{
    match lines {
        [] => lines,
        [_, rest @ ..] => rest,
    }
}

/// So many callers, each with its line and its results, and the lines behind them.
pub fn callers_of<'a>(
    alloc: Global,
    count: usize,
    lines: &'a [Line],
) -> Result<(Vec<CallerTrace>, &'a [Line]), NoMemory>
    ensures { IfOk result (λ x. spec.callers_in count lines.now ≡ (x.0.items, x.1.now)) }
{
    let mut callers = Vec::new(alloc);
    let mut rest = lines;
    for _ in 0..count {
        let (results, behind) = results_of(alloc, behind_first(rest))?;
        let caller = CallerTrace {
            results: List::of(results),
        };
        push(&mut callers, caller)?;
        rest = behind;
    }
    Ok((callers, rest))
}

/// The entries in front, among the lines of what they show, and the lines behind.
pub fn entry_lines_of<'a>(
    alloc: Global,
    lines: &'a [Line],
) -> Result<(Vec<EntryLine>, &'a [Line]), AllocError>
    ensures entries { IfOk result (λ x. x.0.items ≡ spec.entry_lines_in lines.now) }
    ensures behind { IfOk result (λ x. x.1.now ≡ spec.behind_entries lines.now) }
{
    let mut entries = Vec::new(alloc);
    let mut rest = lines;
    while let [line, more @ ..] = rest {
        match line {
            Line::Entry { place: _, entry } => entries.push(*entry)?,
            Line::Event(_) => {}
            _ => return Ok((entries, rest)),
        }
        rest = more;
    }
    Ok((entries, rest))
}

// The lines behind the entries in front and what they show.
fn behind_entries(lines: &[Line]) -> &[Line]
    ensures { result.now ≡ spec.behind_entries lines.now }
{
    let mut rest = lines;
    while let [
        Line::Entry { place: _, entry: _ } | Line::Event(_),
        more @ ..,
    ] = rest
    {
        rest = more;
    }
    rest
}

// The text of these bytes, where they are a codec string.
#[tactic(auto, using(crate::proofs::CodecLaws::string_none, crate::proofs::CodecLaws::string_some))]
fn codec_string(bytes: &[u8]) -> Option<&str>
    ensures { option_copied result ≡ (if is_codec_string bytes.now then Some bytes.now else None) }
{
    match codec_id_of(bytes) {
        Some(id) => Some(codec_text(id)),
        None => None,
    }
}

// No bytes are no description.
fn description_of(bytes: &Bytes) -> Result<Option<Bytes>, AllocError>
    ensures { IfOk result (λ x. x ≡ spec.description_of bytes.now) }
{
    if bytes.is_empty() {
        return Ok(None);
    }
    Ok(Some(bytes.clone()?))
}

// The config of these parts.
fn config_of(
    alloc: Global,
    codec: &[u8],
    rate: u32,
    channels: u32,
    description: &Bytes,
) -> Result<Option<AudioDecoderConfig>, AllocError>
    ensures { IfOk result (λ c. c ≡ spec.config_of codec.now rate channels description.now) }
{
    match codec_string(codec) {
        None => Ok(None),
        Some(codec) => {
            let description = description_of(description)?;
            Ok(Some(AudioDecoderConfig {
                codec: Text::of(String::from_str(alloc, codec)?),
                rate,
                channels,
                description,
            }))
        }
    }
}

// The config in front, if there is one.
fn config_in(alloc: Global, lines: &[Line]) -> Result<Option<AudioDecoderConfig>, AllocError>
    ensures { IfOk result (λ c. c ≡ spec.config_in lines.now) }
{
    match lines {
        [
            Line::Event(
                EventLine::Config {
                    codec,
                    rate,
                    channels,
                    description,
                },
            ),
            ..
        ] => config_of(alloc, codec.as_slice(), *rate, *channels, description),
        _ => Ok(None),
    }
}

// The samples of a line, whose rate has to be above 0.
fn samples_of(samples: &Samples) -> Result<Option<Unit>, AllocError>
    ensures { IfOk result
        (λ u. u ≡ spec.unit_of kinds.AudioDecoder (event_line.Sound samples.now) None) }
{
    if samples.shape.rate == 0 {
        return Ok(None);
    }
    Ok(Some(Unit::Sound(Samples {
        shape: samples.shape,
        bytes: samples.bytes.clone()?,
    })))
}

// A chunk of a line, with this config.
fn coded_of(chunk: &Chunk, config: Option<AudioDecoderConfig>) -> Result<Unit, AllocError>
    ensures { IfOk result (λ u. u ≡ unit.Coded chunk.now config) }
{
    let chunk = Chunk {
        key: chunk.key,
        timestamp: chunk.timestamp,
        duration: chunk.duration,
        bytes: chunk.bytes.clone()?,
    };
    Ok(Unit::Coded { chunk, config })
}

// The output that a line shows, if it shows one of a codec of this kind. A chunk of an audio encoder has the config of
// the line behind it, and one of a video encoder has none.
fn unit_of(
    alloc: Global,
    kind: Kind,
    event: &EventLine,
    behind: &[Line],
) -> Result<Option<Unit>, AllocError>
    ensures { IfOk result (λ u. u ≡ spec.unit_of kind event.now (spec.config_in behind.now)) }
{
    match (kind, event) {
        (Kind::AudioDecoder, EventLine::Sound(samples)) => samples_of(samples),
        (Kind::VideoDecoder, EventLine::Image(picture)) => Ok(Some(Unit::Image(Picture {
            shape: picture.shape,
            bytes: picture.bytes.clone()?,
        }))),
        (Kind::AudioEncoder, EventLine::Chunk(chunk)) => {
            let config = config_in(alloc, behind)?;
            Ok(Some(coded_of(chunk, config)?))
        }
        (Kind::VideoEncoder, EventLine::Chunk(chunk)) => Ok(Some(coded_of(chunk, None)?)),
        _ => Ok(None),
    }
}

fn push_unit(units: &mut Vec<Unit>, unit: Option<Unit>) -> Result<(), AllocError>
    ensures { OnOk result (units.new.items ≡ units.old.items ++ option_to_list unit) }
{
    match unit {
        Some(unit) => Ok(units.push(unit)?),
        None => Ok(()),
    }
}

// The outputs in front of a codec of this kind, among the lines of entries.
fn outputs_of(alloc: Global, kind: Kind, lines: &[Line]) -> Result<Vec<Unit>, AllocError>
    ensures { IfOk result (λ v. v.items ≡ spec.outputs_in kind lines.now) }
{
    let mut units = Vec::new(alloc);
    let mut rest = lines;
    while let [line, more @ ..] = rest {
        match line {
            Line::Entry { place: _, entry: _ } => {}
            Line::Event(event) => {
                let unit = unit_of(alloc, kind, event, more)?;
                push_unit(&mut units, unit)?;
            }
            _ => return Ok(units),
        }
        rest = more;
    }
    Ok(units)
}

/// How the codec whose line is in front was opened.
pub fn opening_of(lines: &[Line]) -> Opening
    ensures { result ≡ spec.opening_of lines.now }
{
    match lines {
        [Line::Codec { codec: _, opening }, ..] => *opening,
        _ => Opening::none(),
    }
}

/// The outputs of the codec whose line is in front.
pub fn own_outputs(alloc: Global, lines: &[Line]) -> Result<Vec<Unit>, AllocError>
    ensures { IfOk result (λ v. v.items ≡ spec.own_outputs lines.now) }
{
    outputs_of(alloc, opening_of(lines).kind, behind_first(lines))
}

/// The outputs of so many codecs, whatever their entries are, and the lines behind them.
pub fn all_outputs_of<'a>(
    alloc: Global,
    count: usize,
    lines: &'a [Line],
) -> Result<(Vec<List<Unit>>, &'a [Line]), NoMemory>
    ensures { IfOk result (λ x. spec.all_outputs_in count lines.now ≡ (x.0.items, x.1.now)) }
{
    let mut outputs = Vec::new(alloc);
    let mut rest = lines;
    for _ in 0..count {
        let own = own_outputs(alloc, rest)?;
        push(&mut outputs, List::of(own))?;
        rest = behind_entries(behind_first(rest));
    }
    Ok((outputs, rest))
}

/// The pool's entries in front, and the lines behind them.
pub fn pool_of<'a>(
    alloc: Global,
    lines: &'a [Line],
) -> Result<(Vec<PoolEntry>, &'a [Line]), AllocError>
    ensures entries { IfOk result (λ x. x.0.items ≡ spec.pool_in lines.now) }
    ensures behind { IfOk result (λ x. x.1.now ≡ spec.behind_pool lines.now) }
{
    let mut entries = Vec::new(alloc);
    let mut rest = lines;
    while let [Line::Reference { place: _, entry }, more @ ..] = rest {
        entries.push(*entry)?;
        rest = more;
    }
    Ok((entries, rest))
}

/// The registry's entries in front.
pub fn slots_of(alloc: Global, lines: &[Line]) -> Result<Vec<SlotEntry>, AllocError>
    ensures { IfOk result (λ v. v.items ≡ spec.slots_in lines.now) }
{
    let mut slots = Vec::new(alloc);
    let mut rest = lines;
    while let [Line::Slot { place: _, entry }, more @ ..] = rest {
        slots.push(*entry)?;
        rest = more;
    }
    Ok(slots)
}

/// How many media resources are held, behind the registry's entries.
pub fn held_of(lines: &[Line]) -> u64
    ensures { result ≡ spec.held_in lines.now }
{
    let mut rest = lines;
    while let [Line::Slot { place: _, entry: _ }, more @ ..] = rest {
        rest = more;
    }
    match rest {
        [Line::Held(held), ..] => *held,
        _ => 0,
    }
}
