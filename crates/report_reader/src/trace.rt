// The history of a codec, as its lines tell it.
ghost use Rattle.std.specs.Prelude.{◌≡◌, ◌++◌, ◌∷◌, [], IfOk, OnOk, drop, length, option_map};
ghost use Rattle.std.specs.List.{AllByRecursion};
ghost use Rattle.codec_follow.specs.Follow.{filled, with_unit, units_after};
ghost use Rattle.report_reader.specs.Fits.{FitsEvent, FitsTrace};
ghost use Rattle.report_reader.specs.Next.{NextIs};
ghost use Rattle.report_reader.specs.Read as spec;
ghost use Rattle.report_reader.specs.Tables.{AreTables};

use crate::arguments::entry_of;
use crate::build::{behind_first, entry_lines_of, opening_of, own_outputs, push};
use crate::known::Known;
use crate::tables::Tables;
use codec_follow::{Follower, empty_output};
use codec_model::{Entry, Event, Kind, Opening, Shown, TurnWord};
use coder_api::Unit;
use report_text::{EntryLine, Line};
use run_model::CodecTrace;
use script_types::ScriptData;
use segmented_list::{SegmentedList, SegmentedVec};
use std::alloc::Global;
use wc_base::{List, NoMemory};
use wc_chunk::Chunk;

// An event, with the first of the units for its output, or with nothing in it where there is none.
fn with_unit(kind: Kind, event: &Event, units: &[Unit]) -> Result<Event, NoMemory>
    ensures event { IfOk result (λ x. x ≡ with_unit kind event.now units.now) }
    ensures fits { IfOk result FitsEvent }
{
    match event {
        Event::Refusal(error) => Ok(Event::Refusal(*error)),
        Event::Output { number, unit: _ } => match units {
            [] => Ok(Event::Output {
                number: *number,
                unit: empty_output(kind),
            }),
            [first, ..] => Ok(Event::Output {
                number: *number,
                unit: first.copy()?,
            }),
        },
        Event::Resolve(promise) => Ok(Event::Resolve(*promise)),
        Event::Reject { promise, error } => Ok(Event::Reject {
            promise: *promise,
            error: *error,
        }),
        Event::Dequeue => Ok(Event::Dequeue),
        Event::ErrorCall(error) => Ok(Event::ErrorCall(*error)),
    }
}

// The units that are left behind an event.
fn units_after<'a>(event: &Event, units: &'a [Unit]) -> &'a [Unit]
    ensures { result.now ≡ units_after event.now units.now }
{
    match event {
        Event::Output { number: _, unit: _ } => match units {
            [] => units,
            [_, others @ ..] => others,
        },
        _ => units,
    }
}

// A codec's events, with these units for their outputs, and the units that are left.
fn filled<'a>(
    alloc: Global,
    kind: Kind,
    events: &[Event],
    units: &'a [Unit],
) -> Result<(Vec<Event>, &'a [Unit]), NoMemory>
    ensures events { IfOk result (λ x. x.0.items ≡ (filled kind events.now units.now).0) }
    ensures left { IfOk result (λ x. x.1.now ≡ (filled kind events.now units.now).1) }
    ensures fits { IfOk result (λ x. AllByRecursion FitsEvent x.0.items) }
{
    let mut made = Vec::new(alloc);
    let mut left = units;
    let mut rest = events;
    while let [event, more @ ..] = rest {
        let event_made = with_unit(kind, event, left)?;
        push(&mut made, event_made)?;
        left = units_after(event, left);
        rest = more;
    }
    Ok((made, left))
}

// The entry of a line at this place of the codec with this number, with what it shows, where it has its arguments and
// follows.
fn next_entry(
    follower: &mut Follower,
    script: &ScriptData,
    media: &[List<Chunk>],
    known: &Known,
    tables: &Tables,
    codec: usize,
    place: u64,
    line: EntryLine,
) -> Result<Option<(Entry, Shown)>, NoMemory>
    requires { AreTables script.now known.now tables.now }
    ensures { let next = NextIs script.now media.now known.now codec place line in
        IfOk result (λ found. next follower.old found follower.new) }
{
    let Some(entry) = entry_of(script, media, known, tables, codec, place, line)? else {
        return Ok(None);
    };
    let shown = follower.follow(&entry)?;
    Ok(with_shown(entry, shown))
}

// The entry, with what it shows where it follows.
fn with_shown(entry: Entry, shown: Option<Shown>) -> Option<(Entry, Shown)>
    ensures { result ≡ option_map (λ x. (entry, x)) shown }
{
    match shown {
        Some(shown) => Some((entry, shown)),
        None => None,
    }
}

// The place of the entry behind these.
fn place_behind(entries: &SegmentedVec<Entry>) -> u64
    ensures { result ≡ length entries.now.items }
{
    entries.len() as u64
}

// The codec with this number, opened so, with the entries of these lines, up to the first that has no arguments or does not
// follow, and these outputs.
fn trace_of(
    alloc: Global,
    script: &ScriptData,
    media: &[List<Chunk>],
    known: &Known,
    tables: &Tables,
    codec: usize,
    opening: Opening,
    lines: &[EntryLine],
    units: &[Unit],
) -> Result<CodecTrace, NoMemory>
    requires { AreTables script.now known.now tables.now }
    ensures trace { let trace_of = spec.trace_of script.now media.now known.now codec in
        IfOk result (λ trace. trace ≡ trace_of opening lines.now units.now) }
    ensures fits { IfOk result FitsTrace }
{
    let mut follower = Follower::open(alloc, opening)?;
    let mut entries = SegmentedVec::new(alloc);
    let mut shown = SegmentedVec::new(alloc);
    let mut left = units;
    let mut rest = lines;
    while let [line, more @ ..] = rest {
        let place = place_behind(&entries);
        match next_entry(
            &mut follower,
            script,
            media,
            known,
            tables,
            codec,
            place,
            *line,
        )? {
            None => return Ok(trace_with(opening, entries, shown)),
            Some((entry, blank)) => {
                let (events, behind) = filled(alloc, opening.kind, blank.events.as_slice(), left)?;
                entries.try_push(entry)?;
                shown.try_push(shown_with(blank.turn, events))?;
                left = behind;
            }
        }
        rest = more;
    }
    Ok(trace_with(opening, entries, shown))
}

fn shown_with(turn: Option<TurnWord>, events: Vec<Event>) -> Shown
    ensures { result ≡ record { turn = turn; events = events.items } }
{
    Shown {
        turn,
        events: List::of(events),
    }
}

fn trace_with(
    opening: Opening,
    entries: SegmentedVec<Entry>,
    shown: SegmentedVec<Shown>,
) -> CodecTrace
    ensures { result ≡ record { opening = opening; entries = entries.items; shown = shown.items } }
{
    CodecTrace {
        opening,
        entries: SegmentedList::of(entries),
        shown: SegmentedList::of(shown),
    }
}

// The codec with this number, whose lines are in front, and the lines behind them.
fn codec_of<'a>(
    alloc: Global,
    script: &ScriptData,
    media: &[List<Chunk>],
    known: &Known,
    tables: &Tables,
    codec: usize,
    lines: &'a [Line],
) -> Result<(CodecTrace, &'a [Line]), NoMemory>
    requires { AreTables script.now known.now tables.now }
    ensures codec { IfOk result
        (λ x. x.0 ≡ spec.codec_in script.now media.now known.now codec lines.now) }
    ensures fits { IfOk result (λ x. FitsTrace x.0) }
    ensures behind { IfOk result (λ x. x.1.now ≡ spec.behind_entries (drop 1 lines.now)) }
{
    let (entries, behind) = entry_lines_of(alloc, behind_first(lines))?;
    let units = own_outputs(alloc, lines)?;
    let opening = opening_of(lines);
    let trace = trace_of(
        alloc, script, media, known, tables, codec, opening, &entries, &units,
    )?;
    Ok((trace, behind))
}

/// So many codecs, each with its line and its entries.
pub fn codecs_of(
    alloc: Global,
    script: &ScriptData,
    media: &[List<Chunk>],
    known: &Known,
    tables: &Tables,
    count: usize,
    lines: &[Line],
) -> Result<Vec<CodecTrace>, NoMemory>
    requires { AreTables script.now known.now tables.now }
    ensures codecs { IfOk result
        (λ v. v.items ≡ spec.codecs_in script.now media.now known.now 0 count lines.now) }
    // The promises whose ends they show have numbers of 64 bits.
    ensures fits { IfOk result (λ v. AllByRecursion FitsTrace v.items) }
{
    let mut codecs = Vec::new(alloc);
    let mut rest = lines;
    for codec in 0..count {
        let (trace, behind) = codec_of(alloc, script, media, known, tables, codec, rest)?;
        push(&mut codecs, trace)?;
        rest = behind;
    }
    Ok(codecs)
}
