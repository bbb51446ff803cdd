// The lines of a run, made one after another.
ghost use Rattle.std.specs.Prelude.{◌≡◌, [], ◌∷◌, ◌++◌, List, IfOk, flat_map};
ghost use Rattle.std.specs.List.{zip};
ghost use Rattle.std.specs.Option.{option_to_list};
ghost use Rattle.report_text.specs.declared.line.Line.{Line as LineValue};
ghost use Rattle.trace_text.specs.Numbered.{TakesFirst};
ghost use Rattle.trace_text.specs.Report.{lines_from};
ghost use Rattle.run_model.specs.Fits as fits;
ghost use Rattle.trace_text.specs.Report as spec;
ghost use Rattle.trace_text.specs.Behind.{lines_in, lines_behind};

use crate::numbered::{Numbered, NumberedIn};
use bytes::Bytes;
use codec_model::{Call, Entry, Event, Shown};
use coder_api::{SlotEntry, Unit};
use report_text::{CallWord, EntryLine, EventLine, Line, StepResult};
use run_model::{CallerTrace, CodecTrace, Run};
use segmented_list::SegmentedList;
use std::alloc::Global;
use std::marker::Model;
use wc_base::{DomError, NoMemory, Picture, Samples, Who};
use wc_chunk::Chunk;
use wc_config::AudioDecoderConfig;
use wc_pool::PoolEntry;

// The exception with which a call was refused, by what it showed.
fn refusal_in(events: &[Event]) -> Option<DomError>
    ensures { result ≡ fits.refusal_in events.now }
{
    match events {
        [Event::Refusal(error), ..] => Some(*error),
        _ => None,
    }
}

// What stands on the line of a call that was refused with this error, or with none.
fn call_line(who: Who, call: &Call, error: Option<DomError>) -> EntryLine
    ensures { result ≡ spec.call_line_of who call.now error }
{
    let call = match call {
        Call::Configure(_) => CallWord::Configure,
        Call::Decode(_) => CallWord::Decode,
        Call::Encode(_) => CallWord::Encode,
        Call::Flush => CallWord::Flush,
        Call::Reset => CallWord::Reset,
        Call::Close => CallWord::Close,
        Call::Take(unit) => return EntryLine::Take { who, unit: *unit },
        Call::Ground(to) => return EntryLine::Ground { who, to: *to },
    };
    EntryLine::Call { who, call, error }
}

// What stands on an entry's line behind its place, by what it showed.
fn entry_line_of(entry: &Entry, shown: &Shown) -> EntryLine
    ensures { result ≡ spec.entry_line_of entry.now shown.now }
{
    match entry {
        Entry::Call { who, call } => call_line(*who, call, refusal_in(shown.events.as_slice())),
        Entry::Start { epoch, item } => EntryLine::Start {
            epoch: *epoch,
            item: *item,
        },
        Entry::Done {
            epoch,
            item,
            moment,
            outcome,
        } => EntryLine::Done {
            epoch: *epoch,
            item: *item,
            moment: *moment,
            outcome: *outcome,
        },
        Entry::Turn => EntryLine::Turn(shown.turn),
        Entry::Reclaim { moment } => EntryLine::Reclaim { moment: *moment },
    }
}

// A config's line. Its bytes are few, or shared with the config's own.
fn config_line(alloc: Global, config: &AudioDecoderConfig) -> Result<Line, NoMemory>
    ensures { IfOk result (λ l. l ≡ spec.config_line config.now) }
{
    let codec = Bytes::copy_from_slice(alloc, config.codec.as_str().as_bytes())?;
    let description = match &config.description {
        Some(description) => description.clone()?,
        None => Bytes::new(),
    };
    Ok(Line::Event(EventLine::Config {
        codec,
        rate: config.rate,
        channels: config.channels,
        description,
    }))
}

// An output's line, and the line behind it, if there is one.
fn lines_of_output(alloc: Global, unit: &Unit) -> Result<(Line, Option<Line>), NoMemory>
    ensures { IfOk result (λ x. x.0 ∷ option_to_list x.1 ≡ spec.output_lines unit.now) }
{
    match unit {
        Unit::Sound(samples) => {
            let samples = Samples {
                shape: samples.shape,
                bytes: samples.bytes.clone()?,
            };
            Ok((Line::Event(EventLine::Sound(samples)), None))
        }
        Unit::Image(picture) => {
            let picture = Picture {
                shape: picture.shape,
                bytes: picture.bytes.clone()?,
            };
            Ok((Line::Event(EventLine::Image(picture)), None))
        }
        Unit::Coded { chunk, config } => {
            let config = match config {
                Some(config) => Some(config_line(alloc, config)?),
                None => None,
            };
            Ok((Line::Event(EventLine::Chunk(chunk.copy()?)), config))
        }
    }
}

// An event's line, if it has one, and the line behind it, if there is one.
fn lines_of_event(alloc: Global, event: &Event) -> Result<Option<(Line, Option<Line>)>, NoMemory>
    ensures { IfOk result (λ x. lines_in x ≡ spec.event_lines event.now) }
{
    let line = match event {
        Event::Refusal(_) => return Ok(None),
        Event::Output { unit, .. } => return Ok(Some(lines_of_output(alloc, unit)?)),
        Event::Resolve(promise) => EventLine::Resolve(*promise),
        Event::Reject { promise, error } => EventLine::Reject {
            promise: *promise,
            error: *error,
        },
        Event::Dequeue => EventLine::Dequeue,
        Event::ErrorCall(error) => EventLine::Error(*error),
    };
    Ok(Some((Line::Event(line), None)))
}

// The lines of events: one that stands behind the last, and those of the events that are left.
#[derive(Drop)]
struct EventLines<'a> {
    behind: Option<Line>,
    events: Numbered<'a, Event>,
}

impl<'a> Model for EventLines<'a> {
    ghost Value = { List LineValue };

    ghost view = { λ s. option_to_list s.behind ++ flat_map spec.event_lines s.events.items };
}

impl<'a> EventLines<'a> {
    fn of(events: &'a [Event]) -> EventLines<'a>
        ensures { result ≡ flat_map spec.event_lines events.now }
    {
        EventLines {
            behind: None,
            events: Numbered::of(events),
        }
    }

    fn next(&mut self, alloc: Global) -> Result<Option<Line>, NoMemory>
        ensures { IfOk result (λ l. TakesFirst self.old l self.new) }
    {
        if let Some(line) = self.behind.take() {
            return Ok(Some(line));
        }
        while let Some((_, event)) = self.events.next() {
            if let Some((line, behind)) = lines_of_event(alloc, event)? {
                self.behind = behind;
                return Ok(Some(line));
            }
        }
        Ok(None)
    }
}

// The lines of entries, each with those of what it showed.
#[derive(Drop)]
struct EntryLines<'a> {
    events: EventLines<'a>,
    entries: NumberedIn<'a, Entry>,
    shown: NumberedIn<'a, Shown>,
}

impl<'a> Model for EntryLines<'a> {
    ghost Value = { List LineValue };

    ghost view = { λ s. s.events ++ lines_from spec.entry_lines s.entries.number (zip s.entries.items s.shown.items) };
}

impl<'a> EntryLines<'a> {
    fn none() -> EntryLines<'a>
        ensures { result ≡ [] }
    {
        EntryLines {
            events: EventLines::of(&[]),
            entries: NumberedIn::none(),
            shown: NumberedIn::none(),
        }
    }

    fn of(entries: &'a SegmentedList<Entry>, shown: &'a SegmentedList<Shown>) -> EntryLines<'a>
        ensures { result ≡ lines_from spec.entry_lines 0 (zip entries.now shown.now) }
    {
        EntryLines {
            events: EventLines::of(&[]),
            entries: NumberedIn::of(entries),
            shown: NumberedIn::of(shown),
        }
    }

    #[tactic(auto, using(crate::proofs::LinesLaws::no_pairs))]
    fn next(&mut self, alloc: Global) -> Result<Option<Line>, NoMemory>
        ensures { IfOk result (λ l. TakesFirst self.old l self.new) }
    {
        if let Some(line) = self.events.next(alloc)? {
            return Ok(Some(line));
        }
        let Some((place, entry)) = self.entries.next() else {
            return Ok(None);
        };
        let Some((_, shown)) = self.shown.next() else {
            return Ok(None);
        };
        self.events = EventLines::of(shown.events.as_slice());
        Ok(Some(Line::Entry {
            place: place as u64,
            entry: entry_line_of(entry, shown),
        }))
    }
}

// The lines of codecs, each with those of its entries.
#[derive(Drop)]
struct CodecLines<'a> {
    entries: EntryLines<'a>,
    codecs: Numbered<'a, CodecTrace>,
}

impl<'a> Model for CodecLines<'a> {
    ghost Value = { List LineValue };

    ghost view = { λ s. s.entries ++ lines_from spec.codec_lines s.codecs.number s.codecs.items };
}

impl<'a> CodecLines<'a> {
    fn of(codecs: &'a [CodecTrace]) -> CodecLines<'a>
        ensures { result ≡ lines_from spec.codec_lines 0 codecs.now }
    {
        CodecLines {
            entries: EntryLines::none(),
            codecs: Numbered::of(codecs),
        }
    }

    fn next(&mut self, alloc: Global) -> Result<Option<Line>, NoMemory>
        ensures { IfOk result (λ l. TakesFirst self.old l self.new) }
    {
        if let Some(line) = self.entries.next(alloc)? {
            return Ok(Some(line));
        }
        let Some((number, codec)) = self.codecs.next() else {
            return Ok(None);
        };
        self.entries = EntryLines::of(&codec.entries, &codec.shown);
        Ok(Some(Line::Codec {
            codec: number as u64,
            opening: codec.opening,
        }))
    }
}

// The lines of callers, each with those of its results.
#[derive(Drop)]
struct CallerLines<'a> {
    results: Numbered<'a, StepResult>,
    callers: Numbered<'a, CallerTrace>,
}

impl<'a> Model for CallerLines<'a> {
    ghost Value = { List LineValue };

    ghost view = { λ s. lines_from spec.result_lines s.results.number s.results.items
        ++ lines_from spec.caller_lines s.callers.number s.callers.items };
}

impl<'a> CallerLines<'a> {
    fn of(callers: &'a [CallerTrace]) -> CallerLines<'a>
        ensures { result ≡ lines_from spec.caller_lines 0 callers.now }
    {
        CallerLines {
            results: Numbered::of(&[]),
            callers: Numbered::of(callers),
        }
    }

    fn next(&mut self) -> Result<Option<Line>, NoMemory>
        ensures { IfOk result (λ l. TakesFirst self.old l self.new) }
    {
        if let Some((step, answer)) = self.results.next() {
            return Ok(Some(Line::Result {
                step: step as u64,
                answer: answer.copy()?,
            }));
        }
        let Some((number, caller)) = self.callers.next() else {
            return Ok(None);
        };
        self.results = Numbered::of(caller.results.as_slice());
        Ok(Some(Line::Caller(number as u64)))
    }
}

// The lines of callers, and then those of codecs.
#[derive(Drop)]
struct TraceLines<'a> {
    callers: CallerLines<'a>,
    codecs: CodecLines<'a>,
}

impl<'a> Model for TraceLines<'a> {
    ghost Value = { List LineValue };

    ghost view = { λ s. s.callers ++ s.codecs };
}

impl<'a> TraceLines<'a> {
    fn next(&mut self, alloc: Global) -> Result<Option<Line>, NoMemory>
        ensures { IfOk result (λ l. TakesFirst self.old l self.new) }
    {
        match self.callers.next()? {
            Some(line) => Ok(Some(line)),
            None => self.codecs.next(alloc),
        }
    }
}

/// Which line of a run was made last.
#[derive(Clone, Copy, Debug, PartialEq, Eq)]
pub enum Section {
    /// None.
    Start,
    /// The first one, or one of a caller or a codec.
    Traces,
    /// `pool`, or an entry of the pool.
    Pool,
    /// `slots`, or an entry of the registry.
    Slots,
    Held,
    End,
}

/// The lines of a run that are left, in order. A contract sees them as a list.
#[derive(Drop)]
pub struct RunLines<'a> {
    section: Section,
    traces: TraceLines<'a>,
    pool: Numbered<'a, PoolEntry>,
    slots: Numbered<'a, SlotEntry>,
    held: u64,
}

impl<'a> Model for RunLines<'a> {
    ghost Value = { List LineValue };

    ghost view = { λ s. lines_behind s.section s.traces
        (lines_from spec.pool_lines s.pool.number s.pool.items)
        (lines_from spec.slot_lines s.slots.number s.slots.items) s.held };
}

impl<'a> RunLines<'a> {
    /// All lines of a run.
    pub fn of(run: &'a Run) -> RunLines<'a>
        ensures { result ≡ spec.lines_of run.now }
    {
        RunLines {
            section: Section::Start,
            traces: TraceLines {
                callers: CallerLines::of(run.callers.as_slice()),
                codecs: CodecLines::of(run.codecs.as_slice()),
            },
            pool: Numbered::of(run.pool.as_slice()),
            slots: Numbered::of(run.slots.as_slice()),
            held: run.held,
        }
    }

    /// The next line, or `None` where none is left.
    pub fn next(&mut self, alloc: Global) -> Result<Option<Line>, NoMemory>
        ensures { IfOk result (λ l. TakesFirst self.old l self.new) }
    {
        match self.section {
            Section::Start => {
                self.section = Section::Traces;
                Ok(Some(Line::Header))
            }
            Section::Traces => match self.traces.next(alloc)? {
                Some(line) => Ok(Some(line)),
                None => {
                    self.section = Section::Pool;
                    Ok(Some(Line::Pool))
                }
            },
            Section::Pool => match self.pool.next() {
                Some((place, entry)) => Ok(Some(Line::Reference {
                    place: place as u64,
                    entry: *entry,
                })),
                None => {
                    self.section = Section::Slots;
                    Ok(Some(Line::Slots))
                }
            },
            Section::Slots => match self.slots.next() {
                Some((place, entry)) => Ok(Some(Line::Slot {
                    place: place as u64,
                    entry: *entry,
                })),
                None => {
                    self.section = Section::Held;
                    Ok(Some(Line::Held(self.held)))
                }
            },
            Section::Held => {
                self.section = Section::End;
                Ok(Some(Line::End))
            }
            Section::End => Ok(None),
        }
    }
}
