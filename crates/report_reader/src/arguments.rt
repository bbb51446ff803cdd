// Entries get the arguments of their steps.
ghost use Rattle.std.specs.Prelude.{ℕ, ◌≡◌, IfOk, Some, None, option_and_then, option_map, slice_get};
ghost use Rattle.std.specs.Option.{option_or};
ghost use Rattle.media_accounts.specs.Contents.{From, chunk_of_init, chunk_of_unit};
ghost use Rattle.run_model.specs.Recorded.{steps_of};
ghost use Rattle.report_reader.specs.declared.known.Known.{Known as KnownValue};
ghost use Rattle.report_reader.specs.Arguments as spec;
ghost use Rattle.report_reader.specs.Tables.{AreTables};

use crate::clones::{Place, find_bytes, find_content};
use crate::known::{Known, is_given, taken_in};
use crate::tables::{Tables, is_ended, pair_at};
use bytes::Bytes;
use codec_model::{Call, Content, Entry, Handed, HeldMedium, Pair};
use coder_api::Unit;
use report_text::{CallWord, EntryLine};
use run_model::{find_chunk, steps_of};
use script_types::{InitData, InitShape, MediaStep, ScriptData, Step};
use wc_base::{DomError, Ground, List, NoMemory, Who};
use wc_chunk::Chunk;

// A decode of this chunk, if there is one.
fn decode_of(chunk: Option<Chunk>) -> Option<Call>
    ensures { result ≡ option_map (λ c. Call.Decode c) chunk }
{
    match chunk {
        Some(chunk) => Some(Call::Decode(chunk)),
        None => None,
    }
}

// The chunk of an output, if it is one.
fn chunk_of_unit(unit: &Unit) -> Result<Option<Chunk>, NoMemory>
    ensures { IfOk result (λ o. o ≡ chunk_of_unit unit.now) }
{
    match unit {
        Unit::Coded { chunk, config: _ } => Ok(Some(chunk.copy()?)),
        _ => Ok(None),
    }
}

// The chunk of the output that a step took, if it took one.
fn chunk_taken(known: &Known, caller: u32, step: u32) -> Result<Option<Chunk>, NoMemory>
    ensures { IfOk result
        (λ o. o ≡ option_and_then chunk_of_unit (spec.taken_in known.now caller step)) }
{
    match taken_in(known, caller, step) {
        Some(unit) => chunk_of_unit(unit),
        None => Ok(None),
    }
}

// The chunk that an init makes of these bytes, if it makes one.
fn chunk_of_init(shape: &InitShape, bytes: Bytes) -> Option<Chunk>
    ensures { result ≡ chunk_of_init shape.now bytes }
{
    match shape {
        InitShape::Chunk {
            key,
            timestamp,
            duration,
        } => Some(Chunk {
            key: *key,
            timestamp: *timestamp,
            duration: *duration,
            bytes,
        }),
        _ => None,
    }
}

// The bytes that an init of the step with this number has, of its caller's buffers.
fn bytes_told(
    script: &ScriptData,
    tables: &Tables,
    who: Who,
    content: &InitData,
) -> Result<Bytes, NoMemory>
    ensures { (known : KnownValue) (from : ℕ → From) → AreTables script.now known tables.now
        → IfOk result (λ b. b ≡ spec.bytes_told (steps_of script.now who.caller)
        (spec.results_of known.callers who.caller) from who.step content.now) }
{
    match content {
        InitData::Hex(bytes) => Ok(bytes.clone()?),
        InitData::Buffer(variable) => {
            if is_ended(tables, who.caller, who.step, variable.step) {
                Ok(Bytes::new())
            } else {
                find_bytes(steps_of(script, who.caller), who.step, variable.step)
            }
        }
    }
}

// The chunk that the init of a step makes, if it makes one.
fn chunk_told(
    script: &ScriptData,
    tables: &Tables,
    who: Who,
    step: &Step,
) -> Result<Option<Chunk>, NoMemory>
    ensures { (known : KnownValue) (from : ℕ → From) → AreTables script.now known tables.now
        → IfOk result (λ o. o ≡ spec.chunk_told (steps_of script.now who.caller)
        (spec.results_of known.callers who.caller) from who.step step.now) }
{
    match step {
        Step::Media(MediaStep::Buffered { bind: _, init }) => {
            let bytes = bytes_told(script, tables, who, &init.content)?;
            Ok(chunk_of_init(&init.shape, bytes))
        }
        _ => Ok(None),
    }
}

// The chunk that the init of this step of a caller made, if it made one.
fn chunk_made(
    script: &ScriptData,
    known: &Known,
    tables: &Tables,
    who: Who,
) -> Result<Option<Chunk>, NoMemory>
    requires { AreTables script.now known.now tables.now }
    ensures { (from : ℕ → From) → IfOk result (λ o. o
        ≡ spec.chunk_made_by (steps_of script.now who.caller)
        (spec.results_of known.now.callers who.caller) from who.step) }
{
    if !is_given(known, who.caller, who.step) {
        return Ok(None);
    }
    match steps_of(script, who.caller).get(who.step as usize) {
        Some(step) => chunk_told(script, tables, who, step),
        None => Ok(None),
    }
}

// The chunk that this step of a caller took or made, if it did.
fn chunk_given(
    script: &ScriptData,
    known: &Known,
    tables: &Tables,
    who: Who,
) -> Result<Option<Chunk>, NoMemory>
    requires { AreTables script.now known.now tables.now }
    ensures { (from : ℕ → From) → IfOk result (λ o. o
        ≡ option_or (option_and_then chunk_of_unit (spec.taken_in known.now who.caller who.step))
        (spec.chunk_made_by (steps_of script.now who.caller)
        (spec.results_of known.now.callers who.caller) from who.step)) }
{
    match chunk_taken(known, who.caller, who.step)? {
        Some(chunk) => Ok(Some(chunk)),
        None => chunk_made(script, known, tables, who),
    }
}

// The chunk of the variable that this step of a caller defines.
fn chunk_found(
    script: &ScriptData,
    media: &[List<Chunk>],
    known: &Known,
    tables: &Tables,
    who: Who,
) -> Result<Option<Chunk>, NoMemory>
    requires { AreTables script.now known.now tables.now }
    ensures { let from = spec.from_in script.now known.now (spec.depth_of known.now) who.caller in
        IfOk result (λ o. o ≡ spec.chunk_found media.now (steps_of script.now who.caller)
        (spec.results_of known.now.callers who.caller) from who.step) }
{
    match find_chunk(media, steps_of(script, who.caller), who.step)? {
        Some(chunk) => Ok(Some(chunk)),
        None => chunk_given(script, known, tables, who),
    }
}

// A clone of this, if both are there.
fn clone_of(content: Option<Content>, pair: Option<Pair>) -> Option<Handed>
    ensures { result ≡ spec.clone_of content pair }
{
    match (content, pair) {
        (Some(content), Some(pair)) => Some(Handed::Cloned(HeldMedium {
            shape: content.shape,
            bytes: content.bytes,
            pair,
        })),
        _ => None,
    }
}

// What became of the medium of the variable that the step with this number defines, by the results of its caller and the
// exception of its encode.
fn handed_in(
    script: &ScriptData,
    known: &Known,
    tables: &Tables,
    codec: usize,
    place: u64,
    who: Who,
    error: Option<DomError>,
    content: u32,
) -> Result<Option<Handed>, NoMemory>
    requires { AreTables script.now known.now tables.now }
    ensures { IfOk result (λ o. o ≡ spec.handed_in script.now known.now
        (steps_of script.now who.caller) codec place who error content) }
{
    if !is_given(known, who.caller, content) {
        return Ok(None);
    }
    if is_ended(tables, who.caller, who.step, content) {
        return Ok(Some(Handed::Gone));
    }
    match error {
        None => {
            let at = Place {
                left: tables.depth,
                caller: who.caller,
                end: who.step,
                number: content,
            };
            let content = find_content(script, known, at)?;
            Ok(clone_of(content, pair_at(tables, codec, place)))
        }
        Some(DomError::InvalidState) => Ok(Some(Handed::Kept)),
        Some(_) => Ok(None),
    }
}

// An encode with which this became of its medium, if that is known.
fn encode_of(handed: Option<Handed>) -> Option<Call>
    ensures { result ≡ option_map (λ h. Call.Encode h) handed }
{
    match handed {
        Some(handed) => Some(Call::Encode(handed)),
        None => None,
    }
}

// The call of this word and exception, with the arguments of this step, if the step makes such a call.
fn call_of(
    script: &ScriptData,
    media: &[List<Chunk>],
    known: &Known,
    tables: &Tables,
    codec: usize,
    place: u64,
    who: Who,
    word: CallWord,
    error: Option<DomError>,
    step: &Step,
) -> Result<Option<Call>, NoMemory>
    requires { AreTables script.now known.now tables.now }
    ensures { IfOk result (λ o. o ≡ spec.call_of script.now media.now known.now
        (steps_of script.now who.caller) codec place who word error step.now) }
{
    match (word, step) {
        (CallWord::Configure, Step::Configure { on: _, config }) => {
            Ok(Some(Call::Configure(config.copy()?)))
        }
        (CallWord::Decode, Step::Decode { on: _, chunk }) => {
            let defining = Who {
                caller: who.caller,
                step: chunk.step,
            };
            let chunk = chunk_found(script, media, known, tables, defining)?;
            Ok(decode_of(chunk))
        }
        (CallWord::Encode, Step::Media(MediaStep::Encode { on: _, content })) => {
            let content = content.step;
            let handed = handed_in(script, known, tables, codec, place, who, error, content)?;
            Ok(encode_of(handed))
        }
        (CallWord::Flush, Step::Flush { on: _, bind: _ }) => Ok(Some(Call::Flush)),
        (CallWord::Reset, Step::Reset { on: _ }) => Ok(Some(Call::Reset)),
        (CallWord::Close, Step::Close { on: _ }) => Ok(Some(Call::Close)),
        _ => Ok(None),
    }
}

// A take of the output with this number, if the step takes one.
fn take_of(unit: u64, step: &Step) -> Option<Call>
    ensures { result ≡ spec.take_of unit step.now }
{
    match step {
        Step::Media(MediaStep::Take { .. }) => Some(Call::Take(unit)),
        _ => None,
    }
}

// The call that tells this ground, if the step tells it.
fn ground_of(to: Ground, step: &Step) -> Option<Call>
    ensures { result ≡ spec.ground_of to step.now }
{
    match step {
        Step::Ground { on: _, to: own } if own.is(to) => Some(Call::Ground(to)),
        _ => None,
    }
}

// The call of a line that tells one by this caller's step.
fn call_at(
    script: &ScriptData,
    media: &[List<Chunk>],
    known: &Known,
    tables: &Tables,
    codec: usize,
    place: u64,
    who: Who,
    word: CallWord,
    error: Option<DomError>,
) -> Result<Option<Call>, NoMemory>
    requires { AreTables script.now known.now tables.now }
    ensures { let steps = steps_of script.now who.caller in
        IfOk result (λ o. o ≡ option_and_then
        (spec.call_of script.now media.now known.now steps codec place who word error)
        (slice_get steps who.step)) }
{
    match steps_of(script, who.caller).get(who.step as usize) {
        Some(step) => call_of(
            script, media, known, tables, codec, place, who, word, error, step,
        ),
        None => Ok(None),
    }
}

// The take of a line that tells one by this caller's step.
fn take_at(script: &ScriptData, who: Who, unit: u64) -> Option<Call>
    ensures { result
        ≡ option_and_then (spec.take_of unit) (slice_get (steps_of script.now who.caller) who.step) }
{
    match steps_of(script, who.caller).get(who.step as usize) {
        Some(step) => take_of(unit, step),
        None => None,
    }
}

// The ground of a line that tells one by this caller's step.
fn ground_at(script: &ScriptData, who: Who, to: Ground) -> Option<Call>
    ensures { result
        ≡ option_and_then (spec.ground_of to) (slice_get (steps_of script.now who.caller) who.step) }
{
    match steps_of(script, who.caller).get(who.step as usize) {
        Some(step) => ground_of(to, step),
        None => None,
    }
}

// The entry of a call, if there is one.
fn entry_with(who: Who, call: Option<Call>) -> Option<Entry>
    ensures { result ≡ option_map (λ x. Entry.Call who x) call }
{
    match call {
        Some(call) => Some(Entry::Call { who, call }),
        None => None,
    }
}

/// The entry of a line at this place of the codec with this number, with the arguments of its step. `None` where its step
/// makes no such call, no take and no such ground, decodes a chunk that is absent, or encodes a medium that is absent, or with another
/// exception than an encode of such a medium has, or a medium or a clone that the report does not show.
pub fn entry_of(
    script: &ScriptData,
    media: &[List<Chunk>],
    known: &Known,
    tables: &Tables,
    codec: usize,
    place: u64,
    line: EntryLine,
) -> Result<Option<Entry>, NoMemory>
    requires { AreTables script.now known.now tables.now }
    ensures { IfOk result
        (λ o. o ≡ spec.entry_of script.now media.now known.now codec place line) }
{
    match line {
        EntryLine::Call { who, call, error } => {
            let call = call_at(script, media, known, tables, codec, place, who, call, error)?;
            Ok(entry_with(who, call))
        }
        EntryLine::Take { who, unit } => Ok(entry_with(who, take_at(script, who, unit))),
        EntryLine::Ground { who, to } => Ok(entry_with(who, ground_at(script, who, to))),
        EntryLine::Start { epoch, item } => Ok(Some(Entry::Start { epoch, item })),
        EntryLine::Done {
            epoch,
            item,
            moment,
            outcome,
        } => Ok(Some(Entry::Done {
            epoch,
            item,
            moment,
            outcome,
        })),
        EntryLine::Turn(_) => Ok(Some(Entry::Turn)),
        EntryLine::Reclaim { moment } => Ok(Some(Entry::Reclaim { moment })),
    }
}
