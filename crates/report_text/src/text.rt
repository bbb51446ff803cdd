// The text of a line.
ghost use Rattle.std.specs.Prelude.{◌≡◌, [], ◌++◌, IfOk, OnOk, codes, decimal};
ghost use Rattle.report_text.specs.Text as spec;
ghost use Rattle.report_text.specs.declared.line.Line.TheVariants as a_line;
ghost use Rattle.report_text.specs.declared.line.EntryLine.TheVariants as an_entry;
ghost use Rattle.report_text.specs.declared.result.StepResult.TheVariants as came;

use crate::events::push_event;
use crate::line::{CallWord, EntryLine, Line};
use crate::names::{
    caller_name, codec_name, push_cause, push_coder, push_entry_name, push_item, push_look_name,
    push_step,
};
use crate::pieces::{push_hex_or_dash, push_number, push_text};
use crate::result::StepResult;
use crate::words::{answer_text, call_word, error_name, state_text};
use codec_model::{CodecState, Opening, Outcome, PromiseState, TurnWord};
use coder_api::{SlotEntry, SlotOp};
use script_types::{CallerItem, CodecItem, ScriptData, ground_text, kind_text};
use std::alloc::{AllocError, Global};
use wc_base::{DomError, Who};
use wc_pool::{PoolEntry, PoolOp};
use wc_video::{Layouts, PlaneLayout};

// How a promise stands.
fn push_standing(line: &mut Vec<u8>, end: PromiseState) -> Result<(), AllocError>
    ensures { OnOk result (line.new.items ≡ line.old.items ++ spec.promise_text end) }
{
    match end {
        PromiseState::Pending => push_text(line, "pending"),
        PromiseState::Resolved => push_text(line, "resolved"),
        PromiseState::Rejected(error) => {
            push_text(line, "rejected ")?;
            push_text(line, error_name(error))
        }
    }
}

// Where a plane went.
fn push_layout(line: &mut Vec<u8>, layout: PlaneLayout) -> Result<(), AllocError>
    ensures { OnOk result (line.new.items ≡ line.old.items ++ spec.layout_text layout) }
{
    push_number(line, u64::from(layout.offset))?;
    push_text(line, ":")?;
    push_number(line, u64::from(layout.stride))
}

// Where the planes of a frame went.
fn push_layouts(line: &mut Vec<u8>, layouts: Layouts) -> Result<(), AllocError>
    ensures { OnOk result (line.new.items ≡ line.old.items ++ spec.layouts_text layouts) }
{
    push_layout(line, layouts.first)?;
    push_text(line, ",")?;
    push_layout(line, layouts.second)?;
    if layouts.count == 3 {
        push_text(line, ",")?;
        push_layout(line, layouts.third)?;
    }
    Ok(())
}

fn push_call_result(
    line: &mut Vec<u8>,
    codecs: &[CodecItem],
    codec: u32,
    place: u64,
    error: Option<DomError>,
) -> Result<(), AllocError>
    ensures { OnOk result
        (line.new.items
        ≡ line.old.items ++ spec.result_text [] codecs.now (came.Call codec place error)) }
{
    push_entry_name(line, codecs, codec, place)?;
    push_text(line, " ")?;
    push_text(line, answer_text(error))
}

fn push_look_result(
    line: &mut Vec<u8>,
    codecs: &[CodecItem],
    codec: u32,
    length: u64,
    end: PromiseState,
) -> Result<(), AllocError>
    ensures { OnOk result
        (line.new.items
        ≡ line.old.items ++ spec.result_text [] codecs.now (came.Look codec length end)) }
{
    push_look_name(line, codecs, codec, length)?;
    push_text(line, " ")?;
    push_standing(line, end)
}

fn push_state_result(
    line: &mut Vec<u8>,
    codecs: &[CodecItem],
    codec: u32,
    length: u64,
    state: CodecState,
    size: u64,
) -> Result<(), AllocError>
    ensures { OnOk result
        (line.new.items
        ≡ line.old.items ++ spec.result_text [] codecs.now (came.State codec length state size)) }
{
    push_look_name(line, codecs, codec, length)?;
    push_text(line, " ")?;
    push_text(line, state_text(state))?;
    push_text(line, " ")?;
    push_number(line, size)
}

fn push_unit_result(
    line: &mut Vec<u8>,
    codecs: &[CodecItem],
    codec: u32,
    place: u64,
    number: u64,
) -> Result<(), AllocError>
    ensures { OnOk result
        (line.new.items
        ≡ line.old.items ++ spec.result_text [] codecs.now (came.Unit codec place number)) }
{
    push_entry_name(line, codecs, codec, place)?;
    push_text(line, " unit ")?;
    push_number(line, number)
}

fn push_no_unit(
    line: &mut Vec<u8>,
    codecs: &[CodecItem],
    codec: u32,
    length: u64,
) -> Result<(), AllocError>
    ensures { OnOk result
        (line.new.items ≡ line.old.items ++ spec.result_text [] codecs.now (came.NoUnit codec length)) }
{
    push_look_name(line, codecs, codec, length)?;
    push_text(line, " none")
}

fn push_copy(line: &mut Vec<u8>, count: u64, bytes: &[u8]) -> Result<(), AllocError>
    ensures { OnOk result
        (line.new.items ≡ line.old.items ++ spec.copied_text count ++ spec.hex_or_dash bytes.now) }
{
    push_text(line, "copied ")?;
    push_number(line, count)?;
    push_text(line, " ")?;
    push_hex_or_dash(line, bytes)
}

fn push_frame_copy(
    line: &mut Vec<u8>,
    count: u64,
    layouts: Layouts,
    bytes: &[u8],
) -> Result<(), AllocError>
    ensures { OnOk result
        (line.new.items
        ≡ line.old.items ++ spec.copied_frame_text count layouts ++ spec.hex_or_dash bytes.now) }
{
    push_text(line, "copied ")?;
    push_number(line, count)?;
    push_text(line, " ")?;
    push_layouts(line, layouts)?;
    push_text(line, " ")?;
    push_hex_or_dash(line, bytes)
}

fn push_size(line: &mut Vec<u8>, size: u64) -> Result<(), AllocError>
    ensures { OnOk result
        (line.new.items ≡ line.old.items ++ spec.result_text [] [] (came.Size size)) }
{
    push_text(line, "size ")?;
    push_number(line, size)
}

fn push_from(line: &mut Vec<u8>, callers: &[CallerItem], who: Who) -> Result<(), AllocError>
    ensures { OnOk result
        (line.new.items ≡ line.old.items ++ spec.result_text callers.now [] (came.From who)) }
{
    push_text(line, "from ")?;
    push_step(line, callers, who)
}

// What a step came to.
fn push_result(
    line: &mut Vec<u8>,
    script: &ScriptData,
    answer: &StepResult,
) -> Result<(), AllocError>
    ensures { OnOk result
        (line.new.items ≡ line.old.items ++ spec.result_text script.now.callers script.now.codecs answer.now) }
{
    let codecs = script.codecs.as_slice();
    match answer {
        StepResult::Call {
            codec,
            place,
            error,
        } => push_call_result(line, codecs, *codec, *place, *error),
        StepResult::Local { error } => push_text(line, answer_text(*error)),
        StepResult::Look { codec, length, end } => {
            push_look_result(line, codecs, *codec, *length, *end)
        }
        StepResult::State {
            codec,
            length,
            state,
            size,
        } => push_state_result(line, codecs, *codec, *length, *state, *size),
        StepResult::Unit {
            codec,
            place,
            number,
        } => push_unit_result(line, codecs, *codec, *place, *number),
        StepResult::NoUnit { codec, length } => push_no_unit(line, codecs, *codec, *length),
        StepResult::Copied { count, bytes } => push_copy(line, *count, bytes.as_slice()),
        StepResult::CopiedFrame {
            count,
            layouts,
            bytes,
        } => push_frame_copy(line, *count, *layouts, bytes.as_slice()),
        StepResult::Size { size } => push_size(line, *size),
        StepResult::From { who } => push_from(line, script.callers.as_slice(), *who),
        StepResult::Nothing => push_text(line, "none"),
        StepResult::Absent => push_text(line, "absent"),
    }
}

// How an item ended.
fn push_outcome(line: &mut Vec<u8>, outcome: Outcome) -> Result<(), AllocError>
    ensures { OnOk result (line.new.items ≡ line.old.items ++ spec.outcome_text outcome) }
{
    match outcome {
        Outcome::Ran { units } => {
            push_text(line, "ran ")?;
            push_number(line, units)
        }
        Outcome::Refused => push_text(line, "refused"),
        Outcome::NoSlot { entry } => {
            push_text(line, "no-slot ")?;
            push_number(line, entry)
        }
        Outcome::NoMemory => push_text(line, "no-memory"),
    }
}

// The event task that a turn ran.
fn push_turn(line: &mut Vec<u8>, turn: Option<TurnWord>) -> Result<(), AllocError>
    ensures { OnOk result (line.new.items ≡ line.old.items ++ spec.turn_text turn) }
{
    match turn {
        None => push_text(line, "-"),
        Some(TurnWord::Unblock) => push_text(line, "unblock"),
        Some(TurnWord::Process) => push_text(line, "process"),
        Some(TurnWord::Desaturate) => push_text(line, "desaturate"),
        Some(TurnWord::Output) => push_text(line, "output"),
        Some(TurnWord::Flushed) => push_text(line, "flushed"),
        Some(TurnWord::Dequeue) => push_text(line, "dequeue"),
        Some(TurnWord::Close(error)) => {
            push_text(line, "close ")?;
            push_text(line, error_name(error))
        }
    }
}

fn push_call(
    line: &mut Vec<u8>,
    callers: &[CallerItem],
    who: Who,
    call: CallWord,
    error: Option<DomError>,
) -> Result<(), AllocError>
    ensures { OnOk result
        (line.new.items
        ≡ line.old.items ++ spec.entry_text callers.now (an_entry.Call who call error)) }
{
    push_step(line, callers, who)?;
    push_text(line, " ")?;
    push_text(line, call_word(call))?;
    push_text(line, " = ")?;
    push_text(line, answer_text(error))
}

fn push_done(
    line: &mut Vec<u8>,
    epoch: u64,
    item: u64,
    moment: u64,
    outcome: Outcome,
) -> Result<(), AllocError>
    ensures { OnOk result
        (line.new.items
        ≡ line.old.items ++ spec.entry_text [] (an_entry.Done epoch item moment outcome)) }
{
    push_text(line, "done ")?;
    push_item(line, epoch, item)?;
    push_text(line, " ")?;
    push_number(line, moment)?;
    push_text(line, " ")?;
    push_outcome(line, outcome)
}

// An entry of a codec.
fn push_entry(
    line: &mut Vec<u8>,
    callers: &[CallerItem],
    entry: EntryLine,
) -> Result<(), AllocError>
    ensures { OnOk result (line.new.items ≡ line.old.items ++ spec.entry_text callers.now entry) }
{
    match entry {
        EntryLine::Call { who, call, error } => push_call(line, callers, who, call, error),
        EntryLine::Take { who, unit } => {
            push_step(line, callers, who)?;
            push_text(line, " take = ")?;
            push_number(line, unit)
        }
        EntryLine::Ground { who, to } => {
            push_step(line, callers, who)?;
            push_text(line, " ground ")?;
            push_text(line, ground_text(to))?;
            push_text(line, " = ok")
        }
        EntryLine::Start { epoch, item } => {
            push_text(line, "start ")?;
            push_item(line, epoch, item)
        }
        EntryLine::Done {
            epoch,
            item,
            moment,
            outcome,
        } => push_done(line, epoch, item, moment, outcome),
        EntryLine::Turn(turn) => {
            push_text(line, "turn ")?;
            push_turn(line, turn)
        }
        EntryLine::Reclaim { moment } => {
            push_text(line, "reclaim ")?;
            push_number(line, moment)
        }
    }
}

// What the registry did.
fn push_slot(line: &mut Vec<u8>, op: SlotOp) -> Result<(), AllocError>
    ensures { OnOk result (line.new.items ≡ line.old.items ++ spec.slot_text op) }
{
    match op {
        SlotOp::Acquire { id, number } => {
            push_text(line, "acquire ")?;
            push_coder(line, id)?;
            push_text(line, " ")?;
            push_number(line, number)
        }
        SlotOp::Refused { id, out, made } => {
            push_text(line, "acquire ")?;
            push_coder(line, id)?;
            push_text(line, " none ")?;
            push_number(line, out)?;
            push_text(line, " ")?;
            push_number(line, made)
        }
        SlotOp::Give { id, number } => {
            push_text(line, "give ")?;
            push_coder(line, id)?;
            push_text(line, " ")?;
            push_number(line, number)
        }
    }
}

// A word and the numbers of a resource and of a reference to it.
fn push_reference(
    line: &mut Vec<u8>,
    word: &str,
    resource: u64,
    reference: u64,
) -> Result<(), AllocError>
    ensures { OnOk result
        (line.new.items
        ≡ line.old.items ++ word.now ++ decimal resource ++ codes " " ++ decimal reference) }
{
    push_text(line, word)?;
    push_number(line, resource)?;
    push_text(line, " ")?;
    push_number(line, reference)
}

// What became of a reference to a media resource.
fn push_pool(line: &mut Vec<u8>, op: PoolOp) -> Result<(), AllocError>
    ensures { OnOk result (line.new.items ≡ line.old.items ++ spec.pool_text op) }
{
    match op {
        PoolOp::Make {
            resource,
            reference,
        } => push_reference(line, "make ", resource, reference),
        PoolOp::Clone {
            resource,
            reference,
        } => push_reference(line, "clone ", resource, reference),
        PoolOp::End {
            resource,
            reference,
            last,
        } => {
            push_reference(line, "end ", resource, reference)?;
            push_text(line, if last { " gone" } else { " kept" })
        }
    }
}

fn push_caller_line(line: &mut Vec<u8>, script: &ScriptData, number: u64) -> Result<(), AllocError>
    ensures { OnOk result
        (line.new.items ≡ line.old.items ++ spec.line_text script.now (a_line.Caller number)) }
{
    push_text(line, "caller ")?;
    push_text(line, caller_name(script.callers.as_slice(), number))?;
    push_text(line, "\n")
}

fn push_result_line(
    line: &mut Vec<u8>,
    script: &ScriptData,
    step: u64,
    answer: &StepResult,
) -> Result<(), AllocError>
    ensures { OnOk result
        (line.new.items
        ≡ line.old.items ++ spec.line_text script.now (a_line.Result step answer.now)) }
{
    push_number(line, step)?;
    push_text(line, " ")?;
    push_result(line, script, answer)?;
    push_text(line, "\n")
}

fn push_codec_line(
    line: &mut Vec<u8>,
    script: &ScriptData,
    codec: u64,
    opening: Opening,
) -> Result<(), AllocError>
    ensures { OnOk result
        (line.new.items ≡ line.old.items ++ spec.line_text script.now (a_line.Codec codec opening)) }
{
    push_text(line, "codec ")?;
    push_text(line, codec_name(script.codecs.as_slice(), codec))?;
    push_text(line, " ")?;
    push_text(line, kind_text(opening.kind))?;
    push_text(line, " ")?;
    push_number(line, u64::from(opening.saturation))?;
    push_text(line, "\n")
}

fn push_entry_line(
    line: &mut Vec<u8>,
    script: &ScriptData,
    place: u64,
    entry: EntryLine,
) -> Result<(), AllocError>
    ensures { OnOk result
        (line.new.items ≡ line.old.items ++ spec.line_text script.now (a_line.Entry place entry)) }
{
    push_number(line, place)?;
    push_text(line, " ")?;
    push_entry(line, script.callers.as_slice(), entry)?;
    push_text(line, "\n")
}

fn push_pool_line(
    line: &mut Vec<u8>,
    script: &ScriptData,
    place: u64,
    entry: PoolEntry,
) -> Result<(), AllocError>
    ensures { OnOk result
        (line.new.items
        ≡ line.old.items ++ spec.line_text script.now (a_line.Reference place entry)) }
{
    push_number(line, place)?;
    push_text(line, " ")?;
    push_cause(line, script, entry.by)?;
    push_text(line, " ")?;
    push_pool(line, entry.op)?;
    push_text(line, "\n")
}

fn push_slot_line(
    line: &mut Vec<u8>,
    script: &ScriptData,
    place: u64,
    entry: SlotEntry,
) -> Result<(), AllocError>
    ensures { OnOk result
        (line.new.items ≡ line.old.items ++ spec.line_text script.now (a_line.Slot place entry)) }
{
    push_number(line, place)?;
    push_text(line, " ")?;
    push_cause(line, script, entry.by)?;
    push_text(line, " ")?;
    push_slot(line, entry.op)?;
    push_text(line, "\n")
}

fn push_held_line(line: &mut Vec<u8>, held: u64) -> Result<(), AllocError>
    ensures { OnOk result
        (line.new.items ≡ line.old.items ++ codes "held " ++ decimal held ++ codes "\n") }
{
    push_text(line, "held ")?;
    push_number(line, held)?;
    push_text(line, "\n")
}

/// Appends the text of a line in the report of a run of the script.
pub fn push_line(text: &mut Vec<u8>, script: &ScriptData, line: &Line) -> Result<(), AllocError>
    ensures { OnOk result (text.new.items ≡ text.old.items ++ spec.line_text script.now line.now) }
{
    match line {
        Line::Header => push_text(text, "wcrun report 1\n"),
        Line::Caller(number) => push_caller_line(text, script, *number),
        Line::Result { step, answer } => push_result_line(text, script, *step, answer),
        Line::Codec { codec, opening } => push_codec_line(text, script, *codec, *opening),
        Line::Entry { place, entry } => push_entry_line(text, script, *place, *entry),
        Line::Event(event) => push_event(text, event),
        Line::Pool => push_text(text, "pool\n"),
        Line::Reference { place, entry } => push_pool_line(text, script, *place, *entry),
        Line::Slots => push_text(text, "slots\n"),
        Line::Slot { place, entry } => push_slot_line(text, script, *place, *entry),
        Line::Held(held) => push_held_line(text, *held),
        Line::End => push_text(text, "end\n"),
    }
}

/// The text of a line in the report of a run of the script.
pub fn line_text(alloc: Global, script: &ScriptData, line: &Line) -> Result<Vec<u8>, AllocError>
    ensures { IfOk result (λ v. v.items ≡ spec.line_text script.now line.now) }
{
    let mut text = Vec::new(alloc);
    push_line(&mut text, script, line)?;
    Ok(text)
}
