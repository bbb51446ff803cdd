// How the line in front of some bytes is read.
ghost use Rattle.std.specs.Prelude.{◌≡◌, ◌≢◌, IfOk, IfErr, Some, None, position, bytes_eq};
ghost use Rattle.std.specs.List.{list_all};
ghost use Rattle.std.specs.Option.{option_copied, option_map};
ghost use Rattle.report_lines.specs.Fields.{short as short_of};
ghost use Rattle.report_lines.specs.Fits.{is_no_feed};
ghost use Rattle.report_lines.specs.Reading as spec;

use crate::copies::copied_line_at;
use crate::fields::{
    FieldFault, bytes_upto, number_or_dash_upto, number_upto, short_upto, signed_upto,
};
use crate::vocabulary::{
    answer_of, call_of, codec_id_of, error_of, is, key_of, last_of, picture_format_of, role_of,
    sample_format_of, state_of,
};
use crate::words::{after, are_digits, upto, word_at};
use bytes::Bytes;
use codec_model::{CodecState, Opening, Outcome, PromiseState, TurnWord};
use coder_api::{SlotEntry, SlotOp};
use report_text::{EntryLine, EventLine, Line, StepResult, line_text};
use script_types::{CallerItem, CodecItem, ScriptData, ground_named, kind_named};
use std::alloc::Global;
use wc_base::{By, DomError, Picture, PictureShape, Samples, SoundShape, Who};
use wc_chunk::Chunk;
use wc_config::CoderId;
use wc_pool::{PoolEntry, PoolOp};

fn short(n: u64) -> Option<u32>
    ensures { result ≡ short_of n }
{
    if n < 1 << 32 { Some(n as u32) } else { None }
}

fn place_of_caller(callers: &[CallerItem], word: &[u8]) -> Option<usize>
    ensures { result ≡ position (λ c. bytes_eq c.name word.now) callers.now }
{
    callers
        .iter()
        .position(|caller| caller.name.as_str().as_bytes() == word)
}

fn place_of_codec(codecs: &[CodecItem], word: &[u8]) -> Option<usize>
    ensures { result ≡ position (λ c. bytes_eq c.name word.now) codecs.now }
{
    codecs
        .iter()
        .position(|codec| codec.name.as_str().as_bytes() == word)
}

fn caller_of(callers: &[CallerItem], word: &[u8]) -> Option<u32>
    ensures { result ≡ spec.caller_of callers.now word.now }
{
    let place = place_of_caller(callers, word)?;
    short(place as u64)
}

fn codec_of(codecs: &[CodecItem], word: &[u8]) -> Option<u32>
    ensures { result ≡ spec.codec_of codecs.now word.now }
{
    let place = place_of_codec(codecs, word)?;
    short(place as u64)
}

#[tactic(auto, unfolding(crate::specs::Reading::error_at))]
fn error_at(bytes: &[u8]) -> Option<DomError>
    ensures { result ≡ spec.error_at bytes.now }
{
    let (word, _, _) = word_at(bytes)?;
    error_of(word)
}

#[tactic(auto, unfolding(crate::specs::Reading::answer_at))]
fn answer_at(bytes: &[u8]) -> Option<Option<DomError>>
    ensures { result ≡ spec.answer_at bytes.now }
{
    let (word, _, _) = word_at(bytes)?;
    answer_of(word)
}

#[tactic(auto, unfolding(crate::specs::Reading::promise_at))]
fn promise_at(bytes: &[u8]) -> Option<PromiseState>
    ensures { result ≡ spec.promise_at bytes.now }
{
    let (word, _, rest) = word_at(bytes)?;
    if is(word, "pending") {
        Some(PromiseState::Pending)
    } else if is(word, "resolved") {
        Some(PromiseState::Resolved)
    } else if is(word, "rejected") {
        let error = error_at(rest)?;
        Some(PromiseState::Rejected(error))
    } else {
        None
    }
}

fn look_as(
    state: Option<CodecState>,
    codec: u32,
    length: u64,
    bytes: &[u8],
    rest: &[u8],
) -> Option<StepResult>
    ensures { result ≡ spec.look_as state codec length bytes.now rest.now }
{
    match state {
        None => {
            let end = promise_at(bytes)?;
            Some(StepResult::Look { codec, length, end })
        }
        Some(state) => {
            let (size, _) = number_upto(b'\n', rest)?;
            Some(StepResult::State {
                codec,
                length,
                state,
                size,
            })
        }
    }
}

#[tactic(auto, unfolding(crate::specs::Reading::look_at))]
fn look_at(codec: u32, length: u64, bytes: &[u8]) -> Option<StepResult>
    ensures { result ≡ spec.look_at codec length bytes.now }
{
    let (word, _, rest) = word_at(bytes)?;
    if is(word, "none") {
        Some(StepResult::NoUnit { codec, length })
    } else {
        look_as(state_of(word), codec, length, bytes, rest)
    }
}

#[tactic(auto, unfolding(crate::specs::Reading::look_line_at))]
fn look_line_at(script: &ScriptData, step: u64, name: &[u8], bytes: &[u8]) -> Option<Line>
    ensures { result ≡ spec.look_line_at script.now step name.now bytes.now }
{
    let codec = codec_of(script.codecs.as_slice(), name)?;
    let (length, rest) = number_upto(b' ', bytes)?;
    let answer = look_at(codec, length, rest)?;
    Some(Line::Result { step, answer })
}

#[tactic(auto, unfolding(crate::specs::Reading::call_result_at))]
fn call_result_at(
    script: &ScriptData,
    step: u64,
    name: &[u8],
    place: u64,
    word: &[u8],
) -> Option<Line>
    ensures { result ≡ spec.call_result_at script.now step name.now place word.now }
{
    let codec = codec_of(script.codecs.as_slice(), name)?;
    let error = answer_of(word)?;
    let answer = StepResult::Call {
        codec,
        place,
        error,
    };
    Some(Line::Result { step, answer })
}

#[tactic(auto, unfolding(crate::specs::Reading::unit_at))]
fn unit_at(script: &ScriptData, step: u64, name: &[u8], place: u64, bytes: &[u8]) -> Option<Line>
    ensures { result ≡ spec.unit_at script.now step name.now place bytes.now }
{
    let codec = codec_of(script.codecs.as_slice(), name)?;
    let (number, _) = number_upto(b'\n', bytes)?;
    let answer = StepResult::Unit {
        codec,
        place,
        number,
    };
    Some(Line::Result { step, answer })
}

#[tactic(auto, unfolding(crate::specs::Reading::outcome_at))]
fn outcome_at(bytes: &[u8]) -> Option<Outcome>
    ensures { result ≡ spec.outcome_at bytes.now }
{
    let (word, _, rest) = word_at(bytes)?;
    if is(word, "ran") {
        let (units, _) = number_upto(b'\n', rest)?;
        Some(Outcome::Ran { units })
    } else if is(word, "refused") {
        Some(Outcome::Refused)
    } else if is(word, "no-slot") {
        let (entry, _) = number_upto(b'\n', rest)?;
        Some(Outcome::NoSlot { entry })
    } else if is(word, "no-memory") {
        Some(Outcome::NoMemory)
    } else {
        None
    }
}

#[tactic(auto, unfolding(crate::specs::Reading::turn_at))]
fn turn_at(bytes: &[u8]) -> Option<Option<TurnWord>>
    ensures { result ≡ spec.turn_at bytes.now }
{
    let (word, _, rest) = word_at(bytes)?;
    if is(word, "-") {
        Some(None)
    } else if is(word, "unblock") {
        Some(Some(TurnWord::Unblock))
    } else if is(word, "process") {
        Some(Some(TurnWord::Process))
    } else if is(word, "desaturate") {
        Some(Some(TurnWord::Desaturate))
    } else if is(word, "output") {
        Some(Some(TurnWord::Output))
    } else if is(word, "flushed") {
        Some(Some(TurnWord::Flushed))
    } else if is(word, "dequeue") {
        Some(Some(TurnWord::Dequeue))
    } else if is(word, "close") {
        let error = error_at(rest)?;
        Some(Some(TurnWord::Close(error)))
    } else {
        None
    }
}

#[tactic(auto, unfolding(crate::specs::Reading::start_at))]
fn start_at(bytes: &[u8]) -> Option<EntryLine>
    ensures { result ≡ spec.start_at bytes.now }
{
    let (epoch, rest) = number_upto(b'.', bytes)?;
    let (item, _) = number_upto(b'\n', rest)?;
    Some(EntryLine::Start { epoch, item })
}

#[tactic(auto, unfolding(crate::specs::Reading::done_at))]
fn done_at(bytes: &[u8]) -> Option<EntryLine>
    ensures { result ≡ spec.done_at bytes.now }
{
    let (epoch, rest) = number_upto(b'.', bytes)?;
    let (item, rest) = number_upto(b' ', rest)?;
    let (moment, rest) = number_upto(b' ', rest)?;
    let outcome = outcome_at(rest)?;
    Some(EntryLine::Done {
        epoch,
        item,
        moment,
        outcome,
    })
}

#[tactic(auto, unfolding(crate::specs::Reading::call_at))]
fn call_at(
    script: &ScriptData,
    place: u64,
    name: &[u8],
    step: u64,
    word: &[u8],
    bytes: &[u8],
) -> Option<Line>
    ensures { result ≡ spec.call_at script.now place name.now step word.now bytes.now }
{
    let caller = caller_of(script.callers.as_slice(), name)?;
    let step = short(step)?;
    let call = call_of(word)?;
    let rest = after(b"= ", bytes)?;
    let error = answer_at(rest)?;
    let who = Who { caller, step };
    let entry = EntryLine::Call { who, call, error };
    Some(Line::Entry { place, entry })
}

#[tactic(auto, unfolding(crate::specs::Reading::ground_at))]
fn ground_at(script: &ScriptData, place: u64, name: &[u8], step: u64, bytes: &[u8]) -> Option<Line>
    ensures { result ≡ spec.ground_at script.now place name.now step bytes.now }
{
    let caller = caller_of(script.callers.as_slice(), name)?;
    let step = short(step)?;
    let (word, _, _) = word_at(bytes)?;
    let to = ground_named(word)?;
    let who = Who { caller, step };
    let entry = EntryLine::Ground { who, to };
    Some(Line::Entry { place, entry })
}

#[tactic(auto, unfolding(crate::specs::Reading::take_at))]
fn take_at(script: &ScriptData, place: u64, name: &[u8], step: u64, bytes: &[u8]) -> Option<Line>
    ensures { result ≡ spec.take_at script.now place name.now step bytes.now }
{
    let caller = caller_of(script.callers.as_slice(), name)?;
    let step = short(step)?;
    let rest = after(b"= ", bytes)?;
    let (unit, _) = number_upto(b'\n', rest)?;
    let who = Who { caller, step };
    let entry = EntryLine::Take { who, unit };
    Some(Line::Entry { place, entry })
}

fn by_as(caller: Option<u32>, script: &ScriptData, name: &[u8], number: u64) -> Option<By>
    ensures { result ≡ spec.by_as caller script.now name.now number }
{
    match caller {
        None => {
            let codec = codec_of(script.codecs.as_slice(), name)?;
            Some(By::Codec {
                codec,
                place: number,
            })
        }
        Some(caller) => {
            let step = short(number)?;
            Some(By::Caller(Who { caller, step }))
        }
    }
}

// A caller of the name, or else a codec.
fn by_of(script: &ScriptData, name: &[u8], number: u64) -> Option<By>
    ensures { result ≡ spec.by_of script.now name.now number }
{
    by_as(
        caller_of(script.callers.as_slice(), name),
        script,
        name,
        number,
    )
}

#[tactic(auto, unfolding(crate::specs::Reading::coder_at))]
fn coder_at(bytes: &[u8]) -> Option<(CoderId, &[u8])>
    ensures { option_map (λ x. (x.0, x.1.now)) result ≡ spec.coder_at bytes.now }
{
    let (word, _, rest) = word_at(bytes)?;
    let role = role_of(word)?;
    let (word, _, rest) = word_at(rest)?;
    let codec = codec_id_of(word)?;
    Some((CoderId { role, codec }, rest))
}

#[tactic(auto, unfolding(crate::specs::Reading::refused_at))]
fn refused_at(id: CoderId, bytes: &[u8]) -> Option<SlotOp>
    ensures { result ≡ spec.refused_at id bytes.now }
{
    let (out, rest) = number_upto(b' ', bytes)?;
    let (made, _) = number_upto(b'\n', rest)?;
    Some(SlotOp::Refused { id, out, made })
}

#[tactic(auto, unfolding(crate::specs::Reading::acquired_at))]
fn acquired_at(bytes: &[u8]) -> Option<SlotOp>
    ensures { result ≡ spec.acquired_at bytes.now }
{
    let (id, rest) = coder_at(bytes)?;
    let (word, _, more) = word_at(rest)?;
    if are_digits(word) {
        let (number, _) = number_upto(b'\n', rest)?;
        Some(SlotOp::Acquire { id, number })
    } else {
        refused_at(id, more)
    }
}

#[tactic(auto, unfolding(crate::specs::Reading::given_at))]
fn given_at(bytes: &[u8]) -> Option<SlotOp>
    ensures { result ≡ spec.given_at bytes.now }
{
    let (id, rest) = coder_at(bytes)?;
    let (number, _) = number_upto(b'\n', rest)?;
    Some(SlotOp::Give { id, number })
}

#[tactic(auto, unfolding(crate::specs::Reading::op_at))]
fn op_at(word: &[u8], bytes: &[u8]) -> Option<SlotOp>
    ensures { result ≡ spec.op_at word.now bytes.now }
{
    if is(word, "acquire") {
        acquired_at(bytes)
    } else {
        given_at(bytes)
    }
}

#[tactic(auto, unfolding(crate::specs::Reading::slot_at))]
fn slot_at(
    script: &ScriptData,
    place: u64,
    name: &[u8],
    number: u64,
    word: &[u8],
    bytes: &[u8],
) -> Option<Line>
    ensures { result ≡ spec.slot_at script.now place name.now number word.now bytes.now }
{
    let by = by_of(script, name, number)?;
    let op = op_at(word, bytes)?;
    let entry = SlotEntry { by, op };
    Some(Line::Slot { place, entry })
}

#[tactic(auto, unfolding(crate::specs::Reading::made_at))]
fn made_at(bytes: &[u8]) -> Option<PoolOp>
    ensures { result ≡ spec.made_at bytes.now }
{
    let (resource, rest) = number_upto(b' ', bytes)?;
    let (reference, _) = number_upto(b'\n', rest)?;
    Some(PoolOp::Make {
        resource,
        reference,
    })
}

#[tactic(auto, unfolding(crate::specs::Reading::cloned_at))]
fn cloned_at(bytes: &[u8]) -> Option<PoolOp>
    ensures { result ≡ spec.cloned_at bytes.now }
{
    let (resource, rest) = number_upto(b' ', bytes)?;
    let (reference, _) = number_upto(b'\n', rest)?;
    Some(PoolOp::Clone {
        resource,
        reference,
    })
}

#[tactic(auto, unfolding(crate::specs::Reading::ended_at))]
fn ended_at(bytes: &[u8]) -> Option<PoolOp>
    ensures { result ≡ spec.ended_at bytes.now }
{
    let (resource, rest) = number_upto(b' ', bytes)?;
    let (reference, rest) = number_upto(b' ', rest)?;
    let (word, _, _) = word_at(rest)?;
    let last = last_of(word)?;
    Some(PoolOp::End {
        resource,
        reference,
        last,
    })
}

#[tactic(auto, unfolding(crate::specs::Reading::pool_op_at))]
fn pool_op_at(word: &[u8], bytes: &[u8]) -> Option<PoolOp>
    ensures { result ≡ spec.pool_op_at word.now bytes.now }
{
    if is(word, "make") {
        made_at(bytes)
    } else if is(word, "clone") {
        cloned_at(bytes)
    } else {
        ended_at(bytes)
    }
}

#[tactic(auto, unfolding(crate::specs::Reading::reference_at))]
fn reference_at(
    script: &ScriptData,
    place: u64,
    name: &[u8],
    number: u64,
    word: &[u8],
    bytes: &[u8],
) -> Option<Line>
    ensures { result ≡ spec.reference_at script.now place name.now number word.now bytes.now }
{
    let by = by_of(script, name, number)?;
    let op = pool_op_at(word, bytes)?;
    let entry = PoolEntry { by, op };
    Some(Line::Reference { place, entry })
}

fn is_slot_word(word: &[u8]) -> bool
    ensures { result ≡ spec.is_slot_word word.now }
{
    is(word, "acquire") || is(word, "give")
}

fn is_pool_word(word: &[u8]) -> bool
    ensures { result ≡ spec.is_pool_word word.now }
{
    is(word, "make") || is(word, "clone") || is(word, "end")
}

#[tactic(auto, unfolding(crate::specs::Reading::dotted_line_at))]
fn dotted_line_at(script: &ScriptData, n: u64, name: &[u8], bytes: &[u8]) -> Option<Line>
    ensures { result ≡ spec.dotted_line_at script.now n name.now bytes.now }
{
    let (m, rest) = number_upto(b' ', bytes)?;
    let (word, mark, rest) = word_at(rest)?;
    if mark == b'\n' {
        call_result_at(script, n, name, m, word)
    } else if is_slot_word(word) {
        slot_at(script, n, name, m, word, rest)
    } else if is_pool_word(word) {
        reference_at(script, n, name, m, word, rest)
    } else if is(word, "unit") {
        unit_at(script, n, name, m, rest)
    } else if is(word, "take") {
        take_at(script, n, name, m, rest)
    } else if is(word, "ground") {
        ground_at(script, n, name, m, rest)
    } else {
        call_at(script, n, name, m, word, rest)
    }
}

// The step that posted what was received.
#[tactic(auto, unfolding(crate::specs::Reading::poster_at))]
fn poster_at(script: &ScriptData, bytes: &[u8]) -> Option<Who>
    ensures { result ≡ spec.poster_at script.now bytes.now }
{
    let (name, _, rest) = word_at(bytes)?;
    let caller = caller_of(script.callers.as_slice(), name)?;
    let (step, _) = short_upto(b'\n', rest)?;
    Some(Who { caller, step })
}

#[tactic(auto, unfolding(crate::specs::Reading::worded_result_at))]
fn worded_result_at(script: &ScriptData, step: u64, word: &[u8], rest: &[u8]) -> Option<Line>
    ensures { result ≡ spec.worded_result_at script.now step word.now rest.now }
{
    let answer = if is(word, "size") {
        let (size, _) = number_upto(b'\n', rest)?;
        StepResult::Size { size }
    } else if is(word, "absent") {
        StepResult::Absent
    } else if is(word, "from") {
        let who = poster_at(script, rest)?;
        StepResult::From { who }
    } else if is(word, "none") {
        StepResult::Nothing
    } else {
        let error = answer_of(word)?;
        StepResult::Local { error }
    };
    Some(Line::Result { step, answer })
}

#[tactic(auto, unfolding(crate::specs::Reading::worded_line_at))]
fn worded_line_at(script: &ScriptData, n: u64, word: &[u8], rest: &[u8]) -> Option<Line>
    ensures { result ≡ spec.worded_line_at script.now n word.now rest.now }
{
    if is(word, "start") {
        let entry = start_at(rest)?;
        Some(Line::Entry { place: n, entry })
    } else if is(word, "done") {
        let entry = done_at(rest)?;
        Some(Line::Entry { place: n, entry })
    } else if is(word, "turn") {
        let turn = turn_at(rest)?;
        Some(Line::Entry {
            place: n,
            entry: EntryLine::Turn(turn),
        })
    } else if is(word, "reclaim") {
        let (moment, _) = number_upto(b'\n', rest)?;
        Some(Line::Entry {
            place: n,
            entry: EntryLine::Reclaim { moment },
        })
    } else {
        worded_result_at(script, n, word, rest)
    }
}

#[tactic(auto, unfolding(crate::specs::Reading::numbered_line_at))]
fn numbered_line_at(alloc: Global, script: &ScriptData, bytes: &[u8]) -> Result<Line, FieldFault>
    ensures ok { IfOk result (λ l. spec.numbered_line_at script.now bytes.now ≡ Some l) }
    ensures err { IfErr result
        (λ e. e ≢ FieldFault.NoMemory → spec.numbered_line_at script.now bytes.now ≡ None) }
{
    let (n, rest) = number_upto(b' ', bytes).ok_or(FieldFault::NoField)?;
    let (word, mark, rest) = word_at(rest).ok_or(FieldFault::NoField)?;
    if mark == b'.' {
        dotted_line_at(script, n, word, rest).ok_or(FieldFault::NoField)
    } else if mark == b':' {
        look_line_at(script, n, word, rest).ok_or(FieldFault::NoField)
    } else if is(word, "copied") {
        copied_line_at(alloc, n, rest)
    } else {
        worded_line_at(script, n, word, rest).ok_or(FieldFault::NoField)
    }
}

#[tactic(auto, unfolding(crate::specs::Reading::sound_at))]
fn sound_at(alloc: Global, bytes: &[u8]) -> Result<EventLine, FieldFault>
    ensures ok { IfOk result (λ s. spec.sound_at bytes.now ≡ Some s) }
    ensures err { IfErr result (λ e. e ≢ FieldFault.NoMemory → spec.sound_at bytes.now ≡ None) }
{
    let (word, _, rest) = word_at(bytes).ok_or(FieldFault::NoField)?;
    let format = sample_format_of(word).ok_or(FieldFault::NoField)?;
    let (rate, rest) = short_upto(b' ', rest).ok_or(FieldFault::NoField)?;
    let (channels, rest) = short_upto(b' ', rest).ok_or(FieldFault::NoField)?;
    let (frames, rest) = short_upto(b' ', rest).ok_or(FieldFault::NoField)?;
    let (timestamp, rest) = signed_upto(b' ', rest).ok_or(FieldFault::NoField)?;
    let (_, rest) = number_or_dash_upto(b' ', rest).ok_or(FieldFault::NoField)?;
    let (bytes, _) = bytes_upto(alloc, b'\n', rest)?;
    let shape = SoundShape {
        format,
        rate,
        channels,
        frames,
        timestamp,
    };
    Ok(EventLine::Sound(Samples { shape, bytes }))
}

#[tactic(auto, unfolding(crate::specs::Reading::image_at))]
fn image_at(alloc: Global, bytes: &[u8]) -> Result<EventLine, FieldFault>
    ensures ok { IfOk result (λ s. spec.image_at bytes.now ≡ Some s) }
    ensures err { IfErr result (λ e. e ≢ FieldFault.NoMemory → spec.image_at bytes.now ≡ None) }
{
    let (word, _, rest) = word_at(bytes).ok_or(FieldFault::NoField)?;
    let format = picture_format_of(word).ok_or(FieldFault::NoField)?;
    let (width, rest) = short_upto(b' ', rest).ok_or(FieldFault::NoField)?;
    let (height, rest) = short_upto(b' ', rest).ok_or(FieldFault::NoField)?;
    let (timestamp, rest) = signed_upto(b' ', rest).ok_or(FieldFault::NoField)?;
    let (duration, rest) = number_or_dash_upto(b' ', rest).ok_or(FieldFault::NoField)?;
    let (bytes, _) = bytes_upto(alloc, b'\n', rest)?;
    let shape = PictureShape {
        format,
        width,
        height,
        timestamp,
        duration,
    };
    Ok(EventLine::Image(Picture { shape, bytes }))
}

#[tactic(auto, unfolding(crate::specs::Reading::chunk_at))]
fn chunk_at(alloc: Global, bytes: &[u8]) -> Result<EventLine, FieldFault>
    ensures ok { IfOk result (λ s. spec.chunk_at bytes.now ≡ Some s) }
    ensures err { IfErr result (λ e. e ≢ FieldFault.NoMemory → spec.chunk_at bytes.now ≡ None) }
{
    let (word, _, rest) = word_at(bytes).ok_or(FieldFault::NoField)?;
    let key = key_of(word).ok_or(FieldFault::NoField)?;
    let (timestamp, rest) = signed_upto(b' ', rest).ok_or(FieldFault::NoField)?;
    let (duration, rest) = number_or_dash_upto(b' ', rest).ok_or(FieldFault::NoField)?;
    let (bytes, _) = bytes_upto(alloc, b'\n', rest)?;
    Ok(EventLine::Chunk(Chunk {
        key,
        timestamp,
        duration,
        bytes,
    }))
}

#[tactic(auto, unfolding(crate::specs::Reading::output_at))]
fn output_at(alloc: Global, bytes: &[u8]) -> Result<EventLine, FieldFault>
    ensures ok { IfOk result (λ s. spec.output_at bytes.now ≡ Some s) }
    ensures err { IfErr result (λ e. e ≢ FieldFault.NoMemory → spec.output_at bytes.now ≡ None) }
{
    let (word, _, rest) = word_at(bytes).ok_or(FieldFault::NoField)?;
    if is(word, "audio") {
        sound_at(alloc, rest)
    } else if is(word, "video") {
        image_at(alloc, rest)
    } else {
        chunk_at(alloc, rest)
    }
}

fn copy_of(alloc: Global, bytes: &[u8]) -> Result<Bytes, FieldFault>
    ensures ok { IfOk result (λ copy. copy ≡ bytes.now) }
    ensures err { IfErr result (λ e. e ≡ FieldFault.NoMemory) }
{
    match Bytes::copy_from_slice(alloc, bytes) {
        Ok(copy) => Ok(copy),
        Err(_) => Err(FieldFault::NoMemory),
    }
}

// Whether no byte is a line feed.
fn has_no_feed(text: &[u8]) -> bool
    ensures { result ≡ list_all is_no_feed text.now }
{
    text.iter().all(|byte| *byte != b'\n')
}

// The text, where it has no line feed.
fn without_feed(text: &[u8]) -> Option<&[u8]>
    ensures { option_copied result ≡ spec.without_feed text.now }
{
    if has_no_feed(text) { Some(text) } else { None }
}

#[tactic(auto, unfolding(crate::specs::Reading::config_at))]
fn config_at(alloc: Global, bytes: &[u8]) -> Result<EventLine, FieldFault>
    ensures ok { IfOk result (λ s. spec.config_at bytes.now ≡ Some s) }
    ensures err { IfErr result (λ e. e ≢ FieldFault.NoMemory → spec.config_at bytes.now ≡ None) }
{
    let (name, rest) = upto(b' ', bytes).ok_or(FieldFault::NoField)?;
    let name = without_feed(name).ok_or(FieldFault::NoField)?;
    let (rate, rest) = short_upto(b' ', rest).ok_or(FieldFault::NoField)?;
    let (channels, rest) = short_upto(b' ', rest).ok_or(FieldFault::NoField)?;
    let (description, _) = bytes_upto(alloc, b'\n', rest)?;
    let codec = copy_of(alloc, name)?;
    Ok(EventLine::Config {
        codec,
        rate,
        channels,
        description,
    })
}

#[tactic(auto, unfolding(crate::specs::Reading::reject_at))]
fn reject_at(bytes: &[u8]) -> Option<EventLine>
    ensures { result ≡ spec.reject_at bytes.now }
{
    let (promise, rest) = number_upto(b' ', bytes)?;
    let error = error_at(rest)?;
    Some(EventLine::Reject { promise, error })
}

#[tactic(auto, unfolding(crate::specs::Reading::event_at))]
fn event_at(alloc: Global, bytes: &[u8]) -> Result<EventLine, FieldFault>
    ensures ok { IfOk result (λ s. spec.event_at bytes.now ≡ Some s) }
    ensures err { IfErr result (λ e. e ≢ FieldFault.NoMemory → spec.event_at bytes.now ≡ None) }
{
    let (word, _, rest) = word_at(bytes).ok_or(FieldFault::NoField)?;
    if is(word, "output") {
        output_at(alloc, rest)
    } else if is(word, "config") {
        config_at(alloc, rest)
    } else if is(word, "resolve") {
        let (promise, _) = number_upto(b'\n', rest).ok_or(FieldFault::NoField)?;
        Ok(EventLine::Resolve(promise))
    } else if is(word, "reject") {
        reject_at(rest).ok_or(FieldFault::NoField)
    } else if is(word, "dequeue") {
        Ok(EventLine::Dequeue)
    } else if is(word, "error") {
        let error = error_at(rest).ok_or(FieldFault::NoField)?;
        Ok(EventLine::Error(error))
    } else {
        Err(FieldFault::NoField)
    }
}

#[tactic(auto, unfolding(crate::specs::Reading::event_line_at))]
fn event_line_at(alloc: Global, bytes: &[u8]) -> Result<Line, FieldFault>
    ensures ok { IfOk result (λ l. spec.event_line_at bytes.now ≡ Some l) }
    ensures err { IfErr result
        (λ e. e ≢ FieldFault.NoMemory → spec.event_line_at bytes.now ≡ None) }
{
    let rest = after(b" ", bytes).ok_or(FieldFault::NoField)?;
    let event = event_at(alloc, rest)?;
    Ok(Line::Event(event))
}

#[tactic(auto, unfolding(crate::specs::Reading::codec_at))]
fn codec_at(script: &ScriptData, bytes: &[u8]) -> Option<Line>
    ensures { result ≡ spec.codec_at script.now bytes.now }
{
    let (name, _, rest) = word_at(bytes)?;
    let codec = codec_of(script.codecs.as_slice(), name)?;
    let (word, _, rest) = word_at(rest)?;
    let kind = kind_named(word)?;
    let (saturation, _) = short_upto(b'\n', rest)?;
    let opening = Opening { kind, saturation };
    Some(Line::Codec {
        codec: u64::from(codec),
        opening,
    })
}

#[tactic(auto, unfolding(crate::specs::Reading::caller_at))]
fn caller_at(script: &ScriptData, bytes: &[u8]) -> Option<Line>
    ensures { result ≡ spec.caller_at script.now bytes.now }
{
    let (name, _, _) = word_at(bytes)?;
    let caller = caller_of(script.callers.as_slice(), name)?;
    Some(Line::Caller(u64::from(caller)))
}

#[tactic(auto, unfolding(crate::specs::Reading::headed_line_at))]
fn headed_line_at(script: &ScriptData, word: &[u8], rest: &[u8]) -> Option<Line>
    ensures { result ≡ spec.headed_line_at script.now word.now rest.now }
{
    if is(word, "wcrun") {
        Some(Line::Header)
    } else if is(word, "caller") {
        caller_at(script, rest)
    } else if is(word, "codec") {
        codec_at(script, rest)
    } else if is(word, "pool") {
        Some(Line::Pool)
    } else if is(word, "slots") {
        Some(Line::Slots)
    } else if is(word, "held") {
        let (held, _) = number_upto(b'\n', rest)?;
        Some(Line::Held(held))
    } else if is(word, "end") {
        Some(Line::End)
    } else {
        None
    }
}

#[tactic(auto, unfolding(crate::specs::Reading::only_line_at))]
fn only_line_at(alloc: Global, script: &ScriptData, bytes: &[u8]) -> Result<Line, FieldFault>
    ensures ok { IfOk result (λ l. spec.only_line_at script.now bytes.now ≡ Some l) }
    ensures err { IfErr result
        (λ e. e ≢ FieldFault.NoMemory → spec.only_line_at script.now bytes.now ≡ None) }
{
    let (word, _, rest) = word_at(bytes).ok_or(FieldFault::NoField)?;
    if is(word, "") {
        event_line_at(alloc, rest)
    } else if are_digits(word) {
        numbered_line_at(alloc, script, bytes)
    } else {
        headed_line_at(script, word, rest).ok_or(FieldFault::NoField)
    }
}

/// The line whose text stands in front of the bytes, and the bytes behind it. The text of a line is read only as it is
/// written: `NoField` where the bytes do not begin with one.
#[tactic(auto, unfolding(crate::specs::Reading::line_at))]
pub fn line_at<'a>(
    alloc: Global,
    script: &ScriptData,
    bytes: &'a [u8],
) -> Result<(Line, &'a [u8]), FieldFault>
    ensures ok { IfOk result (λ x. spec.line_at script.now bytes.now ≡ Some (x.0, x.1.now)) }
    ensures err { IfErr result
        (λ e. e ≢ FieldFault.NoMemory → spec.line_at script.now bytes.now ≡ None) }
{
    let line = only_line_at(alloc, script, bytes)?;
    match line_text(alloc, script, &line) {
        Err(_) => Err(FieldFault::NoMemory),
        Ok(text) => match after(text.as_slice(), bytes) {
            None => Err(FieldFault::NoField),
            Some(rest) => Ok((line, rest)),
        },
    }
}
