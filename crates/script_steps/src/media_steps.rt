// Reads steps of media resources.
ghost use Rattle.std.specs.Prelude.{◌≡◌, ◌≢◌, ◌≤◌, IfOk, IfErr, Some, length, codes};
ghost use Rattle.json_data.specs.View.{view};
ghost use Rattle.script_steps.specs.Media.{data_of_init, data_of_step};
ghost use Rattle.script_steps.specs.declared.words.StepWord.TheVariants as step_word;
ghost use Rattle.script_steps.specs.Words.{data_of_word};
ghost use Rattle.script_steps.specs.MediaSteps.{audio_of, frame_of, buffer_of, take_of, size_in, options_in, copy_of, size_of, media_by};
ghost use Rattle.script_types.specs.Reading.{Gives};

use crate::buffers::{has_buffers, read_buffered};
use crate::lookups::{
    find_variable, read_bound_from, read_bound_on, read_encoder_data, read_unused, read_variable,
    variable_of,
};
use crate::ports::{read_post, read_receive};
use crate::references::Needed;
use crate::{
    MediaWord, Ports, Stop, Variables, Wrong, name_member, natural_member, object_member,
    optional_object, read_options, read_picture_init, read_sound_init,
};
use bytes::Bytes;
use json_data::{Value, member};
use script_types::{CodecItem, FoundVariable, MediaStep, Options, VariableKind, outputs_of};
use std::alloc::Global;

const MOST_CHUNK: u64 = 16_777_216;

fn read_audio(
    alloc: Global,
    before: &Variables,
    value: &Value<'_>,
    content: Option<Bytes>,
) -> Result<MediaStep, Stop<Wrong>>
    requires steps { length before.now ≤ 100000 }
    requires content { content ≡ data_of_step (view value.now) }
    ensures { Gives result (audio_of before.now (view value.now)) }
{
    if has_buffers(value) {
        let (bind, init) = read_buffered(alloc, VariableKind::Audio, before, value, content)?;
        return Ok(match init {
            Some(init) => MediaStep::Buffered { bind, init },
            None => MediaStep::Audio { bind, init: None },
        });
    }
    let name = name_member(value, "as")?;
    let init = read_sound_init(object_member(value, "init")?, content)?;
    let bind = read_unused(alloc, before, name)?;
    Ok(MediaStep::Audio { bind, init })
}

fn read_frame(
    alloc: Global,
    before: &Variables,
    value: &Value<'_>,
    content: Option<Bytes>,
) -> Result<MediaStep, Stop<Wrong>>
    requires steps { length before.now ≤ 100000 }
    requires content { content ≡ data_of_step (view value.now) }
    ensures { Gives result (frame_of before.now (view value.now)) }
{
    if has_buffers(value) {
        let (bind, init) = read_buffered(alloc, VariableKind::Frame, before, value, content)?;
        return Ok(match init {
            Some(init) => MediaStep::Buffered { bind, init },
            None => MediaStep::Frame { bind, init: None },
        });
    }
    let name = name_member(value, "as")?;
    let init = read_picture_init(object_member(value, "init")?, content)?;
    let bind = read_unused(alloc, before, name)?;
    Ok(MediaStep::Frame { bind, init })
}

fn read_buffer(
    alloc: Global,
    before: &Variables,
    value: &Value<'_>,
    content: Option<Bytes>,
) -> Result<MediaStep, Stop<Wrong>>
    requires { content ≡ data_of_init (view value.now) }
    ensures { Gives result (buffer_of before.now (view value.now)) }
{
    let name = name_member(value, "as")?;
    let content = content.ok_or(Stop::Fault(Wrong::Shape))?;
    let bind = read_unused(alloc, before, name)?;
    Ok(MediaStep::Buffer { bind, content })
}

fn read_take(
    alloc: Global,
    codecs: &[CodecItem],
    before: &Variables,
    value: &Value<'_>,
) -> Result<MediaStep, Stop<Wrong>>
    requires { length codecs.now ≤ 64 }
    ensures { Gives result (take_of codecs.now before.now (view value.now)) }
{
    let (codec, bind) = read_bound_on(alloc, codecs, before, value)?;
    Ok(MediaStep::Take {
        on: codec.number,
        bind,
        kind: outputs_of(codec.kind),
    })
}

// A count of bytes within the limit. `Shape` for anything else.
fn size_member(value: &Value<'_>) -> Result<u64, Stop<Wrong>>
    ensures { result ≡ size_in (view value.now) }
{
    match natural_member(value, "size") {
        Some(size) if size <= MOST_CHUNK => Ok(size),
        _ => Err(Stop::Fault(Wrong::Shape)),
    }
}

// The options of a variable that was found. For another they have to be an object, if they are there.
fn options_member(
    alloc: Global,
    variable: Option<FoundVariable>,
    value: &Value<'_>,
) -> Result<Options, Stop<Wrong>>
    ensures { Gives result (options_in variable (view value.now)) }
{
    let options = member(value, "options");
    match variable {
        Some(found) => read_options(alloc, found.kind, options),
        None => {
            optional_object(options)?;
            Ok(Options::Nothing)
        }
    }
}

fn read_copy(alloc: Global, before: &Variables, value: &Value<'_>) -> Result<MediaStep, Stop<Wrong>>
    requires { length before.now ≤ 100000 }
    ensures { Gives result (copy_of before.now (view value.now)) }
{
    let of = name_member(value, "of")?;
    let size = size_member(value)?;
    let variable = find_variable(before, of, Needed::Copied)?;
    let options = options_member(alloc, variable, value)?;
    let found = variable.ok_or(Stop::Fault(Wrong::UnknownName))?;
    let of = variable_of(alloc, of, found)?;
    Ok(MediaStep::Copy { of, options, size })
}

fn read_size(alloc: Global, before: &Variables, value: &Value<'_>) -> Result<MediaStep, Stop<Wrong>>
    requires { length before.now ≤ 100000 }
    ensures { Gives result (size_of before.now (view value.now)) }
{
    let of = name_member(value, "of")?;
    let variable = find_variable(before, of, Needed::Sized)?;
    let options = options_member(alloc, variable, value)?;
    let found = variable.ok_or(Stop::Fault(Wrong::UnknownName))?;
    let of = variable_of(alloc, of, found)?;
    Ok(MediaStep::Size { of, options })
}

/// Reads a step of media resources after those before it; its inline data was read before.
pub fn read_media_step(
    alloc: Global,
    codecs: &[CodecItem],
    ports: &Ports,
    before: &Variables,
    value: &Value<'_>,
    word: MediaWord,
    content: Option<Bytes>,
) -> Result<MediaStep, Stop<Wrong>>
    requires codecs { length codecs.now ≤ 64 }
    requires steps { length before.now ≤ 100000 }
    requires content { content ≡ data_of_word (Some (step_word.Media word)) (view value.now) }
    ensures { Gives result (media_by codecs.now ports.now before.now (view value.now) word) }
{
    match word {
        MediaWord::Audio => read_audio(alloc, before, value, content),
        MediaWord::Frame => read_frame(alloc, before, value, content),
        MediaWord::Buffer => read_buffer(alloc, before, value, content),
        MediaWord::Encode => {
            let (on, content) = read_encoder_data(alloc, codecs, before, value)?;
            Ok(MediaStep::Encode { on, content })
        }
        MediaWord::Take => read_take(alloc, codecs, before, value),
        MediaWord::Clone => {
            let (of, bind) = read_bound_from(alloc, before, value)?;
            Ok(MediaStep::Clone { of, bind })
        }
        MediaWord::Transfer => {
            let (of, bind) = read_bound_from(alloc, before, value)?;
            Ok(MediaStep::Transfer { of, bind })
        }
        MediaWord::CloseData => Ok(MediaStep::CloseData {
            of: read_variable(alloc, before, value, "of", Needed::Medium)?,
        }),
        MediaWord::Copy => read_copy(alloc, before, value),
        MediaWord::Size => read_size(alloc, before, value),
        MediaWord::Post => read_post(alloc, ports, before, value),
        MediaWord::Receive => read_receive(alloc, ports, before, value),
    }
}
