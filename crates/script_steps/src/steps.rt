// Reads steps.
ghost use Rattle.std.specs.Prelude.{◌≡◌, ◌≢◌, ◌≤◌, IfOk, IfErr, OnErr, Some, length, codes};
ghost use Rattle.json_data.specs.View.{view};
ghost use Rattle.script_steps.specs.Media.{data_of_step};
ghost use Rattle.script_steps.specs.Words.{data_of_word};
ghost use Rattle.script_steps.specs.Steps.{configure_of, numbered, chunk_step_of, step_by};
ghost use Rattle.script_types.specs.Reading.{Gives, GivesAs};

use crate::buffers::{has_buffers, read_buffered};
use crate::lookups::{
    read_bound_on, read_decoder_chunk, read_ground_on, read_on, read_unused, read_variable,
};
use crate::media_steps::read_media_step;
use crate::references::Needed;
use crate::{
    Files, Ports, SourceWords, StepWord, Stop, Variables, Wrong, find_codec, has, name_member,
    object_member, read_config, read_source,
};
use bytes::Bytes;
use json_data::Value;
use script_types::{ChunkSource, CodecItem, MediaStep, Step, VariableKind};
use std::alloc::Global;
use wc_base::NoMemory;

fn read_configure(
    alloc: Global,
    codecs: &[CodecItem],
    value: &Value<'_>,
) -> Result<Step, Stop<Wrong>>
    requires { length codecs.now ≤ 64 }
    ensures { Gives result (configure_of codecs.now (view value.now)) }
{
    let on = name_member(value, "on")?;
    let object = object_member(value, "config")?;
    let Some(codec) = find_codec(codecs, on) else {
        return Err(Stop::Fault(Wrong::UnknownName));
    };
    let config = read_config(alloc, codec.kind, object)?;
    Ok(Step::Configure {
        on: codec.number,
        config,
    })
}

// A chunk's source with its file numbered.
fn number_source(files: &mut Files, source: SourceWords) -> Result<ChunkSource, NoMemory>
    requires { length files.old ≤ 100000 }
    ensures ok { IfOk result (λ s. (s, files.new) ≡ numbered files.old source) }
    ensures err { OnErr result (files.new ≡ files.old) }
{
    match source {
        SourceWords::Init(init) => Ok(ChunkSource::Init(init)),
        SourceWords::File { name, index } => Ok(ChunkSource::File {
            file: files.number(name.as_str())?,
            index,
        }),
    }
}

fn read_chunk_step(
    alloc: Global,
    files: &mut Files,
    before: &Variables,
    value: &Value<'_>,
    content: Option<Bytes>,
) -> Result<Step, Stop<Wrong>>
    requires files { length files.old ≤ 100000 }
    requires steps { length before.now ≤ 100000 }
    requires content { content ≡ data_of_step (view value.now) }
    ensures given { GivesAs
        (λ s. (s, files.new)) result (chunk_step_of files.old before.now (view value.now)) }
    ensures kept { OnErr result (files.new ≡ files.old) }
{
    if has_buffers(value) && !has(value, "file") && !has(value, "index") {
        let (bind, init) = read_buffered(alloc, VariableKind::Chunk, before, value, content)?;
        return Ok(match init {
            Some(init) => Step::Media(MediaStep::Buffered { bind, init }),
            None => Step::Chunk {
                bind,
                source: ChunkSource::Init(None),
            },
        });
    }
    let name = name_member(value, "as")?;
    let source = read_source(alloc, value, content)?;
    let bind = read_unused(alloc, before, name)?;
    let source = number_source(files, source)?;
    Ok(Step::Chunk { bind, source })
}

/// Reads a step after those before it; its inline data was read before. A chunk file that was not mentioned before is
/// added to `files`; an `Err` leaves them as they were.
///
/// `Shape` comes first: a member is missing or of another JSON kind or form, or a name is that of another kind of codec or
/// variable than is needed. Then `Twice`, where an earlier step defines the new name, and then `UnknownName`.
pub fn read_step(
    alloc: Global,
    codecs: &[CodecItem],
    ports: &Ports,
    files: &mut Files,
    before: &Variables,
    value: &Value<'_>,
    word: StepWord,
    content: Option<Bytes>,
) -> Result<Step, Stop<Wrong>>
    requires codecs { length codecs.now ≤ 64 }
    requires files { length files.old ≤ 100000 }
    requires steps { length before.now ≤ 100000 }
    requires content { content ≡ data_of_word (Some word) (view value.now) }
    ensures given { GivesAs
        (λ s. (s, files.new)) result
        (step_by codecs.now ports.now files.old before.now (view value.now) word) }
    ensures kept { OnErr result (files.new ≡ files.old) }
{
    match word {
        StepWord::Configure => read_configure(alloc, codecs, value),
        StepWord::Chunk => read_chunk_step(alloc, files, before, value, content),
        StepWord::Decode => {
            let (on, chunk) = read_decoder_chunk(alloc, codecs, before, value)?;
            Ok(Step::Decode { on, chunk })
        }
        StepWord::Flush => {
            let (codec, bind) = read_bound_on(alloc, codecs, before, value)?;
            let on = codec.number;
            Ok(Step::Flush { on, bind })
        }
        StepWord::Poll => {
            let promise = read_variable(alloc, before, value, "promise", Needed::Promise)?;
            Ok(Step::Poll { promise })
        }
        StepWord::Await => {
            let promise = read_variable(alloc, before, value, "promise", Needed::Promise)?;
            Ok(Step::Await { promise })
        }
        StepWord::Reset => Ok(Step::Reset {
            on: read_on(codecs, value)?,
        }),
        StepWord::Close => Ok(Step::Close {
            on: read_on(codecs, value)?,
        }),
        StepWord::State => Ok(Step::State {
            on: read_on(codecs, value)?,
        }),
        StepWord::Ground => {
            let (on, to) = read_ground_on(codecs, value)?;
            Ok(Step::Ground { on, to })
        }
        StepWord::Media(word) => Ok(Step::Media(read_media_step(
            alloc, codecs, ports, before, value, word, content,
        )?)),
    }
}
