// Reads where a chunk comes from.
ghost use Rattle.std.specs.Prelude.{◌≡◌, ◌≢◌, IfOk, IfErr};
ghost use Rattle.json_data.specs.View.{view};
ghost use Rattle.script_steps.specs.Media.{data_of_step};
ghost use Rattle.script_steps.specs.Sources.{index_in, made_of, taken_of, source_of};
ghost use Rattle.script_types.specs.Reading.{Gives};

use crate::media::read_chunk_init;
use crate::members::{has, natural_member, object_member, text_member};
use crate::{Stop, Wrong, copied};
use bytes::Bytes;
use json_data::Value;
use script_types::ChunkInit;
use std::alloc::Global;
use wc_base::Text;

/// Where a chunk comes from, before chunk files are numbered.
#[derive(Debug, PartialEq, Drop)]
pub enum SourceWords {
    /// It is made; `None` where its init breaks a rule of WebIDL.
    Init(Option<ChunkInit>),
    /// It is the chunk of this number, from 0, of the file of this name.
    File { name: Text, index: u64 },
}

fn read_made(value: &Value<'_>, content: Option<Bytes>) -> Result<SourceWords, Stop<Wrong>>
    requires { content ≡ data_of_step (view value.now) }
    ensures { result ≡ made_of (view value.now) }
{
    let init = object_member(value, "init")?;
    Ok(SourceWords::Init(read_chunk_init(init, content)?))
}

fn read_taken(alloc: Global, value: &Value<'_>) -> Result<SourceWords, Stop<Wrong>>
    ensures { Gives result (taken_of (view value.now)) }
{
    let name = text_member(value, "file").ok_or(Stop::Fault(Wrong::Shape))?;
    let index = natural_member(value, "index").ok_or(Stop::Fault(Wrong::Shape))?;
    let name = copied(alloc, name)?;
    Ok(SourceWords::File { name, index })
}

/// Reads where a chunk comes from; its content was read before. `Shape` unless there is `init` alone, an object, or `file`
/// with `index`, a text and a number.
pub fn read_source(
    alloc: Global,
    value: &Value<'_>,
    content: Option<Bytes>,
) -> Result<SourceWords, Stop<Wrong>>
    requires { content ≡ data_of_step (view value.now) }
    ensures { Gives result (source_of (view value.now)) }
{
    match (has(value, "init"), has(value, "file"), has(value, "index")) {
        (true, false, false) => read_made(value, content),
        (false, true, true) => read_taken(alloc, value),
        _ => Err(Stop::Fault(Wrong::Shape)),
    }
}
