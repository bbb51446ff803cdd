// The steps of callers, and the chunks that they make or take from chunk files.
ghost use Rattle.std.specs.Prelude.{◌≡◌, IfOk, slice_get};
ghost use Rattle.codec_accounts.specs.Owed.{at};
ghost use Rattle.run_model.specs.Recorded.{chunk_at, chunk_by, chunk_from, chunk_of, steps_of};

use script_types::{ChunkInit, ChunkSource, ScriptData, Step};
use wc_base::{List, NoMemory};
use wc_chunk::Chunk;

/// The steps of a caller; none where no caller has the number.
pub fn steps_of(script: &ScriptData, caller: u32) -> &[Step]
    ensures { result.now ≡ steps_of script.now caller }
{
    match script.callers.as_slice().get(caller as usize) {
        Some(caller) => caller.steps.as_slice(),
        None => &[],
    }
}

// The chunk that an init makes.
fn chunk_of(init: &ChunkInit) -> Result<Chunk, NoMemory>
    ensures { IfOk result (λ c. c ≡ chunk_of init.now) }
{
    Ok(Chunk {
        key: init.key,
        timestamp: init.timestamp,
        duration: init.duration,
        bytes: init.content.clone()?,
    })
}

/// The chunks of a chunk file; none where no file has the number.
pub fn chunks_of(media: &[List<Chunk>], file: u32) -> &[Chunk]
    ensures { result.now ≡ at file media.now }
{
    match media.get(file as usize) {
        Some(chunks) => chunks.as_slice(),
        None => &[],
    }
}

// The chunk with this number, if there is one.
fn chunk_in(chunks: &[Chunk], index: u64) -> Result<Option<Chunk>, NoMemory>
    ensures { IfOk result (λ o. o ≡ slice_get chunks.now index) }
{
    match chunks.get(index as usize) {
        Some(chunk) => Ok(Some(chunk.copy()?)),
        None => Ok(None),
    }
}

// The chunk that a source gives: one that is made, unless its init breaks a rule of WebIDL, or one of a file.
fn chunk_from(media: &[List<Chunk>], source: &ChunkSource) -> Result<Option<Chunk>, NoMemory>
    ensures { IfOk result (λ o. o ≡ chunk_from media.now source.now) }
{
    match source {
        ChunkSource::Init(Some(init)) => Ok(Some(chunk_of(init)?)),
        ChunkSource::Init(None) => Ok(None),
        ChunkSource::File { file, index } => chunk_in(chunks_of(media, *file), *index),
    }
}

// The chunk that a step makes or takes from a file, if it does.
fn chunk_by(media: &[List<Chunk>], step: &Step) -> Result<Option<Chunk>, NoMemory>
    ensures { IfOk result (λ o. o ≡ chunk_by media.now step.now) }
{
    match step {
        Step::Chunk { bind: _, source } => chunk_from(media, source),
        _ => Ok(None),
    }
}

/// The chunk of the variable that the step with this number defines: made by the step, or copied from its chunk file.
/// `None` where the step makes none: its init breaks a rule of WebIDL, or the file lacks the chunk.
pub fn find_chunk(
    media: &[List<Chunk>],
    steps: &[Step],
    step: u32,
) -> Result<Option<Chunk>, NoMemory>
    ensures { IfOk result (λ o. o ≡ chunk_at media.now steps.now step) }
{
    match steps.get(step as usize) {
        Some(step) => chunk_by(media, step),
        None => Ok(None),
    }
}
