// The first step of a script that takes a chunk which its file lacks.
ghost use Rattle.std.specs.Prelude.{◌≡◌, ◌≤◌, length, Some, slice_get, ℕ};
ghost use Rattle.script_types.specs.declared.script.CallerItem.{CallerItem};
ghost use Rattle.run_model.specs.Missing.{missing_in};
ghost use Rattle.run_model.specs.Missing as spec;

use run_model::chunks_of;
use script_types::{CallerItem, ChunkSource, Place, Script, Step};
use wc_base::List;
use wc_chunk::Chunk;

// The number of the file that lacks the chunk of a source, if one does.
fn lacking_source(media: &[List<Chunk>], source: &ChunkSource) -> Option<u32>
    ensures { result ≡ spec.lacking_source media.now source.now }
{
    match source {
        ChunkSource::Init(_) => None,
        ChunkSource::File { file, index } => {
            match chunks_of(media, *file).get(*index as usize) {
                Some(_) => None,
                None => Some(*file),
            }
        }
    }
}

fn lacking_step(media: &[List<Chunk>], step: &Step) -> Option<u32>
    ensures { result ≡ spec.lacking_step media.now step.now }
{
    match step {
        Step::Chunk { bind: _, source } => lacking_source(media, source),
        _ => None,
    }
}

fn missing_step(media: &[List<Chunk>], caller: u32, steps: &[Step]) -> Option<(u32, Place)>
    requires { length steps.now ≤ 100000 }
    ensures { result ≡ spec.missing_step media.now caller 0 steps.now }
{
    for (j, step) in steps.iter().enumerate() {
        if let Some(file) = lacking_step(media, step) {
            return Some((file, Place::Step(caller, j as u32)));
        }
    }
    None
}

fn missing_caller(media: &[List<Chunk>], callers: &[CallerItem]) -> Option<(u32, Place)>
    requires callers { length callers.now ≤ 16 }
    requires steps { (i : ℕ) (c : CallerItem) → slice_get callers.now i ≡ Some c
        → length c.steps ≤ 100000 }
    ensures { result ≡ spec.missing_caller media.now 0 callers.now }
{
    for (i, caller) in callers.iter().enumerate() {
        if let Some(lack) = missing_step(media, i as u32, caller.steps.as_slice()) {
            return Some(lack);
        }
    }
    None
}

/// The first step, caller by caller, that takes a chunk which its chunk file lacks: the file's number and the step's
/// place; none where each chunk is there. `media` has the chunks of each of the script's files.
pub fn missing_chunk(script: &Script, media: &[List<Chunk>]) -> Option<(u32, Place)>
    ensures { result ≡ missing_in script.now media.now }
{
    missing_caller(media, script.data().callers.as_slice())
}
