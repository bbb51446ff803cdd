// The chunks that steps on media copy.
ghost use Rattle.std.specs.Prelude.{◌≡◌, IfOk};
ghost use Rattle.media_variables.specs.Variables.{chunk_in};
ghost use Rattle.run_model.specs.Recorded.{copied_chunk};

use run_model::find_chunk;
use script_types::{MediaStep, Options, Step};
use wc_base::{List, NoMemory};
use wc_chunk::Chunk;

/// The number of the step that defines the chunk which a step copies, if it copies one.
fn chunk_in(step: &MediaStep) -> Option<u32>
    ensures { result ≡ chunk_in step.now }
{
    match step {
        MediaStep::Copy {
            of,
            options: Options::Nothing,
            size: _,
        } => Some(of.step),
        _ => None,
    }
}

/// The chunk that a step on media copies, if it copies one; the step is one of the caller with these steps.
pub(crate) fn copied_chunk(
    media: &[List<Chunk>],
    steps: &[Step],
    step: &MediaStep,
) -> Result<Option<Chunk>, NoMemory>
    ensures { IfOk result (λ c. c ≡ copied_chunk media.now steps.now step.now) }
{
    match chunk_in(step) {
        Some(number) => find_chunk(media, steps, number),
        None => Ok(None),
    }
}
