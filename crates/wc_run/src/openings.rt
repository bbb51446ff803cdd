// How the codecs of a script are opened.
ghost use Rattle.std.specs.Prelude.{◌≡◌, IfOk, map};
ghost use Rattle.run_model.specs.Recorded.{opening_of};

use codec_model::Opening;
use script_types::{CallerItem, CodecItem};
use std::alloc::Global;
use wc_base::NoMemory;

fn opening_of(codec: &CodecItem) -> Opening
    ensures { result ≡ opening_of codec.now }
{
    Opening {
        kind: codec.kind,
        saturation: codec.saturation,
    }
}

/// The openings of a script's codecs.
pub(crate) fn openings_of(alloc: Global, codecs: &[CodecItem]) -> Result<Vec<Opening>, NoMemory>
    ensures { IfOk result (λ openings. openings.items ≡ map opening_of codecs.now) }
{
    let openings = codecs.iter().map(|codec| opening_of(codec));
    Ok(openings.collect(alloc)?)
}

/// How many steps all callers have, for which a codec needs room.
pub(crate) fn count_steps(callers: &[CallerItem]) -> u64 {
    let mut all: u64 = 0;
    for caller in callers {
        all = all.saturating_add(caller.steps.as_slice().len() as u64);
    }
    all
}
