// The summary of a load.
ghost use Rattle.std.specs.Prelude.{◌≡◌, IfOk, string_bytes};
ghost use Rattle.load_summary.specs.Summary.{load_text};

use crate::tally::tally_of;
use run_model::Run;
use std::alloc::Global;
use wc_base::NoMemory;

/// The summary of a run of the load that began with this number, with so many chunks for each caller: how many outputs its
/// histories show, how many bytes these have, and the sum of these bytes. A sum that does not fit in 64 bits wants memory.
pub fn load_text(alloc: Global, start: u64, count: u32, run: &Run) -> Result<String, NoMemory>
    ensures { IfOk result (λ text. string_bytes text ≡ load_text start count run.now) }
{
    let tally = tally_of(run)?;
    let (outputs, bytes, sum) = (tally.outputs, tally.bytes, tally.sum);
    Ok(format!(in alloc; "load {start} {count}\noutputs {outputs}\nbytes {bytes}\nsum {sum}\n")?)
}
