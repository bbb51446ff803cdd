// What a legal run holds is within its types.
ghost use Rattle.run_ranges.specs.Ranges.{LegalRunsFit};

use codec_model::{never_stuck, references_are_held};
use g711::{alaw_codes, ulaw_codes};
use wc_pool::references_are_apart;

/// Law: each line of a legal replay of a script in which nothing is at fault fits that script: it names callers
/// and codecs that are there, and its numbers and bytes are within their types. That holds where the script's moments,
/// rates, channels, block sizes, sizes, counts of frames, timestamps and durations are within theirs, those of its chunk
/// files too, what its chunks, its audio data, its frames and its buffers hold is bytes, and the boxes are fewer than 2^64
/// (`AreWithin`).
pub fn legal_runs_fit()
    ensures { LegalRunsFit }
{
    never_stuck();
    references_are_held();
    references_are_apart();
    alaw_codes();
    ulaw_codes();
}
