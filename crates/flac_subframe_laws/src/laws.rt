// What is written of a subframe is read.
ghost use Rattle.flac_subframe_laws.specs.Laws.{WrittenSubframesAreRead};

use flac_laws::subframes_are_spelled;
use flac_plans::written_residuals_are_read;

/// What `write_subframe` writes of samples that have the depth, with a candidate of theirs, spells these samples, and where
/// it stands, they are read. Each candidate of the list is one of theirs, the first of least length too.
pub fn written_subframes_are_read()
    ensures { WrittenSubframesAreRead }
{
    subframes_are_spelled();
    written_residuals_are_read()
}
