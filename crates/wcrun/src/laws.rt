// What the definitions give.
ghost use Rattle.wcrun.specs.Laws.{OneOutcome, SomeOutcome};

use media_files::media_have_one_reading;
use wc_demux::files_have_one_reading;

/// Whatever the files hold, the bytes of a command's file come to one outcome.
pub fn files_have_one_outcome()
    ensures one { OneOutcome }
    ensures some { SomeOutcome }
{
    media_have_one_reading();
    files_have_one_reading();
}
