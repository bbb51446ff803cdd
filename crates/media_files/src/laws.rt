// What the definitions give.
ghost use Rattle.media_files.specs.Laws.{OneReading, SomeReading};
ghost use Rattle.media_files.specs.Within.{MediaAreWithin};

use wc_demux::{files_have_one_reading, media_are_small};

/// Whatever the files hold, the chunk files of a script give one list of chunks for each, or one fault, and never both.
pub fn media_have_one_reading()
    ensures one { OneReading }
    ensures some { SomeReading }
{
    files_have_one_reading();
}

/// What the chunks of files hold is within its types, where the files hold bytes: timestamps have 64 bits with their sign,
/// durations 64, and each chunk holds bytes.
pub fn media_are_within()
    ensures { MediaAreWithin }
{
    media_are_small();
}
