// What bytes determine.
ghost use Rattle.bytes_laws.specs.Runs.{SpelledIsWithin, BytesDetermineRuns};

use media_files::{media_are_within, media_have_one_reading};
use report_reader::legal_runs_are_told;
use wc_script::{scripts_are_sound, scripts_are_within};

/// Law: what the bytes of a script's file and of its chunk files spell is within the types that carry it, where there are
/// fewer boxes than 2^64.
pub fn spelled_is_within()
    ensures { SpelledIsWithin }
{
    scripts_are_within();
    scripts_are_sound();
    media_are_within();
}

/// Law: two legal runs of the script and the chunk files that the same bytes spell, with the same report, are equal, whatever
/// boxes were made for each. Nothing is asked of the script, its files or the runs beside that; there are fewer boxes than
/// 2^64.
pub fn bytes_determine_runs()
    ensures { BytesDetermineRuns }
{
    legal_runs_are_told();
    scripts_are_sound();
    media_have_one_reading();
    spelled_is_within();
}
