// What the report of a run tells.
ghost use Rattle.report_reader.specs.Laws.{RunAgain, ReportsDetermineRuns, SoundNames, LegalRunsAreTold, LegalReportsDetermineRuns, FaultIsOne};

use codec_follow::{legal_histories_follow, outputs_are_of_their_kind};
use media_accounts::contents_are_kept;
use report_lines::lines_are_read_again;
use run_ranges::legal_runs_fit;

/// Laws: the lines of a run that is told show that run, and two runs of one script that are told are equal where their
/// reports are. The script's names are words and differ.
pub fn reports_determine_runs()
    ensures again { RunAgain }
    ensures determine { ReportsDetermineRuns }
{
    lines_are_read_again();
}

/// Law: the names of a script in which nothing is at fault are words and differ, callers' and codecs' together.
pub fn names_of_sound_scripts()
    ensures { SoundNames }
{}

/// Laws: a legal replay of a script in which nothing is at fault is told by its report. So two such replays of one
/// script with the same report are equal, whatever boxes were made for each.
///
/// That holds where the script's moments, rates, channels, block sizes, sizes, counts of frames, timestamps and durations, and
/// those of its chunk files, are within their types, what its chunks, its audio data and its frames hold is bytes, and the boxes are
/// fewer than 2^64 (`AreWithin`): nothing is asked of the run itself.
pub fn legal_runs_are_told()
    ensures told { LegalRunsAreTold }
    ensures determine { LegalReportsDetermineRuns }
{
    legal_histories_follow();
    outputs_are_of_their_kind();
    contents_are_kept();
    lines_are_read_again();
    legal_runs_fit();
}

/// Law: of bytes that are no report of a run at most one line is at fault.
pub fn faults_are_one()
    ensures { FaultIsOne }
{}
