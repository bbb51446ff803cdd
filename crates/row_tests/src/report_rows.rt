// The report of a whole run and the boxes of whole histories, computed by the checker.
ghost use Rattle.row_tests.specs.AccountsRows.{KeepsOne, LeavesAtTheEnd, LeavesForAnother};
ghost use Rattle.row_tests.specs.ReportRows.{OrdinaryFollows, OrdinaryShown, OrdinaryReport, FileFollows, NothingMissing, SecondMissing};
ghost use Rattle.row_tests.specs.ReportRows.{TakingFollows, TakingIsLegal, TakingReport};
ghost use Rattle.row_tests.specs.EncodingRows.{EncodingFollows, EncodingIsLegal, EncodingReport};

/// One configure, one chunk, one decode, one flush and one look at its promise: what the script's order makes, what the
/// entries show, and the text of the report.
pub fn ordinary_report()
    ensures follows { OrdinaryFollows }
    ensures shown { OrdinaryShown }
    ensures report { OrdinaryReport }
{}

/// The same run, whose chunk is the second one of a file: what the script's order makes, and which chunk is missing where
/// the file has one or two.
pub fn run_from_a_file()
    ensures follows { FileFollows }
    ensures there { NothingMissing }
    ensures missing { SecondMissing }
{}

/// The ordinary run, whose caller then takes the output that was shown, and finds no other: what the script's order makes,
/// which is legal, and the text of the report.
pub fn run_with_takes()
    ensures follows { TakingFollows }
    ensures legal { TakingIsLegal }
    ensures report { TakingReport }
{}

/// A caller makes audio data, encodes and closes it, and takes and copies the chunk that was coded: what the script's order
/// makes, with the codec's clone of the data's reference and its end, which is legal, and the text of the report.
pub fn run_with_encodes()
    ensures follows { EncodingFollows }
    ensures legal { EncodingIsLegal }
    ensures report { EncodingReport }
{}

/// Which entries ask for a box, and by which it leaves: in an ordinary run, in one with a reset while an item is at work,
/// and in one of two coders.
pub fn boxes_of_histories()
    ensures keeps { KeepsOne }
    ensures leaves_at_the_end { LeavesAtTheEnd }
    ensures leaves_for_another { LeavesForAnother }
{}
