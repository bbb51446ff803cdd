// The definitions on the ordinary run, computed by the checker.
ghost use Rattle.row_tests.specs.ReaderRows.{OrdinaryAgain, FileAgain, TakingAgain, EncodingAgain, OrdinaryTold, SecondDiffers, ThirdIsMissing};

/// The lines of the ordinary run show it, its chunk made or from a file, and its report tells it; those of a run with a take
/// and of one with an encode show those runs; and the lines in which two texts differ.
pub fn ordinary_run_again()
    ensures made { OrdinaryAgain }
    ensures file { FileAgain }
    ensures takes { TakingAgain }
    ensures encodes { EncodingAgain }
    ensures told { OrdinaryTold }
    ensures second { SecondDiffers }
    ensures third { ThirdIsMissing }
{}
