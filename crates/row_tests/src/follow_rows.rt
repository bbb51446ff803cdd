// The definitions on whole runs, computed by the checker.
ghost use Rattle.row_tests.specs.FollowRows.{OrdinaryFollows, OrdinaryFills, ThreeShown, ConfigureGivesNone, FlushIsAnswered, VideoIsAnswered, TwoBlocks, TwoShown};

/// One configure, one decode, one flush: the state after the run as it is followed, and what it shows with its output.
pub fn ordinary_followed()
    ensures follows { OrdinaryFollows }
    ensures fills { OrdinaryFills }
{}

/// A decode that is told to have given three units; and ends that do not follow, or that do.
pub fn decoding_followed()
    ensures shown { ThreeShown }
    ensures configure { ConfigureGivesNone }
    ensures flush { FlushIsAnswered }
    ensures video { VideoIsAnswered }
{}

/// An encode of FLAC whose samples make two blocks: its item gives two units, and both are shown by one turn.
pub fn encoding_followed()
    ensures blocks { TwoBlocks }
    ensures shown { TwoShown }
{}
