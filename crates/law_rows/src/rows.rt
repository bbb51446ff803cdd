// The laws' definitions on whole runs, computed by the checker.
ghost use Rattle.codec_model.specs.Replay.{IsLegal};
ghost use Rattle.law_rows.specs.Rows.{four, two, closing, flushing, FlushingEnds, FlushingLeft, OthersLeft, resetting, saturating, ResettingPlaces, early, other, SaturatingPlaces, SaturatingFalls, SaturatingGiven, EarlyShows, moved, MovedShows, ClosingEnds, UnsupportedEnds};

/// A reset while an item is at work: what comes of it is not shown.
pub fn resetting_run()
    ensures legal { IsLegal four resetting }
    ensures places { ResettingPlaces }
{}

/// Three decodes where two items saturate the codec.
pub fn saturating_run()
    ensures legal { IsLegal two saturating }
    ensures places { SaturatingPlaces }
    ensures falls { SaturatingFalls }
    ensures given { SaturatingGiven }
{}

/// The same calls, each item started as soon as it may; and once more with another third chunk.
pub fn early_run()
    ensures legal { IsLegal two early }
    ensures other_legal { IsLegal two other }
    ensures shows { EarlyShows }
{}

/// The first of these in the background.
pub fn moved_run()
    ensures legal { IsLegal two moved }
    ensures shows { MovedShows }
{}

/// A decode and a flush.
pub fn flushing_run()
    ensures legal { IsLegal four flushing }
    ensures ends { FlushingEnds }
    ensures left { FlushingLeft }
{}

/// What is left after other runs.
pub fn what_is_left()
    ensures { OthersLeft }
{}

/// Two flushes, two closes, and one more flush.
pub fn closing_run()
    ensures legal { IsLegal four closing }
    ensures ends { ClosingEnds }
{}

/// A flush behind a configure whose config is not supported.
pub fn unsupported_run()
    ensures { UnsupportedEnds }
{}
