// The definitions on whole runs, computed by the checker.
ghost use Rattle.row_tests.specs.CodecRows.{OrdinaryEnds, OrdinaryShows, WrongCount, SaturatingShows, ResettingShows, ClosingShows, BackgroundShows, IsSpared};
ghost use Rattle.wc_base.specs.declared.ground.Ground.TheVariants.{Foreground, BackgroundEncoding};

/// One configure, one decode, one flush: the state after the run, and what it shows.
pub fn ordinary_run()
    ensures ends { OrdinaryEnds }
    ensures shows { OrdinaryShows }
    ensures refuses { WrongCount }
{}

/// Three decodes where two items saturate the codec.
pub fn saturating_run()
    ensures { SaturatingShows }
{}

/// A reset while an item is at work.
pub fn resetting_run()
    ensures { ResettingShows }
{}

/// Two flushes, and then a close.
pub fn closing_run()
    ensures { ClosingShows }
{}

/// A decoder that is reclaimed while it is active.
pub fn reclaimed_run()
    ensures background { BackgroundShows }
    ensures foreground { IsSpared Foreground }
    ensures encoding { IsSpared BackgroundEncoding }
{}
