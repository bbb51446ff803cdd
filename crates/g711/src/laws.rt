// Laws: intervals cover each magnitude once, so encoding is a function, and decoding stays in the interval.
ghost use Rattle.g711.specs.Laws.{UlawIntervalsAreApart, UlawIntervalsCover, UlawEncodes, UlawEncodesOnce, UlawDecodesWithin, UlawComesBack, AlawIntervalsAreApart, AlawIntervalsCover, AlawEncodes, AlawEncodesOnce, AlawDecodesWithin, AlawComesBack};

/// Laws of mu-law: for each sign the intervals meet nowhere and cover every magnitude, so each value has one code; and
/// what a code stands for lies in the code's interval.
pub fn ulaw_codes()
    ensures apart { UlawIntervalsAreApart }
    ensures cover { UlawIntervalsCover }
    ensures encodes { UlawEncodes }
    ensures encodes_once { UlawEncodesOnce }
    ensures decodes_within { UlawDecodesWithin }
    ensures comes_back { UlawComesBack }
{}

/// The same laws of A-law.
pub fn alaw_codes()
    ensures apart { AlawIntervalsAreApart }
    ensures cover { AlawIntervalsCover }
    ensures encodes { AlawEncodes }
    ensures encodes_once { AlawEncodesOnce }
    ensures decodes_within { AlawDecodesWithin }
    ensures comes_back { AlawComesBack }
{}
