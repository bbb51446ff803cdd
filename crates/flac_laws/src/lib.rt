//! The laws of FLAC subframes and frames: what is read is spelled, and what is spelled is read (RFC 9639, section 9).
#![tactic(auto)]

ghost use Rattle.std.specs.Prelude.{ℕ};
ghost use Rattle.flac_definitions.specs.Grammar.{Reads};
ghost use Rattle.flac_definitions.specs.Subframe.{subframe_at};
ghost use Rattle.flac_definitions.specs.SubframeSpelling.{IsSubframe};
ghost use Rattle.flac_definitions.specs.FrameSpelling.{FramesAreSpelled};
ghost use Rattle.flac_laws.specs.Examples.{ExamplesAreRead};

/// Subframes of every depth and block size are read exactly where they are spelled.
pub fn subframes_are_spelled()
    ensures { (depth block : ℕ) → Reads (subframe_at depth block) (IsSubframe depth block) }
{}

/// Frames at the start of bytes are read exactly where they are spelled, with both sums, and fill whole bytes.
pub fn frames_are_spelled()
    ensures { FramesAreSpelled }
{}

/// The frame of the first example file of RFC 9639 (appendix D.1) is read as the samples that the standard gives, and a
/// frame in mid/side as its samples.
pub fn examples_are_read()
    ensures { ExamplesAreRead }
{}
