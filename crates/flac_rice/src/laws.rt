// A law: residuals are read exactly where they are spelled.
ghost use Rattle.std.specs.Prelude.{ℕ};
ghost use Rattle.flac_definitions.specs.Residual.{residual_at};
ghost use Rattle.flac_definitions.specs.ResidualSpelling.{IsResidual};
ghost use Rattle.flac_definitions.specs.Grammar.{ReadsOr};

/// Residuals are read exactly where they are spelled: what is read is spelled there, and where a residual's spelling
/// stands, it is read (RFC 9639, section 9.2.7).
pub fn residuals_are_spelled()
    ensures { (block order : ℕ) → ReadsOr (residual_at block order) (IsResidual block order) }
{}
