// The units that commands give.
ghost use Rattle.std.specs.Prelude.{◌≡◌, [], ◌∷◌, ◌++◌, OnOk, OnErr, IfErr};
ghost use Rattle.coder_api.specs.declared.coder.CoderFault.TheVariants as fault;

use codec_definitions::Unit;
use coder_api::CoderFault;

/// Appends a unit. A vector that is empty gets room for this one alone, since no command gives more, and what it gives is
/// kept for long.
pub(crate) fn push_unit(out: &mut Vec<Unit>, unit: Unit) -> Result<(), CoderFault>
    ensures ok { OnOk result (out.new.items ≡ out.old.items ++ unit ∷ []) }
    ensures err { OnErr result (out.new.items ≡ out.old.items) }
    ensures fault { IfErr result (λ e. e ≡ fault.NoMemory) }
{
    if out.is_empty() && out.reserve_exact(1).is_err() {
        return Err(CoderFault::NoMemory);
    }
    match out.push(unit) {
        Ok(()) => Ok(()),
        Err(_) => Err(CoderFault::NoMemory),
    }
}
