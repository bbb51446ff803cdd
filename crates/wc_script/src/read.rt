// Reads scripts.
ghost use Rattle.std.specs.Prelude.{◌≡◌, ◌≢◌, IfOk, IfErr, true};
ghost use Rattle.json_data.specs.View.{view};
ghost use Rattle.script_types.specs.Sound.{is_sound};
ghost use Rattle.wc_script.specs.Faults.{IsOfScript};
ghost use Rattle.wc_script.specs.Walk.{walk_of};
ghost use Rattle.wc_script.specs.Read.{script_of};
ghost use Rattle.script_types.specs.Reading.{Gives};

use crate::walk::read_value;
use json_data::{Scratch, Value};
use script_steps::steps_are_sound;
use script_types::{Fault, Script, ScriptData, Stop};
use std::alloc::Global;

#[tactic(auto, using(crate::proofs::SoundLaws::walk_is_sound, crate::proofs::FaultLaws::walk_faults))]
fn read_sound(alloc: Global, value: &Value<'_>) -> Result<ScriptData, Stop<Fault>>
    ensures given { Gives result (walk_of (view value.now)) }
    ensures sound { IfOk result (λ s. is_sound s ≡ true) }
    ensures own { IfErr result (λ e. IsOfScript e) }
{
    steps_are_sound();
    read_value(alloc, value)
}

/// Reads a script from JSON (our choice of form).
///
/// `NotJson` where the bytes are no JSON value. Else the first fault, with its place, on a walk through the top value,
/// the codecs, each caller with its steps, and the order: at each place `TooMany` is tried first, then `Shape`, then
/// `Twice`, then `UnknownName`. `Shape` at the top is tried last where a caller does not stand in the order as often as
/// it has steps. `NoMemory` where memory runs out.
pub fn read_script(alloc: Global, bytes: &[u8]) -> Result<Script, Stop<Fault>>
    ensures given { Gives result (script_of bytes.now) }
    ensures own { IfErr result (λ e. IsOfScript e) }
{
    let mut scratch = Scratch::new(alloc);
    let Some(value) = json_data::read(alloc, bytes, &mut scratch)? else {
        return Err(Stop::Fault(Fault::NotJson));
    };
    Ok(Script::of(read_sound(alloc, &value)?))
}
