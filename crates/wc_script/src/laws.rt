// What is known of scripts.
ghost use Rattle.wc_script.specs.Laws.{ScriptsAreSound};
ghost use Rattle.wc_script.specs.Within.{ScriptsAreWithin};

use script_steps::{steps_are_sound, steps_are_within};

/// Nothing is at fault in a script that was read.
pub fn scripts_are_sound()
    ensures { ScriptsAreSound }
{
    steps_are_sound();
}

/// What the script that bytes spell holds is within its types: what its steps hold (`steps_are_within`), and the moments of its
/// order, which have 64 bits.
pub fn scripts_are_within()
    ensures { ScriptsAreWithin }
{
    steps_are_within();
}
