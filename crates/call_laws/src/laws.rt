// Calls of all callers.
ghost use Rattle.std.specs.Prelude.{List};
ghost use Rattle.call_laws.specs.Callers.{CallersAnswer};
ghost use Rattle.run_model.specs.Fits.{ArgumentsAreIn, CallsAreIn};
ghost use Rattle.run_model.specs.Recorded.{Recorded};
ghost use Rattle.script_types.specs.declared.script.ScriptData.{ScriptData};
ghost use Rattle.wc_chunk.specs.declared.chunk.Chunk.{Chunk};

/// A law: where all callers' results tell the calls that the codecs' histories have, each codec's calls stand once, and each has
/// what its step gives.
pub fn calls_stand_once()
    ensures calls { (script : ScriptData) (media : List (List Chunk)) (run : Recorded)
        → CallersAnswer script media run → CallsAreIn script run }
    ensures arguments { (script : ScriptData) (media : List (List Chunk)) (run : Recorded)
        → CallersAnswer script media run → ArgumentsAreIn script media run }
{}
