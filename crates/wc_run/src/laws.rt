// What the threads of a run made, against its script.
ghost use Rattle.std.specs.Prelude.{List};
ghost use Rattle.work_moments.specs.Moments.{Telling};
ghost use Rattle.run_laws.specs.Reclaims.{IsTimely};
ghost use Rattle.run_model.specs.declared.run.Run.{Run};
ghost use Rattle.script_types.specs.declared.script.ScriptData.{ScriptData};
ghost use Rattle.wc_chunk.specs.declared.chunk.Chunk.{Chunk};
ghost use Rattle.wc_config.specs.declared.codec.CoderId.{CoderId};
ghost use Rattle.wc_run.specs.Fits.{FitsByThreads};
ghost use Rattle.wc_run.specs.InTime.{some_may_give};
ghost use Rattle.wc_run.specs.Made.{IsMade, recorded_by};

use port_laws::{ports_deliver, runs_are_ranked};
use run_laws::{reclaims_are_few, threads_fit};

/// A law: what the threads of a run made fits the script, where each moment is one that a clock handed in may give.
pub fn made_fits()
    ensures { (script : ScriptData) (media : List (List Chunk)) (made : List CoderId)
        (clocks : List Telling) (run : Run)
        → (is_made : IsMade script media made run)
        → IsTimely (some_may_give clocks) (recorded_by is_made.deeds run).codecs
        → FitsByThreads script media made clocks run }
{
    threads_fit();
    ports_deliver();
    runs_are_ranked();
    reclaims_are_few();
}
