// What ports deliver.
ghost use Rattle.std.specs.Prelude.{List};
ghost use Rattle.codec_model.specs.declared.entry.Entry.{Entry};
ghost use Rattle.desk_callers.specs.Deeds.{Deed};
ghost use Rattle.order_laws.specs.Sound.{IsSound};
ghost use Rattle.port_laws.specs.PortAccounts.{CallersMade, PortsMade};
ghost use Rattle.port_laws.specs.Ranks.{IsRanked};
ghost use Rattle.run_model.specs.Fits.{PortsDeliver};
ghost use Rattle.run_model.specs.Recorded.{Recorded};
ghost use Rattle.script_types.specs.declared.script.ScriptData.{ScriptData};
ghost use Rattle.wc_chunk.specs.declared.chunk.Chunk.{Chunk};

/// A law: what the callers of a run received is what they posted, where the passes of each port of the script have their account.
pub fn ports_deliver()
    ensures { (script : ScriptData) (media : List (List Chunk)) (histories : List (List Entry))
        (deeds : List (List Deed)) (run : Recorded) → IsSound script
        → PortsMade script media deeds → CallersMade script media histories deeds run
        → PortsDeliver script media run }
{}

/// A law: there is a rank of all steps of a run by which each post comes before its receive, where the passes of each port of the script
/// have their account. So no caller posts what came of its own post.
pub fn runs_are_ranked()
    ensures { (script : ScriptData) (media : List (List Chunk)) (histories : List (List Entry))
        (deeds : List (List Deed)) (run : Recorded) → IsSound script
        → PortsMade script media deeds → CallersMade script media histories deeds run
        → IsRanked run }
{}
