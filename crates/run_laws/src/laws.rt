// Laws of what all threads of a run made.
ghost use Rattle.std.specs.Prelude.{ℕ, ◌≡◌, ◌<◌, ◌≤◌, Bool, List, length};
ghost use Rattle.codec_accounts.specs.Codec.{state_after};
ghost use Rattle.codec_accounts.specs.Owed.{at};
ghost use Rattle.codec_logs.specs.Logs.{IsLog, opening_track};
ghost use Rattle.codec_logs.specs.declared.event.Event.{Event};
ghost use Rattle.codec_model.specs.declared.entry.Opening.{Opening};
ghost use Rattle.coder_api.specs.declared.slot.SlotEntry.{SlotEntry};
ghost use Rattle.shared_codec.specs.Tallies.{reclaims, refusals, untimely};
ghost use Rattle.run_laws.specs.Fits.{AreAtRest, FitsAsTried, ThreadsMade};
ghost use Rattle.run_laws.specs.Paid.{RegistryIsPaid, by_cause, histories_of};
ghost use Rattle.run_laws.specs.Told.{LogTellsEnds};
ghost use Rattle.shared_codec.specs.Dues.{slot_dues};
ghost use Rattle.shared_codec.specs.Sums.{all_dues};
ghost use Rattle.shared_codec.specs.Told.{AreTold, end_dues};
ghost use Rattle.wc_base.specs.declared.who.By.TheVariants as by;
ghost use Rattle.run_laws.specs.PoolPaid.{CodecsArePaid, PoolIsPaid};
ghost use Rattle.run_laws.specs.Quiet.{IsAtRest};
ghost use Rattle.run_laws.specs.Reclaims.{HasFewReclaims, IsTimely, in_logs};
ghost use Rattle.run_laws.specs.Tries.{BoxesAreTried};
ghost use Rattle.run_model.specs.Recorded.{Recorded, opening_at};
ghost use Rattle.script_types.specs.declared.script.ScriptData.{ScriptData};
ghost use Rattle.wc_base.specs.Views.{Log};
ghost use Rattle.wc_chunk.specs.declared.chunk.Chunk.{Chunk};
ghost use Rattle.wc_config.specs.declared.codec.CoderId.{CoderId};
ghost use Rattle.wc_pool.specs.declared.entry.PoolEntry.{PoolEntry};

/// A law on a registry's history that has what the codecs' logs call for, where the ends of items tell how their acquires went.
/// Each box that went out came back by the entry that let it go. Each start acquired what it may try, and its item's end says so.
pub fn boxes_are_tried()
    ensures { (made : List CoderId) (opening : ℕ → Opening) (logs : List (Log Event))
        (slots : List SlotEntry)
        → RegistryIsPaid made opening logs slots
        → BoxesAreTried made opening (histories_of logs) slots }
{}

/// A law on the log of a codec by whose entries a registry's history has what it calls for, in order. Where what its ends say is so by
/// that history, they tell how all acquires of their items went.
pub fn ends_are_told()
    ensures { (k : ℕ) (opening : Opening) (log : Log Event) (slots : List SlotEntry)
        → IsLog k opening log
        → AreTold slots (all_dues end_dues k (opening_track opening) log)
        → ((place : ℕ) → by_cause (by.Codec k place) (all_dues slot_dues k (opening_track opening) log)
        ≡ by_cause (by.Codec k place) slots)
        → LogTellsEnds k opening slots log }
{}

/// A law: where a pool's history has, by each entry of a codec, what that codec's log calls for by it, it has what the codec's
/// history calls for.
pub fn codecs_are_paid()
    ensures { (opening : ℕ → Opening) (logs : List (Log Event)) (pool : List PoolEntry)
        → PoolIsPaid opening logs pool → CodecsArePaid opening logs pool }
{}

/// A law: codecs that are at rest by their logs are so by their histories.
pub fn codecs_rest()
    ensures { (script : ScriptData) (logs : List (Log Event)) (run : Recorded)
        → run.codecs ≡ histories_of logs
        → ((k : ℕ) → k < length logs → IsLog k (opening_at script k) (at k logs))
        → AreAtRest script logs
        → (k : ℕ) → k < length run.codecs
        → IsAtRest (state_after (opening_at script k) (at k run.codecs)).control }
{}

/// A law: what the threads of a run made fits the script.
pub fn threads_fit()
    ensures { (script : ScriptData) (media : List (List Chunk)) (made : List CoderId)
        (logs : List (Log Event)) (run : Recorded)
        → ThreadsMade script media made logs run → FitsAsTried script media made run }
{}

/// A law: where the logs of all codecs have at most as many reclaims as ends of items that tell of a first acquire that was refused,
/// their histories have at most as many as starts whose first acquire was refused. Each such end is that of a start of its own.
pub fn reclaims_are_few()
    ensures { (made : List CoderId) (opening : ℕ → Opening) (logs : List (Log Event))
        (slots : List SlotEntry)
        → RegistryIsPaid made opening logs slots
        → in_logs reclaims logs ≤ in_logs refusals logs
        → HasFewReclaims slots (histories_of logs) }
{}

/// A law: where no event of the codecs' logs has a moment that does not fit, each moment of their histories fits.
pub fn moments_fit()
    ensures { (fits : ℕ → Bool) (logs : List (Log Event))
        → in_logs (untimely fits) logs ≡ 0 → IsTimely fits (histories_of logs) }
{}
