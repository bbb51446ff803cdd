// What following a script's order makes.
ghost use Rattle.std.specs.Prelude.{ℕ, ◌≡◌, List, true};
ghost use Rattle.codec_accounts.specs.Owed.{at};
ghost use Rattle.codec_model.specs.Replay.{IsLegal};
ghost use Rattle.run_model.specs.Fits.{Fits, FollowsTheOrder, IsLegalRun, recorded_of};
ghost use Rattle.run_model.specs.Follow.{Course, Follows, nothing_yet, order_items, record_of};
ghost use Rattle.run_model.specs.Recorded.{none_received, opening_at};
ghost use Rattle.run_model.specs.declared.run.Run.{Run};
ghost use Rattle.wc_chunk.specs.declared.chunk.Chunk.{Chunk};
ghost use Rattle.wc_config.specs.declared.codec.CoderId.{CoderId};
ghost use Rattle.script_types.specs.Sound.{is_sound};
ghost use Rattle.order_laws.specs.Course.{IsCourse};
ghost use Rattle.order_laws.specs.Ends.{AreListed, course_with};
ghost use Rattle.order_laws.specs.Same.{SameBoxes, SameWants};
ghost use Rattle.script_types.specs.declared.script.OrderItem.{OrderItem};
ghost use Rattle.script_types.specs.declared.script.ScriptData.{ScriptData};

use codec_model::references_are_held;
use media_accounts::{codecs_stand, media_stand, what_is_brought_may_grow};
use wc_pool::references_are_apart;

/// A law: a run that follows the order of a script in which nothing is at fault, with these chunks of its chunk files, fits the script, and each
/// codec's history in such a run is legal.
pub fn following_fits()
    ensures fits { (script : ScriptData) (media : List (List Chunk)) (made : List CoderId)
        (run : Run)
        → is_sound script ≡ true → FollowsTheOrder script media made run
        → Fits script media made run }
    ensures legal { (script : ScriptData) (media : List (List Chunk)) (made : List CoderId)
        (run : Run) (k : ℕ)
        → is_sound script ≡ true → FollowsTheOrder script media made run
        → IsLegal (opening_at script k) (at k (recorded_of none_received run).codecs) }
{
    media_stand();
    codecs_stand();
    what_is_brought_may_grow();
    references_are_held();
    references_are_apart();
}

/// A law: a course that follows some items from the beginning of a script on in which nothing is at fault has the script's codecs, with legal
/// histories, boxes that may be given back, and references to media that are live and held by no other.
pub fn following_stands()
    ensures { (script : ScriptData) (media : List (List Chunk)) (made : List CoderId)
        (items : List OrderItem) (course : Course)
        → is_sound script ≡ true → Follows script media items (nothing_yet script made) course
        → IsCourse script made course }
{
    media_stand();
    codecs_stand();
    what_is_brought_may_grow();
    references_are_held();
    references_are_apart();
}

/// A law: a run by order is a function of the script, the chunks of its chunk files, how many boxes of each id there are,
/// and which ends say that memory was wanted. Two legal runs that agree in these are equal.
pub fn runs_by_order_are_one()
    ensures { (script : ScriptData) (media : List (List Chunk)) (made others : List CoderId)
        (run again : Run)
        → SameBoxes made others → FollowsTheOrder script media made run
        → FollowsTheOrder script media others again → IsLegalRun script run
        → IsLegalRun script again
        → SameWants (recorded_of none_received run).codecs (recorded_of none_received again).codecs → run ≡ again }
{}

/// A law: where a list has just the ends of a run by order that say that memory was wanted, the order makes that run and
/// no other with these ends: a legal run that recorded what it makes with them is the same run.
pub fn listed_ends_make_one_run()
    ensures { (script : ScriptData) (media : List (List Chunk)) (made : List CoderId)
        (listed : List (ℕ × ℕ)) (run again : Run)
        → AreListed listed (recorded_of none_received run).codecs → FollowsTheOrder script media made run
        → recorded_of none_received again
        ≡ record_of none_received (course_with listed script media (order_items script)
        (nothing_yet script made))
        → IsLegalRun script run → IsLegalRun script again → run ≡ again }
{}
