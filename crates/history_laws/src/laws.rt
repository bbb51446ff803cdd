// What becomes of the clones that encodes make.
ghost use Rattle.history_laws.specs.Clones.{ClonesByPlaces};

use codec_model::references_are_held;

/// Law: in a legal history, of the clone that an accepted encode made at a place, and whose reference no other encode's clone has,
/// either no entry ends it and the codec holds it in the end, or exactly one entry ends it, later: the end of its item, or the
/// removal before the item began.
pub fn clones_by_places()
    ensures { ClonesByPlaces }
{
    references_are_held();
}
