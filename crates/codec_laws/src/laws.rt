// Laws of every legal history.
ghost use Rattle.codec_laws.specs.Left.{NothingStuck};
ghost use Rattle.codec_laws.specs.Laws.{NothingOld, IndexesRise, ContentsAreGiven, RemovalsReject, RejectedOnly, EndsOnce, ResolvedLast, SizeFalls, SameShown};

use codec_model::{never_stuck, steps_leave_fewer};

/// Law: nothing old is shown. Between the configure of an output's configuration and the turn that shows it stands the call
/// that gave it, and no removal: no reset or close that is not refused, no reclaim, and no turn that closes the codec.
pub fn nothing_old()
    ensures { NothingOld }
{}

/// Law: the outputs of one configuration have the indexes 0, 1, 2 and so on, in the order in which they are shown.
pub fn indexes_rise()
    ensures { IndexesRise }
{}

/// Law: outputs hold what the codec's definition gives. Each is, metadata aside, the unit of its index among all that the
/// definition gives for its configuration: for the chunks or samples and the drains of the accepted calls behind its
/// configure, up to the call that gave it and with this. As many outputs have a source as are shown.
pub fn contents_are_given()
    ensures { ContentsAreGiven }
{}

/// Law: a flush that is pending at a removal is rejected there, once, with the removal's error.
pub fn removals_reject()
    ensures { RemovalsReject }
{}

/// Law: a promise is rejected with InvalidState at the place of its flush, where this is refused; otherwise by the first removal
/// after it, with that removal's error.
pub fn rejected_only_by_removals()
    ensures { RejectedOnly }
{}

/// Law: a promise ends at most once.
pub fn promises_end_once()
    ensures { EndsOnce }
{}

/// Law: a flush is resolved last. Where its promise is resolved, each output that a call before it gave is shown, there or
/// before, unless a removal stands between that call and the flush.
pub fn flushes_resolve_last()
    ensures { ResolvedLast }
{}

/// Law: between two dequeue events the size falls.
pub fn size_falls_between()
    ensures { SizeFalls }
{
    never_stuck();
}

/// Law: nothing is stuck. While starts, ends of items or turns are left after a legal history, one of them may come next, with
/// no want of a box or of memory, and each of them leaves fewer. None is left exactly where the codec is quiet: no item is
/// queued or at work, and no task is queued. Then the promise of each flush has ended, and the size is 0.
pub fn nothing_stuck()
    ensures { NothingStuck }
{
    never_stuck();
    steps_leave_fewer();
}

/// Law: two histories of one opening with the same calls, in which no removal stands and which end quiet, show the same
/// outputs in order, and their flushes end alike. Who makes a call, the references of encodes, takes, and the places and
/// moments of all other entries may differ.
pub fn same_calls_show_the_same()
    ensures { SameShown }
{
    never_stuck();
}
