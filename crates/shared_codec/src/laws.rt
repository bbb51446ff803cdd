// Laws of what seats' entries call for.
ghost use Rattle.shared_codec.specs.Dues.{slot_dues, media_dues, call_dues};
ghost use Rattle.shared_codec.specs.Order.{MediaOrderIsKept, SlotOrderIsKept};
ghost use Rattle.shared_codec.specs.Sums.{DuesAddUp};
ghost use Rattle.shared_codec.specs.Told.{end_dues};

/// What the entries of seats call for in the registry and in the pool, the calls of callers that they are, and the items that they
/// end, grows with each entry, adds up where seats are joined, and is that of the log once all are joined.
pub fn dues_add_up()
    ensures slots { DuesAddUp slot_dues }
    ensures media { DuesAddUp media_dues }
    ensures calls { DuesAddUp call_dues }
    ensures ends { DuesAddUp end_dues }
{}

/// A law on a thread whose seats made, by each entry of a codec, what its log calls for by that entry, in order: in the registry, or in
/// the pool. This stays so as the thread makes more, and where one thread's seats take in another's.
pub fn order_is_kept()
    ensures slots { SlotOrderIsKept }
    ensures media { MediaOrderIsKept }
{}
