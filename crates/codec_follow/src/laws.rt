// What holds between legal histories and histories that follow.
ghost use Rattle.codec_follow.specs.Errors.{ServedGiveNoError};
ghost use Rattle.codec_follow.specs.Laws.{LegalFollows, LegalFills, StepsErased, UnitsInOrder, OutputsAreOfKind};

/// Laws: a legal history follows, and what it shows is what it shows as one that follows, with its own outputs; and units
/// are shown in their order, the first for the first output.
pub fn legal_histories_follow()
    ensures follows { LegalFollows }
    ensures fills { LegalFills }
    ensures order { UnitsInOrder }
{}

/// Law: each step of a legal history is followed, from the state with blanks for its outputs to the next such state.
pub fn legal_steps_are_followed()
    ensures { StepsErased }
{}

/// Law: what a codec shows is of its kind, where each of its configs is: samples whose rate is above 0, chunks, or pictures.
pub fn outputs_are_of_their_kind()
    ensures { OutputsAreOfKind }
{}

/// Law: of a codec that is not reclaimed, where each item that ends had a free box and the codec's definition takes it, a
/// config that is supported or an input, the error callback is called only for want of memory.
pub fn served_items_give_no_error()
    ensures { ServedGiveNoError }
{}
