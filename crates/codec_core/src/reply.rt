// What a codec answers.
use coder_api::{Coder, SlotBox};
use std::marker::Model;
use wc_base::DomError;

/// The answer to a call: its entry's place, the exception with which it was refused, if it was, the promise of a flush, which
/// has the place as its name, and of a reset or close that was not refused the box that was at home, stopped. Who gets the
/// box gives it back.
#[derive(Drop)]
pub struct Reply<C: Coder> {
    pub place: u64,
    pub exception: Option<DomError>,
    pub promise: Option<u64>,
    pub coder: Option<SlotBox<C>>,
}

impl<C: Coder> Model for Reply<C> {
    ghost use Rattle.codec_core.specs.Codec.{ReplyValue};

    ghost Value = { ReplyValue };

    ghost view = { λ r. record { place = r.place; exception = r.exception; promise = r.promise; coder = r.coder } };
}

/// What a removal leaves: its entry's place, and the box that was at home, stopped. Who gets it gives the box back.
#[derive(Drop)]
pub struct Removed<C: Coder> {
    pub place: u64,
    pub coder: Option<SlotBox<C>>,
}

impl<C: Coder> Model for Removed<C> {
    ghost use Rattle.codec_core.specs.Codec.{RemovedValue};

    ghost Value = { RemovedValue };

    ghost view = { λ r. record { place = r.place; coder = r.coder } };
}

/// What the end of an item leaves: its entry's place, and the item's box, stopped, where the codec was reset or closed
/// since. Who gets it gives the box back.
#[derive(Drop)]
pub struct Back<C: Coder> {
    pub place: u64,
    pub coder: Option<SlotBox<C>>,
}

impl<C: Coder> Model for Back<C> {
    ghost use Rattle.codec_core.specs.Codec.{BackValue};

    ghost Value = { BackValue };

    ghost view = { λ b. record { place = b.place; coder = b.coder } };
}

/// What a turn leaves: its entry's place, and where the task closed the codec what was removed.
#[derive(Drop)]
pub struct Turned<C: Coder> {
    pub place: u64,
    pub removed: Option<Removed<C>>,
}

impl<C: Coder> Model for Turned<C> {
    ghost use Rattle.codec_core.specs.Codec.{TurnedValue};

    ghost Value = { TurnedValue };

    ghost view = { λ t. record { place = t.place; removed = t.removed } };
}
