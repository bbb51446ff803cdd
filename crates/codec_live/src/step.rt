// What a step of a codec leaves.
use codec_model::Answer;
use coder_api::{Coder, SlotBox};
use std::marker::Model;

/// What a step leaves: its entry's place, the exception with which a call was refused, what it shows, and of a removal
/// the box that was at home, stopped. Who gets the box gives it back.
#[derive(Drop)]
pub struct Step<C: Coder> {
    pub answer: Answer,
    pub coder: Option<SlotBox<C>>,
}

impl<C: Coder> Model for Step<C> {
    ghost use Rattle.codec_live.specs.Live.{StepValue};

    ghost Value = { StepValue };

    ghost view = { λ s. record { answer = s.answer; coder = s.coder } };
}
