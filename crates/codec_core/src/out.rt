// What goes out with an item at work.
ghost use Rattle.std.specs.Prelude.{◌≡◌, option_map};
ghost use Rattle.codec_core.specs.Job.{named_lent};
ghost use Rattle.codec_core.specs.Codec.{went_out};

use coder_api::{Coder, SlotBox};
use std::marker::Model;
use wc_base::By;
use wc_config::CoderId;

/// Which box it is: its coder's id, its number among the boxes of that id, and who acquired it.
#[derive(Drop)]
pub struct BoxName {
    id: CoderId,
    number: u64,
    by: By,
}

impl Model for BoxName {
    ghost use Rattle.std.specs.Prelude.{None};
    ghost use Rattle.coder_api.specs.Lent.{Lent};
    ghost use Rattle.coder_api.specs.Meaning.{Stopped};

    ghost Value = { Lent };

    ghost view = { λ b. record { id = b.id; meaning = Stopped; number = b.number; by = b.by; token = None } };
}

/// What went out with the item at work.
#[derive(Drop)]
pub enum Out {
    /// The box that the codec had, if it had one.
    With(Option<BoxName>),
    /// None: the item lacks a box, which its start at this place asks for.
    Asked(u64),
}

/// Which box it is.
fn name_of<C: Coder>(coder: &SlotBox<C>) -> BoxName
    ensures { result ≡ named_lent coder.now }
{
    BoxName {
        id: coder.id(),
        number: coder.number(),
        by: coder.by(),
    }
}

/// What goes out with an item that lacks a box or does not, by its start at this place.
pub(crate) fn went_out<C: Coder>(asks: bool, place: u64, coder: &Option<SlotBox<C>>) -> Out
    ensures { result ≡ went_out asks place coder.now }
{
    if asks {
        return Out::Asked(place);
    }
    match coder {
        Some(coder) => Out::With(Some(name_of(coder))),
        None => Out::With(None),
    }
}
