// The place of one box.
ghost use Rattle.std.specs.Prelude.{◌≡◌, IfSome, is_some, true, false};
ghost use Rattle.coder_api.specs.Meaning.{is_id};

use coder_api::Coder;
use std::marker::Model;
use wc_config::CoderId;

/// The place of one box in its registry: its coder's id, and the coder while the box is not out.
#[derive(Drop)]
pub(crate) struct Place<C: Coder> {
    id: CoderId,
    coder: Option<C>,
}

impl<C: Coder> Model for Place<C> {
    ghost use Rattle.std.specs.Prelude.{◌≡◌, IfSome, is_some};
    ghost use Rattle.slot_registry.specs.Places.{Placed};

    ghost Value = { Placed };

    ghost view = { λ p. record { id = p.id; is_home = is_some p.coder } };

    ghost invariant = { λ p. IfSome p.coder (λ c. C.coder c ≡ p.id) };
}

impl<C: Coder> Place<C> {
    pub(crate) fn of(coder: C) -> Place<C>
        ensures { result ≡ record { id = C.coder coder; is_home = true } }
    {
        Place {
            id: coder.id(),
            coder: Some(coder),
        }
    }

    pub(crate) fn is_of(&self, id: CoderId) -> bool
        ensures { result ≡ is_id id self.now.id }
    {
        id == self.id
    }

    pub(crate) fn is_home(&self) -> bool
        ensures { result ≡ self.now.is_home }
    {
        self.coder.is_some()
    }

    /// The coder goes out.
    pub(crate) fn take(&mut self) -> Option<C>
        ensures left { self.new ≡ record self.old { is_home = false } }
        ensures some { is_some result ≡ self.old.is_home }
        ensures id { IfSome result (λ c. C.coder c ≡ self.old.id) }
    {
        self.coder.take()
    }

    /// The coder comes back.
    pub(crate) fn put(&mut self, coder: C)
        requires { C.coder coder ≡ self.old.id }
        ensures { self.new ≡ record self.old { is_home = true } }
    {
        self.coder = Some(coder);
    }
}
