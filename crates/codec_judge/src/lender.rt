// Coders that are lent, one at a time.
ghost use Rattle.std.specs.Prelude.{◌≡◌, ◌≤◌, ◌<◌, IfOk, IfNone, IfSome, OnOk, OnErr, OnSome, None, Some, map, length, slice_get, vec_len, false, true};
ghost use Rattle.std.specs.List.{insert};
ghost use Rattle.coder_api.specs.Meaning.{is_id};
ghost use Rattle.codec_judge.specs.Lawful.{has_coder};
ghost use Rattle.codec_judge.specs.Lender.{settled};

use coder_api::{Coder, SlotBox};
use std::alloc::Global;
use std::marker::Model;
use wc_base::{By, NoMemory, try_push};
use wc_config::CoderId;

/// Where the coder that is out stands among the others, and its id.
#[derive(Clone, Copy)]
pub(crate) struct Away {
    pub(crate) place: usize,
    pub(crate) id: CoderId,
}

/// Coders in order. One at a time may be out, and comes back to its place.
#[derive(Drop)]
pub struct Lender<C: Coder> {
    coders: Vec<C>,
    away: Option<Away>,
}

impl<C: Coder> Model for Lender<C> {
    ghost use Rattle.std.specs.Prelude.{◌≤◌, IfSome, map, option_map, vec_len};
    ghost use Rattle.codec_judge.specs.Lender.{LenderValue, whole};

    ghost Value = { LenderValue };

    ghost view = { λ l. record { home = whole l.away (map C.coder l.coders.items); out = option_map (λ a. a.id) l.away } };

    ghost invariant = { λ l. IfSome l.away (λ a. a.place ≤ vec_len l.coders) };
}

fn is_of<C: Coder>(coder: &C, id: CoderId) -> bool
    ensures { result ≡ is_id id (C.coder coder.now) }
{
    id == coder.id()
}

// The place of the first coder of an id.
fn place_in<C: Coder>(coders: &[C], id: CoderId) -> Option<usize>
    ensures none { IfNone result (has_coder id (map C.coder coders.now) ≡ false) }
    ensures some { IfSome result (λ i. slice_get (map C.coder coders.now) i ≡ Some id) }
    ensures within { IfSome result (λ i. i < length coders.now) }
{
    for (place, coder) in coders.iter().enumerate() {
        if is_of(coder, id) {
            return Some(place);
        }
    }
    None
}

// The ids of coders.
fn ids_of<C: Coder>(alloc: Global, coders: &[C]) -> Result<Vec<CoderId>, NoMemory>
    ensures { IfOk result (λ v. v.items ≡ map C.coder coders.now) }
{
    let mut ids = Vec::with_capacity(alloc, coders.len())?;
    for coder in coders {
        try_push(&mut ids, coder.id())?;
    }
    Ok(ids)
}

// A coder stands among the others again.
fn put_back<C: Coder>(coders: &mut Vec<C>, place: usize, coder: C) -> Result<(), NoMemory>
    requires { place ≤ vec_len coders.old }
    ensures items { OnOk result (coders.new.items ≡ insert coders.old.items place coder) }
    ensures grows { vec_len coders.old ≤ vec_len coders.new }
{
    match coders.insert(place, coder) {
        Ok(()) => Ok(()),
        Err(_) => Err(NoMemory),
    }
}

impl<C: Coder> Lender<C> {
    /// A lender of these coders.
    pub fn of(coders: Vec<C>) -> Lender<C>
        ensures { result ≡ record { home = map C.coder coders.items; out = None } }
    {
        Lender { coders, away: None }
    }

    /// The coders, none of which is out.
    pub fn into_coders(self) -> Vec<C>
        requires { self.out ≡ None }
        ensures { map C.coder result.items ≡ self.home }
    {
        self.coders
    }

    /// The ids of all coders, none of which is out.
    pub fn ids(&self, alloc: Global) -> Result<Vec<CoderId>, NoMemory>
        requires { self.now.out ≡ None }
        ensures { IfOk result (λ v. v.items ≡ self.now.home) }
    {
        ids_of(alloc, &self.coders)
    }

    /// The first coder of an id goes out in a box. None exactly where there is none of it; then nothing has changed.
    pub(crate) fn lend(&mut self, id: CoderId, by: By) -> Option<SlotBox<C>>
        requires { self.old.out ≡ None }
        ensures none { IfNone result (has_coder id self.old.home ≡ false) }
        ensures same { IfNone result (self.new ≡ self.old) }
        ensures some { OnSome result (has_coder id self.old.home ≡ true) }
        ensures id { IfSome result (λ b. b.id ≡ id) }
        ensures by { IfSome result (λ b. b.by ≡ by) }
        ensures lent { OnSome result
            (self.new ≡ record { home = self.old.home; out = Some id }) }
    {
        let place = place_in(&self.coders, id)?;
        let coder = self.coders.remove(place);
        self.away = Some(Away { place, id });
        Some(SlotBox::new(coder, 0, by))
    }

    /// The box comes back, if there is one.
    pub(crate) fn settle(&mut self, back: Option<SlotBox<C>>) -> Result<(), NoMemory>
        requires { IfSome back (λ b. self.old.out ≡ Some b.id) }
        ensures { OnOk result (self.new ≡ settled back self.old) }
    {
        let Some(back) = back else {
            return Ok(());
        };
        let Some(away) = self.away else {
            return Ok(());
        };
        put_back(&mut self.coders, away.place, back.into_coder())?;
        self.away = None;
        Ok(())
    }
}
