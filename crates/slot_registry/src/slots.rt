// The registry for one thread.
ghost use Rattle.std.specs.Prelude.{◌≡◌, ◌<◌, true, take, map, Some, slice_get, IfOk, IfErr, OnOk};
ghost use Rattle.slot_registry.specs.Boxes.{is_out, made_of};
ghost use Rattle.slot_registry.specs.Slots.{opened, acquired, given_back, is_later, is_legal_slots, IsHeld, KeepsBoxes, KeepsOthers, IsLeastFree, IsFaultOf};
ghost use Rattle.slot_registry.specs.Places.{IsFoundIn};

use crate::place::Place;
use coder_api::{Coder, SlotBox, SlotEntry, SlotOp};
use std::alloc::{AllocError, Global};
use std::marker::Model;
use wc_base::{By, NoMemory};
use wc_config::CoderId;

/// Why no box was handed out.
#[derive(Clone, Copy, Debug, PartialEq, Eq)]
pub enum AcquireFault {
    /// No box of the id is free: `out` of the `made` ones are out. `entry` is the place of the refusal in the history.
    NoSlot { entry: u64, out: u64, made: u64 },
    NoMemory,
}

impl From<AllocError> for AcquireFault {
    ghost use Rattle.slot_registry.specs.declared.slots.AcquireFault.TheVariants as fault;

    ghost from_gives = { λ _ e. e ≡ fault.NoMemory };

    fn from(_error: AllocError) -> AcquireFault {
        AcquireFault::NoMemory
    }
}

/// What a search for a free box finds.
#[derive(Clone, Copy)]
enum Search {
    /// The free box of least number, and its place.
    Free { place: usize, number: u64 },
    /// None of as many is free.
    AllOut { made: u64 },
}

/// The registry of the boxes of coders, for one thread. The boxes of an id are numbered from 0, in the order in which
/// their coders were handed in. Its history has one entry for each box that went out, was refused or came back.
#[derive(Drop)]
pub struct Slots<C: Coder> {
    places: Vec<Place<C>>,
    entries: Vec<SlotEntry>,
}

impl<C: Coder> Model for Slots<C> {
    ghost use Rattle.std.specs.Prelude.{◌≤◌, ◌+◌, count_by, vec_len, vec_capacity};
    ghost use Rattle.slot_registry.specs.Slots.{SlotsValue};
    ghost use Rattle.slot_registry.specs.Places.{ids_of, is_away, IsKept};

    ghost Value = { SlotsValue };

    ghost view = { λ s. record { made = ids_of s.places.items; history = s.entries.items } };

    ghost invariant = { λ s. IsKept s.places.items s.entries.items × (vec_len s.entries + count_by is_away s.places.items ≤ vec_capacity s.entries) };
}

impl<C: Coder> Slots<C> {
    /// A registry of these coders, none of which is out.
    pub fn open(alloc: Global, coders: Vec<C>) -> Result<Slots<C>, NoMemory>
        ensures { IfOk result (λ s. s ≡ opened (map C.coder coders.items)) }
    {
        let mut places = Vec::with_capacity(alloc, coders.len())?;
        for coder in coders {
            places.push_reserved(Place::of(coder));
        }
        Ok(Slots {
            places,
            entries: Vec::new(alloc),
        })
    }

    /// How many boxes of an id were made.
    pub fn made(&self, id: CoderId) -> u64
        ensures { result ≡ made_of id self.now.made }
    {
        let mut count = 0;
        for place in &self.places {
            if place.is_of(id) {
                count += 1;
            }
        }
        count
    }

    /// All entries so far.
    pub fn entries(&self) -> &[SlotEntry]
        ensures entries { result.now ≡ self.now.history }
        ensures legal { is_legal_slots self.now.made self.now.history ≡ true }
    {
        self.entries.as_slice()
    }

    /// All entries.
    pub fn into_entries(self) -> Vec<SlotEntry>
        ensures entries { result.items ≡ self.history }
        ensures legal { is_legal_slots self.made self.history ≡ true }
    {
        self.entries
    }

    /// The free box of least number of an id goes out. It is refused, with an entry, exactly where none is free. The
    /// place of the entry of its return is taken here too.
    pub fn acquire(&mut self, by: By, id: CoderId) -> Result<SlotBox<C>, AcquireFault>
        ensures least { IfOk result (IsLeastFree by id self.old) }
        ensures acquired { OnOk result (self.new ≡ acquired by id self.old) }
        ensures fault { IfErr result (IsFaultOf by id self.old self.new) }
        ensures held { IfOk result (IsHeld self.new) }
        ensures kept { KeepsBoxes self.old self.new }
    {
        let needed = self
            .places
            .len()
            .checked_add(1)
            .ok_or(AcquireFault::NoMemory)?;
        self.entries.reserve(needed)?;
        match self.search(id) {
            Search::Free { place, number } => {
                let Some(coder) = self.places[place].take() else {
                    unreachable!();
                };
                self.entries.push_reserved(SlotEntry {
                    by,
                    op: SlotOp::Acquire { id, number },
                });
                Ok(SlotBox::new(coder, number, by))
            }
            Search::AllOut { made } => {
                let entry = self.entries.len() as u64;
                let out = made;
                self.entries.push_reserved(SlotEntry {
                    by,
                    op: SlotOp::Refused { id, out, made },
                });
                Err(AcquireFault::NoSlot { entry, out, made })
            }
        }
    }

    /// A box comes back, by a later entry of the codec that acquired it. It takes no memory.
    pub fn give_back(&mut self, by: By, slot: SlotBox<C>)
        requires out { IsHeld self.old slot }
        requires later { is_later slot.by by ≡ true }
        ensures given { self.new ≡ given_back by slot.id slot.number self.old }
        ensures kept { KeepsOthers self.old self.new slot.id slot.number }
    {
        let id = slot.id();
        let number = slot.number();
        let place = self.place_of(id, number);
        self.places[place].put(slot.into_coder());
        self.entries.push_reserved(SlotEntry {
            by,
            op: SlotOp::Give { id, number },
        });
    }

    // The first box of an id that is not out.
    fn search(&self, id: CoderId) -> Search
        ensures { IsFoundIn id self.now result }
    {
        let mut number = 0;
        for (place, kept) in self.places.iter().enumerate() {
            if kept.is_of(id) {
                if kept.is_home() {
                    return Search::Free { place, number };
                }
                number += 1;
            }
        }
        Search::AllOut { made: number }
    }

    // The place of a box that is out.
    fn place_of(&self, id: CoderId, number: u64) -> usize
        requires { is_out id number self.now.history ≡ true }
        ensures at { slice_get self.now.made result ≡ Some id }
        ensures before { number ≡ made_of id (take result self.now.made) }
    {
        let mut before = 0;
        for (place, kept) in self.places.iter().enumerate() {
            if kept.is_of(id) {
                if before == number {
                    return place;
                }
                before += 1;
            }
        }
        unreachable!()
    }
}
