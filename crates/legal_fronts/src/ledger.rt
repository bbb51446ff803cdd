// Who holds each box, one entry of a registry after another.
ghost use Rattle.std.specs.Prelude.{◌≡◌, ◌++◌, ◌∷◌, [], List, OnOk, Some, None, true, false, length, ◌≤◌};
ghost use Rattle.std.specs.List.{count_by};
ghost use Rattle.coder_api.specs.Meaning.{is_id};
ghost use Rattle.coder_api.specs.declared.slot.SlotEntry.{SlotEntry};
ghost use Rattle.slot_registry.specs.Boxes.{is_box, made_of, least_free};
ghost use Rattle.slot_registry.specs.Slots.{is_legal_next, is_number as is_numbered, is_later, may_give};
ghost use Rattle.legal_fronts.specs.Boxes.{IsLedger, held_by, lent};

use coder_api::{SlotEntry, SlotOp};
use std::alloc::Global;
use wc_base::{By, NoMemory, try_push};
use wc_config::CoderId;

/// A box that has been out, and who holds it; none where it came back.
#[derive(Clone, Copy)]
pub(crate) struct Lending {
    pub(crate) id: CoderId,
    pub(crate) number: u64,
    pub(crate) holder: Option<By>,
}

/// Each box that has been out.
#[derive(Drop)]
pub(crate) struct Ledger {
    pub(crate) boxes: Vec<Lending>,
}

// Whether a lending is of this box.
fn is_of(lending: &Lending, id: CoderId, number: u64) -> bool
    ensures { result ≡ is_box id number lending.now.id lending.now.number }
{
    id == lending.id && number == lending.number
}

// Whether the second cause is an entry of the first one's codec, at a greater place.
fn is_later(holder: By, cause: By) -> bool
    ensures { result ≡ is_later holder cause }
{
    match holder {
        By::Codec { codec, place } => match cause {
            By::Codec {
                codec: other,
                place: later,
            } => codec == other && place < later,
            By::Caller(_) => false,
        },
        By::Caller(_) => false,
    }
}

/// How many boxes of an id were made.
fn count_of(made: &[CoderId], id: CoderId) -> u64
    ensures { result ≡ made_of id made.now }
{
    made.iter().filter(|other| id == **other).count() as u64
}

impl Ledger {
    /// Of a registry in which nothing was done.
    pub(crate) fn empty(alloc: Global) -> Ledger
        ensures { IsLedger [] result.boxes.items }
    {
        Ledger {
            boxes: Vec::new(alloc),
        }
    }

    // Who holds a box.
    fn holder(&self, id: CoderId, number: u64) -> Option<By>
        ensures { result ≡ held_by self.now.boxes.items id number }
    {
        for lending in &self.boxes {
            if is_of(lending, id, number) {
                return lending.holder;
            }
        }
        None
    }

    // The least number of a box of an id that no one holds.
    fn first_free(&self, made: &[CoderId], id: CoderId) -> Option<u64>
        ensures { (h : List SlotEntry) → IsLedger h self.now.boxes.items
            → result ≡ least_free id made.now h }
    {
        for number in 0..count_of(made, id) {
            if self.holder(id, number).is_none() {
                return Some(number);
            }
        }
        None
    }

    // Whether this box is the free one of least number.
    fn is_free(&self, made: &[CoderId], id: CoderId, number: u64) -> bool
        ensures { (h : List SlotEntry) → IsLedger h self.now.boxes.items
            → result ≡ is_numbered (least_free id made.now h) number }
    {
        match self.first_free(made, id) {
            Some(free) => free == number,
            None => false,
        }
    }

    // Whether a holder may give a box back by this cause.
    fn may_give(&self, id: CoderId, number: u64, by: By) -> bool
        ensures { (h : List SlotEntry) → IsLedger h self.now.boxes.items
            → result ≡ may_give (held_by self.now.boxes.items id number) by }
    {
        match self.holder(id, number) {
            Some(holder) => is_later(holder, by),
            None => false,
        }
    }

    /// Whether an entry is legal next, in a registry of coders of these ids.
    pub(crate) fn admits(&self, made: &[CoderId], entry: &SlotEntry) -> bool
        ensures { (h : List SlotEntry) → IsLedger h self.now.boxes.items
            → result ≡ is_legal_next made.now h entry.now }
    {
        match entry.op {
            SlotOp::Acquire { id, number } => self.is_free(made, id, number),
            SlotOp::Refused { id, out, made: all } => {
                all == count_of(made, id) && out == all && self.first_free(made, id).is_none()
            }
            SlotOp::Give { id, number } => self.may_give(id, number, entry.by),
        }
    }

    // The box has this holder.
    fn put(&mut self, lending: Lending) -> Result<(), NoMemory>
        ensures { OnOk result (self.new.boxes.items ≡ lent lending self.old.boxes.items) }
    {
        for (place, other) in self.boxes.iter().enumerate() {
            if is_of(other, lending.id, lending.number) {
                self.boxes[place] = lending;
                return Ok(());
            }
        }
        try_push(&mut self.boxes, lending)
    }

    /// An entry that is legal is the next.
    pub(crate) fn record(&mut self, entry: &SlotEntry) -> Result<(), NoMemory>
        ensures { OnOk result ((h : List SlotEntry) → IsLedger h self.old.boxes.items
            → IsLedger (h ++ entry.now ∷ []) self.new.boxes.items) }
    {
        match entry.op {
            SlotOp::Acquire { id, number } => self.put(Lending {
                id,
                number,
                holder: Some(entry.by),
            }),
            SlotOp::Refused {
                id: _,
                out: _,
                made: _,
            } => Ok(()),
            SlotOp::Give { id, number } => self.put(Lending {
                id,
                number,
                holder: None,
            }),
        }
    }
}
