// The registry behind the lock.
ghost use Rattle.std.specs.Prelude.{◌≡◌, ◌≤◌, ◌^◌, true, map, IfOk, OnOk, IfErr};
ghost use Rattle.seat_lock.specs.Logs.{AllBy, entries_of};
ghost use Rattle.seat_lock.specs.Passages.{IsNewSeat, IsUnion};
ghost use Rattle.seat_lock.specs.Seats.{IsSameSeat, IsIdleAt, HasView, Becomes};
ghost use Rattle.seat_lock.specs.Seats.{first_view, less_part};
ghost use Rattle.slot_registry.specs.Slots.{acquired, given_back, is_later, opened, IsHeld, IsLeastFree, IsFaultOf};
ghost use Rattle.shared_slots.specs.Boxes.{acquires_in};

use coder_api::{Coder, SlotBox, SlotEntry};
use seat_lock::{Seat, SeatLock, Told};
use slot_registry::{AcquireFault, Slots};
use std::alloc::Global;
use std::marker::Model;
use std::snapshot::Snapshot;
use wc_base::{By, NoMemory};
use wc_config::CoderId;

/// A registry in its lock, with the number of acquires that it has made. Clauses see the registry.
#[derive(Drop)]
pub struct LockedSlots<C: Coder> {
    slots: Slots<C>,
    acquires: u64,
}

impl<C: Coder> Model for LockedSlots<C> {
    ghost use Rattle.std.specs.Prelude.{◌≡◌};
    ghost use Rattle.slot_registry.specs.Slots.{SlotsValue};
    ghost use Rattle.shared_slots.specs.Boxes.{acquires_in};

    ghost Value = { SlotsValue };

    ghost view = { λ s. s.slots };

    ghost invariant = { λ s. s.acquires ≡ acquires_in s.slots.history };
}

impl<C: Coder> LockedSlots<C> {
    fn new(slots: Slots<C>) -> LockedSlots<C>
        requires { acquires_in slots.history ≡ 0 }
        ensures { result ≡ slots }
    {
        LockedSlots { slots, acquires: 0 }
    }

    // An acquire, with its number among all acquires.
    pub(crate) fn acquire(&mut self, by: By, id: CoderId) -> Result<(SlotBox<C>, u64), AcquireFault>
        ensures least { IfOk result (λ r. IsLeastFree by id self.old r.0) }
        ensures acquired { OnOk result (self.new ≡ acquired by id self.old) }
        ensures number { IfOk result (λ r. r.1 ≡ acquires_in self.old.history) }
        ensures fault { IfErr result (IsFaultOf by id self.old self.new) }
    {
        match self.slots.acquire(by, id) {
            Ok(slot) => {
                let number = self.acquires;
                let _entries = self.slots.entries().len();
                self.acquires = number + 1;
                Ok((slot, number))
            }
            Err(fault) => Err(fault),
        }
    }

    // A box comes back.
    pub(crate) fn give_back(&mut self, by: By, slot: SlotBox<C>)
        requires out { IsHeld self.old slot }
        requires later { is_later slot.by by ≡ true }
        ensures given { self.new ≡ given_back by slot.id slot.number self.old }
    {
        self.slots.give_back(by, slot);
    }

    fn into_slots(self) -> Slots<C>
        ensures { result ≡ self }
    {
        self.slots
    }
}

impl<C: Coder> Told for LockedSlots<C> {
    ghost use Rattle.shared_slots.specs.Boxes.{acquires, gives, IsSlotLog};

    type Entry = SlotEntry;

    type About = Snapshot<Slots<C>>;

    ghost mints = { acquires };

    ghost spends = { gives };

    ghost tells = { λ about x log. IsSlotLog about.value.made x log };
}

/// A seat at a shared registry, with which one thread at a time makes its calls.
pub type SlotSeat<C> = Seat<LockedSlots<C>>;

/// A registry that threads share, each by a seat of its own. Clauses see which lock it is, and the id of each coder that was
/// handed in.
pub struct SlotRegistry<C: Coder> {
    pub(crate) lock: SeatLock<LockedSlots<C>>,
}

impl<C: Coder> Model for SlotRegistry<C> {
    ghost use Rattle.shared_slots.specs.Boxes.{Registry};

    ghost Value = { Registry };

    ghost view = { λ r. record { id = r.lock.id; made = r.lock.about.value.made } };
}

impl<C: Coder> SlotRegistry<C> {
    /// A registry of these coders, none of which is out, and its first seat, which has all 2^32 parts.
    pub fn open(alloc: Global, coders: Vec<C>) -> Result<(SlotRegistry<C>, SlotSeat<C>), NoMemory>
        ensures made { IfOk result (λ r. r.0.made ≡ map C.coder coders.items) }
        ensures seat { IfOk result (λ r. (r.1.table_id ≡ r.0.id) × HasView first_view r.1) }
    {
        let slots = Slots::open(alloc, coders)?;
        let about = Snapshot::of(&slots);
        let (lock, seat) = SeatLock::open(alloc, LockedSlots::new(slots), &about)?;
        Ok((SlotRegistry { lock }, seat))
    }

    /// One part of a seat goes to a new seat, which has seen what it has and has made nothing. It takes no memory.
    pub fn split(&self, seat: &mut SlotSeat<C>) -> SlotSeat<C>
        requires seat { IsIdleAt self.now.id seat.old }
        requires parts { 2 ≤ seat.old.me.0.parts }
        ensures old { Becomes (less_part seat.old.me.0) seat.old seat.new }
        ensures new { (result.table_id ≡ self.now.id) × IsNewSeat seat.old.me.0 result }
    {
        self.lock.split(seat)
    }

    /// A seat takes in another one: its parts, its passages and its claims. It has then seen the longer of both logs. It
    /// takes no memory.
    pub fn join(&self, into: &mut SlotSeat<C>, from: SlotSeat<C>)
        requires into { IsIdleAt self.now.id into.old }
        requires from { IsIdleAt self.now.id from }
        ensures { IsSameSeat into.old into.new × IsUnion into.old.me.0 from.me.0 into.new }
    {
        self.lock.join(into, from);
    }

    /// The registry, once every other seat was joined to this one: it has all 2^32 parts. Its history is what the seat has
    /// seen, each passage of which is of one of the seats that were joined. It takes no memory.
    pub fn finish(self, seat: SlotSeat<C>) -> Slots<C>
        requires seat { IsIdleAt self.id seat }
        requires parts { seat.me.0.parts ≡ 2 ^ 32 }
        ensures made { result.made ≡ self.made }
        ensures history { result.history ≡ entries_of seat.me.0.log }
        ensures all { AllBy seat.me.0.numbers seat.me.0.log }
    {
        let SlotRegistry { lock } = self;
        lock.close(seat).into_slots()
    }
}
