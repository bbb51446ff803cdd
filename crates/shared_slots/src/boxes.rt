// The boxes of a shared registry: each goes out and comes back by one passage.
ghost use Rattle.std.specs.Prelude.{◌≡◌, ℕ, true, None, IfOk};
ghost use Rattle.coder_api.specs.Lent.{with_token};
ghost use Rattle.slot_registry.specs.Slots.{is_later};
ghost use Rattle.seat_lock.specs.Logs.{Has};
ghost use Rattle.seat_lock.specs.Passages.{passage_of};
ghost use Rattle.seat_lock.specs.Seats.{IsSameSeat, IsIdleAt, Becomes, less_claim};
ghost use Rattle.shared_slots.specs.Boxes.{IsOut};
ghost use Rattle.shared_slots.specs.Steps.{IsFree, TakesBox, HoldsBox, HasOut, AcquirePassage};
ghost use Rattle.shared_slots.specs.Steps.{AcquiresIn, AcquireTells, GivesIn, Gave};

use crate::registry::{SlotRegistry, SlotSeat};
use coder_api::{Coder, SlotBox, SlotEntry, SlotOp};
use seat_lock::Passage;
use slot_registry::AcquireFault;
use std::snapshot::Snapshot;
use std::sync::Wait;
use wc_base::By;
use wc_config::CoderId;

// The passage of an acquire: its entry, or a look where there was no memory.
fn acquire_passage<C: Coder>(
    by: By,
    id: CoderId,
    acquired: &Result<(SlotBox<C>, u64), AcquireFault>,
) -> Passage<Snapshot<SlotEntry>>
    ensures { AcquirePassage by id acquired.now (passage_of result) }
{
    match acquired {
        Ok((slot, _)) => Passage::Made(Snapshot::of(&SlotEntry {
            by,
            op: SlotOp::Acquire {
                id,
                number: slot.number(),
            },
        })),
        Err(AcquireFault::NoSlot { out, made, .. }) => Passage::Made(Snapshot::of(&SlotEntry {
            by,
            op: SlotOp::Refused {
                id,
                out: *out,
                made: *made,
            },
        })),
        Err(AcquireFault::NoMemory) => Passage::Look,
    }
}

impl<C: Coder> SlotRegistry<C> {
    // The claim of a box goes to the seat, so that the box is out in the log of its next passage.
    fn take_in(&self, seat: &mut SlotSeat<C>, slot: &mut SlotBox<C>)
        requires seat { IsFree self.now.id seat.old }
        requires token { IsOut self.now.id slot.old }
        ensures same { IsSameSeat seat.old seat.new }
        ensures taken { TakesBox slot.old seat.old seat.new }
        ensures rest { slot.new ≡ with_token None slot.old }
    {
        let Some(token) = slot.take_token() else {
            unreachable!()
        };
        self.lock.join_token(seat, token);
    }

    // The claim of a box goes from the seat to it.
    fn give_out(&self, seat: &mut SlotSeat<C>, slot: &mut SlotBox<C>, claim: u64)
        requires seat { IsIdleAt self.now.id seat.old }
        requires claim { HasOut claim slot.old seat.old }
        ensures same { IsSameSeat seat.old seat.new }
        ensures given { Becomes (less_claim claim seat.old.me.0) seat.old seat.new }
        ensures token { IsOut self.now.id slot.new }
        ensures rest { with_token None slot.new ≡ with_token None slot.old }
    {
        slot.put_token(self.lock.cut_token(seat, claim));
    }

    // One passage; then the seat holds the claim of the box.
    fn acquire_in<R: Wait>(
        &self,
        rt: &R,
        seat: &mut SlotSeat<C>,
        by: By,
        id: CoderId,
    ) -> Result<(SlotBox<C>, u64), AcquireFault>
        requires seat { IsFree self.now.id seat.old }
        ensures same { IsSameSeat seat.old seat.new }
        ensures acquired { AcquiresIn self.now.made by id result seat.old seat.new }
    {
        let mut held = self.lock.enter(rt, seat);
        let acquired = held.state().acquire(by, id);
        let passage = acquire_passage(by, id, &acquired);
        self.lock.leave(seat, held, passage);
        acquired
    }

    /// The free box of least number of an id goes out, by one passage. `NoSlot` comes, with an entry, exactly where all boxes
    /// of the id are out in a history that begins with what the seat had seen. `NoMemory` makes no entry.
    pub fn acquire<R: Wait>(
        &self,
        rt: &R,
        seat: &mut SlotSeat<C>,
        by: By,
        id: CoderId,
    ) -> Result<SlotBox<C>, AcquireFault>
        requires seat { IsFree self.now.id seat.old }
        ensures same { IsSameSeat seat.old seat.new }
        ensures free { IsFree self.now.id seat.new }
        ensures out { IfOk result (IsOut self.now.id) }
        ensures acquired { AcquireTells self.now.made by id result seat.old.me.0 seat.new.me.0 }
    {
        match self.acquire_in(rt, seat, by, id) {
            Ok((mut slot, claim)) => {
                self.give_out(seat, &mut slot, claim);
                Ok(slot)
            }
            Err(fault) => Err(fault),
        }
    }

    // One passage, which spends the claim of the box.
    fn give_in<R: Wait>(&self, rt: &R, seat: &mut SlotSeat<C>, by: By, slot: SlotBox<C>)
        requires seat { IsIdleAt self.now.id seat.old }
        requires claim { (claim : ℕ) × HoldsBox claim slot seat.old }
        requires later { is_later slot.by by ≡ true }
        ensures same { IsSameSeat seat.old seat.new }
        ensures given { GivesIn self.now.made by slot seat.old seat.new }
    {
        let id = slot.id();
        let number = slot.number();
        let mut held = self.lock.enter(rt, seat);
        held.state().give_back(by, slot);
        let op = SlotOp::Give { id, number };
        self.lock.leave(
            seat,
            held,
            Passage::Made(Snapshot::of(&SlotEntry { by, op })),
        );
    }

    /// A box comes back, by one passage, and by a later entry of the codec that acquired it.
    pub fn give_back<R: Wait>(&self, rt: &R, seat: &mut SlotSeat<C>, by: By, mut slot: SlotBox<C>)
        requires seat { IsFree self.now.id seat.old }
        requires out { IsOut self.now.id slot }
        requires later { is_later slot.by by ≡ true }
        ensures same { IsSameSeat seat.old seat.new }
        ensures free { IsFree self.now.id seat.new }
        ensures given { Gave self.now.made by slot seat.old.me.0 seat.new.me.0 }
    {
        self.take_in(seat, &mut slot);
        self.give_in(rt, seat, by, slot);
    }
}
