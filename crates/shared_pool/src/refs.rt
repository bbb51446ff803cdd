// References to the resources of a shared pool: each call is one passage.
ghost use Rattle.std.specs.Prelude.{◌≡◌, [], ◌∷◌, IfSome, Some, None, IfOk, OnErr, is_some};
ghost use Rattle.wc_pool.specs.Pools.{made_by, cloned_by, ended_by, with_token, IsCloneOf};
ghost use Rattle.seat_lock.specs.Logs.{Has};
ghost use Rattle.seat_lock.specs.Passages.{passage_of};
ghost use Rattle.seat_lock.specs.Seats.{IsSameSeat, IsIdleAt, Becomes, less_claim};
ghost use Rattle.shared_pool.specs.Refs.{IsPoolRef, KnowsRef};
ghost use Rattle.seat_lock.specs.Since.{MadeSince};
ghost use Rattle.shared_pool.specs.Steps.{KnowsLive, IsFree, TakesRef, ClonePassage, ClonesIn};
ghost use Rattle.shared_pool.specs.Steps.{EndsIn, MakePassage, MakesIn};

use crate::pool::{PoolSeat, SharedPool};
use bytes::Bytes;
use seat_lock::Passage;
use std::snapshot::Snapshot;
use std::sync::Wait;
use wc_base::{By, NoMemory};
use wc_pool::{MediaRef, PoolEntry, PoolOp, RefPool, references_are_apart};

// The passage of a clone: its entry, or a look where there was no memory.
fn clone_passage(by: By, clone: &Result<MediaRef, NoMemory>) -> Passage<Snapshot<PoolEntry>>
    ensures { ClonePassage by clone.now (passage_of result) }
{
    match clone {
        Ok(clone) => Passage::Made(Snapshot::of(&PoolEntry {
            by,
            op: PoolOp::Clone {
                resource: clone.resource(),
                reference: clone.number(),
            },
        })),
        Err(NoMemory) => Passage::Look,
    }
}

// The passage of a make: its entry, or a look where there was no memory.
fn make_passage(by: By, made: &Result<MediaRef, NoMemory>) -> Passage<Snapshot<PoolEntry>>
    ensures { MakePassage by made.now (passage_of result) }
{
    match made {
        Ok(made) => Passage::Made(Snapshot::of(&PoolEntry {
            by,
            op: PoolOp::Make {
                resource: made.resource(),
                reference: made.number(),
            },
        })),
        Err(NoMemory) => Passage::Look,
    }
}

impl SharedPool {
    // The claim of a reference goes to the seat, so that the reference is live in the log of its next passage.
    fn take_in(&self, seat: &mut PoolSeat, r: &mut MediaRef)
        requires seat { IsFree self.now seat.old }
        requires token { IsPoolRef self.now r.old }
        ensures same { IsSameSeat seat.old seat.new }
        ensures taken { TakesRef r.old seat.old seat.new }
        ensures rest { r.new ≡ with_token None r.old }
    {
        let Some(token) = r.take_token() else {
            unreachable!()
        };
        self.lock.join_token(seat, token);
    }

    // The claim of a reference goes from the seat back to it.
    fn give_out(&self, seat: &mut PoolSeat, r: &mut MediaRef)
        requires seat { IsIdleAt self.now seat.old }
        requires claim { Has r.old.number seat.old.me.0.claims }
        requires known { KnowsLive r.old seat.old.me.0.log }
        ensures same { IsSameSeat seat.old seat.new }
        ensures given { Becomes (less_claim r.old.number seat.old.me.0) seat.old seat.new }
        ensures token { IsPoolRef self.now r.new }
        ensures rest { with_token None r.new ≡ with_token None r.old }
    {
        let number = r.number();
        r.put_token(self.lock.cut_token(seat, number));
    }

    // One passage of a seat that holds the claim of `r`; then it holds that of the clone too.
    fn clone_in<R: Wait>(
        &self,
        rt: &R,
        seat: &mut PoolSeat,
        by: By,
        r: &mut MediaRef,
    ) -> Result<MediaRef, NoMemory>
        requires seat { IsIdleAt self.now seat.old }
        requires claim { seat.old.me.0.claims ≡ r.old.number ∷ [] }
        requires known { KnowsRef r.old seat.old.me.0.log }
        ensures same { IsSameSeat seat.old seat.new }
        ensures kept { with_token None r.new ≡ with_token None r.old }
        ensures clone { ClonesIn by r.old result seat.old seat.new }
    {
        references_are_apart();
        let mut held = self.lock.enter(rt, seat);
        let clone = held.state().pool.clone_ref(by, r);
        let passage = clone_passage(by, &clone);
        self.lock.leave(seat, held, passage);
        clone
    }

    /// One more reference to the resource of `r`, which is live until it is ended, as `r` still is. It makes one entry.
    /// `NoMemory` makes none. Of `r` all but its token stays as it is.
    pub fn clone_ref<R: Wait>(
        &self,
        rt: &R,
        seat: &mut PoolSeat,
        by: By,
        r: &mut MediaRef,
    ) -> Result<MediaRef, NoMemory>
        requires seat { IsFree self.now seat.old }
        requires of { IsPoolRef self.now r.old }
        ensures same { IsSameSeat seat.old seat.new }
        ensures free { IsFree self.now seat.new }
        ensures made { let since = MadeSince seat.old.me.0 seat.new.me.0 in
            IfOk result (λ q. since (cloned_by by q ∷ [])) }
        ensures clone { IfOk result (IsCloneOf r.old) }
        ensures of { IfOk result (IsPoolRef self.now) }
        ensures err { OnErr result (MadeSince seat.old.me.0 seat.new.me.0 []) }
        ensures rest { with_token None r.new ≡ with_token None r.old }
        ensures still { IsPoolRef self.now r.new }
    {
        self.take_in(seat, r);
        match self.clone_in(rt, seat, by, r) {
            Ok(mut clone) => {
                self.give_out(seat, r);
                self.give_out(seat, &mut clone);
                Ok(clone)
            }
            Err(NoMemory) => {
                self.give_out(seat, r);
                Err(NoMemory)
            }
        }
    }

    // One passage; then the seat holds the claim of the reference.
    fn make_in<R: Wait>(
        &self,
        rt: &R,
        seat: &mut PoolSeat,
        by: By,
        bytes: Bytes,
    ) -> Result<MediaRef, NoMemory>
        requires seat { IsFree self.now seat.old }
        ensures same { IsSameSeat seat.old seat.new }
        ensures make { MakesIn by result seat.old seat.new }
        ensures bytes { IfOk result (λ r. r.bytes ≡ bytes) }
    {
        let mut held = self.lock.enter(rt, seat);
        let made = held.state().pool.make(by, bytes);
        let passage = make_passage(by, &made);
        self.lock.leave(seat, held, passage);
        made
    }

    /// A new resource with these bytes, and its first reference. It makes one entry. `NoMemory` makes none.
    pub fn make<R: Wait>(
        &self,
        rt: &R,
        seat: &mut PoolSeat,
        by: By,
        bytes: Bytes,
    ) -> Result<MediaRef, NoMemory>
        requires seat { IsFree self.now seat.old }
        ensures same { IsSameSeat seat.old seat.new }
        ensures free { IsFree self.now seat.new }
        ensures made { let since = MadeSince seat.old.me.0 seat.new.me.0 in
            IfOk result (λ q. since (made_by by q ∷ [])) }
        ensures bytes { IfOk result (λ q. q.bytes ≡ bytes) }
        ensures of { IfOk result (IsPoolRef self.now) }
        ensures err { OnErr result (MadeSince seat.old.me.0 seat.new.me.0 []) }
    {
        match self.make_in(rt, seat, by, bytes) {
            Ok(mut made) => {
                self.give_out(seat, &mut made);
                Ok(made)
            }
            Err(NoMemory) => Err(NoMemory),
        }
    }

    // One passage, which spends the claim of `r`.
    fn end_in<R: Wait>(&self, rt: &R, seat: &mut PoolSeat, by: By, r: MediaRef) -> Option<Bytes>
        requires seat { IsIdleAt self.now seat.old }
        requires claim { seat.old.me.0.claims ≡ r.number ∷ [] }
        requires known { KnowsRef r seat.old.me.0.log }
        ensures same { IsSameSeat seat.old seat.new }
        ensures end { EndsIn by r (is_some result) seat.old seat.new }
        ensures bytes { IfSome result (λ b. b ≡ r.bytes) }
    {
        references_are_apart();
        let resource = r.resource();
        let reference = r.number();
        let mut held = self.lock.enter(rt, seat);
        let bytes = held.state().pool.end(by, r);
        let last = bytes.is_some();
        let op = PoolOp::End {
            resource,
            reference,
            last,
        };
        self.lock.leave(
            seat,
            held,
            Passage::Made(Snapshot::of(&PoolEntry { by, op })),
        );
        bytes
    }

    /// Ends a reference, by one entry. The answer is `Some`, with the resource's bytes, exactly where it was the last one to
    /// its resource, which is given back then. It takes no memory.
    pub fn end<R: Wait>(
        &self,
        rt: &R,
        seat: &mut PoolSeat,
        by: By,
        mut r: MediaRef,
    ) -> Option<Bytes>
        requires seat { IsFree self.now seat.old }
        requires of { IsPoolRef self.now r }
        ensures same { IsSameSeat seat.old seat.new }
        ensures free { IsFree self.now seat.new }
        ensures ended { let since = MadeSince seat.old.me.0 seat.new.me.0 in
            since (ended_by by r (is_some result) ∷ []) }
        ensures bytes { IfSome result (λ b. b ≡ r.bytes) }
    {
        self.take_in(seat, &mut r);
        self.end_in(rt, seat, by, r)
    }
}
