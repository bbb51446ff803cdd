//! The port, and the passes of the threads that share it.
ghost use Rattle.std.specs.Prelude.{◌≡◌, ◌^◌, ◌<◌, ◌≤◌, List, [], Some, IfOk, IfErr, OnOk, OnErr, IfSome};
ghost use Rattle.crossbeam_queue.specs.SegSteps.{IsRefused};
ghost use Rattle.crossbeam_queue.specs.SegTies.{IsSegPassOf};
ghost use Rattle.shared_port.specs.Mouths.{IsMouth, view_of};
ghost use Rattle.shared_port.specs.Ports.{IsPassOf, seen};
ghost use Rattle.shared_port.specs.Steps.{Posts, ReceiveTells, Finishes};
ghost use Rattle.shared_port.specs.Views.{Posted, first_view, first_in, mouth_view, less_part};
ghost use Rattle.shared_port.specs.Views.{one_part, joined, with_mouth, without_mouth};

use crate::carried::Carried;
use crate::mouth::{About, Line, LinePass, Mouth};
use crate::rest::PortRest;
use crate::rule::{GiveMouth, Opening, PartSplit, PoolPick, Post, Receive, TakeMouth, ViewJoin};
use seat_lock::{Held, Passage, Seat, SeatLock};
use shared_pool::SharedPool;
use std::alloc::Global;
use std::marker::{Brand, Model};
use std::snapshot::Snapshot;
use std::sync::Wait;
use wc_base::{NoMemory, Who};

/// A pass of a port, with which one thread at a time makes its calls. It has no bytes. Of a pass that is dropped the parts
/// are lost, so that its port cannot be finished any more.
#[derive(Drop)]
pub struct PortPass<M: Carried> {
    pub(crate) line: LinePass<M>,
    pub(crate) seat: Seat<Mouth<M>>,
}

/// A port between threads: a line of media of one shared pool, each with the step that posted it. Posts go to the line's end
/// with no lock, and receives take turns at its mouth. Contracts see which queue and which lock it stands on, and its pool.
pub struct SharedPort<M: Carried> {
    line: Line<M>,
    mouth: SeatLock<Mouth<M>>,
}

impl<M: Carried> Model for SharedPort<M> {
    ghost use Rattle.std.specs.Prelude.{◌≡◌};
    ghost use Rattle.shared_port.specs.Ports.{PortId};

    ghost Value = { PortId };

    ghost view = { λ p. record { line = p.line; lock = p.mouth.id; pool = p.mouth.about.pool.value } };

    ghost invariant = { λ p. p.mouth.about.line.value ≡ p.line };
}

// The first pass of a line learns the port's pool, and gives the mouth away.
fn give_pool<M: Carried + Drop, W: PoolPick>(
    line: &Line<M>,
    pass: &mut LinePass<M>,
    pool: &SharedPool,
) -> LinePass<M>
    requires pick { W.pool ≡ Some pool.now }
    requires pass { IsSegPassOf line.now pass.old × (view_of pass.old ≡ first_view) }
    ensures pass { IsSegPassOf line.now pass.new × (view_of pass.new ≡ first_in pool.now) }
    ensures mouth { IsSegPassOf line.now result × (view_of result ≡ mouth_view []) }
{
    let _ = pool;
    line.another::<Opening<W>>(pass)
}

// Passes
impl<M: Carried + Drop> SharedPort<M> {
    /// A port for what is of this pool, with nothing posted, and its first pass, which has all 2^32 parts.
    pub fn open(alloc: Global, pool: &SharedPool) -> Result<(SharedPort<M>, PortPass<M>), NoMemory>
        ensures pool { IfOk result (λ r. r.0.pool ≡ pool.now) }
        ensures pass { IfOk result (λ r. IsPassOf r.0 r.1 × (seen r.1 ≡ first_in pool.now)) }
    {
        let Ok((queue, mut line)) = Line::<M>::with_rule(alloc) else {
            return Err(NoMemory);
        };
        let mouth = give_pool::<M, Brand>(&queue, &mut line, pool);
        let mouth = Mouth { pass: Some(mouth) };
        let about = About {
            line: Snapshot::of(&queue),
            pool: Snapshot::of(pool),
        };
        let Ok((mouth, seat)) = SeatLock::open(alloc, mouth, &about) else {
            queue.destroy();
            return Err(NoMemory);
        };
        let port = SharedPort { line: queue, mouth };
        Ok((port, PortPass { line, seat }))
    }

    /// One part of a pass goes to a new pass, which has posted and received nothing. It takes no memory.
    pub fn split(&self, pass: &mut PortPass<M>) -> PortPass<M>
        requires pass { IsPassOf self.now pass.old }
        requires parts { 2 ≤ (seen pass.old).parts }
        ensures old { IsPassOf self.now pass.new × (seen pass.new ≡ less_part (seen pass.old)) }
        ensures new { IsPassOf self.now result × (seen result ≡ one_part (seen pass.old)) }
    {
        let seat = self.mouth.split(&mut pass.seat);
        let line = self.line.another::<PartSplit>(&mut pass.line);
        PortPass { line, seat }
    }

    /// A pass takes in another one: its parts, and what it posted, received and knows. It takes no memory.
    pub fn join(&self, into: &mut PortPass<M>, from: PortPass<M>)
        requires into { IsPassOf self.now into.old }
        requires from { IsPassOf self.now from }
        ensures pass { IsPassOf self.now into.new }
        ensures both { seen into.new ≡ joined (seen into.old) (seen from) }
    {
        let PortPass { line, seat } = from;
        self.mouth.join(&mut into.seat, seat);
        self.line.absorb::<ViewJoin>(&mut into.line, line);
    }

    /// The rest of a port, once every other pass was joined to this one: it has all 2^32 parts. It takes no memory.
    pub fn finish<R: Wait>(self, rt: &R, pass: PortPass<M>) -> PortRest<M>
        requires pass { IsPassOf self pass }
        requires parts { (seen pass).parts ≡ 2 ^ 32 }
        ensures { Finishes (seen pass) result }
    {
        let SharedPort { line: queue, mouth } = self;
        let PortPass { mut line, seat } = pass;
        let Mouth { pass } = mouth.close(seat);
        queue.absorb::<TakeMouth>(&mut line, pass.unwrap());
        queue.len_as::<Receive, R>(rt, &mut line);
        PortRest::new(queue, line)
    }
}

// Media
impl<M: Carried + Drop> SharedPort<M> {
    /// A medium goes to the end of the port's line. `Err` hands it back, where there is no memory, and nothing was posted.
    pub fn post<R: Wait>(
        &self,
        rt: &R,
        pass: &mut PortPass<M>,
        who: Who,
        medium: M,
    ) -> Result<(), M>
        requires pass { IsPassOf self.now pass.old }
        requires of { M.is_of self.now.pool medium }
        ensures pass { IsPassOf self.now pass.new }
        ensures posted { OnOk result (Posts (who, medium) (seen pass.old) (seen pass.new)) }
        ensures back { IfErr result (λ m. (m ≡ medium) × (seen pass.new ≡ seen pass.old)) }
        ensures refused { OnErr result (IsRefused pass.new.line.me.view) }
    {
        match self
            .line
            .push_as::<Post, R>(rt, &mut pass.line, (who, medium))
        {
            Ok(()) => Ok(()),
            Err((_, medium)) => Err(medium),
        }
    }

    // A pass takes the mouth, in the passage of its seat.
    fn take_mouth(&self, held: &mut Held<Mouth<M>>, pass: &mut LinePass<M>)
        requires mouth { IsMouth self.now.line held.old }
        requires pass { IsSegPassOf self.now.line pass.old × ((view_of pass.old).mouths ≡ 0) }
        requires parts { 0 < (view_of pass.old).parts }
        ensures pass { IsSegPassOf self.now.line pass.new }
        ensures taken { (got : List (Posted M)) × (view_of pass.new ≡ with_mouth (view_of pass.old) (mouth_view got)) }
    {
        let Some(mouth) = held.state().pass.take() else {
            unreachable!()
        };
        self.line.absorb::<TakeMouth>(pass, mouth);
    }

    // A pass gives the mouth back.
    fn give_mouth(&self, held: &mut Held<Mouth<M>>, pass: &mut LinePass<M>)
        requires pass { IsSegPassOf self.now.line pass.old × ((view_of pass.old).mouths ≡ 1) }
        requires parts { 0 < (view_of pass.old).parts }
        ensures mouth { IsMouth self.now.line held.new }
        ensures pass { IsSegPassOf self.now.line pass.new }
        ensures given { view_of pass.new ≡ without_mouth (view_of pass.old) }
    {
        let mouth = self.line.another::<GiveMouth>(pass);
        held.state().pass = Some(mouth);
    }

    /// The first medium of the port's line, with the step that posted it. `None` comes only where nothing was left at one
    /// moment of the call, and the pass knows from then on that all it had posted was received. It takes no memory.
    pub fn receive<R: Wait>(&self, rt: &R, pass: &mut PortPass<M>) -> Option<(Who, M)>
        requires pass { IsPassOf self.now pass.old }
        ensures pass { IsPassOf self.now pass.new }
        ensures received { ReceiveTells M.is_of result (seen pass.old) (seen pass.new) }
        ensures of { IfSome result (λ x. M.is_of self.now.pool x.1) }
    {
        let mut held = self.mouth.enter(rt, &mut pass.seat);
        self.take_mouth(&mut held, &mut pass.line);
        let received = self.line.pop_as::<Receive, R>(rt, &mut pass.line);
        self.give_mouth(&mut held, &mut pass.line);
        self.mouth.leave(&mut pass.seat, held, Passage::Look);
        received
    }
}
