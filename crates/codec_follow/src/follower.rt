// A codec whose history is followed.
ghost use Rattle.std.specs.Prelude.{◌≡◌, ◌<◌, ◌+◌, ◌^◌, IfOk, IfNone, Some};
ghost use Rattle.wc_base.specs.declared.who.Who.{Who};
ghost use Rattle.codec_model.specs.declared.entry.Entry.TheVariants as entry;
ghost use Rattle.codec_model.specs.Control.{left};
ghost use Rattle.codec_model.specs.Replay.{opening_state};
ghost use Rattle.codec_model.specs.Shown.{shown_of};
ghost use Rattle.codec_follow.specs.Followed.{follower_of, Follows};

use crate::ends::{ended_as, known_after_call, known_after_item, nothing_known};
use crate::known::Known;
use codec_model::{Answer, Call, Entry, Opening, Outcome, Showing, Shown};
use codec_queues::Machine;
use std::alloc::Global;
use std::marker::Model;
use wc_base::NoMemory;

/// A codec whose history is told entry by entry, and is followed: each end of an item is taken as it stands, and each
/// output is blank. A contract sees it as what it keeps of the state of the codec's definition.
#[derive(Drop)]
pub struct Follower {
    alloc: Global,
    machine: Machine,
    // Of the config that was last given in this epoch.
    known: Known,
    // The same up to the running item.
    running_known: Known,
}

impl Model for Follower {
    ghost use Rattle.codec_follow.specs.Followed.{FollowerValue};

    ghost Value = { FollowerValue };

    ghost view = { λ f. record { control = f.machine; known = f.known; running_known = f.running_known } };
}

impl Follower {
    /// The follower of a codec that was opened.
    pub fn open(alloc: Global, opening: Opening) -> Result<Follower, NoMemory>
        ensures { IfOk result (λ f. f ≡ follower_of (opening_state opening)) }
    {
        let machine = Machine::open(alloc, opening)?;
        Ok(Follower {
            alloc,
            machine,
            known: nothing_known(),
            running_known: nothing_known(),
        })
    }

    /// How many coded messages wait.
    pub fn size(&self) -> u64
        ensures { result ≡ self.now.control.size }
    {
        self.machine.size()
    }

    /// How many starts, ends and turns are left at most. Counting them uses the follower up.
    pub fn into_left(self) -> u64
        ensures { result ≡ left self.control }
    {
        self.machine.into_left()
    }

    /// The next entry: what it shows, with blanks for its outputs. `None` exactly where it does not follow, and then
    /// nothing has changed. An end takes memory for each unit that it tells. After `NoMemory` the follower is of no use.
    pub fn follow(&mut self, entry: &Entry) -> Result<Option<Shown>, NoMemory>
        ensures follows { IfOk result (λ shown. Follows entry.now self.old shown self.new) }
        ensures same { IfOk result (λ shown. IfNone shown (self.new ≡ self.old)) }
    {
        // No memory holds as many entries.
        if self.machine.place() == u64::MAX {
            return Err(NoMemory);
        }
        match entry {
            Entry::Call { who: _, call } => self.call(call),
            Entry::Start { epoch, item } => self.start(*epoch, *item),
            Entry::Done {
                epoch,
                item,
                moment,
                outcome,
            } => self.done(*epoch, *item, *moment, *outcome),
            Entry::Turn => self.turn(),
            Entry::Reclaim { moment } => self.reclaim(*moment),
        }
    }

    // A call, refused or made, where it can be made.
    fn call(&mut self, call: &Call) -> Result<Option<Shown>, NoMemory>
        requires { self.old.control.place + 1 < 2 ^ 64 }
        ensures follows { IfOk result
            (λ shown. (who : Who) → Follows (entry.Call who call.now) self.old shown self.new) }
        ensures same { IfOk result (λ shown. IfNone shown (self.new ≡ self.old)) }
    {
        if !self.machine.may_call(call) {
            return Ok(None);
        }
        let error = self.machine.error_of(call);
        let answer = self.machine.call(call)?;
        self.known = known_after_call(call, error, self.known);
        let shown = answer.showing.into_shown(self.alloc)?;
        Ok(Some(shown))
    }

    // A start of the item with this number, in this epoch.
    fn start(&mut self, epoch: u64, item: u64) -> Result<Option<Shown>, NoMemory>
        requires { self.old.control.place + 1 < 2 ^ 64 }
        ensures follows { IfOk result
            (λ shown. Follows (entry.Start epoch item) self.old shown self.new) }
        ensures same { IfOk result (λ shown. IfNone shown (self.new ≡ self.old)) }
    {
        let Some(next) = self.machine.start_item() else {
            return Ok(None);
        };
        if epoch != self.machine.epoch() || item != next.number {
            return Ok(None);
        }
        let known = known_after_item(&next.work, self.known);
        self.machine.start();
        self.known = known;
        self.running_known = known;
        Ok(Some(Showing::Nothing.into_shown(self.alloc)?))
    }

    // The end of the item with this number, in this epoch.
    fn done(
        &mut self,
        epoch: u64,
        item: u64,
        moment: u64,
        outcome: Outcome,
    ) -> Result<Option<Shown>, NoMemory>
        requires { self.old.control.place + 1 < 2 ^ 64 }
        ensures follows { IfOk result
            (λ shown. Follows (entry.Done epoch item moment outcome) self.old shown self.new) }
        ensures same { IfOk result (λ shown. IfNone shown (self.new ≡ self.old)) }
    {
        let Some(running) = self.machine.running() else {
            return Ok(None);
        };
        if running.epoch != epoch || running.number != item {
            return Ok(None);
        }
        let known = self.running_known;
        let Some(ended) = ended_as(self.alloc, running.kind, known, outcome)? else {
            return Ok(None);
        };
        // Blanks carry no config.
        self.machine.done(ended, moment, None);
        Ok(Some(Showing::Nothing.into_shown(self.alloc)?))
    }

    // A turn.
    fn turn(&mut self) -> Result<Option<Shown>, NoMemory>
        requires { self.old.control.place + 1 < 2 ^ 64 }
        ensures follows { IfOk result (λ shown. Follows entry.Turn self.old shown self.new) }
        ensures same { IfOk result (λ shown. IfNone shown (self.new ≡ self.old)) }
    {
        let Some(answer) = self.machine.turn() else {
            return Ok(None);
        };
        if answer.showing.closes() {
            self.known = nothing_known();
        }
        self.show(answer)
    }

    // A reclaim at a moment in microseconds.
    fn reclaim(&mut self, moment: u64) -> Result<Option<Shown>, NoMemory>
        requires { self.old.control.place + 1 < 2 ^ 64 }
        ensures follows { IfOk result
            (λ shown. Follows (entry.Reclaim moment) self.old shown self.new) }
        ensures same { IfOk result (λ shown. IfNone shown (self.new ≡ self.old)) }
    {
        let Some(answer) = self.machine.reclaim(moment) else {
            return Ok(None);
        };
        self.known = nothing_known();
        self.show(answer)
    }

    // What a step showed.
    fn show(&self, answer: Answer) -> Result<Option<Shown>, NoMemory>
        ensures { IfOk result (λ shown. shown ≡ Some (shown_of answer.showing)) }
    {
        Ok(Some(answer.showing.into_shown(self.alloc)?))
    }
}
