// Where the outputs of a history come from.
ghost use Rattle.std.specs.Prelude.{◌≡◌, ◌+◌, ◌++◌, take, drop, OnOk, IfOk, slice_get};
ghost use Rattle.codec_laws.specs.Sources.{empty_book, given_by, shown_by, gave, after_item, after_ran, after_asked, removed as the_removed, kept as the_kept, book_after, outputs_at, outputs as the_outputs};

use crate::sight::{Ran, Sight};
use crate::source::{Output, Source};
use codec_model::WorkKind;
use std::alloc::Global;
use std::collections::VecDeque;
use std::marker::Model;
use wc_base::{NoMemory, try_push};

// So many of those that wait are shown by a turn.
fn show(
    waiting: &mut VecDeque<Source>,
    count: u64,
    turn: u64,
    out: &mut Vec<Output>,
) -> Result<(), NoMemory>
    ensures out { OnOk result
        (out.new.items ≡ out.old.items ++ shown_by turn (take count waiting.old.items)) }
    ensures waiting { OnOk result (waiting.new.items ≡ drop count waiting.old.items) }
{
    for n in 0..count {
        let Some(source) = waiting.pop_front() else {
            return Ok(());
        };
        try_push(out, Output { source, turn })?;
    }
    Ok(())
}

// An item gives so many outputs; the answer is the index of the next one.
fn give(
    waiting: &mut VecDeque<Source>,
    call: u64,
    configure: u64,
    first: u64,
    units: u64,
) -> Result<u64, NoMemory>
    ensures waiting { OnOk result
        (waiting.new.items ≡ waiting.old.items ++ given_by call configure first units) }
    ensures next { IfOk result (λ n. n ≡ first + units) }
{
    let mut index = first;
    for n in 0..units {
        waiting.reserve(1)?;
        waiting.push_back_reserved(Source {
            call,
            configure,
            index,
        });
        index = index.checked_add(1).ok_or(NoMemory)?;
    }
    Ok(index)
}

/// What is kept of the entries before a place.
#[derive(Drop)]
struct Book {
    place: u64,
    epoch: u64,
    calls: Vec<(u64, WorkKind)>,
    configure: u64,
    given: u64,
    waiting: VecDeque<Source>,
}

impl Model for Book {
    ghost use Rattle.codec_laws.specs.Sources.{Book as Value_of};

    ghost Value = { Value_of };

    ghost view = { λ b. record { place = b.place; epoch = b.epoch; calls = b.calls.items; configure = b.configure; given = b.given; waiting = b.waiting.items } };
}

impl Book {
    fn open(alloc: Global) -> Book
        ensures { result ≡ empty_book }
    {
        Book {
            place: 0,
            epoch: 0,
            calls: Vec::new(alloc),
            configure: 0,
            given: 0,
            waiting: VecDeque::new(alloc),
        }
    }

    fn shows(&mut self, count: u64, out: &mut Vec<Output>) -> Result<(), NoMemory>
        ensures out { OnOk result
            (out.new.items
            ≡ out.old.items ++ shown_by self.old.place (take count self.old.waiting)) }
        ensures book { OnOk result
            (self.new ≡ record self.old { waiting = drop count self.old.waiting }) }
    {
        show(&mut self.waiting, count, self.place, out)
    }

    fn gives(&mut self, call: u64, units: u64) -> Result<(), NoMemory>
        ensures { OnOk result (self.new ≡ gave call units self.old) }
    {
        self.given = give(&mut self.waiting, call, self.configure, self.given, units)?;
        Ok(())
    }

    fn item(&mut self, units: u64, found: Option<(u64, WorkKind)>) -> Result<(), NoMemory>
        ensures { OnOk result (self.new ≡ after_item units found self.old) }
    {
        let Some((call, kind)) = found else {
            return Ok(());
        };
        match kind {
            WorkKind::Configure => {
                self.configure = call;
                self.given = 0;
                Ok(())
            }
            WorkKind::Coded => self.gives(call, units),
            WorkKind::Flush => self.gives(call, units),
        }
    }

    fn call_at(&self, item: u64) -> Option<(u64, WorkKind)>
        ensures { result ≡ slice_get self.now.calls item }
    {
        let item = usize::try_from(item).ok()?;
        self.calls.get(item).copied()
    }

    fn ran(&mut self, ran: Option<Ran>) -> Result<(), NoMemory>
        ensures { OnOk result (self.new ≡ after_ran ran self.old) }
    {
        let Some(ran) = ran else {
            return Ok(());
        };
        if ran.epoch != self.epoch {
            return Ok(());
        }
        let found = self.call_at(ran.item);
        self.item(ran.units, found)
    }

    fn asked(&mut self, asks: Option<WorkKind>) -> Result<(), NoMemory>
        ensures { OnOk result (self.new ≡ after_asked asks self.old) }
    {
        match asks {
            Some(kind) => try_push(&mut self.calls, (self.place, kind)),
            None => Ok(()),
        }
    }

    fn remove(&mut self) -> Result<(), NoMemory>
        ensures { OnOk result (self.new ≡ the_removed self.old) }
    {
        self.place = self.place.checked_add(1).ok_or(NoMemory)?;
        self.epoch = self.epoch.checked_add(1).ok_or(NoMemory)?;
        self.calls.clear();
        self.configure = 0;
        self.given = 0;
        self.waiting.clear();
        Ok(())
    }

    fn keep(&mut self, sight: &Sight, out: &mut Vec<Output>) -> Result<(), NoMemory>
        ensures out { OnOk result (out.new.items ≡ out.old.items ++ outputs_at sight.now self.old) }
        ensures book { OnOk result (self.new ≡ the_kept sight.now self.old) }
    {
        self.shows(sight.outputs, out)?;
        self.ran(sight.ran)?;
        self.asked(sight.asks)?;
        self.place = self.place.checked_add(1).ok_or(NoMemory)?;
        Ok(())
    }

    // One entry more, which shows its outputs before it removes what waits.
    fn pass(&mut self, sight: &Sight, out: &mut Vec<Output>) -> Result<(), NoMemory>
        ensures out { OnOk result (out.new.items ≡ out.old.items ++ outputs_at sight.now self.old) }
        ensures book { OnOk result (self.new ≡ book_after sight.now self.old) }
    {
        match sight.removes {
            Some(_) => {
                show(&mut self.waiting, sight.outputs, self.place, out)?;
                self.remove()
            }
            None => self.keep(sight, out),
        }
    }
}

/// The outputs that entries show, in order, with where they come from.
pub(crate) fn outputs(alloc: Global, seen: &[Sight]) -> Result<Vec<Output>, NoMemory>
    ensures { IfOk result (λ v. v.items ≡ the_outputs seen.now) }
{
    let mut book = Book::open(alloc);
    let mut out = Vec::new(alloc);
    let mut rest = seen;
    while let [sight, more @ ..] = rest {
        book.pass(sight, &mut out)?;
        rest = more;
    }
    Ok(out)
}
