// Starts, ends and turns, until nothing is left.
ghost use Rattle.std.specs.Prelude.{◌≡◌, ◌≤◌, ◌++◌, [], None, IfSome, List};
ghost use Rattle.codec_core.specs.Codec.{state_at};
ghost use Rattle.codec_model.specs.Control.{start_item};
ghost use Rattle.codec_model.specs.declared.entry.Pair.{Pair};
ghost use Rattle.codec_model.specs.Facts.{IsQuiet};
ghost use Rattle.codec_drain.specs.Drains.{AreLive, Ends, box_in, pairs_in, IsAtHome, IsOwnBox, Moves, Drained};

use crate::boxes::{end_of, give};
use crate::ending::{end_all, end_one};
use codec_media::{HoldingCore, Removed};
use codec_model::{never_stuck, references_are_held, steps_leave_fewer};
use coder_api::Coder;
use slot_registry::Slots;
use std::alloc::Global;
use wc_pool::Pool;

// A start, and the end of its item at a moment; how many entries were made.
fn work<C: Coder>(
    alloc: Global,
    core: &mut HoldingCore<C>,
    codec: u32,
    pool: &mut Pool,
    slots: &mut Slots<C>,
    moment: u64,
) -> u64
    requires saturation { 1 ≤ core.old.codec.opening.saturation }
    requires home { IsAtHome codec core.old.codec slots.old pool.old }
    ensures none { result ≡ 0 → start_item (state_at core.old.codec).control ≡ None }
    ensures moves { Moves codec moment core.old.codec core.new.codec slots.new
        pool.old pool.new result }
{
    references_are_held();
    steps_leave_fewer();
    let _segments = core.core().segments();
    let Some(job) = core.start() else {
        return 0;
    };
    let done = end_of(alloc, job, slots, codec);
    let ended = core.done(done, moment);
    end_one(pool, codec, ended.place, ended.media);
    give(slots, codec, ended.place, ended.coder);
    2
}

// What a removal let go, if there was one, by the entry at a place: the references end, and the box goes back.
fn let_go<C: Coder>(
    codec: u32,
    place: u64,
    pool: &mut Pool,
    slots: &mut Slots<C>,
    removed: Option<Removed<C>>,
)
    requires live { AreLive pool.old (pairs_in removed) }
    requires coder { IfSome (box_in removed) (IsOwnBox codec place slots.old) }
    ensures ends { Ends codec (pairs_in removed) pool.old pool.new }
    ensures others { (ps : List Pair) → AreLive pool.old (pairs_in removed ++ ps)
        → AreLive pool.new ps }
    ensures slots { box_in removed ≡ None → slots.new ≡ slots.old }
{
    match removed {
        Some(removed) => {
            end_all(pool, codec, place, removed.media);
            give(slots, codec, place, removed.coder);
        }
        None => {}
    }
}

// A turn; how many entries were made.
fn turn<C: Coder>(
    core: &mut HoldingCore<C>,
    codec: u32,
    pool: &mut Pool,
    slots: &mut Slots<C>,
    moment: u64,
) -> u64
    requires saturation { 1 ≤ core.old.codec.opening.saturation }
    requires home { IsAtHome codec core.old.codec slots.old pool.old }
    ensures none { result ≡ 0 → (state_at core.old.codec).control.tasks ≡ [] }
    ensures moves { Moves codec moment core.old.codec core.new.codec slots.new
        pool.old pool.new result }
{
    references_are_held();
    steps_leave_fewer();
    let _segments = core.core().segments();
    let Some(turned) = core.turn() else {
        return 0;
    };
    let_go(codec, turned.place, pool, slots, turned.removed);
    1
}

// A start with the end of its item, or else a turn; how many entries were made.
fn step<C: Coder>(
    alloc: Global,
    core: &mut HoldingCore<C>,
    codec: u32,
    pool: &mut Pool,
    slots: &mut Slots<C>,
    moment: u64,
) -> u64
    requires saturation { 1 ≤ core.old.codec.opening.saturation }
    requires home { IsAtHome codec core.old.codec slots.old pool.old }
    ensures quiet { result ≡ 0 → IsQuiet (state_at core.old.codec).control }
    ensures moves { Moves codec moment core.old.codec core.new.codec slots.new
        pool.old pool.new result }
{
    never_stuck();
    let worked = work(alloc, core, codec, pool, slots, moment);
    if worked != 0 {
        return worked;
    }
    turn(core, codec, pool, slots, moment)
}

/// Does all that is left to a codec, with items that end at one moment in microseconds: starts, ends and turns, until it is
/// quiet. The answer is how many entries were made, at most as many as were left. A job that lacks a box gets the free one of
/// least number. It ends as out of slots where none is free, and as out of memory where memory is wanted. The codec then holds
/// no reference.
///
/// `codec` is the number of the codec, which stands in the entries of the pool and of the registry. No item is at work, the
/// codec's references are live in the pool, and its box is out by one of its own entries.
pub fn drain<C: Coder>(
    alloc: Global,
    core: &mut HoldingCore<C>,
    codec: u32,
    pool: &mut Pool,
    slots: &mut Slots<C>,
    moment: u64,
) -> u64
    requires saturation { 1 ≤ core.old.codec.opening.saturation }
    requires home { IsAtHome codec core.old.codec slots.old pool.old }
    ensures { Drained codec moment core.old.codec core.new.codec slots.new
        pool.old pool.new result }
{
    never_stuck();
    let _segments = core.core().segments();
    let (before, _, _) = core.core().look();
    let mut made = 1;
    while made != 0 {
        made = step(alloc, core, codec, pool, slots, moment);
    }
    let (after, _, _) = core.core().look();
    after - before
}
