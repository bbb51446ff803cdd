// Seats at all locks of a desk, split off and joined.
ghost use Rattle.std.specs.Prelude.{ℕ, ◌≡◌, ◌+◌, ◌-◌, ◌≤◌, ◌++◌, List, [], length, vec_capacity};
ghost use Rattle.shared_codec.specs.Dues.{Called};
ghost use Rattle.codec_desk.specs.Desks.{SitAt};
ghost use Rattle.codec_desk.specs.Runs.{EachRunsNone};
ghost use Rattle.desk_threads.specs.Accounts.{Balanced, Named};
ghost use Rattle.desk_threads.specs.Parts.{HaveParts, AreSplit, AreTakenIn};

use codec_desk::{Desk, Seats};
use coder_api::Coder;
use shared_codec::{CodecSeat, dues_add_up};

/// One part of each seat of a thread becomes a seat of another thread, which has seen what the seat has and has made nothing.
/// `codecs` is empty, and has room for a seat at each codec. It takes no memory.
pub fn split_seats<C: Coder>(
    desk: &Desk<C>,
    seats: &mut Seats<C>,
    mut codecs: Vec<CodecSeat<C>>,
) -> Seats<C>
    requires sits { SitAt desk.now seats.old }
    requires parts { HaveParts seats.old.pool.me.0.parts seats.old }
    requires two { 2 ≤ seats.old.pool.me.0.parts }
    requires empty { codecs.items ≡ [] }
    requires room { length desk.now.codecs.items ≤ vec_capacity codecs }
    ensures split { AreSplit desk.now seats.old seats.new result }
    ensures sits { SitAt desk.now seats.new × SitAt desk.now result }
    ensures parts { HaveParts (seats.old.pool.me.0.parts - 1) seats.new × HaveParts 1 result }
    ensures balanced { Balanced desk.now seats.old → Balanced desk.now seats.new }
    ensures new { Balanced desk.now result }
    ensures calls { (calls : List Called) → Named desk.now calls seats.old
        → Named desk.now calls seats.new }
    ensures new_calls { Named desk.now [] result }
    ensures runs { EachRunsNone desk.now.codecs.items seats.old.codecs.items
        → EachRunsNone desk.now.codecs.items seats.new.codecs.items }
    ensures new_runs { EachRunsNone desk.now.codecs.items result.codecs.items }
{
    let pool = desk.pool.split(&mut seats.pool);
    let slots = desk.slots.split(&mut seats.slots);
    for codec in 0..desk.codecs.len() {
        let seat = desk.codecs[codec].split(&mut seats.codecs[codec]);
        codecs.push_reserved(seat);
    }
    Seats {
        codecs,
        pool,
        slots,
    }
}

/// Each seat of a thread takes in that of another thread: its parts and its passages. It has then seen the longer of both logs.
/// It takes no memory.
pub fn join_seats<C: Coder>(desk: &Desk<C>, seats: &mut Seats<C>, other: Seats<C>)
    requires sits { SitAt desk.now seats.old }
    requires other { SitAt desk.now other }
    ensures joined { AreTakenIn desk.now seats.old other seats.new }
    ensures sits { SitAt desk.now seats.new }
    ensures parts { (m n : ℕ) → HaveParts m seats.old → HaveParts n other
        → HaveParts (m + n) seats.new }
    ensures balanced { Balanced desk.now seats.old → Balanced desk.now other
        → Balanced desk.now seats.new }
    ensures calls { (xs ys : List Called) → Named desk.now xs seats.old
        → Named desk.now ys other → Named desk.now (xs ++ ys) seats.new }
    ensures runs { EachRunsNone desk.now.codecs.items seats.old.codecs.items
        → EachRunsNone desk.now.codecs.items other.codecs.items
        → EachRunsNone desk.now.codecs.items seats.new.codecs.items }
{
    dues_add_up();
    let Seats {
        mut codecs,
        pool,
        slots,
    } = other;
    desk.pool.join(&mut seats.pool, pool);
    desk.slots.join(&mut seats.slots, slots);
    while let Some(seat) = codecs.pop() {
        let codec = codecs.len();
        desk.codecs[codec].join(&mut seats.codecs[codec], seat);
    }
}
