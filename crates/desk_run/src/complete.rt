// A desk that is worked on until nothing is left to do, and finished.
ghost use Rattle.std.specs.Prelude.{◌≡◌, ◌+◌, ◌^◌, ◌≤◌, [], length, vec_capacity};
ghost use Rattle.codec_desk.specs.Desks.{SitAt};
ghost use Rattle.codec_desk.specs.Runs.{EachRunsNone};
ghost use Rattle.desk_threads.specs.Accounts.{Balanced};
ghost use Rattle.desk_threads.specs.Orders.{InOrder};
ghost use Rattle.desk_threads.specs.Parts.{HaveParts};
ghost use Rattle.desk_run.specs.Finished.{IsComplete};

use crate::finishing::{Finished, finish_desk};
use crate::workers::run_workers;
use codec_desk::{Clock, Desk, Gate, Seats, Watch};
use codec_media::HoldingCore;
use coder_api::Coder;
use desk_threads::{accounts_are_kept, calls_are_kept, order_stands, rest_is_quiet};
use std::alloc::Global;
use std::sync::Wait;
use std::thread::Threads;

/// A turner and workers do all that is left to do on a desk, and it is finished. Each codec is then
/// quiet. What the codecs' histories call for in the registry and in the pool was done there for
/// them, and nothing else, and for each entry in the order in which it calls for it. No further
/// call of a caller was made. Before, the seats have all 2^32 parts, their account is balanced and
/// in order, and none of their own items is at work. `cores` is empty, and has room for each codec.
pub fn complete_desk<
    C: Coder,
    K: Clock + Send + Drop,
    G: Gate + Send + Drop,
    R: Threads + Wait + Sync,
>(
    rt: &R,
    alloc: Global,
    desk: Desk<C>,
    mut seats: Seats<C>,
    watches: Vec<Watch<K, G>>,
    clock: &mut K,
    gate: &mut G,
    cores: Vec<HoldingCore<C>>,
) -> Finished<C>
    requires sits { SitAt desk seats }
    requires parts { HaveParts (2 ^ 32) seats }
    requires few { length watches.items + 1 ≤ 2 ^ 32 }
    requires balanced { Balanced desk seats }
    requires order { InOrder desk seats }
    requires runs { EachRunsNone desk.codecs.items seats.codecs.items }
    requires empty { cores.items ≡ [] }
    requires room { length desk.codecs.items ≤ vec_capacity cores }
    ensures { IsComplete desk seats result }
{
    accounts_are_kept::<C>();
    calls_are_kept::<C>();
    order_stands::<C>();
    rest_is_quiet::<C>();
    run_workers(rt, alloc, &desk, &mut seats, watches, clock, gate);
    finish_desk(desk, seats, cores)
}
