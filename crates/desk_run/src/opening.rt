// The beginning of a desk.
ghost use Rattle.std.specs.Prelude.{ℕ, ◌≡◌, ◌+◌, ◌<◌, ◌^◌, ◌≤◌, [], length, map, Some, slice_get, vec_capacity, IfOk};
ghost use Rattle.codec_desk.specs.Each.{Pairs};
ghost use Rattle.desk_run.specs.Opened.{IsBare, IsOpenedAt, IsOpened, MayOpen};

use crate::finishing::finish_desk;
use codec_desk::{Desk, Seats};
use codec_model::Opening;
use coder_api::Coder;
use shared_codec::SharedCodec;
use shared_pool::SharedPool;
use shared_slots::SlotRegistry;
use std::alloc::Global;
use wc_base::NoMemory;

// A desk with no codec yet, with room for so many, and its first seats.
fn bare_desk<C: Coder>(
    alloc: Global,
    coders: Vec<C>,
    count: usize,
) -> Result<(Desk<C>, Seats<C>), NoMemory>
    ensures { IfOk result (λ r. IsBare (map C.coder coders.items) count r.0 r.1) }
{
    let codec_seats = Vec::with_capacity(alloc, count)?;
    let (pool, pool_seat) = SharedPool::open(alloc)?;
    let (slots, slot_seat) = match SlotRegistry::open(alloc, coders) {
        Ok(opened) => opened,
        Err(NoMemory) => {
            let _ = pool.finish(pool_seat);
            return Err(NoMemory);
        }
    };
    match Vec::with_capacity(alloc, count) {
        Ok(codecs) => {
            let seats = Seats {
                codecs: codec_seats,
                pool: pool_seat,
                slots: slot_seat,
            };
            Ok((
                Desk {
                    codecs,
                    pool,
                    slots,
                },
                seats,
            ))
        }
        Err(_) => {
            let _ = pool.finish(pool_seat);
            let _ = slots.finish(slot_seat);
            Err(NoMemory)
        }
    }
}

// The opening of the codec at this place.
fn opening_at(openings: &[Opening], place: usize) -> Opening
    requires may { MayOpen openings.now }
    requires place { place < length openings.now }
    ensures at { slice_get openings.now place ≡ Some result }
    ensures low { 1 ≤ result.saturation }
    ensures high { result.saturation ≤ 64 }
{
    openings[place]
}

// A codec behind each place of a bare desk, as far as there is memory.
fn open_codecs<C: Coder>(
    alloc: Global,
    openings: &[Opening],
    calls: u64,
    desk: &mut Desk<C>,
    seats: &mut Seats<C>,
) -> Result<(), NoMemory>
    requires may { MayOpen openings.now }
    requires few { length openings.now ≤ 2 ^ 32 }
    requires codecs { (desk.old.codecs.items ≡ [])
        × (length openings.now ≤ vec_capacity desk.old.codecs) }
    requires seats { (seats.old.codecs.items ≡ [])
        × (length openings.now ≤ vec_capacity seats.old.codecs) }
    ensures pool { (desk.new.pool ≡ desk.old.pool) × (seats.new.pool ≡ seats.old.pool) }
    ensures slots { (desk.new.slots ≡ desk.old.slots) × (seats.new.slots ≡ seats.old.slots) }
    ensures opened { Pairs (IsOpenedAt openings.now calls desk.old.pool desk.old.slots.id) 0
        desk.new.codecs.items seats.new.codecs.items }
    ensures few { length desk.new.codecs.items ≤ length openings.now }
    ensures all { IfOk result (λ _. length desk.new.codecs.items ≡ length openings.now) }
{
    for place in 0..openings.len() {
        let opening = opening_at(openings, place);
        let (codec, seat) = SharedCodec::open(
            alloc,
            place as u32,
            opening.kind,
            opening.saturation,
            calls,
            &desk.pool,
            &desk.slots,
        )?;
        desk.codecs.push_reserved(codec);
        seats.codecs.push_reserved(seat);
    }
    Ok(())
}

/// A desk of codecs with these openings, each with its place as its number, with an empty history
/// and with places for so many calls that send no message. Its pool is empty, and its registry has
/// these coders. The seats are the first ones at the desk, and have all 2^32 parts. It fails only
/// for want of memory, and then all that was opened is closed again.
pub fn open_desk<C: Coder>(
    alloc: Global,
    openings: &[Opening],
    calls: u64,
    coders: Vec<C>,
) -> Result<(Desk<C>, Seats<C>), NoMemory>
    requires may { MayOpen openings.now }
    requires few { length openings.now ≤ 2 ^ 32 }
    ensures { IfOk result (λ r. IsOpened openings.now calls (map C.coder coders.items) r.0 r.1) }
{
    let cores = Vec::with_capacity(alloc, openings.len())?;
    let (mut desk, mut seats) = bare_desk(alloc, coders, openings.len())?;
    match open_codecs(alloc, openings, calls, &mut desk, &mut seats) {
        Ok(()) => Ok((desk, seats)),
        Err(NoMemory) => {
            let _ = finish_desk(desk, seats, cores);
            Err(NoMemory)
        }
    }
}
