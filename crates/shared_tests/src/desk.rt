// What one caller does with an encoder that other threads use too.
ghost use Rattle.std.specs.Prelude.{◌≡◌};
ghost use Rattle.seat_lock.specs.Seats.{IsIdleAt};
ghost use Rattle.shared_pool.specs.Refs.{IsPoolRef};
ghost use Rattle.shared_pool.specs.Steps as pools;
ghost use Rattle.shared_slots.specs.Steps.{IsFree};
ghost use Rattle.shared_codec.specs.Keeps.{Keeps};

use codec_model::Call;
use sample_coder::SampleCoder;
use shared_codec::{CodecSeat, OpenMedium, SharedCodec};
use shared_pool::{PoolSeat, SharedPool};
use shared_slots::{SlotRegistry, SlotSeat};
use std::alloc::Global;
use std::sync::Wait;
use wc_base::{NoMemory, SampleFormat, SoundShape, Text, Who};
use wc_config::{AudioEncoderConfig, Config};
use work_moments::{OpenGate, StillClock};

/// One frame of 16 bits.
pub const MONO: SoundShape = SoundShape {
    format: SampleFormat::S16,
    rate: 8000,
    channels: 1,
    frames: 1,
    timestamp: 0,
};

fn pcm(alloc: Global) -> Result<Config, NoMemory> {
    Ok(Config::AudioEncoder(AudioEncoderConfig {
        codec: Text::of(String::from_str(alloc, "pcm-s16")?),
        rate: 8000,
        channels: 1,
        block_size: 0,
        level: 5,
        depth: 16,
    }))
}

/// A configure.
pub fn configure<R: Wait>(
    rt: &R,
    alloc: Global,
    codec: &SharedCodec<SampleCoder>,
    seat: &mut CodecSeat<SampleCoder>,
    who: Who,
)
    requires seat { IsIdleAt codec.now.id seat.old }
    ensures kept { Keeps codec.now.id seat.old seat.new }
{
    if let Ok(config) = pcm(alloc) {
        let _ = codec.call(rt, seat, who, Call::Configure(config));
    }
}

/// A reset, after which what waited has gone back.
pub fn reset<R: Wait>(
    rt: &R,
    codec: &SharedCodec<SampleCoder>,
    seat: &mut CodecSeat<SampleCoder>,
    slots: &SlotRegistry<SampleCoder>,
    slot_seat: &mut SlotSeat<SampleCoder>,
    pool: &SharedPool,
    pool_seat: &mut PoolSeat,
    who: Who,
)
    requires seat { IsIdleAt codec.now.id seat.old }
    requires slots { slots.now.id ≡ codec.now.slots }
    requires pool { pool.now ≡ codec.now.pool }
    requires slot_seat { IsFree slots.now.id slot_seat.old }
    requires pool_seat { pools.IsFree pool.now pool_seat.old }
    ensures kept { Keeps codec.now.id seat.old seat.new }
    ensures kept_slots { Keeps slots.now.id slot_seat.old slot_seat.new }
    ensures free_slots { IsFree slots.now.id slot_seat.new }
    ensures kept_pool { Keeps pool.now pool_seat.old pool_seat.new }
    ensures free_pool { pools.IsFree pool.now pool_seat.new }
{
    let _ = codec.call_once(
        rt,
        seat,
        who,
        Call::Reset,
        slots,
        slot_seat,
        pool,
        pool_seat,
    );
}

/// One item and one turn; whether there was any.
pub fn work<R: Wait>(
    rt: &R,
    alloc: Global,
    codec: &SharedCodec<SampleCoder>,
    seat: &mut CodecSeat<SampleCoder>,
    slots: &SlotRegistry<SampleCoder>,
    slot_seat: &mut SlotSeat<SampleCoder>,
    pool: &SharedPool,
    pool_seat: &mut PoolSeat,
) -> bool
    requires seat { IsIdleAt codec.now.id seat.old }
    requires slots { slots.now.id ≡ codec.now.slots }
    requires pool { pool.now ≡ codec.now.pool }
    requires slot_seat { IsFree slots.now.id slot_seat.old }
    requires pool_seat { pools.IsFree pool.now pool_seat.old }
    ensures kept { Keeps codec.now.id seat.old seat.new }
    ensures kept_slots { Keeps slots.now.id slot_seat.old slot_seat.new }
    ensures free_slots { IsFree slots.now.id slot_seat.new }
    ensures kept_pool { Keeps pool.now pool_seat.old pool_seat.new }
    ensures free_pool { pools.IsFree pool.now pool_seat.new }
{
    let mut clock = StillClock { moment: 0 };
    let worked = codec.work_once(
        rt,
        alloc,
        seat,
        slots,
        slot_seat,
        pool,
        pool_seat,
        &mut clock,
        &mut OpenGate,
    );
    let turned = codec.turn_once(rt, seat, slots, slot_seat, pool, pool_seat);
    worked.is_some() || turned.is_some()
}

/// A caller's step: an encode, a reset with a configure behind it, or an item and a turn.
pub fn act<R: Wait>(
    rt: &R,
    alloc: Global,
    codec: &SharedCodec<SampleCoder>,
    seat: &mut CodecSeat<SampleCoder>,
    slots: &SlotRegistry<SampleCoder>,
    slot_seat: &mut SlotSeat<SampleCoder>,
    pool: &SharedPool,
    pool_seat: &mut PoolSeat,
    medium: &mut OpenMedium,
    who: Who,
)
    requires seat { IsIdleAt codec.now.id seat.old }
    requires slots { slots.now.id ≡ codec.now.slots }
    requires pool { pool.now ≡ codec.now.pool }
    requires slot_seat { IsFree slots.now.id slot_seat.old }
    requires pool_seat { pools.IsFree pool.now pool_seat.old }
    requires medium { IsPoolRef pool.now medium.old.reference }
    ensures kept { Keeps codec.now.id seat.old seat.new }
    ensures kept_slots { Keeps slots.now.id slot_seat.old slot_seat.new }
    ensures free_slots { IsFree slots.now.id slot_seat.new }
    ensures kept_pool { Keeps pool.now pool_seat.old pool_seat.new }
    ensures free_pool { pools.IsFree pool.now pool_seat.new }
    ensures still { IsPoolRef pool.now medium.new.reference }
{
    match who.step % 8 {
        0 | 1 | 2 | 3 => {
            let _ = codec.encode(rt, seat, who, medium, pool, pool_seat);
        }
        7 => {
            reset(rt, codec, seat, slots, slot_seat, pool, pool_seat, who);
            configure(rt, alloc, codec, seat, who);
        }
        _ => {
            let _ = work(rt, alloc, codec, seat, slots, slot_seat, pool, pool_seat);
        }
    }
}
