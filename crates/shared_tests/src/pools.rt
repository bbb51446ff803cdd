// Audio data over a shared pool.
ghost use Rattle.std.specs.Prelude.{◌≡◌};
ghost use Rattle.shared_pool.specs.Steps.{IsFree};
ghost use Rattle.shared_tests.specs.Resting.{Rests, IsLater};

use shared_pool::{PoolAt, PoolSeat, SharedPool};
use std::alloc::Global;
use std::sync::Wait;
use wc_audio::AudioData;
use wc_base::{By, DomError, SampleFormat, SoundShape, Who};

/// One frame of 16 bits.
const SHAPE: SoundShape = SoundShape {
    format: SampleFormat::S16,
    rate: 48000,
    channels: 1,
    frames: 1,
    timestamp: 0,
};

fn step(step: u32) -> By {
    By::Caller(Who { caller: 0, step })
}

/// What became of audio data that was transferred, cloned by a codec's entry and closed, of its clone, and of transfers of
/// what was detached before.
#[derive(Debug, PartialEq, Drop)]
pub struct Ends {
    pub moved: Option<DomError>,
    pub kept: bool,
    pub gone: bool,
    pub refused: Option<DomError>,
}

/// Audio data is made and transferred. What it went to is cloned and closed, and its clone is closed; then it is transferred.
/// None where memory is wanted.
fn ends_at<R: Wait>(alloc: Global, at: &mut PoolAt<'_, R>) -> Option<Ends>
    ensures { IsLater at.old at.new }
{
    let Ok(mut first) = AudioData::new(alloc, SHAPE, &[1, 0], at, step(0)) else {
        return None;
    };
    let Ok(mut data) = first.transfer() else {
        return None;
    };
    let moved = first.transfer().err();
    let by = By::Codec { codec: 0, place: 1 };
    let Ok(mut clone) = data.clone_data(at, by) else {
        return None;
    };
    let kept = data.close_data(at, step(3)).is_none();
    let by = By::Codec { codec: 0, place: 2 };
    let gone = clone.close_data(at, by).is_some();
    let refused = data.transfer().err();
    Some(Ends {
        moved,
        kept,
        gone,
        refused,
    })
}

/// The same at a seat of a pool, which is idle again then.
pub fn ends_once<R: Wait>(
    rt: &R,
    alloc: Global,
    pool: &SharedPool,
    seat: &mut PoolSeat,
) -> Option<Ends>
    requires { IsFree pool.now seat.old }
    ensures { Rests seat.old seat.new }
{
    let mut at = PoolAt::new(rt, pool, seat);
    ends_at(alloc, &mut at)
}
