// A desk, and what one thread holds of it.
use coder_api::Coder;
use shared_codec::{CodecSeat, SharedCodec};
use shared_pool::{PoolSeat, SharedPool};
use shared_slots::{SlotRegistry, SlotSeat};

/// Codecs with the pool of the media that they hold and the registry of the boxes that they are lent. Each has its place as
/// its number.
pub struct Desk<C: Coder> {
    pub codecs: Vec<SharedCodec<C>>,
    pub pool: SharedPool,
    pub slots: SlotRegistry<C>,
}

/// What one thread holds of a desk: a seat at each codec, in the codecs' order, one at the pool, and one at the registry.
#[derive(Drop)]
pub struct Seats<C: Coder> {
    pub codecs: Vec<CodecSeat<C>>,
    pub pool: PoolSeat,
    pub slots: SlotSeat<C>,
}
