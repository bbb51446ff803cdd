// What a thread has that encodes, resets and works on two codecs: its seats, and the medium that it encodes.
use sample_coder::SampleCoder;
use shared_codec::{CodecSeat, OpenMedium};
use shared_pool::PoolSeat;
use shared_slots::SlotSeat;

/// A thread's seats at two codecs, at their registry and at their pool.
#[derive(Drop)]
pub struct Seats {
    pub first: CodecSeat<SampleCoder>,
    pub second: CodecSeat<SampleCoder>,
    pub slots: SlotSeat<SampleCoder>,
    pub pool: PoolSeat,
}

/// A caller, with its seats and the medium that it encodes.
#[derive(Drop)]
pub struct Part {
    pub caller: u32,
    pub seats: Seats,
    pub medium: OpenMedium,
}
