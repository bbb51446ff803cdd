// Gates.

/// What a job passes before it is performed. A gate may hold it there for a while, as a test does in which jobs wait for one
/// another; nothing that is recorded goes by what it does.
pub trait Gate {
    /// The job of this item, by its epoch and its number there, of the codec with this number is about to be performed.
    fn pass(&mut self, codec: u32, epoch: u64, item: u64);
}

/// A gate that holds nothing.
#[derive(Clone, Copy, Debug, Drop)]
pub struct OpenGate;

impl Gate for OpenGate {
    fn pass(&mut self, _codec: u32, _epoch: u64, _item: u64) {}
}

/// A clock and a gate, as one thread has them.
#[derive(Drop)]
pub struct Watch<K, G> {
    pub clock: K,
    pub gate: G,
}
