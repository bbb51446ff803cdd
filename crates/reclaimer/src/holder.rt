// Codecs that hold a coder.
use wc_base::Ground;

/// A codec that holds a coder.
#[derive(Clone, Copy, Debug, PartialEq, Eq, Drop)]
pub struct Holder {
    /// The number of the codec.
    pub codec: u32,
    /// The moment in microseconds when its last item ended.
    pub progress: u64,
    pub decoder: bool,
    pub ground: Ground,
}
