// A chunk (W3C WebCodecs, EncodedAudioChunk and EncodedVideoChunk).
ghost use Rattle.std.specs.Prelude.{◌≡◌, IfOk};
ghost use Rattle.wc_chunk.specs.Copied.{copied_count, copied_to};

use bytes::Bytes;
use wc_base::{DomError, NoMemory};

/// An encoded chunk: of type `key` or else `delta`, with its timestamp and duration in microseconds.
#[derive(Debug, PartialEq, Drop)]
pub struct Chunk {
    pub key: bool,
    pub timestamp: i64,
    pub duration: Option<u64>,
    pub bytes: Bytes,
}

impl Chunk {
    /// The same chunk again, over the same shared bytes.
    pub fn copy(&self) -> Result<Chunk, NoMemory>
        ensures { IfOk result (λ c. c ≡ self.now) }
    {
        Ok(Chunk {
            key: self.key,
            timestamp: self.timestamp,
            duration: self.duration,
            bytes: self.bytes.clone()?,
        })
    }

    /// Copies the bytes to the front of `dst`, and answers how many they are (W3C WebCodecs, `copyTo`). `TypeErr` where
    /// `dst` is shorter, which then stays as it is.
    pub fn copy_to(&self, dst: &mut [u8]) -> Result<usize, DomError>
        ensures answer { result ≡ copied_count self.now.bytes dst.old }
        ensures bytes { dst.new ≡ copied_to self.now.bytes dst.old }
    {
        let bytes = self.bytes.as_slice();
        if dst.len() < bytes.len() {
            return Err(DomError::TypeErr);
        }
        dst[..bytes.len()].copy_from_slice(bytes);
        Ok(bytes.len())
    }
}
