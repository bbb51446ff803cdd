// Why bytes are no chunk file, or no other media file.
use std::alloc::{AllocError, AllocFailed};
use wc_base::NoMemory as Want;

/// Why bytes are no chunk file. `at` counts the bytes of the file from 0.
#[derive(Clone, Copy, Debug, PartialEq, Eq)]
pub enum ChunkFault {
    /// The file does not begin with the mark; `at` bytes agree with it.
    BadMark { at: u64 },
    /// The byte of a chunk's type, or the one before its duration, is neither 0 nor 1.
    BadKind { at: u64, found: u8 },
    /// The file ends inside the field that begins here, or inside a chunk's bytes.
    Short { at: u64 },
}

/// Why bytes are no WAV file, or no native FLAC file. `at` counts the bytes of the file from 0.
#[derive(Clone, Copy, Debug, PartialEq, Eq)]
pub enum DemuxFault {
    /// The file is no WAV file: a mark is not there, a part is cut, lacks or stands behind another, or its format is none.
    BadWav { at: u64 },
    /// A WAV file's format is none that is read, by its tag and its bits a sample.
    Unsupported { tag: u16, bits: u16 },
    /// The file is no native FLAC file: it has no description, or a block or a frame is cut or none.
    BadFlac { at: u64 },
}

/// Why bytes are no media file.
#[derive(Clone, Copy, Debug, PartialEq, Eq)]
pub enum MediaFault {
    /// They are no chunk file.
    Chunks(ChunkFault),
    /// They are no WAV file and no native FLAC file, and begin as one of these.
    Sound(DemuxFault),
}

/// Why there is no value: a fault, or want of memory.
#[derive(Clone, Copy, Debug, PartialEq, Eq, Drop)]
pub enum Stop<F> {
    Fault(F),
    NoMemory,
}

impl<F> From<Want> for Stop<F> {
    ghost use Rattle.std.specs.Prelude.{◌≡◌};
    ghost use Rattle.chunk_files.specs.declared.fault.Stop.TheVariants.{NoMemory};

    ghost from_gives = { λ _ e. e ≡ NoMemory };

    fn from(_: Want) -> Stop<F> {
        Stop::NoMemory
    }
}

impl<F> From<AllocError> for Stop<F> {
    ghost use Rattle.std.specs.Prelude.{◌≡◌};
    ghost use Rattle.chunk_files.specs.declared.fault.Stop.TheVariants.{NoMemory};

    ghost from_gives = { λ _ e. e ≡ NoMemory };

    fn from(_: AllocError) -> Stop<F> {
        Stop::NoMemory
    }
}

impl<T: Drop, F> From<AllocFailed<T>> for Stop<F> {
    ghost use Rattle.std.specs.Prelude.{◌≡◌};
    ghost use Rattle.chunk_files.specs.declared.fault.Stop.TheVariants.{NoMemory};

    ghost from_gives = { λ _ e. e ≡ NoMemory };

    fn from(_: AllocFailed<T>) -> Stop<F> {
        Stop::NoMemory
    }
}
