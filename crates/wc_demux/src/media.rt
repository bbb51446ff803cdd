// Media files of each kind.
ghost use Rattle.std.specs.Prelude.{◌≡◌, ◌≤◌, IfOk, IfErr, IsErr, length};
ghost use Rattle.chunk_files.specs.Stops.{IfFault};
ghost use Rattle.chunk_files.specs.declared.fault.MediaFault.{MediaFault};
ghost use Rattle.chunk_files.specs.declared.fault.Stop.TheVariants as stop;
ghost use Rattle.wc_demux.specs.Media.{IsMediaFault, IsMediaFile, media_chunks};
ghost use Rattle.wc_demux.specs.Media as spec;
ghost use Rattle.wc_demux.specs.declared.media.MediaFile.{MediaFile};

use crate::flac::{Flac, read_flac};
use crate::laws::files_have_one_reading;
use crate::wav::{Wav, read_wav};
use chunk_files::{MediaFault, Stop, read_chunks};
use std::alloc::Global;
use wc_base::List;
use wc_chunk::Chunk;

/// What a media file holds.
#[derive(Debug, PartialEq, Drop)]
pub enum MediaFile {
    Wav(Wav),
    Flac(Flac),
    Chunks(List<Chunk>),
}

impl MediaFile {
    /// Its chunks, with no memory.
    pub fn into_chunks(self) -> List<Chunk>
        ensures { result ≡ media_chunks self }
    {
        match self {
            MediaFile::Wav(wav) => wav.chunks,
            MediaFile::Flac(flac) => flac.chunks,
            MediaFile::Chunks(chunks) => chunks,
        }
    }
}

/// Reads a media file: as WAV, in chunks of 1,024 frames, where it begins with `RIFF`, as native FLAC where it begins with
/// `fLaC`, and else as a chunk file. The faults are those of `read_wav`, `read_flac` and `read_chunks`, in this choice;
/// `NoMemory` only where memory is wanted.
pub fn read_media_file(alloc: Global, bytes: &[u8]) -> Result<MediaFile, Stop<MediaFault>>
    requires { length bytes.now ≤ 268435456 }
    ensures media { IfOk result (λ m. IsMediaFile m bytes.now) }
    ensures fault { IfErr result (λ e. IfFault e (IsMediaFault bytes.now)) }
    ensures same { (m : MediaFile) → IsMediaFile m bytes.now → IfOk result (λ n. n ≡ m) }
    ensures file_is_read { (m : MediaFile) → IsMediaFile m bytes.now
        → IfErr result (λ e. e ≡ stop.NoMemory) }
    ensures fault_is_told { (e : MediaFault) → IsMediaFault bytes.now e
        → IfErr result (λ f. IfFault f (λ x. x ≡ e)) }
    ensures faulty_is_refused { (e : MediaFault) → IsMediaFault bytes.now e → IsErr result }
{
    files_have_one_reading();
    read_any(alloc, bytes)
}

/// The same, told by its answer alone.
fn read_any(alloc: Global, bytes: &[u8]) -> Result<MediaFile, Stop<MediaFault>>
    requires { length bytes.now ≤ 268435456 }
    ensures media { IfOk result (λ m. IsMediaFile m bytes.now) }
    ensures fault { IfErr result (λ e. IfFault e (IsMediaFault bytes.now)) }
{
    if is_wav(bytes) {
        match read_wav(alloc, bytes, 1024) {
            Ok(wav) => Ok(MediaFile::Wav(wav)),
            Err(Stop::Fault(fault)) => Err(Stop::Fault(MediaFault::Sound(fault))),
            Err(Stop::NoMemory) => Err(Stop::NoMemory),
        }
    } else if is_flac(bytes) {
        match read_flac(alloc, bytes) {
            Ok(flac) => Ok(MediaFile::Flac(flac)),
            Err(Stop::Fault(fault)) => Err(Stop::Fault(MediaFault::Sound(fault))),
            Err(Stop::NoMemory) => Err(Stop::NoMemory),
        }
    } else {
        match read_chunks(alloc, bytes) {
            Ok(chunks) => Ok(MediaFile::Chunks(List::of(chunks))),
            Err(Stop::Fault(fault)) => Err(Stop::Fault(MediaFault::Chunks(fault))),
            Err(Stop::NoMemory) => Err(Stop::NoMemory),
        }
    }
}

fn is_wav(bytes: &[u8]) -> bool
    ensures { result ≡ spec.is_wav bytes.now }
{
    bytes.len() >= 4 && &bytes[..4] == b"RIFF".as_slice()
}

fn is_flac(bytes: &[u8]) -> bool
    ensures { result ≡ spec.is_flac bytes.now }
{
    bytes.len() >= 4 && &bytes[..4] == b"fLaC".as_slice()
}
