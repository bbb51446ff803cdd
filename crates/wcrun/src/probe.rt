// The line that tells what a media file holds.
ghost use Rattle.std.specs.Prelude.{◌≡◌, ◌≤◌, IfOk, IfErr, length, string_bytes, take};
ghost use Rattle.wcrun.specs.Headline.{reading, IsProbe};
ghost use Rattle.wcrun.specs.Probe.{description_text, IsMediaLine};
ghost use Rattle.wcrun.specs.Probe as spec;
ghost use Rattle.wcrun.specs.Stops.{MayStop, MayStopProbe};
ghost use Rattle.wcrun.specs.Words.{to_probe};

use media_files::no_chunks;
use report_text::codec_text;
use script_types::{Counted, Fault, Stop, unread};
use std::alloc::{AllocError, Global};
use wc_base::{FileFault, Files};
use wc_demux::{MediaFile, read_media_file};

// The most bytes of a media file.
const LIMIT: u64 = 268_435_456;

// The description with which a FLAC file begins.
fn description(bytes: &[u8]) -> &[u8]
    ensures { result.now ≡ take 42 bytes.now }
{
    if bytes.len() < 42 {
        bytes
    } else {
        &bytes[..42]
    }
}

// The same in hex.
fn description_text(alloc: Global, bytes: &[u8]) -> Result<String, AllocError>
    ensures { IfOk result (λ text. string_bytes text ≡ description_text bytes.now) }
{
    hex::encode(alloc, description(bytes))
}

// The line of a media file with these bytes.
fn media_line(alloc: Global, medium: &MediaFile, bytes: &[u8]) -> Result<String, AllocError>
    ensures { IfOk result (λ line. string_bytes line ≡ spec.media_line medium.now bytes.now) }
{
    match medium {
        MediaFile::Wav(wav) => {
            let codec = codec_text(wav.codec);
            let (rate, channels, frames) = (wav.rate, wav.channels, wav.frames);
            let count = wav.chunks.len();
            format!(in alloc; "wav {codec} {rate} {channels} chunks {count} frames {frames}\n")
        }
        MediaFile::Flac(flac) => {
            let (rate, channels, frames) = (flac.info.rate, flac.info.channels, flac.frames);
            let count = flac.chunks.len();
            let text = description_text(alloc, bytes)?;
            let head = text.as_str();
            format!(in alloc; "flac flac {rate} {channels} chunks {count} frames {frames} {head}\n")
        }
        MediaFile::Chunks(chunks) => {
            let count = chunks.len();
            format!(in alloc; "chunks {count}\n")
        }
    }
}

// The line of the file of this name with these bytes, which are no more than a file may have.
fn line_of(alloc: Global, name: &str, bytes: &[u8]) -> Result<String, Stop<Fault>>
    requires { length bytes.now ≤ 268435456 }
    ensures line { IfOk result (λ line. IsMediaLine bytes.now (string_bytes line)) }
    ensures fault { IfErr result (λ e. MayStopProbe name.now bytes.now e) }
{
    match read_media_file(alloc, bytes) {
        Ok(medium) => Ok(media_line(alloc, &medium, bytes)?),
        Err(Stop::NoMemory) => Err(Stop::NoMemory),
        Err(Stop::Fault(fault)) => Err(no_chunks(alloc, name, fault)),
    }
}

/// The line that tells what the media file of this name holds.
#[tactic(auto, using(crate::proofs::Probing::probe_stops, crate::proofs::Probing::media_is_long, crate::proofs::Probing::probed_line))]
pub fn probe<F: Files>(alloc: Global, name: &str, files: &mut F) -> Result<String, Stop<Fault>>
    ensures line { IfOk result (λ line. IsProbe
        (reading (to_probe name.now) (F.content files.old) (F.faults files.old) (F.faults files.new)
        (F.bytes_read files.old) (F.bytes_read files.new)
        (F.failed_names files.old) (F.failed_names files.new)) (string_bytes line)) }
    ensures stop { IfErr result (λ e. MayStop
        (reading (to_probe name.now) (F.content files.old) (F.faults files.old) (F.faults files.new)
        (F.bytes_read files.old) (F.bytes_read files.new)
        (F.failed_names files.old) (F.failed_names files.new)) e) }
{
    match files.read_all(alloc, name, LIMIT) {
        Ok(bytes) => line_of(alloc, name, &bytes),
        Err(FileFault::Failed) => Err(unread(alloc, name)),
        Err(FileFault::TooLong) => Err(Stop::Fault(Fault::TooMany(Counted::File))),
        Err(FileFault::NoMemory) => Err(Stop::NoMemory),
    }
}
