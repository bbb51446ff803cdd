// Reads the chunk files of a script.
ghost use Rattle.std.specs.Prelude.{◌≡◌, ◌≢◌, ◌⊎◌, ◌≤◌, ◌<◌, ◌+◌, true, ◌-◌, IfOk, IfErr, IfSome, IfNone, Some, Ok, Err, length};
ghost use Rattle.wc_base.specs.Causes.{Rose, RoseBy};
ghost use Rattle.media_files.specs.Media.{are_small, media_of, FailedBy, FileGives, FilesGive, GivesMedia, MayFail, MayFailAt};
ghost use Rattle.media_files.specs.Media as spec;
ghost use Rattle.script_types.specs.Sound.{most_media};

use chunk_files::MediaFault;
use script_types::{Counted, Fault, Script, Stop, copied, unread};
use std::alloc::Global;
use wc_base::{FileFault, Files, List, Text};
use wc_chunk::Chunk;
use wc_demux::read_media_file;

// The most bytes of a chunk file.
const MOST_FILE: u64 = 268_435_456;

// The most bytes of a chunk.
const MOST_CHUNK: usize = 16_777_216;

// The most bytes of all chunks and all inline data.
const MOST_MEDIA: u64 = 268_435_456;

fn are_small(chunks: &[Chunk]) -> bool
    ensures { result ≡ spec.are_small chunks.now }
{
    chunks.iter().all(|chunk| chunk.bytes.len() <= MOST_CHUNK)
}

// The bytes of media that may come after these chunks; none where they are too many.
fn room_after(chunks: &[Chunk], room: u64) -> Option<u64>
    ensures some { IfSome result (λ left. left + media_of chunks.now ≡ room) }
    ensures none { IfNone result (room < media_of chunks.now) }
{
    let mut left = room;
    let mut rest = chunks;
    while let [chunk, more @ ..] = rest {
        left = left.checked_sub(chunk.bytes.len() as u64)?;
        rest = more;
    }
    Some(left)
}

/// Why there are no chunks, where the bytes of the file of this name are no media file.
pub fn no_chunks(alloc: Global, name: &str, fault: MediaFault) -> Stop<Fault>
    ensures { result ≡ Stop.NoMemory ⊎ result ≡ Stop.Fault (Fault.Chunks name.now fault) }
{
    match copied(alloc, name) {
        Ok(name) => Stop::Fault(Fault::Chunks { name, fault }),
        Err(_) => Stop::NoMemory,
    }
}

// The chunks of one file's bytes, which are no more than a file may have, and the bytes of media that may come after.
fn read_bytes(
    alloc: Global,
    name: &str,
    bytes: &[u8],
    room: u64,
) -> Result<(List<Chunk>, u64), Stop<Fault>>
    requires { length bytes.now ≤ 268435456 }
    ensures ok { IfOk result (λ r. FileGives room name.now (Some bytes.now) (Ok r.0)) }
    ensures left { IfOk result (λ r. r.1 ≡ room - media_of r.0) }
    ensures err { IfErr result
        (λ e. e ≢ Stop.NoMemory → FileGives room name.now (Some bytes.now) (Err e)) }
{
    let chunks = match read_media_file(alloc, bytes) {
        Ok(medium) => medium.into_chunks(),
        Err(Stop::NoMemory) => return Err(Stop::NoMemory),
        Err(Stop::Fault(fault)) => return Err(no_chunks(alloc, name, fault)),
    };
    if !are_small(chunks.as_slice()) {
        return Err(Stop::Fault(Fault::TooMany(Counted::Chunk)));
    }
    match room_after(chunks.as_slice(), room) {
        Some(left) => Ok((chunks, left)),
        None => Err(Stop::Fault(Fault::TooMany(Counted::Media))),
    }
}

// The chunks of one file, and the bytes of media that may come after.
fn read_file<F: Files>(
    alloc: Global,
    name: &str,
    room: u64,
    files: &mut F,
) -> Result<(List<Chunk>, u64), Stop<Fault>>
    ensures kept { F.content files.new ≡ F.content files.old }
    ensures faults { F.faults files.old ≤ F.faults files.new }
    ensures bytes { F.bytes_read files.old ≤ F.bytes_read files.new }
    ensures ok { IfOk result
        (λ r. IfSome (F.content files.old) (λ c. FileGives room name.now (c name.now) (Ok r.0))) }
    ensures left { IfOk result (λ r. r.1 ≡ room - media_of r.0) }
    ensures err { IfErr result (λ e. MayFailAt (F.content files.old) room name.now
        (F.faults files.old) (F.faults files.new) (F.bytes_read files.old) (F.bytes_read files.new) e) }
    ensures names { FailedBy (F.failed_names files.old) (F.failed_names files.new) result }
{
    match files.read_all(alloc, name, MOST_FILE) {
        Ok(bytes) => read_bytes(alloc, name, &bytes, room),
        Err(FileFault::Failed) => Err(unread(alloc, name)),
        Err(FileFault::TooLong) => Err(Stop::Fault(Fault::TooMany(Counted::File))),
        Err(FileFault::NoMemory) => Err(Stop::NoMemory),
    }
}

/// Reads the chunk files that the script mentions, in order of first mention: the chunks of each.
///
/// `Unread` where a file is not there or a read of it failed, with its name. `TooMany` bytes of a `File` where it has more than
/// 268,435,456, `Chunks` for one that is no media file, `TooMany` of a `Chunk` of more than 16,777,216 bytes, and of
/// `Media` where the chunks read so far and all inline data have together more than 268,435,456 bytes; the first that
/// applies, file after file.
pub fn read_media<F: Files>(
    alloc: Global,
    script: &Script,
    files: &mut F,
) -> Result<Vec<List<Chunk>>, Stop<Fault>>
    ensures kept { F.content files.new ≡ F.content files.old }
    ensures faults { F.faults files.old ≤ F.faults files.new }
    ensures bytes { F.bytes_read files.old ≤ F.bytes_read files.new }
    ensures ok { IfOk result
        (λ m. IfSome (F.content files.old) (λ c. GivesMedia c script.now (Ok m.items))) }
    ensures each { IfOk result (λ m. length m.items ≡ length script.now.chunk_files) }
    ensures err { IfErr result (λ e. MayFail (F.content files.old) script.now
        (F.faults files.old) (F.faults files.new) (F.bytes_read files.old) (F.bytes_read files.new) e) }
    ensures names { FailedBy (F.failed_names files.old) (F.failed_names files.new) result }
{
    let mut made = Vec::new(alloc);
    let mut room = room_for_files(script);
    for (n, name) in script.files().iter().enumerate() {
        match read_file(alloc, name.as_str(), room, files) {
            Ok((chunks, left)) => {
                made.push(chunks)?;
                room = left;
            }
            Err(stop) => return Err(stop),
        }
    }
    Ok(made)
}

// The bytes of media that a script's chunk files may have.
fn room_for_files(script: &Script) -> u64
    ensures { result ≡ most_media - script.now.inline }
{
    MOST_MEDIA.saturating_sub(script.data().inline)
}
