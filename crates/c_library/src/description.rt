// Descriptions of FLAC streams.
ghost use Rattle.std.specs.Prelude.{◌≡◌, ◌<◌, ◌≤◌, nat_le, nat_lt, ◌&&◌, ◌⊎◌, true, false, Some};
ghost use Rattle.wc_config.specs.Streams.{streaminfo_of};
ghost use Rattle.c_library.specs.Descriptions.{stream_of, has_depth, IsDescription, IsDescribable, IsWritten, IsWriteStatus};
ghost use Rattle.c_library.specs.Frames.{HasValues};
ghost use Rattle.c_library.specs.Status.{done, too_small, invalid};

use crate::status::{DONE, INVALID, REFUSED, put_bytes};
use flac_description::{DESCRIPTION_SIZE, can_be_written, write_streaminfo};
use wc_config::{StreamInfo, read_streaminfo};

/// What a FLAC stream says of itself (RFC 9639, section 8.2): block sizes in frames, frame sizes in bytes, `rate` in frames
/// a second, `depth` in bits a sample, and the `total` count of frames, with 0 for unknown.
#[repr(C)]
#[derive(Clone, Copy, Debug, PartialEq, Eq)]
pub struct FlacDescription {
    pub total: u64,
    pub min_block: u32,
    pub max_block: u32,
    pub min_frame: u32,
    pub max_frame: u32,
    pub rate: u32,
    pub channels: u32,
    pub depth: u32,
    pub md5: [u8; 16],
}

/// Reads the description at the front of `bytes`: the stream's mark and its STREAMINFO block. The clause is that of
/// `wc_config::read_streaminfo`.
#[unsafe(no_mangle)]
pub extern "C" fn zemirako_flac_read_description(
    bytes: &[u8],
    description: &mut FlacDescription,
) -> u32
    ensures { IsDescription bytes.now description.old description.new result }
{
    match read_streaminfo(bytes) {
        Some(info) => {
            *description = description_of(&info);
            DONE
        }
        None => REFUSED,
    }
}

/// Puts a description at the front of some room: the stream's mark and its STREAMINFO block, as the last block. `size` says
/// how many bytes it has, also where they do not fit. `written` and `read` are the clauses `bits` and `read` of
/// `flac_description::write_streaminfo`.
#[unsafe(no_mangle)]
pub extern "C" fn zemirako_flac_write_description(
    description: &FlacDescription,
    bytes: &mut [u8],
    size: &mut usize,
) -> u32
    ensures written { HasValues result
        → IsWritten (stream_of description.now) result bytes.old bytes.new }
    ensures size { HasValues result → size.new ≡ 42 }
    ensures read { result ≡ done → streaminfo_of bytes.new ≡ Some (stream_of description.now) }
    ensures kept { (HasValues result → ⊥) → bytes.new ≡ bytes.old }
    ensures kept_size { (HasValues result → ⊥) → size.new ≡ size.old }
    ensures valid { IsDescribable (stream_of description.now) → result ≡ invalid → ⊥ }
    ensures invalid { (IsDescribable (stream_of description.now) → ⊥) → result ≡ invalid }
    ensures status { IsWriteStatus result }
{
    let info = stream_of(description);
    if !can_be_described(&info) {
        return INVALID;
    }
    let mut written = [0; 42];
    write_streaminfo(&info, &mut written);
    *size = DESCRIPTION_SIZE;
    put_bytes(&written, bytes)
}

/// Whether there are bytes that are read as the description.
fn can_be_described(info: &StreamInfo) -> bool
    ensures yes { result ≡ true → IsDescribable info.now }
    ensures no { result ≡ false → IsDescribable info.now → ⊥ }
{
    info.rate >= 1 && info.depth >= 4 && can_be_written(info)
}

pub fn description_of(info: &StreamInfo) -> FlacDescription
    ensures { stream_of result ≡ info.now }
{
    FlacDescription {
        total: info.total,
        min_block: info.min_block,
        max_block: info.max_block,
        min_frame: info.min_frame,
        max_frame: info.max_frame,
        rate: info.rate,
        channels: info.channels,
        depth: info.depth,
        md5: info.md5,
    }
}

/// The stream that a description describes.
pub fn stream_of(description: &FlacDescription) -> StreamInfo
    ensures { result ≡ stream_of description.now }
{
    StreamInfo {
        min_block: description.min_block,
        max_block: description.max_block,
        min_frame: description.min_frame,
        max_frame: description.max_frame,
        rate: description.rate,
        channels: description.channels,
        depth: description.depth,
        total: description.total,
        md5: description.md5,
    }
}

/// Whether frames of the stream can have the depth: 1 to 32 bits a sample.
pub fn has_depth(description: &FlacDescription) -> bool
    ensures { result ≡ has_depth description.now }
{
    description.depth >= 1 && description.depth <= 32
}
