// The head of a native FLAC stream.
ghost use Rattle.std.specs.Prelude.{◌≡◌, ◌≤◌, ◌<◌, ◌+◌, ◌^◌, length, drop};
ghost use Rattle.wc_demux.specs.Flac.{block_size};
ghost use Rattle.flac_stream.specs.Head.{IsHeadRead, first_of, seek_table_at};
ghost use Rattle.flac_stream.specs.Reading.{FindsBlocks, is_begun};

use byteorder::{BigEndian, ByteOrder};
use wc_config::{StreamInfo, read_streaminfo};

/// A seek table (RFC 9639, section 8.5): the place of its first point, and how many points of 18 bytes it has.
#[derive(Clone, Copy, Debug, PartialEq, Eq)]
pub struct SeekTable {
    pub at: usize,
    pub count: usize,
}

/// What stands before the frames of a native FLAC stream: its description, the place of the first frame, and the seek
/// table, if there is one. Places are counts of bytes from the first on.
#[derive(Clone, Copy, Debug, PartialEq, Eq)]
pub struct StreamHead {
    pub info: StreamInfo,
    pub first_frame: usize,
    pub seek_table: Option<SeekTable>,
}

/// What the first bytes of a stream tell of its head.
#[derive(Clone, Copy, Debug, PartialEq, Eq)]
pub enum HeadRead {
    /// They begin with a head.
    Head(StreamHead),
    /// They end within a head.
    NeedMore,
    /// No head begins with them, whatever follows.
    Refused,
}

/// How many bytes a stream's mark and its STREAMINFO block have.
const DESCRIPTION_SIZE: usize = 42;

/// A description of which each bit that may differ is 1.
const ALL_ONES: [u8; 42] = [
    0x66, 0x4c, 0x61, 0x43, 0x80, 0, 0, 34, 255, 255, 255, 255, 255, 255, 255, 255, 255, 255, 255,
    255, 255, 255, 255, 255, 255, 255, 255, 255, 255, 255, 255, 255, 255, 255, 255, 255, 255, 255,
    255, 255, 255, 255,
];

/// Reads the head of a native FLAC stream (RFC 9639, sections 6 to 8) from its first bytes: the mark `fLaC`, a STREAMINFO
/// block with a rate and a depth of 4 bits or more, and other metadata blocks, which are passed over, up to one that is
/// marked as the last.
///
/// `NeedMore` exactly where the bytes end within a head: some bytes behind them make it whole. `Refused` exactly where none
/// do. The points of the seek table are not looked at.
pub fn read_head(bytes: &[u8]) -> HeadRead
    ensures { IsHeadRead bytes.now result }
{
    if bytes.len() < DESCRIPTION_SIZE {
        return if may_begin(bytes) {
            HeadRead::NeedMore
        } else {
            HeadRead::Refused
        };
    }
    match read_streaminfo(bytes) {
        Some(info) => match find_blocks(bytes) {
            Some(blocks) => HeadRead::Head(StreamHead {
                info,
                first_frame: blocks.end,
                seek_table: blocks.seek_table,
            }),
            None => HeadRead::NeedMore,
        },
        None => HeadRead::Refused,
    }
}

/// Whether some description begins with bytes that are fewer than it has.
fn may_begin(bytes: &[u8]) -> bool
    requires { length bytes.now < 42 }
    ensures { result ≡ is_begun bytes.now }
{
    let mut front = ALL_ONES;
    front[..bytes.len()].copy_from_slice(bytes);
    read_streaminfo(&front).is_some()
}

/// The metadata blocks of a stream: the place behind the last, and the first seek table.
#[derive(Clone, Copy)]
struct Blocks {
    end: usize,
    seek_table: Option<SeekTable>,
}

/// Goes over the metadata blocks, from the first on; none where they are cut.
fn find_blocks(bytes: &[u8]) -> Option<Blocks>
    ensures { FindsBlocks bytes.now result }
{
    let mut at = 4;
    let mut seek_table = None;
    while at < bytes.len() {
        let block = tail(bytes, at);
        if block.len() < 4 || block.len() < block_size(block) {
            return None;
        }
        seek_table = with_block(seek_table, at, block);
        let end = at + block_size(block);
        if block[0] >= 128 {
            return Some(Blocks { end, seek_table });
        }
        at = end;
    }
    None
}

/// The seek table that was found, or else that which the block at a place is.
fn with_block(found: Option<SeekTable>, at: usize, block: &[u8]) -> Option<SeekTable>
    requires head { 4 ≤ length block.now }
    requires place { at < 2 ^ 63 }
    ensures { result ≡ first_of found (seek_table_at (record { at = at; bytes = block.now })) }
{
    if found.is_none() && block[0] % 128 == 3 {
        let (at, count) = (at + 4, (block_size(block) - 4) / 18);
        return Some(SeekTable { at, count });
    }
    found
}

/// How many bytes a block takes, with the four of its head.
fn block_size(block: &[u8]) -> usize
    requires { 4 ≤ length block.now }
    ensures { result ≡ block_size block.now }
{
    4 + BigEndian::read_u24(tail(block, 1)) as usize
}

/// The bytes from a place on.
pub fn tail(bytes: &[u8], at: usize) -> &[u8]
    requires { at ≤ length bytes.now }
    ensures { result.now ≡ drop at bytes.now }
{
    &bytes[at..]
}
