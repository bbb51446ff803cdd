// The metadata blocks of a native FLAC file.
ghost use Rattle.std.specs.Prelude.{◌≡◌, ◌≤◌, Ok, Err, IfOk, IfErr, length};
ghost use Rattle.wc_demux.specs.Flac as spec;

use crate::parts::tail;
use byteorder::{BigEndian, ByteOrder};
use chunk_files::DemuxFault;
use wc_config::{StreamInfo, read_streaminfo};

/// The description of the stream, and the place of its first frame.
pub fn head_of(bytes: &[u8]) -> Result<(StreamInfo, usize), DemuxFault>
    ensures head { result ≡ spec.head_of bytes.now }
    ensures rate { IfOk result (λ h. 1 ≤ h.0.rate) }
    ensures within { IfOk result (λ h. h.1 ≤ length bytes.now) }
    ensures kind { IfErr result (λ e. spec.IsFlacFault bytes.now e) }
{
    match read_streaminfo(bytes) {
        Some(info) => match place_behind(bytes) {
            Ok(place) => Ok((info, place)),
            Err(fault) => Err(fault),
        },
        None => Err(DemuxFault::BadFlac { at: 0 }),
    }
}

/// The place behind the last metadata block.
fn place_behind(bytes: &[u8]) -> Result<usize, DemuxFault>
    ensures place { result ≡ spec.place_behind (length bytes.now) (spec.blocks_from bytes.now 4) }
    ensures within { IfOk result (λ p. p ≤ length bytes.now) }
{
    let mut at = 4;
    while at < bytes.len() {
        let block = tail(bytes, at);
        if block.len() < 4 || block.len() < block_size(block) {
            return Err(DemuxFault::BadFlac { at: at as u64 });
        }
        if block[0] >= 128 {
            return Ok(at + block_size(block));
        }
        at += block_size(block);
    }
    Err(DemuxFault::BadFlac {
        at: bytes.len() as u64,
    })
}

/// How many bytes a block takes, with the four of its head.
fn block_size(block: &[u8]) -> usize
    requires { 4 ≤ length block.now }
    ensures { result ≡ spec.block_size block.now }
{
    4 + BigEndian::read_u24(tail(block, 1)) as usize
}
