// The format of a WAV file.
ghost use Rattle.std.specs.Prelude.{◌≡◌, ◌≤◌, ◌<◌, ◌^◌, IfOk, IfSome, length};
ghost use Rattle.wc_demux.specs.Facts.{IsUsable};
ghost use Rattle.wc_demux.specs.Wav as spec;

use crate::parts::tail;
use byteorder::{ByteOrder, LittleEndian};
use chunk_files::DemuxFault;
use wc_config::CodecId;

/// What a part `fmt ` says: a frame has `frame_size` bytes, one sample of each channel.
#[derive(Clone, Copy, Debug)]
pub struct Format {
    pub codec: CodecId,
    pub rate: u32,
    pub channels: u32,
    pub frame_size: usize,
}

/// The format of a part `fmt ` that stands at a place of its file, by the bytes from its first on.
pub fn format_of(at: u64, part: &[u8]) -> Result<Format, DemuxFault>
    requires { 8 ≤ length part.now }
    ensures format { result ≡ spec.format_of at part.now }
    ensures usable { IfOk result IsUsable }
{
    let size = LittleEndian::read_u32(tail(part, 4)) as usize;
    let body = tail(part, 8);
    if body.len() < size || size < 16 {
        return Err(DemuxFault::BadWav { at });
    }
    if size < least_size(body) {
        return Err(DemuxFault::BadWav { at });
    }
    format_by(at, body)
}

/// The least size of a part `fmt `, by its own bytes.
fn least_size(body: &[u8]) -> usize
    requires { 2 ≤ length body.now }
    ensures { result ≡ spec.least_size body.now }
{
    if LittleEndian::read_u16(body) == 0xFFFE {
        40
    } else {
        16
    }
}

/// The format tag.
fn tag_of(body: &[u8]) -> u16
    requires { spec.least_size body.now ≤ length body.now }
    ensures { result ≡ spec.tag_of body.now }
{
    let first = LittleEndian::read_u16(body);
    if first == 0xFFFE {
        LittleEndian::read_u16(&body[24..])
    } else {
        first
    }
}

/// The format that a part's own bytes say.
fn format_by(at: u64, body: &[u8]) -> Result<Format, DemuxFault>
    requires { spec.least_size body.now ≤ length body.now }
    ensures format { result ≡ spec.format_by at body.now
        (spec.codec_of (spec.tag_of body.now) (spec.bits_in body.now)) }
    ensures usable { IfOk result IsUsable }
{
    let tag = tag_of(body);
    let bits = LittleEndian::read_u16(&body[14..]);
    match codec_of(tag, bits) {
        Some(codec) => checked(
            at,
            Format {
                codec,
                channels: LittleEndian::read_u16(&body[2..]) as u32,
                rate: LittleEndian::read_u32(&body[4..]),
                frame_size: LittleEndian::read_u16(&body[12..]) as usize,
            },
            bits,
        ),
        None => Err(DemuxFault::Unsupported { tag, bits }),
    }
}

/// A format whose numbers agree.
fn checked(at: u64, format: Format, bits: u16) -> Result<Format, DemuxFault>
    requires channels { format.channels < 2 ^ 16 }
    requires frame { format.frame_size < 2 ^ 16 }
    requires bits { 8 ≤ bits }
    ensures format { result ≡ spec.checked at format bits }
    ensures usable { IfOk result IsUsable }
{
    let sound = format.channels != 0
        && format.rate != 0
        && format.frame_size == format.channels as usize * bits as usize / 8;
    if sound {
        Ok(format)
    } else {
        Err(DemuxFault::BadWav { at })
    }
}

fn codec_of(tag: u16, bits: u16) -> Option<CodecId>
    ensures some { IfSome result (λ _. 8 ≤ bits) }
    ensures codec { result ≡ spec.codec_of tag bits }
{
    if tag == 1 && bits == 8 {
        Some(CodecId::PcmU8)
    } else if tag == 1 && bits == 16 {
        Some(CodecId::PcmS16)
    } else if tag == 1 && bits == 24 {
        Some(CodecId::PcmS24)
    } else if tag == 1 && bits == 32 {
        Some(CodecId::PcmS32)
    } else if tag == 6 && bits == 8 {
        Some(CodecId::Alaw)
    } else if tag == 7 && bits == 8 {
        Some(CodecId::Ulaw)
    } else {
        None
    }
}
