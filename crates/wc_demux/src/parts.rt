// The parts of a WAV file.
ghost use Rattle.std.specs.Prelude.{◌≡◌, ◌≤◌, ◌<◌, ◌+◌, ◌^◌, Ok, Err, IfOk, IfErr, length, drop, take};
ghost use Rattle.wc_demux.specs.Facts.{IsUsable};
ghost use Rattle.wc_demux.specs.Wav.{parts_from, format_in, data_in};
ghost use Rattle.wc_demux.specs.Wav as spec;

use crate::format::{Format, format_of};
use byteorder::{ByteOrder, LittleEndian};
use chunk_files::DemuxFault;

/// The format of the first part `fmt ` from the place 12 on, and the place behind that part.
pub fn find_format(bytes: &[u8]) -> Result<(Format, usize), DemuxFault>
    ensures found { IfOk result (λ r. format_in (length bytes.now) (parts_from bytes.now 12)
        ≡ Ok (r.0, parts_from bytes.now r.1)) }
    ensures usable { IfOk result (λ r. IsUsable r.0) }
    ensures fault { IfErr result (λ e. format_in (length bytes.now) (parts_from bytes.now 12) ≡ Err e) }
{
    let mut at = 12;
    while at < bytes.len() {
        let part = tail(bytes, at);
        if part.len() < 8 {
            return Err(DemuxFault::BadWav { at: at as u64 });
        }
        if has_id(part, b"fmt ".as_slice()) {
            return match format_of(at as u64, part) {
                Ok(format) => Ok((format, at + whole_size(part))),
                Err(fault) => Err(fault),
            };
        }
        if has_id(part, b"data".as_slice()) {
            return Err(DemuxFault::BadWav { at: at as u64 });
        }
        at += whole_size(part);
    }
    Err(DemuxFault::BadWav {
        at: bytes.len() as u64,
    })
}

/// The bytes of the first part `data` from a place on.
pub fn find_data(bytes: &[u8], from: usize) -> Result<&[u8], DemuxFault>
    ensures found { IfOk result (λ d. data_in (length bytes.now) (parts_from bytes.now from) ≡ Ok d.now) }
    ensures short { IfOk result (λ d. length d.now < 2 ^ 32) }
    ensures fault { IfErr result (λ e. data_in (length bytes.now) (parts_from bytes.now from) ≡ Err e) }
{
    let mut at = from;
    while at < bytes.len() {
        let part = tail(bytes, at);
        if part.len() < 8 {
            return Err(DemuxFault::BadWav { at: at as u64 });
        }
        if has_id(part, b"data".as_slice()) {
            return Ok(content(part));
        }
        at += whole_size(part);
    }
    Err(DemuxFault::BadWav {
        at: bytes.len() as u64,
    })
}

fn has_id(part: &[u8], id: &[u8]) -> bool
    requires { 8 ≤ length part.now }
    ensures { result ≡ spec.has_id id.now part.now }
{
    &part[..4] == id
}

/// How many bytes a part says that it takes.
fn whole_size(part: &[u8]) -> usize
    requires { 8 ≤ length part.now }
    ensures size { result ≡ spec.whole_size part.now }
    ensures some { 8 ≤ result }
    ensures fits { result ≤ 2 ^ 32 + 8 }
{
    let size = LittleEndian::read_u32(tail(part, 4)) as usize;
    8 + (size + size % 2)
}

/// The bytes of a part, up to its size or the end of the file.
fn content(part: &[u8]) -> &[u8]
    requires { 8 ≤ length part.now }
    ensures bytes { result.now ≡ take (spec.size_of part.now) (drop 8 part.now) }
    ensures short { length result.now < 2 ^ 32 }
{
    let size = LittleEndian::read_u32(tail(part, 4)) as usize;
    let rest = tail(part, 8);
    &rest[..size.min(rest.len())]
}

/// The bytes from a place on.
pub fn tail(bytes: &[u8], at: usize) -> &[u8]
    requires { at ≤ length bytes.now }
    ensures { result.now ≡ drop at bytes.now }
{
    &bytes[at..]
}
