// A frame's header.
ghost use Rattle.std.specs.Prelude.{◌≡◌, ◌+◌, ◌*◌, ◌/◌, ◌%◌, ◌≤◌, ◌<◌, true, OnOk, OnErr, IfOk};
ghost use Rattle.flac_frame.specs.Reading.{Gives, Onward, Agrees};
ghost use Rattle.flac_definitions.specs.HeaderSpelling.{IsDescribed};
ghost use Rattle.flac_definitions.specs.Header.{header_at, header_sum_at, header_with, depth_of, channels_of};

use crate::fields::{block_size, coded_number, field, header_codes, sample_rate};
use flac_bits::{BitReader, crc8};
use flac_definitions::{FrameHeader, HeaderCodes, HeaderFault, HeaderField};
use wc_config::StreamInfo;

/// Reads the header of a frame that begins at a byte, and else gives the first fault in reading order. After a fault the
/// reader stands where it stood.
pub fn read_header(r: &mut BitReader<'_>, info: &StreamInfo) -> Result<FrameHeader, HeaderFault>
    ensures read { Gives (header_at info.now r.old) result r.new }
    ensures fits { IfOk result
        (λ h. (h.block < 65536) × (h.assignment < 11) × (0 < h.depth) × (h.depth ≤ 32)) }
    ensures onward { Onward r.old r.new }
    ensures agrees { IfOk result (λ h. IsDescribed info.now h) }
    ensures err { OnErr result (r.new ≡ r.old) }
{
    let start = r.at();
    let header = header_of(r, info);
    if header.is_err() {
        back_to(r, start);
    }
    header
}

/// Goes back to an earlier place.
fn back_to(r: &mut BitReader<'_>, start: u64)
    requires { start ≤ r.old.at }
    ensures { r.new ≡ record { bytes = r.old.bytes; at = start } }
{
    let _bytes = r.bytes();
    r.move_to(start);
}

/// Reads the header, and after a fault stands anywhere behind.
#[tactic(auto, unfolding(flac_definitions::specs::Header::header_at))]
fn header_of(r: &mut BitReader<'_>, info: &StreamInfo) -> Result<FrameHeader, HeaderFault>
    ensures read { Gives (header_at info.now r.old) result r.new }
    ensures fits { IfOk result
        (λ h. (h.block < 65536) × (h.assignment < 11) × (0 < h.depth) × (h.depth ≤ 32)) }
    ensures onward { Onward r.old r.new }
    ensures agrees { IfOk result (λ h. IsDescribed info.now h) }
{
    let start = r.at();
    let codes = header_codes(r)?;
    let number = coded_number(r)?;
    let block = block_size(r, codes.block as u32)?;
    let rate = sample_rate(r, info.rate, codes.rate as u32)?;
    check_sum(r, start)?;
    check_description(info, codes, number, block, rate)
}

fn depth_of(described: u32, code: u8) -> u32
    ensures { result ≡ depth_of described code }
{
    match code {
        0 => described,
        1 => 8,
        2 => 12,
        4 => 16,
        5 => 20,
        6 => 24,
        _ => 32,
    }
}

/// The sum behind the header's bytes, which begin at a place.
#[tactic(auto, unfolding(flac_definitions::specs::Header::header_sum_at))]
fn check_sum(r: &mut BitReader<'_>, start: u64) -> Result<(), HeaderFault>
    requires { start ≤ r.old.at }
    ensures read { Gives (header_sum_at start r.old) result r.new }
    ensures onward { Onward r.old r.new }
{
    let counted = crc8(&r.bytes()[(start / 8) as usize..(r.at() / 8) as usize]);
    let kept = match field(r, 8) {
        Ok(x) => x as u8,
        Err(e) => return Err(e),
    };
    if kept == counted {
        Ok(())
    } else {
        Err(HeaderFault::HeaderSum { kept, counted })
    }
}

fn channels_of(assignment: u8) -> u32
    ensures { result ≡ channels_of assignment }
{
    if assignment < 8 {
        assignment as u32 + 1
    } else {
        2
    }
}

/// The header, where it is one of the stream that is described.
fn check_description(
    info: &StreamInfo,
    codes: HeaderCodes,
    number: u64,
    block: u32,
    rate: u32,
) -> Result<FrameHeader, HeaderFault>
    ensures agrees { Agrees info.now (header_with info.now codes number block rate) result }
    ensures block { IfOk result (λ h. h.block ≡ block) }
    ensures assignment { IfOk result (λ h. h.assignment ≡ codes.assignment) }
    ensures depth { IfOk result (λ h. (0 < h.depth) × (h.depth ≤ 32)) }
    ensures described { IfOk result (λ h. IsDescribed info.now h) }
{
    let depth = depth_of(info.depth, codes.depth);
    let field = if rate != info.rate {
        HeaderField::Rate
    } else if channels_of(codes.assignment) != info.channels {
        HeaderField::Channels
    } else if info.depth < 1 || info.depth > 32 || depth != info.depth {
        HeaderField::Depth
    } else {
        return Ok(FrameHeader {
            block,
            rate,
            assignment: codes.assignment,
            depth: depth as u8,
            number,
        });
    };
    Err(HeaderFault::Differs { field })
}
