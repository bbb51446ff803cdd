// Frames.
ghost use Rattle.std.specs.Prelude.{◌≡◌, ◌+◌, ◌-◌, ◌*◌, ◌^◌, ◌<◌, ◌≤◌, length, OnOk, IfOk, true, Some, Err};
ghost use Rattle.flac_definitions.specs.Header.{channels_of};
ghost use Rattle.flac_decode.specs.Bounds.{AreSmall};
ghost use Rattle.flac_decode.specs.Reading.{Gives, Fills};
ghost use Rattle.flac_definitions.specs.Subframe.{channels_at};
ghost use Rattle.flac_definitions.specs.Stereo.{channel_depth, is_side};
ghost use Rattle.flac_definitions.specs.Frame.{footer_at, frame_at, frame_of};
ghost use Rattle.codec_definitions.specs.Flac.{sample_size, bytes_of_frame};
ghost use Rattle.flac_decode.specs.Reading.{Decodes, ReadsFrame, FillsFrame, IsWithinLimits, IsOfStream, TellsShort};
ghost use Rattle.flac_decode.specs.Shortness.{short_channels, short_footer, short_frame};

use crate::fault::{FrameFault, ReadFault};
use crate::fields::read_bits;
use crate::output::write_samples;
use crate::stereo::restore_channels;
use crate::subframe::read_subframe;
use flac_bits::{BitReader, crc16};
use flac_frame::{FrameHeader, HeaderFault, read_header};
use wc_base::NoMemory;
use wc_config::StreamInfo;

/// Decodes the frame that `bytes` are, with nothing behind it, of the stream that is described (RFC 9639, section 9): the
/// number of samples a channel. What `out` held is replaced by the samples of all channels one after another, first all
/// channels' first samples: 2 bytes each up to a depth of 16 bits, and 4 above, little-endian, with zeros below the depth.
/// `residual` and `samples` are room to work in, which a further call may use again. `Refused` exactly where the bytes are
/// no such frame, have 2^61 or more, or where a sample does not fit its depth, and then `out` stays; `NoMemory` only where
/// memory is wanted.
pub fn decode_frame(
    bytes: &[u8],
    info: &StreamInfo,
    residual: &mut Vec<i32>,
    samples: &mut Vec<i64>,
    out: &mut Vec<u8>,
) -> Result<u32, FrameFault>
    ensures decoded { Decodes (frame_of info.now bytes.now) result out.new.items }
    ensures size { IfOk result (λ block. length out.new.items ≡ block * (info.now.channels * sample_size info.now.depth)) }
    ensures kept { result ≡ Err FrameFault.Refused → out.new ≡ out.old }
{
    let header = match read_whole_frame(bytes, info, residual, samples) {
        Ok(h) => h,
        Err(e) => return Err(e),
    };
    match write_frame(&header, samples.as_slice(), out) {
        Ok(()) => Ok(header.block),
        Err(NoMemory) => Err(FrameFault::NoMemory),
    }
}

/// Reads the frame that bytes are, with nothing behind it.
fn read_whole_frame(
    bytes: &[u8],
    info: &StreamInfo,
    residual: &mut Vec<i32>,
    samples: &mut Vec<i64>,
) -> Result<FrameHeader, FrameFault>
    ensures read { ReadsFrame (frame_of info.now bytes.now) result samples.new.items }
    ensures small { OnOk result (AreSmall 32 samples.new.items) }
    ensures length { IfOk result (λ h. length samples.new.items ≡ channels_of h.assignment * h.block) }
    ensures fits { IfOk result IsWithinLimits }
    ensures agrees { IfOk result (λ h. IsOfStream info.now h) }
{
    if bytes.len() >= 1 << 61 {
        return Err(FrameFault::Refused);
    }
    let mut r = BitReader::new(bytes);
    let header = match read_frame(&mut r, info, residual, samples) {
        Ok(h) => h,
        Err(ReadFault::NoMemory) => return Err(FrameFault::NoMemory),
        Err(_) => return Err(FrameFault::Refused),
    };
    if r.at() == 8 * bytes.len() as u64 {
        Ok(header)
    } else {
        Err(FrameFault::Refused)
    }
}

/// Reads a frame, with its channels one after another.
#[tactic(auto, unfolding(flac_definitions::specs::Frame::frame_at))]
pub fn read_frame(
    r: &mut BitReader<'_>,
    info: &StreamInfo,
    residual: &mut Vec<i32>,
    samples: &mut Vec<i64>,
) -> Result<FrameHeader, ReadFault>
    ensures read { FillsFrame (frame_at info.now r.old) result r.new samples.new.items }
    ensures short { TellsShort result (short_frame info.now r.old) }
    ensures small { OnOk result (AreSmall 32 samples.new.items) }
    ensures length { IfOk result (λ h. length samples.new.items ≡ channels_of h.assignment * h.block) }
    ensures fits { IfOk result IsWithinLimits }
    ensures agrees { IfOk result (λ h. IsOfStream info.now h) }
    ensures bytes { r.new.bytes ≡ r.old.bytes }
{
    let header = match read_header(r, info) {
        Ok(h) => h,
        Err(HeaderFault::Short { .. }) => return Err(ReadFault::Short),
        Err(_) => return Err(ReadFault::Refused),
    };
    let block = header.block as usize;
    let channels = channel_count(header.assignment);
    // What is there already is written over.
    if samples.resize(channels * block, 0).is_err() {
        return Err(ReadFault::NoMemory);
    }
    let places = samples.as_mut_slice();
    if let Err(e) = read_subframes(r, &header, block, channels, residual, places) {
        return Err(e);
    }
    if let Err(e) = read_footer(r) {
        return Err(e);
    }
    if restore_channels(header.assignment, header.depth as u32, block, places) {
        Ok(header)
    } else {
        Err(ReadFault::Refused)
    }
}

fn channel_count(assignment: u8) -> usize
    ensures count { result ≡ channels_of assignment }
    ensures some { 0 < result }
    ensures fits { result ≤ 8 }
    ensures pair { 7 < assignment → result ≡ 2 }
{
    if assignment < 8 {
        assignment as usize + 1
    } else {
        2
    }
}

fn is_side(assignment: u8, channel: usize) -> bool
    ensures { result ≡ is_side assignment channel }
{
    if channel == 0 {
        assignment == 9
    } else if channel == 1 {
        if assignment == 8 {
            true
        } else {
            assignment == 10
        }
    } else {
        false
    }
}

fn channel_depth(header: &FrameHeader, channel: usize) -> u32
    requires { header.now.depth ≤ 32 }
    ensures depth { result ≡ channel_depth header.now.assignment header.now.depth channel }
    ensures fits { result ≤ 33 }
{
    let depth = header.depth as u32;
    if is_side(header.assignment, channel) {
        depth + 1
    } else {
        depth
    }
}

fn read_subframes(
    r: &mut BitReader<'_>,
    header: &FrameHeader,
    block: usize,
    channels: usize,
    residual: &mut Vec<i32>,
    samples: &mut [i64],
) -> Result<(), ReadFault>
    requires depth { header.now.depth ≤ 32 }
    requires block { block < 65536 }
    requires channels { channels ≤ 8 }
    requires samples { length samples.old ≡ channels * block }
    ensures read { Fills (channels_at header.now.assignment header.now.depth block 0 channels r.old) result r.new samples.new }
    ensures short { TellsShort result
        (short_channels header.now.assignment header.now.depth block 0 channels r.old) }
    ensures small { OnOk result (AreSmall 32 samples.new) }
    ensures bytes { r.new.bytes ≡ r.old.bytes }
{
    for channel in 0..channels {
        let depth = channel_depth(header, channel);
        let from = channel * block;
        if let Err(e) = read_subframe(r, depth, residual, &mut samples[from..from + block]) {
            return Err(e);
        }
    }
    Ok(())
}

/// Zero bits up to a byte, and the sum of the bytes before.
#[tactic(auto, unfolding(flac_definitions::specs::Frame::footer_at))]
fn read_footer(r: &mut BitReader<'_>) -> Result<(), ReadFault>
    ensures read { Gives (footer_at r.old) result r.new }
    ensures short { TellsShort result (short_footer r.old) }
    ensures bytes { r.new.bytes ≡ r.old.bytes }
{
    let padding = (8 - r.at() % 8) % 8;
    match read_bits(r, padding as u32) {
        Ok(0) => {}
        Ok(_) => return Err(ReadFault::Refused),
        Err(e) => return Err(e),
    }
    let counted = crc16(&r.bytes()[..(r.at() / 8) as usize]);
    match read_bits(r, 16) {
        Ok(kept) => {
            if kept == counted as u64 {
                Ok(())
            } else {
                Err(ReadFault::Refused)
            }
        }
        Err(e) => Err(e),
    }
}

/// Gives the samples' bytes in place of `out`.
#[tactic(auto, unfolding(codec_definitions::specs::Flac::bytes_of_frame))]
pub fn write_frame(header: &FrameHeader, samples: &[i64], out: &mut Vec<u8>) -> Result<(), NoMemory>
    requires block { header.now.block < 65536 }
    requires some { 0 < header.now.depth }
    requires depth { header.now.depth ≤ 32 }
    requires samples { length samples.now ≡ channels_of header.now.assignment * header.now.block }
    requires small { AreSmall 32 samples.now }
    ensures bytes { OnOk result (out.new.items ≡ bytes_of_frame header.now samples.now) }
    ensures size { OnOk result (length out.new.items ≡ header.now.block * (channels_of header.now.assignment * sample_size header.now.depth)) }
{
    let depth = header.depth as u32;
    let block = header.block as usize;
    let channels = channel_count(header.assignment);
    let size = sample_size(depth);
    // What is there already is written over.
    if out.resize(block * (channels * size), 0).is_err() {
        return Err(NoMemory);
    }
    write_samples(
        channels,
        size,
        block,
        8 * size as u32 - depth,
        samples,
        out.as_mut_slice(),
    );
    Ok(())
}

fn sample_size(depth: u32) -> usize
    ensures { result ≡ sample_size depth }
{
    if depth <= 16 { 2 } else { 4 }
}
