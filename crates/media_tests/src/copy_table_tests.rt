// Copies of audio data, sample by sample: data of 0 to 70 frames of one to three channels, in each pair of formats. A
// sample is a number of 32 bits here. A size keeps its upper bytes, and unsigned bytes have their first bit turned
// (W3C WebCodecs, 'Audio Sample Formats').
ghost use Rattle.std.specs.Prelude.{◌<◌, ◌≤◌};

use std::alloc::Global;
use std::test::Fail;
use wc_audio::{AudioData, CopyFormat, CopyOptions};
use wc_base::{By, DomError, NoMemory, SampleFormat, SoundShape, Who};
use wc_pool::{MediaFault, Pool};

const FORMATS: [SampleFormat; 6] = [
    SampleFormat::U8,
    SampleFormat::S16,
    SampleFormat::S32,
    SampleFormat::U8Planar,
    SampleFormat::S16Planar,
    SampleFormat::S32Planar,
];

/// A copy of some frames, from one on, of data in a format.
#[derive(Clone, Copy)]
struct Copy {
    from: SampleFormat,
    to: SampleFormat,
    channels: u32,
    plane: u32,
    offset: u32,
    count: u32,
}

fn size_of(format: SampleFormat) -> usize
    ensures some { 0 < result }
    ensures most { result ≤ 4 }
{
    match format {
        SampleFormat::U8 | SampleFormat::U8Planar => 1,
        SampleFormat::S16 | SampleFormat::S16Planar => 2,
        SampleFormat::S32 | SampleFormat::S32Planar => 4,
    }
}

fn is_planar(format: SampleFormat) -> bool {
    match format {
        SampleFormat::U8Planar | SampleFormat::S16Planar | SampleFormat::S32Planar => true,
        SampleFormat::U8 | SampleFormat::S16 | SampleFormat::S32 => false,
    }
}

fn copy_format(format: SampleFormat) -> CopyFormat {
    match format {
        SampleFormat::U8 => CopyFormat::U8,
        SampleFormat::S16 => CopyFormat::S16,
        SampleFormat::S32 => CopyFormat::S32,
        SampleFormat::U8Planar => CopyFormat::U8Planar,
        SampleFormat::S16Planar => CopyFormat::S16Planar,
        SampleFormat::S32Planar => CopyFormat::S32Planar,
    }
}

/// The sample of a frame in a channel: first the greatest, the least, -1 and 1, one channel before the other.
fn sample(frame: u64, channel: u64) -> u64 {
    match frame.wrapping_add(channel) {
        0 => 0x7fff_ffff,
        1 => 0x8000_0000,
        2 => 0xffff_ffff,
        3 => 1,
        _ => (frame.wrapping_mul(0x9e37_79b1)).wrapping_add(channel.wrapping_mul(0x85eb_ca6b)),
    }
}

/// The sample as a format holds it: the bytes that it has no room for are 0.
fn held_in(format: SampleFormat, sample: u64) -> u64 {
    match size_of(format) {
        1 => sample & 0xff00_0000,
        2 => sample & 0xffff_0000,
        _ => sample,
    }
}

/// A byte of a sample in a format, by its place among all four.
fn byte_at(format: SampleFormat, sample: u64, place: usize) -> u8
    requires { place < 4 }
{
    let byte = sample.to_le_bytes()[place];
    if size_of(format) == 1 {
        byte ^ 0x80
    } else {
        byte
    }
}

fn push_sample(content: &mut Vec<u8>, format: SampleFormat, sample: u64) -> Result<(), NoMemory> {
    let size = size_of(format);
    for place in 4 - size..4 {
        content.extend_from_slice(&[byte_at(format, sample, place)])?;
    }
    Ok(())
}

fn rows_of(
    alloc: Global,
    format: SampleFormat,
    channels: u32,
    frames: u32,
) -> Result<Vec<u8>, NoMemory> {
    let mut content = Vec::new(alloc);
    for frame in 0..frames as u64 {
        for channel in 0..channels as u64 {
            push_sample(&mut content, format, sample(frame, channel))?;
        }
    }
    Ok(content)
}

fn planes_of(
    alloc: Global,
    format: SampleFormat,
    channels: u32,
    frames: u32,
) -> Result<Vec<u8>, NoMemory> {
    let mut content = Vec::new(alloc);
    for channel in 0..channels as u64 {
        for frame in 0..frames as u64 {
            push_sample(&mut content, format, sample(frame, channel))?;
        }
    }
    Ok(content)
}

fn data_of(
    alloc: Global,
    pool: &mut Pool,
    format: SampleFormat,
    channels: u32,
    frames: u32,
) -> Result<AudioData, MediaFault> {
    let content = if is_planar(format) {
        planes_of(alloc, format, channels, frames)?
    } else {
        rows_of(alloc, format, channels, frames)?
    };
    let shape = SoundShape {
        format,
        rate: 48000,
        channels,
        frames,
        timestamp: 0,
    };
    let by = By::Caller(Who { caller: 0, step: 0 });
    AudioData::new(alloc, shape, content.as_slice(), pool, by)
}

/// The sample with this number in a copy.
fn sample_of(copy: &Copy, number: u64) -> u64 {
    let first = copy.offset as u64;
    let channels = copy.channels as u64;
    if is_planar(copy.to) || channels == 0 {
        sample(first.wrapping_add(number), copy.plane as u64)
    } else {
        sample(first.wrapping_add(number / channels), number % channels)
    }
}

fn wanted_byte(copy: &Copy, i: usize) -> u8 {
    let size = size_of(copy.to);
    let sample = sample_of(copy, (i / size) as u64);
    byte_at(copy.to, held_in(copy.from, sample), 4 - size + i % size)
}

fn wanted_size(copy: &Copy) -> usize {
    let width = if is_planar(copy.to) { 1 } else { copy.channels };
    size_of(copy.to)
        .wrapping_mul(width as usize)
        .wrapping_mul(copy.count as usize)
}

fn is_wanted(copy: &Copy, found: &[u8]) -> bool {
    for i in 0..found.len() {
        if found[i] != wanted_byte(copy, i) {
            return false;
        }
    }
    true
}

fn is_left(bytes: &[u8]) -> bool {
    for byte in bytes {
        if *byte != 9 {
            return false;
        }
    }
    true
}

/// Whether a copy is refused exactly where its frames are not there, and else has the wanted bytes and leaves the rest.
fn is_as_defined(data: &AudioData, copy: &Copy) -> bool {
    let mut dst = [9_u8; 840];
    let o = CopyOptions {
        plane: copy.plane,
        offset: copy.offset,
        count: Some(copy.count),
        format: Some(copy_format(copy.to)),
    };
    let frames = data.shape().frames;
    let is_there = copy.offset < frames && copy.offset.saturating_add(copy.count) <= frames;
    match data.copy_to(&mut dst, &o) {
        Ok(n) => {
            is_there && n == wanted_size(copy) && is_wanted(copy, &dst[..n]) && is_left(&dst[n..])
        }
        Err(e) => !is_there && e == DomError::RangeErr && is_left(&dst),
    }
}

fn is_each_plane(data: &AudioData, copy: &Copy) -> bool {
    let planes = if is_planar(copy.to) { copy.channels } else { 1 };
    for plane in 0..planes {
        if !is_as_defined(data, &Copy { plane, ..*copy }) {
            return false;
        }
    }
    true
}

/// All frames, five from the fourth on, and none.
fn are_copies(data: &AudioData, from: SampleFormat, channels: u32) -> bool {
    for to in FORMATS {
        for (offset, count) in [(0, data.shape().frames), (3, 5), (0, 0)] {
            let copy = Copy {
                from,
                to,
                channels,
                plane: 0,
                offset,
                count,
            };
            if !is_each_plane(data, &copy) {
                return false;
            }
        }
    }
    true
}

/// Data of no frame is refused.
fn is_length_copied(
    alloc: Global,
    pool: &mut Pool,
    from: SampleFormat,
    channels: u32,
    frames: u32,
) -> Result<bool, MediaFault> {
    match data_of(alloc, pool, from, channels, frames) {
        Ok(data) => Ok(are_copies(&data, from, channels)),
        Err(MediaFault::Dom(e)) => Ok(frames == 0 && e == DomError::TypeErr),
        Err(MediaFault::NoMemory) => Err(MediaFault::NoMemory),
    }
}

fn are_lengths_copied(
    alloc: Global,
    from: SampleFormat,
    channels: u32,
) -> Result<bool, MediaFault> {
    let mut pool = Pool::open(alloc);
    for frames in 0..71 {
        if !is_length_copied(alloc, &mut pool, from, channels, frames)? {
            return Ok(false);
        }
    }
    Ok(true)
}

#[test]
fn copies_are_as_defined(rt: HostRuntime) -> Result<(), Fail> {
    for from in FORMATS {
        for channels in 1..4 {
            assert!(rt; are_lengths_copied(rt.alloc(), from, channels)?);
        }
    }
    Ok(())
}

fn is_refused(data: &AudioData, format: CopyFormat) -> bool {
    let mut dst = [9_u8; 16];
    let o = CopyOptions {
        plane: 0,
        offset: 0,
        count: None,
        format: Some(format),
    };
    data.copy_to(&mut dst, &o) == Err(DomError::NotSupported) && is_left(&dst)
}

/// No copy gives floats.
#[test]
fn copies_as_floats_are_refused(rt: HostRuntime) -> Result<(), Fail> {
    let mut pool = Pool::open(rt.alloc());
    for from in FORMATS {
        let data = data_of(rt.alloc(), &mut pool, from, 1, 2)?;
        assert!(rt; is_refused(&data, CopyFormat::F32));
        assert!(rt; is_refused(&data, CopyFormat::F32Planar));
    }
    Ok(())
}
