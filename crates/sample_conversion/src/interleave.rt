// Samples frame by frame, in a size.
ghost use Rattle.std.specs.Prelude.{◌≡◌, ◌≤◌, true, IfOk};
ghost use Rattle.codec_definitions.specs.Pcm.{interleaved, is_whole};
ghost use Rattle.sample_conversion.specs.Sizes.{size_of, is_same, SixteenBitsComeBack};

use crate::copy::copy_frames;
use crate::shape::{format_size, is_planar};
use crate::size::SampleSize;
use std::alloc::Global;
use wc_base::{NoMemory, SampleFormat, SoundShape};

/// All samples of data of at most 32 channels, frame by frame, in a size: the more significant bytes of a sample that is
/// longer, and zeros below one that is shorter.
pub fn interleaved(
    alloc: Global,
    size: SampleSize,
    shape: &SoundShape,
    bytes: &[u8],
) -> Result<Vec<u8>, NoMemory>
    requires channels { shape.now.channels ≤ 32 }
    requires whole { is_whole shape.now bytes.now ≡ true }
    ensures { IfOk result (λ v. v.items ≡ interleaved (size_of size) shape.now bytes.now) }
{
    if is_same(size, shape.format) {
        interleaved_stays(size, shape, bytes);
        return Ok(Vec::from_slice(alloc, bytes)?);
    }
    let len = size.bytes() * shape.channels as usize * shape.frames as usize;
    let mut out = Vec::with_capacity(alloc, len)?;
    out.resize(len, 0)?;
    copy_frames(size, shape, bytes, 0, shape.frames, &mut out);
    Ok(out)
}

/// Whether data of a format is interleaved in a size by its own bytes: it is interleaved, and its samples have this size.
pub fn is_same(size: SampleSize, format: SampleFormat) -> bool
    ensures { result ≡ is_same size format }
{
    !is_planar(format) && format_size(format) == size.bytes()
}

/// A law: in the same size and layout, samples are spelled by the bytes that spell them.
pub fn interleaved_stays(size: SampleSize, shape: &SoundShape, bytes: &[u8])
    requires same { is_same size shape.now.format ≡ true }
    requires whole { is_whole shape.now bytes.now ≡ true }
    ensures { bytes.now ≡ interleaved (size_of size) shape.now bytes.now }
{}

/// A law: a sample that was given 16 bits is what its two bytes spell.
pub fn sixteen_bits_come_back()
    ensures { SixteenBitsComeBack }
{}
