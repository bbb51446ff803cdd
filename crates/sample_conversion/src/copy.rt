// Samples, copied in another size and layout: a loop for each pair of sizes, in which nothing is
// decided for a sample, and one copy of bytes where sizes and layouts agree.
ghost use Rattle.std.specs.Prelude.{ℕ, ◌≡◌, ◌<◌, ◌≤◌, ◌*◌, ◌+◌, ◌^◌, ◌++◌, true, length};
ghost use Rattle.codec_definitions.specs.Pcm.{is_whole, place_of};
ghost use Rattle.sample_conversion.specs.Sizes.{size_of, is_format_size, padded_of};
ghost use Rattle.sample_conversion.specs.Layouts.{channel_of, frames_of, is_sample_size, last_bytes};
ghost use Rattle.sample_conversion.specs.Layouts.{resized_sample, strided_samples, plane_frames, frame_step_of};

use crate::shape::{format_size, is_planar};
use crate::size::SampleSize;
use wc_base::SoundShape;

/// Copies one channel's samples of `count` frames from `first` on, each in `size`. `to` has as many
/// bytes as they take. It takes no memory.
pub fn copy_channel(
    size: SampleSize,
    shape: &SoundShape,
    bytes: &[u8],
    channel: u32,
    first: u32,
    count: u32,
    to: &mut [u8],
)
    requires whole { is_whole shape.now bytes.now ≡ true }
    requires channel { channel < shape.now.channels }
    requires frames { first + count ≤ shape.now.frames }
    requires room { length to.old ≡ size_of size * count }
    ensures { to.new ≡ channel_of (size_of size) shape.now bytes.now channel first count }
{
    if count == 0 {
        return;
    }
    let _long = bytes.len();
    let s = format_size(shape.format);
    let place = place_at(shape, first, channel);
    copy_run(s, size, bytes, place, frame_step(shape), to, count as usize);
}

/// Copies all channels' samples of `count` frames from `first` on, frame by frame, each in `size`.
/// `to` has as many bytes as they take. It takes no memory.
pub fn copy_frames(
    size: SampleSize,
    shape: &SoundShape,
    bytes: &[u8],
    first: u32,
    count: u32,
    to: &mut [u8],
)
    requires whole { is_whole shape.now bytes.now ≡ true }
    requires frames { first + count ≤ shape.now.frames }
    requires room { length to.old ≡ size_of size * shape.now.channels * count }
    ensures { to.new ≡ frames_of (size_of size) shape.now bytes.now first count }
{
    let _long = bytes.len();
    let s = format_size(shape.format);
    let channels = shape.channels as usize;
    let first = first as usize;
    if is_planar(shape.format) {
        let step = shape.frames as usize;
        copy_planes(s, size, bytes, first, step, to, count as usize, channels);
    } else {
        copy_run(
            s,
            size,
            bytes,
            first * channels,
            1,
            to,
            count as usize * channels,
        );
    }
}

/// Where a channel's sample of a frame stands among all.
fn place_at(shape: &SoundShape, frame: u32, channel: u32) -> usize
    requires { place_of shape.now frame channel < 2 ^ 64 }
    ensures { result ≡ place_of shape.now frame channel }
{
    if is_planar(shape.format) {
        channel as usize * shape.frames as usize + frame as usize
    } else {
        frame as usize * shape.channels as usize + channel as usize
    }
}

fn frame_step(shape: &SoundShape) -> usize
    ensures { result ≡ frame_step_of shape.now }
{
    if is_planar(shape.format) {
        1
    } else {
        shape.channels as usize
    }
}

/// Copies samples of `s` bytes, the first at a place and each `step` places after the one before.
fn copy_run(
    s: usize,
    size: SampleSize,
    from: &[u8],
    first: usize,
    step: usize,
    to: &mut [u8],
    count: usize,
)
    requires size { is_format_size s ≡ true }
    requires there { (i : ℕ) → i < count → s * (first + i * step) + s ≤ length from.now }
    requires room { length to.old ≡ size_of size * count }
    ensures { to.new ≡ strided_samples s (size_of size) from.now first step count }
{
    if step == 1 && s == size.bytes() {
        copy_straight(s, from, first, to, count);
        return;
    }
    match s {
        1 => run_from::<1>(size, from, first, step, to, count),
        2 => run_from::<2>(size, from, first, step, to, count),
        _ => run_from::<4>(size, from, first, step, to, count),
    }
}

/// Copies samples that stand one after another and keep their size.
fn copy_straight(s: usize, from: &[u8], first: usize, to: &mut [u8], count: usize)
    requires size { is_format_size s ≡ true }
    requires there { (i : ℕ) → i < count → s * (first + i * 1) + s ≤ length from.now }
    requires room { length to.old ≡ s * count }
    ensures { to.new ≡ strided_samples s s from.now first 1 count }
{
    if count > 0 {
        to.copy_from_slice(&from[s * first..s * first + s * count]);
    }
}

fn run_from<const S: usize>(
    size: SampleSize,
    from: &[u8],
    first: usize,
    step: usize,
    to: &mut [u8],
    count: usize,
)
    requires size { is_format_size S ≡ true }
    requires there { (i : ℕ) → i < count → S * (first + i * step) + S ≤ length from.now }
    requires room { length to.old ≡ size_of size * count }
    ensures { to.new ≡ strided_samples S (size_of size) from.now first step count }
{
    match size {
        SampleSize::One => run::<S, 1>(from, first, step, to, count),
        SampleSize::Two => run::<S, 2>(from, first, step, to, count),
        SampleSize::Three => run::<S, 3>(from, first, step, to, count),
        SampleSize::Four => run::<S, 4>(from, first, step, to, count),
    }
}

fn run<const S: usize, const D: usize>(
    from: &[u8],
    first: usize,
    step: usize,
    to: &mut [u8],
    count: usize,
)
    requires from { is_format_size S ≡ true }
    requires to { is_sample_size D ≡ true }
    requires there { (i : ℕ) → i < count → S * (first + i * step) + S ≤ length from.now }
    requires room { length to.old ≡ D * count }
    ensures { to.new ≡ strided_samples S D from.now first step count }
{
    for i in 0..count {
        let place = S * (first + i * step);
        convert(&from[place..place + S], &mut to[D * i..D * i + D]);
    }
}

/// Copies the samples of planes, frame by frame: the first frame's place, and how far apart the planes
/// stand, in samples.
fn copy_planes(
    s: usize,
    size: SampleSize,
    from: &[u8],
    first: usize,
    step: usize,
    to: &mut [u8],
    frames: usize,
    channels: usize,
)
    requires size { is_format_size s ≡ true }
    requires there { (k i : ℕ) → k < frames → i < channels →
        s * (first + k + i * step) + s ≤ length from.now }
    requires room { length to.old ≡ size_of size * channels * frames }
    ensures { to.new ≡ plane_frames s (size_of size) from.now first step frames channels }
{
    match s {
        1 => planes_from::<1>(size, from, first, step, to, frames, channels),
        2 => planes_from::<2>(size, from, first, step, to, frames, channels),
        _ => planes_from::<4>(size, from, first, step, to, frames, channels),
    }
}

fn planes_from<const S: usize>(
    size: SampleSize,
    from: &[u8],
    first: usize,
    step: usize,
    to: &mut [u8],
    frames: usize,
    channels: usize,
)
    requires size { is_format_size S ≡ true }
    requires there { (k i : ℕ) → k < frames → i < channels →
        S * (first + k + i * step) + S ≤ length from.now }
    requires room { length to.old ≡ size_of size * channels * frames }
    ensures { to.new ≡ plane_frames S (size_of size) from.now first step frames channels }
{
    match size {
        SampleSize::One => each_frame::<S, 1>(from, first, step, to, frames, channels),
        SampleSize::Two => each_frame::<S, 2>(from, first, step, to, frames, channels),
        SampleSize::Three => each_frame::<S, 3>(from, first, step, to, frames, channels),
        SampleSize::Four => each_frame::<S, 4>(from, first, step, to, frames, channels),
    }
}

fn each_frame<const S: usize, const D: usize>(
    from: &[u8],
    first: usize,
    step: usize,
    to: &mut [u8],
    frames: usize,
    channels: usize,
)
    requires from { is_format_size S ≡ true }
    requires to { is_sample_size D ≡ true }
    requires there { (k i : ℕ) → k < frames → i < channels →
        S * (first + k + i * step) + S ≤ length from.now }
    requires room { length to.old ≡ D * channels * frames }
    ensures { to.new ≡ plane_frames S D from.now first step frames channels }
{
    if channels == 0 {
        return;
    }
    if channels == 2 {
        each_pair::<S, D>(from, first, step, to, frames);
        return;
    }
    let _long = from.len();
    for k in 0..frames {
        let place = D * channels * k;
        run::<S, D>(
            from,
            first + k,
            step,
            &mut to[place..place + D * channels],
            channels,
        );
    }
}

/// The same for two channels.
fn each_pair<const S: usize, const D: usize>(
    from: &[u8],
    first: usize,
    step: usize,
    to: &mut [u8],
    frames: usize,
)
    requires from { is_format_size S ≡ true }
    requires to { is_sample_size D ≡ true }
    requires one { (k : ℕ) → k < frames → S * (first + k) + S ≤ length from.now }
    requires other { (k : ℕ) → k < frames → S * (first + k + step) + S ≤ length from.now }
    requires room { length to.old ≡ D * 2 * frames }
    ensures { to.new ≡ plane_frames S D from.now first step frames 2 }
{
    let _long = from.len();
    for k in 0..frames {
        let one = S * (first + k);
        let other = S * (first + k + step);
        let place = D * 2 * k;
        pair::<D>(
            &from[one..one + S],
            &from[other..other + S],
            &mut to[place..place + D * 2],
        );
    }
}

/// Writes two samples of one size in another.
fn pair<const D: usize>(one: &[u8], other: &[u8], to: &mut [u8])
    requires from { is_format_size (length one.now) ≡ true }
    requires same { length other.now ≡ length one.now }
    requires to { is_sample_size D ≡ true }
    requires room { length to.old ≡ D * 2 }
    ensures { to.new ≡ resized_sample (length one.now) D one.now
        ++ resized_sample (length one.now) D other.now }
{
    let (front, back) = to.split_at_mut(D);
    convert(one, front);
    convert(other, back);
}

/// Writes one sample in another size.
fn convert(from: &[u8], to: &mut [u8])
    requires from { is_format_size (length from.now) ≡ true }
    requires to { is_sample_size (length to.old) ≡ true }
    ensures { to.new ≡ resized_sample (length from.now) (length to.old) from.now }
{
    put(padded(from), to);
}

/// A sample's bytes at the end of four. A byte with its middle at 128 becomes one in two's complement.
fn padded(sample: &[u8]) -> [u8; 4]
    requires { is_format_size (length sample.now) ≡ true }
    ensures { result ≡ padded_of sample.now }
{
    match sample.len() {
        1 => [0, 0, 0, sample[0].wrapping_add(128)],
        2 => [0, 0, sample[0], sample[1]],
        _ => [sample[0], sample[1], sample[2], sample[3]],
    }
}

/// Writes the last of four bytes; a single one gets its middle at 128.
fn put(wide: [u8; 4], to: &mut [u8])
    requires { is_sample_size (length to.old) ≡ true }
    ensures { to.new ≡ last_bytes (length to.old) wide }
{
    match to.len() {
        1 => to[0] = wide[3].wrapping_add(128),
        2 => to.copy_from_slice(&wide[2..]),
        3 => to.copy_from_slice(&wide[1..]),
        _ => to.copy_from_slice(&wide),
    }
}
