// Copies of sound in other formats.
ghost use Rattle.std.specs.Prelude.{◌≡◌, ◌<◌, ◌≤◌, ◌+◌, ◌*◌, length, true, false};
ghost use Rattle.codec_definitions.specs.Pcm.{is_planar, format_size};
ghost use Rattle.sample_conversion.specs.Sizes.{size_of};
ghost use Rattle.c_library.specs.Copies.{format_numbered, shape_of, planes_of, need_of, copied, CanBeCopied, IsCopyStatus, IsCopied};
ghost use Rattle.c_library.specs.Status.{done, too_small, invalid};

use crate::status::{DONE, INVALID, TOO_SMALL};
use sample_conversion::{SampleSize, copy_channel, copy_frames, is_planar, is_whole};
use wc_base::{SampleFormat, SoundShape};

/// What sound is: its format (0 to 5: unsigned bytes, 16 and 32 bits, frame by frame, and the same channel by channel), its
/// channels and its frames.
#[repr(C)]
#[derive(Clone, Copy, Debug, PartialEq, Eq)]
pub struct Sound {
    pub format: u32,
    pub channels: u32,
    pub frames: u32,
}

/// Which part of some sound is copied, and how: in a format, one of its planes, and `count` frames from `first` on.
#[repr(C)]
#[derive(Clone, Copy, Debug, PartialEq, Eq)]
pub struct Part {
    pub format: u32,
    pub plane: u32,
    pub first: u32,
    pub count: u32,
}

/// Copies a part of some sound in another format to the front of `to`; `size` says how many bytes it has. `copied` is the
/// clause of `sample_conversion::copy_channel` for a format by channels, and else that of `copy_frames`.
#[unsafe(no_mangle)]
pub extern "C" fn zemirako_copy_sound(
    sound: &Sound,
    bytes: &[u8],
    part: &Part,
    to: &mut [u8],
    size: &mut usize,
) -> u32
    ensures copied { result ≡ done → IsCopied sound.now bytes.now part.now to.old to.new }
    ensures small { result ≡ too_small → length to.old < need_of sound.now part.now }
    ensures size { (result ≡ invalid → ⊥) → size.new ≡ need_of sound.now part.now }
    ensures kept { (result ≡ done → ⊥) → to.new ≡ to.old }
    ensures kept_size { result ≡ invalid → size.new ≡ size.old }
    ensures valid { CanBeCopied sound.now bytes.now part.now → result ≡ invalid → ⊥ }
    ensures invalid { (CanBeCopied sound.now bytes.now part.now → ⊥) → result ≡ invalid }
    ensures status { IsCopyStatus result }
{
    if !can_be_copied(sound, bytes, part) {
        return INVALID;
    }
    let need = need_of(sound, part);
    *size = need;
    if need > to.len() {
        return TOO_SMALL;
    }
    copy_part(sound, bytes, part, &mut to[..need]);
    DONE
}

fn can_be_copied(sound: &Sound, bytes: &[u8], part: &Part) -> bool
    ensures yes { result ≡ true → CanBeCopied sound.now bytes.now part.now }
    ensures no { result ≡ false → CanBeCopied sound.now bytes.now part.now → ⊥ }
{
    if sound.format > 5 || part.format > 5 || sound.channels < 1 || sound.channels > 32 {
        return false;
    }
    if part.first as u64 + part.count as u64 > sound.frames as u64 {
        return false;
    }
    part.plane < planes_of(sound, part) && is_whole(&shape_of(sound), bytes)
}

fn format_numbered(number: u32) -> SampleFormat
    ensures { result ≡ format_numbered number }
{
    match number {
        0 => SampleFormat::U8,
        1 => SampleFormat::S16,
        2 => SampleFormat::S32,
        3 => SampleFormat::U8Planar,
        4 => SampleFormat::S16Planar,
        _ => SampleFormat::S32Planar,
    }
}

fn shape_of(sound: &Sound) -> SoundShape
    ensures { result ≡ shape_of sound.now }
{
    SoundShape {
        format: format_numbered(sound.format),
        rate: 1,
        channels: sound.channels,
        frames: sound.frames,
        timestamp: 0,
    }
}

fn planes_of(sound: &Sound, part: &Part) -> u32
    ensures { result ≡ planes_of sound.now part.now }
{
    if is_planar(format_numbered(part.format)) {
        sound.channels
    } else {
        1
    }
}

fn sample_size(number: u32) -> SampleSize
    ensures { size_of result ≡ format_size (format_numbered number) }
{
    match format_numbered(number) {
        SampleFormat::U8 | SampleFormat::U8Planar => SampleSize::One,
        SampleFormat::S16 | SampleFormat::S16Planar => SampleSize::Two,
        SampleFormat::S32 | SampleFormat::S32Planar => SampleSize::Four,
    }
}

/// How many bytes a part of some sound has.
fn need_of(sound: &Sound, part: &Part) -> usize
    requires channels { sound.now.channels ≤ 32 }
    ensures { result ≡ need_of sound.now part.now }
{
    let size = sample_size(part.format).bytes();
    if is_planar(format_numbered(part.format)) {
        size * part.count as usize
    } else {
        size * sound.channels as usize * part.count as usize
    }
}

fn copy_part(sound: &Sound, bytes: &[u8], part: &Part, to: &mut [u8])
    requires can { CanBeCopied sound.now bytes.now part.now }
    requires room { length to.old ≡ need_of sound.now part.now }
    ensures { to.new ≡ copied sound.now bytes.now part.now }
{
    let size = sample_size(part.format);
    let shape = shape_of(sound);
    if is_planar(format_numbered(part.format)) {
        copy_channel(size, &shape, bytes, part.plane, part.first, part.count, to);
    } else {
        copy_frames(size, &shape, bytes, part.first, part.count, to);
    }
}
