// What a copy takes, or why it is refused (W3C WebCodecs, AudioData, 'Compute Copy Element Count').
ghost use Rattle.std.specs.Prelude.{◌≡◌, ◌<◌, ◌≤◌, ◌^◌, IfSome, IfNone};
ghost use Rattle.codec_definitions.specs.Pcm.{format_size};
ghost use Rattle.sample_conversion.specs.Sizes.{size_of};
ghost use Rattle.wc_audio.specs.Copies.{is_planar_copy, integer_format, own_format};
ghost use Rattle.wc_audio.specs.Copies.{frames_plan, plan_in, width_of, copy_size};

use crate::options::{CopyFormat, CopyOptions, Plan};
use sample_conversion::{SampleSize, format_size, is_planar};
use wc_base::{DomError, SampleFormat, SoundShape};

fn is_planar_copy(format: CopyFormat) -> bool
    ensures { result ≡ is_planar_copy format }
{
    match format {
        CopyFormat::U8Planar
        | CopyFormat::S16Planar
        | CopyFormat::S32Planar
        | CopyFormat::F32Planar => true,
        CopyFormat::U8 | CopyFormat::S16 | CopyFormat::S32 | CopyFormat::F32 => false,
    }
}

fn integer_format(format: CopyFormat) -> Option<SampleFormat>
    ensures { result ≡ integer_format format }
{
    match format {
        CopyFormat::U8 => Some(SampleFormat::U8),
        CopyFormat::S16 => Some(SampleFormat::S16),
        CopyFormat::S32 => Some(SampleFormat::S32),
        CopyFormat::U8Planar => Some(SampleFormat::U8Planar),
        CopyFormat::S16Planar => Some(SampleFormat::S16Planar),
        CopyFormat::S32Planar => Some(SampleFormat::S32Planar),
        CopyFormat::F32 | CopyFormat::F32Planar => None,
    }
}

fn own_format(format: SampleFormat) -> CopyFormat
    ensures { result ≡ own_format format }
{
    match format {
        SampleFormat::U8 => CopyFormat::U8,
        SampleFormat::S16 => CopyFormat::S16,
        SampleFormat::S32 => CopyFormat::S32,
        SampleFormat::U8Planar => CopyFormat::U8Planar,
        SampleFormat::S16Planar => CopyFormat::S16Planar,
        SampleFormat::S32Planar => CopyFormat::S32Planar,
    }
}

fn frames_plan(
    shape: &SoundShape,
    o: &CopyOptions,
    format: Option<SampleFormat>,
) -> Result<Plan, DomError>
    ensures { result ≡ frames_plan shape.now o.now format }
{
    let Some(format) = format else {
        return Err(DomError::NotSupported);
    };
    if o.offset >= shape.frames {
        return Err(DomError::RangeErr);
    }
    let rest = shape.frames - o.offset;
    let count = o.count.unwrap_or(rest);
    if count > rest {
        return Err(DomError::RangeErr);
    }
    Ok(Plan {
        format,
        plane: o.plane,
        offset: o.offset,
        count,
    })
}

/// What a copy of data of a shape takes, or its first refusal.
pub(crate) fn plan_in(shape: &SoundShape, o: &CopyOptions) -> Result<Plan, DomError>
    ensures { result ≡ plan_in shape.now o.now }
{
    let format = o.format.unwrap_or(own_format(shape.format));
    if !is_planar_copy(format) && o.plane != 0 {
        return Err(DomError::RangeErr);
    }
    if is_planar_copy(format) && o.plane >= shape.channels {
        return Err(DomError::RangeErr);
    }
    frames_plan(shape, o, integer_format(format))
}

/// So many samples of each frame are copied.
fn width(shape: &SoundShape, p: &Plan) -> u64
    ensures value { result ≡ width_of shape.now p.now }
    ensures small { result < 2 ^ 32 }
{
    if is_planar(p.format) {
        1
    } else {
        shape.channels as u64
    }
}

/// The bytes that a copy writes; none where they are more than 64 bits count.
pub(crate) fn copy_size(shape: &SoundShape, p: &Plan) -> Option<u64>
    ensures some { IfSome result (λ n. n ≡ copy_size shape.now p.now) }
    ensures none { IfNone result (2 ^ 64 ≤ copy_size shape.now p.now) }
{
    let samples = width(shape, p) * p.count as u64;
    samples.checked_mul(format_size(p.format) as u64)
}

/// The bytes that a copy writes; none where they are more than `room`.
pub(crate) fn size_within(shape: &SoundShape, p: &Plan, room: usize) -> Option<usize>
    ensures some { IfSome result (λ n. (n ≡ copy_size shape.now p.now) × (n ≤ room)) }
    ensures none { IfNone result (room < copy_size shape.now p.now) }
{
    let _room = room;
    match copy_size(shape, p) {
        Some(n) if n <= room as u64 => Some(n as usize),
        _ => None,
    }
}

/// How many bytes a sample of a format has.
pub(crate) fn sample_size(format: SampleFormat) -> SampleSize
    ensures { size_of result ≡ format_size format }
{
    match format {
        SampleFormat::U8 | SampleFormat::U8Planar => SampleSize::One,
        SampleFormat::S16 | SampleFormat::S16Planar => SampleSize::Two,
        SampleFormat::S32 | SampleFormat::S32Planar => SampleSize::Four,
    }
}
