// Copies of media and of chunks, and how many bytes they need.
ghost use Rattle.std.specs.Prelude.{◌≡◌, [], Some, map, option_map, unwrap_or, IfOk};
ghost use Rattle.std.specs.Option.{option_copied};
ghost use Rattle.wc_video.specs.Frames.{content_of};
ghost use Rattle.wc_video.specs.Copies.{plan_for};
ghost use Rattle.media_variables.specs.Variables.{zeros, format_of, copy_options, rect_of, layout_of};
ghost use Rattle.media_variables.specs.Variables.{copy_chunk, copy_sound, copy_frame, copy_medium};
ghost use Rattle.media_variables.specs.Variables.{size_of_sound, size_of_frame, size_of_medium};
ghost use Rattle.media_variables.specs.Variables.{planes_copied, size_found};
ghost use Rattle.media_variables.specs.Held.{seen};

use crate::given::refused;
use crate::medium::{Kind, Medium};
use bytes::Bytes;
use report_text::StepResult;
use script_types::{AudioOptions, FormatWord, LayoutWords, Options, RectWords};
use std::alloc::Global;
use wc_audio::{AudioData, CopyFormat, CopyOptions};
use wc_base::{DomError, List, NoMemory};
use wc_chunk::Chunk;
use wc_video::{PlaneLayout, Rect, VideoFrame};

fn format_of(word: FormatWord) -> CopyFormat
    ensures { result ≡ format_of word }
{
    match word {
        FormatWord::U8 => CopyFormat::U8,
        FormatWord::S16 => CopyFormat::S16,
        FormatWord::S32 => CopyFormat::S32,
        FormatWord::U8Planar => CopyFormat::U8Planar,
        FormatWord::S16Planar => CopyFormat::S16Planar,
        FormatWord::S32Planar => CopyFormat::S32Planar,
        FormatWord::F32 => CopyFormat::F32,
        FormatWord::F32Planar => CopyFormat::F32Planar,
    }
}

fn copy_options(o: &AudioOptions) -> CopyOptions
    ensures { result ≡ copy_options o.now }
{
    CopyOptions {
        plane: o.plane,
        offset: o.offset,
        count: o.count,
        format: o.format.map(format_of),
    }
}

fn rect_of(r: RectWords) -> Rect
    ensures { result ≡ rect_of r }
{
    Rect {
        x: r.x,
        y: r.y,
        width: r.width,
        height: r.height,
    }
}

fn layouts_of(alloc: Global, layouts: &List<LayoutWords>) -> Result<Vec<PlaneLayout>, NoMemory>
    ensures { IfOk result (λ v. v.items ≡ map layout_of layouts.now) }
{
    let layouts = layouts.as_slice().iter().map(|l| PlaneLayout {
        offset: l.offset,
        stride: l.stride,
    });
    Ok(layouts.collect(alloc)?)
}

/// So many zero bytes.
fn zeros(alloc: Global, size: u64) -> Result<Vec<u8>, NoMemory>
    ensures { IfOk result (λ v. v.items ≡ zeros size) }
{
    Ok(Vec::from_elem(alloc, 0, size as usize)?)
}

fn shared(bytes: Vec<u8>) -> Result<Bytes, NoMemory>
    ensures { IfOk result (λ b. b ≡ bytes.items) }
{
    match Bytes::from_vec(bytes) {
        Ok(bytes) => Ok(bytes),
        Err(_) => Err(NoMemory),
    }
}

/// A copy of a chunk into zero bytes; none where the chunk is absent.
pub(crate) fn copy_chunk(
    alloc: Global,
    chunk: Option<&Chunk>,
    size: u64,
) -> Result<StepResult, NoMemory>
    ensures { IfOk result (λ r. r ≡ copy_chunk (option_map (λ c. c.now) chunk.entry) size) }
{
    let Some(chunk) = chunk else {
        return Ok(StepResult::Absent);
    };
    let mut bytes = zeros(alloc, size)?;
    match chunk.copy_to(bytes.as_mut_slice()) {
        Ok(count) => Ok(StepResult::Copied {
            count: count as u64,
            bytes: shared(bytes)?,
        }),
        Err(e) => Ok(refused(e)),
    }
}

/// A copy of audio data into zero bytes; options that are not those of audio data are refused.
fn copy_audio(
    alloc: Global,
    audio: &AudioData,
    options: &Options,
    size: u64,
) -> Result<StepResult, NoMemory>
    ensures { IfOk result (λ r. r ≡ copy_sound audio.now options.now size) }
{
    let Options::Audio(Some(o)) = options else {
        return Ok(refused(DomError::TypeErr));
    };
    let mut bytes = zeros(alloc, size)?;
    match audio.copy_to(bytes.as_mut_slice(), &copy_options(o)) {
        Ok(count) => Ok(StepResult::Copied {
            count: count as u64,
            bytes: shared(bytes)?,
        }),
        Err(e) => Ok(refused(e)),
    }
}

/// A copy of a frame into zero bytes, with its plane layouts.
fn copy_planes(
    frame: &VideoFrame,
    rect: Option<Rect>,
    layout: Option<&[PlaneLayout]>,
    mut bytes: Vec<u8>,
) -> Result<StepResult, NoMemory>
    ensures { IfOk result (λ r. r ≡
        planes_copied (unwrap_or (content_of frame.now) []) bytes.items
        (plan_for frame.now rect (option_copied layout.entry))) }
{
    let count = match frame.allocation_size(rect, layout) {
        Ok(count) => count,
        Err(e) => return Ok(refused(e)),
    };
    match frame.copy_to(bytes.as_mut_slice(), rect, layout) {
        Ok(layouts) => Ok(StepResult::CopiedFrame {
            count,
            layouts,
            bytes: shared(bytes)?,
        }),
        Err(e) => Ok(refused(e)),
    }
}

/// A copy of a frame into zero bytes; options that are not those of a frame are refused.
fn copy_frame(
    alloc: Global,
    frame: &VideoFrame,
    options: &Options,
    size: u64,
) -> Result<StepResult, NoMemory>
    ensures { IfOk result (λ r. r ≡ copy_frame frame.now options.now size) }
{
    let Options::Frame(Some(o)) = options else {
        return Ok(refused(DomError::TypeErr));
    };
    let bytes = zeros(alloc, size)?;
    let rect = o.rect.map(rect_of);
    match &o.layout {
        Some(layouts) => {
            let layouts = layouts_of(alloc, layouts)?;
            copy_planes(frame, rect, Some(layouts.as_slice()), bytes)
        }
        None => copy_planes(frame, rect, None, bytes),
    }
}

fn size_found(size: Result<u64, DomError>) -> StepResult
    ensures { result ≡ size_found size }
{
    match size {
        Ok(size) => StepResult::Size { size },
        Err(e) => refused(e),
    }
}

fn size_of_audio(audio: &AudioData, options: &Options) -> StepResult
    ensures { result ≡ size_of_sound audio.now options.now }
{
    let Options::Audio(Some(o)) = options else {
        return refused(DomError::TypeErr);
    };
    size_found(audio.allocation_size(&copy_options(o)))
}

fn size_of_frame(
    alloc: Global,
    frame: &VideoFrame,
    options: &Options,
) -> Result<StepResult, NoMemory>
    ensures { IfOk result (λ r. r ≡ size_of_frame frame.now options.now) }
{
    let Options::Frame(Some(o)) = options else {
        return Ok(refused(DomError::TypeErr));
    };
    let rect = o.rect.map(rect_of);
    match &o.layout {
        Some(layouts) => {
            let layouts = layouts_of(alloc, layouts)?;
            Ok(size_found(frame.allocation_size(rect, Some(layouts.as_slice()))))
        }
        None => Ok(size_found(frame.allocation_size(rect, None))),
    }
}

/// A copy of a medium into zero bytes.
pub(crate) fn copy_medium(
    alloc: Global,
    medium: &Medium,
    options: &Options,
    size: u64,
) -> Result<StepResult, NoMemory>
    ensures { IfOk result (λ r. r ≡ copy_medium (seen medium.now) options.now size) }
{
    match medium.kind() {
        Kind::Audio(audio) => copy_audio(alloc, audio, options, size),
        Kind::Frame(frame) => copy_frame(alloc, frame, options, size),
        Kind::Chunk(_) | Kind::Buffer(_) => Ok(refused(DomError::TypeErr)),
    }
}

/// How many bytes a copy of a medium needs.
pub(crate) fn size_of_medium(
    alloc: Global,
    medium: &Medium,
    options: &Options,
) -> Result<StepResult, NoMemory>
    ensures { IfOk result (λ r. r ≡ size_of_medium (seen medium.now) options.now) }
{
    match medium.kind() {
        Kind::Audio(audio) => Ok(size_of_audio(audio, options)),
        Kind::Frame(frame) => size_of_frame(alloc, frame, options),
        Kind::Chunk(_) => Ok(refused(DomError::TypeErr)),
        Kind::Buffer(buffer) => Ok(StepResult::Size {
            size: buffer.bytes().len() as u64,
        }),
    }
}
