// Reads what media are made of.
ghost use Rattle.std.specs.Prelude.{◌≡◌, IfOk, Some, None, option_and_then, codes};
ghost use Rattle.json_data.specs.View.{view};
ghost use Rattle.serde_json.specs.Find.{get};
ghost use Rattle.script_steps.specs.Members.{word_of, required};
ghost use Rattle.script_steps.specs.Media.{data_of_init, data_of_step, content_in, key_of, chunk_shape_of, chunk_of, sample_format_of, sound_shape_of, sound_of, picture_format_of, picture_shape_of, picture_of, init_shape_of};
ghost use Rattle.script_steps.specs.Media as spec;

use crate::members::{
    as_text, has, optional_duration_member, read_hex, timestamp_member, u32_member,
};
use crate::{Stop, Wrong};
use bytes::Bytes;
use json_data::{Value, member};
use script_types::{ChunkInit, InitShape, PictureInit, SoundInit, VariableKind};
use std::alloc::Global;
use wc_base::{NoMemory, PictureFormat, PictureShape, SampleFormat, SoundShape};

/// The bytes of inline data of a step with an init: of its member `init`, the member `data`, where it is hex text.
pub fn read_step_data(alloc: Global, value: &Value<'_>) -> Result<Option<Bytes>, NoMemory>
    ensures { IfOk result (λ o. o ≡ data_of_step (view value.now)) }
{
    match member(value, "init").and_then(|init| member(init, "data")) {
        None => Ok(None),
        Some(data) => read_hex(alloc, data),
    }
}

/// The bytes of the member `data` of an init or of a buffer, where it is hex text.
pub fn read_init_data(alloc: Global, value: &Value<'_>) -> Result<Option<Bytes>, NoMemory>
    ensures { IfOk result (λ o. o ≡ data_of_init (view value.now)) }
{
    match member(value, "data") {
        None => Ok(None),
        Some(data) => read_hex(alloc, data),
    }
}

// The data of an init, which was read before. `Shape` where there is another value.
fn content_member(value: &Value<'_>, content: Option<Bytes>) -> Result<Option<Bytes>, Stop<Wrong>>
    requires { content ≡ data_of_init (view value.now) }
    ensures { result ≡ content_in (view value.now) }
{
    if content.is_none() && has(value, "data") {
        return Err(Stop::Fault(Wrong::Shape));
    }
    Ok(content)
}

fn read_key(text: &str) -> Option<bool>
    ensures { result ≡ key_of text.now }
{
    match text {
        "key" => Some(true),
        "delta" => Some(false),
        _ => None,
    }
}

fn type_member(value: &Value<'_>) -> Result<Option<bool>, Stop<Wrong>>
    ensures { result ≡ required (word_of key_of) (get (codes "type") (view value.now)) }
{
    match member(value, "type") {
        None => Ok(None),
        Some(word) => Ok(read_key(as_text(word)?)),
    }
}

/// Reads what an init says of its chunk apart from its data. `None` where a rule of WebIDL is broken, and `Shape` where a
/// member is of another JSON kind.
fn read_chunk_shape(value: &Value<'_>) -> Result<Option<InitShape>, Stop<Wrong>>
    ensures { result ≡ chunk_shape_of (view value.now) }
{
    let key = type_member(value)?;
    let timestamp = timestamp_member(value, "timestamp")?;
    let duration = optional_duration_member(value, "duration")?;
    match (key, timestamp, duration) {
        (Some(key), Some(timestamp), Some(duration)) => Ok(Some(InitShape::Chunk {
            key,
            timestamp,
            duration,
        })),
        _ => Ok(None),
    }
}

fn chunk_with(shape: Option<InitShape>, content: Option<Bytes>) -> Option<ChunkInit>
    ensures { result ≡ spec.chunk_with shape content }
{
    let content = content?;
    match shape? {
        InitShape::Chunk {
            key,
            timestamp,
            duration,
        } => Some(ChunkInit {
            key,
            timestamp,
            duration,
            content,
        }),
        InitShape::Sound(_) | InitShape::Picture(_) => None,
    }
}

/// Reads what a chunk is made of; its content was read before. `None` where a rule of WebIDL is broken, and `Shape` where
/// a member is of another JSON kind.
pub fn read_chunk_init(
    value: &Value<'_>,
    content: Option<Bytes>,
) -> Result<Option<ChunkInit>, Stop<Wrong>>
    requires { content ≡ data_of_init (view value.now) }
    ensures { result ≡ chunk_of (view value.now) }
{
    let shape = read_chunk_shape(value)?;
    let content = content_member(value, content)?;
    Ok(chunk_with(shape, content))
}

fn read_sample_format(text: &str) -> Option<SampleFormat>
    ensures { result ≡ sample_format_of text.now }
{
    match text {
        "u8" => Some(SampleFormat::U8),
        "s16" => Some(SampleFormat::S16),
        "s32" => Some(SampleFormat::S32),
        "u8-planar" => Some(SampleFormat::U8Planar),
        "s16-planar" => Some(SampleFormat::S16Planar),
        "s32-planar" => Some(SampleFormat::S32Planar),
        _ => None,
    }
}

fn sample_format_member(value: &Value<'_>) -> Result<Option<SampleFormat>, Stop<Wrong>>
    ensures { result ≡ required (word_of sample_format_of) (get (codes "format") (view value.now)) }
{
    match member(value, "format") {
        None => Ok(None),
        Some(word) => Ok(read_sample_format(as_text(word)?)),
    }
}

/// Reads the shape of audio data. `None` where a rule of WebIDL is broken, and `Shape` where a member is of another JSON
/// kind.
fn read_sound_shape(value: &Value<'_>) -> Result<Option<SoundShape>, Stop<Wrong>>
    ensures { result ≡ sound_shape_of (view value.now) }
{
    let format = sample_format_member(value)?;
    let rate = u32_member(value, "sampleRate")?;
    let frames = u32_member(value, "numberOfFrames")?;
    let channels = u32_member(value, "numberOfChannels")?;
    let timestamp = timestamp_member(value, "timestamp")?;
    match (format, rate, frames, channels, timestamp) {
        (Some(format), Some(rate), Some(frames), Some(channels), Some(timestamp)) => {
            Ok(Some(SoundShape {
                format,
                rate,
                channels,
                frames,
                timestamp,
            }))
        }
        _ => Ok(None),
    }
}

/// Reads what audio data is made of; its content was read before. `None` where a rule of WebIDL is broken, and `Shape`
/// where a member is of another JSON kind.
pub fn read_sound_init(
    value: &Value<'_>,
    content: Option<Bytes>,
) -> Result<Option<SoundInit>, Stop<Wrong>>
    requires { content ≡ data_of_init (view value.now) }
    ensures { result ≡ sound_of (view value.now) }
{
    let shape = read_sound_shape(value)?;
    let content = content_member(value, content)?;
    match (shape, content) {
        (Some(shape), Some(content)) => Ok(Some(SoundInit { shape, content })),
        _ => Ok(None),
    }
}

fn read_picture_format(text: &str) -> Option<PictureFormat>
    ensures { result ≡ picture_format_of text.now }
{
    match text {
        "I420" => Some(PictureFormat::I420),
        "I422" => Some(PictureFormat::I422),
        "I444" => Some(PictureFormat::I444),
        "NV12" => Some(PictureFormat::Nv12),
        _ => None,
    }
}

fn picture_format_member(value: &Value<'_>) -> Result<Option<PictureFormat>, Stop<Wrong>>
    ensures { result
        ≡ required (word_of picture_format_of) (get (codes "format") (view value.now)) }
{
    match member(value, "format") {
        None => Ok(None),
        Some(word) => Ok(read_picture_format(as_text(word)?)),
    }
}

/// Reads the shape of a frame. `None` where a rule of WebIDL is broken, and `Shape` where a member is of another JSON
/// kind.
fn read_picture_shape(value: &Value<'_>) -> Result<Option<PictureShape>, Stop<Wrong>>
    ensures { result ≡ picture_shape_of (view value.now) }
{
    let format = picture_format_member(value)?;
    let width = u32_member(value, "codedWidth")?;
    let height = u32_member(value, "codedHeight")?;
    let timestamp = timestamp_member(value, "timestamp")?;
    let duration = optional_duration_member(value, "duration")?;
    match (format, width, height, timestamp, duration) {
        (Some(format), Some(width), Some(height), Some(timestamp), Some(duration)) => {
            Ok(Some(PictureShape {
                format,
                width,
                height,
                timestamp,
                duration,
            }))
        }
        _ => Ok(None),
    }
}

/// Reads what a frame is made of; its content was read before. `None` where a rule of WebIDL is broken, and `Shape` where
/// a member is of another JSON kind.
pub fn read_picture_init(
    value: &Value<'_>,
    content: Option<Bytes>,
) -> Result<Option<PictureInit>, Stop<Wrong>>
    requires { content ≡ data_of_init (view value.now) }
    ensures { result ≡ picture_of (view value.now) }
{
    let shape = read_picture_shape(value)?;
    let content = content_member(value, content)?;
    match (shape, content) {
        (Some(shape), Some(content)) => Ok(Some(PictureInit { shape, content })),
        _ => Ok(None),
    }
}

/// Reads what an init says of what it makes, which is of this kind, apart from its data. `None` where a rule of WebIDL is
/// broken, and `Shape` where a member is of another JSON kind.
pub fn read_init_shape(
    kind: VariableKind,
    value: &Value<'_>,
) -> Result<Option<InitShape>, Stop<Wrong>>
    ensures { result ≡ init_shape_of kind (view value.now) }
{
    match kind {
        VariableKind::Chunk => read_chunk_shape(value),
        VariableKind::Audio => Ok(read_sound_shape(value)?.map(InitShape::Sound)),
        VariableKind::Frame => Ok(read_picture_shape(value)?.map(InitShape::Picture)),
        VariableKind::Promise | VariableKind::Buffer => Ok(None),
    }
}
