// The texts of the lines of what entries show.
ghost use Rattle.std.specs.Prelude.{◌≡◌, ◌++◌, OnOk, codes, decimal};
ghost use Rattle.std.specs.Fmt.{signed_decimal};
ghost use Rattle.report_text.specs.Text as spec;
ghost use Rattle.report_text.specs.declared.line.EventLine.TheVariants as event;

use crate::line::EventLine;
use crate::pieces::{
    push_bytes, push_hex_or_dash, push_number, push_number_or_dash, push_signed, push_text,
};
use crate::words::{chunk_type_text, error_name, picture_format_text, sample_format_text};
use std::alloc::AllocError;
use wc_base::{DomError, Picture, PictureShape, Samples, SoundShape};
use wc_chunk::Chunk;

// What stands behind the head of an output's line: its time, its duration and its bytes.
fn push_content(
    line: &mut Vec<u8>,
    timestamp: i64,
    duration: Option<u64>,
    bytes: &[u8],
) -> Result<(), AllocError>
    ensures { OnOk result
        (line.new.items
        ≡ line.old.items
        ++ (codes " "
        ++ signed_decimal timestamp
        ++ codes " "
        ++ spec.number_or_dash duration
        ++ codes " ")
        ++ spec.hex_or_dash bytes.now
        ++ codes "\n") }
{
    push_text(line, " ")?;
    push_signed(line, timestamp)?;
    push_text(line, " ")?;
    push_number_or_dash(line, duration)?;
    push_text(line, " ")?;
    push_hex_or_dash(line, bytes)?;
    push_text(line, "\n")
}

// How long samples last, in whole microseconds.
fn sound_duration(shape: &SoundShape) -> u64
    ensures { result ≡ spec.sound_duration shape.now }
{
    if shape.rate == 0 {
        0
    } else {
        u64::from(shape.frames) * 1_000_000 / u64::from(shape.rate)
    }
}

fn push_sound_shape(line: &mut Vec<u8>, shape: &SoundShape) -> Result<(), AllocError>
    ensures { OnOk result (line.new.items ≡ line.old.items ++ spec.sound_text shape.now) }
{
    push_text(line, sample_format_text(shape.format))?;
    push_text(line, " ")?;
    push_number(line, u64::from(shape.rate))?;
    push_text(line, " ")?;
    push_number(line, u64::from(shape.channels))?;
    push_text(line, " ")?;
    push_number(line, u64::from(shape.frames))
}

fn push_picture_shape(line: &mut Vec<u8>, shape: &PictureShape) -> Result<(), AllocError>
    ensures { OnOk result (line.new.items ≡ line.old.items ++ spec.picture_text shape.now) }
{
    push_text(line, picture_format_text(shape.format))?;
    push_text(line, " ")?;
    push_number(line, u64::from(shape.width))?;
    push_text(line, " ")?;
    push_number(line, u64::from(shape.height))
}

fn push_sound(line: &mut Vec<u8>, samples: &Samples) -> Result<(), AllocError>
    ensures { OnOk result
        (line.new.items ≡ line.old.items ++ spec.event_text (event.Sound samples.now)) }
{
    let shape = &samples.shape;
    let duration = sound_duration(shape);
    push_text(line, "  output audio ")?;
    push_sound_shape(line, shape)?;
    push_content(
        line,
        shape.timestamp,
        Some(duration),
        samples.bytes.as_slice(),
    )
}

fn push_picture(line: &mut Vec<u8>, picture: &Picture) -> Result<(), AllocError>
    ensures { OnOk result
        (line.new.items ≡ line.old.items ++ spec.event_text (event.Image picture.now)) }
{
    let shape = &picture.shape;
    push_text(line, "  output video ")?;
    push_picture_shape(line, shape)?;
    push_content(
        line,
        shape.timestamp,
        shape.duration,
        picture.bytes.as_slice(),
    )
}

fn push_chunk(line: &mut Vec<u8>, chunk: &Chunk) -> Result<(), AllocError>
    ensures { OnOk result
        (line.new.items ≡ line.old.items ++ spec.event_text (event.Chunk chunk.now)) }
{
    push_text(line, "  output chunk ")?;
    push_text(line, chunk_type_text(chunk.key))?;
    push_content(
        line,
        chunk.timestamp,
        chunk.duration,
        chunk.bytes.as_slice(),
    )
}

fn push_config_head(
    line: &mut Vec<u8>,
    codec: &[u8],
    rate: u32,
    channels: u32,
) -> Result<(), AllocError>
    ensures { OnOk result
        (line.new.items
        ≡ line.old.items
        ++ codes "  config "
        ++ codec.now
        ++ codes " "
        ++ decimal rate
        ++ codes " "
        ++ decimal channels
        ++ codes " ") }
{
    push_text(line, "  config ")?;
    push_bytes(line, codec)?;
    push_text(line, " ")?;
    push_number(line, u64::from(rate))?;
    push_text(line, " ")?;
    push_number(line, u64::from(channels))?;
    push_text(line, " ")
}

fn push_config(
    line: &mut Vec<u8>,
    codec: &[u8],
    rate: u32,
    channels: u32,
    description: &[u8],
) -> Result<(), AllocError>
    ensures { OnOk result
        (line.new.items
        ≡ line.old.items ++ spec.config_text codec.now rate channels description.now) }
{
    push_config_head(line, codec, rate, channels)?;
    push_hex_or_dash(line, description)?;
    push_text(line, "\n")
}

fn push_resolution(line: &mut Vec<u8>, promise: u64) -> Result<(), AllocError>
    ensures { OnOk result
        (line.new.items ≡ line.old.items ++ spec.event_text (event.Resolve promise)) }
{
    push_text(line, "  resolve ")?;
    push_number(line, promise)?;
    push_text(line, "\n")
}

fn push_rejection(line: &mut Vec<u8>, promise: u64, error: DomError) -> Result<(), AllocError>
    ensures { OnOk result
        (line.new.items ≡ line.old.items ++ spec.event_text (event.Reject promise error)) }
{
    push_text(line, "  reject ")?;
    push_number(line, promise)?;
    push_text(line, " ")?;
    push_text(line, error_name(error))?;
    push_text(line, "\n")
}

fn push_error(line: &mut Vec<u8>, error: DomError) -> Result<(), AllocError>
    ensures { OnOk result
        (line.new.items ≡ line.old.items ++ spec.event_text (event.Error error)) }
{
    push_text(line, "  error ")?;
    push_text(line, error_name(error))?;
    push_text(line, "\n")
}

// The text of a line of what an entry showed.
pub(crate) fn push_event(line: &mut Vec<u8>, event: &EventLine) -> Result<(), AllocError>
    ensures { OnOk result (line.new.items ≡ line.old.items ++ spec.event_text event.now) }
{
    match event {
        EventLine::Sound(samples) => push_sound(line, samples),
        EventLine::Image(picture) => push_picture(line, picture),
        EventLine::Chunk(chunk) => push_chunk(line, chunk),
        EventLine::Config {
            codec,
            rate,
            channels,
            description,
        } => push_config(
            line,
            codec.as_slice(),
            *rate,
            *channels,
            description.as_slice(),
        ),
        EventLine::Resolve(promise) => push_resolution(line, *promise),
        EventLine::Reject { promise, error } => push_rejection(line, *promise, *error),
        EventLine::Dequeue => push_text(line, "  dequeue\n"),
        EventLine::Error(error) => push_error(line, *error),
    }
}
