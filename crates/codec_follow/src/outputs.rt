// Outputs by their codec's kind.
ghost use Rattle.std.specs.Prelude.{◌≡◌, None};
ghost use Rattle.codec_definitions.specs.declared.unit.Unit.TheVariants as unit;
ghost use Rattle.wc_config.specs.declared.kind.Kind.TheVariants as kinds;
ghost use Rattle.codec_follow.specs.Outputs.{empty_output as the_empty};

use bytes::Bytes;
use codec_model::Kind;
use coder_api::Unit;
use wc_base::{Picture, PictureFormat, PictureShape, SampleFormat, Samples, SoundShape};
use wc_chunk::Chunk;

fn empty_samples() -> Samples
    ensures { the_empty kinds.AudioDecoder ≡ unit.Sound result }
{
    Samples {
        shape: SoundShape {
            format: SampleFormat::U8,
            rate: 1,
            channels: 1,
            frames: 0,
            timestamp: 0,
        },
        bytes: Bytes::new(),
    }
}

fn empty_chunk() -> Chunk
    ensures audio { the_empty kinds.AudioEncoder ≡ unit.Coded result None }
    ensures video { the_empty kinds.VideoEncoder ≡ unit.Coded result None }
{
    Chunk {
        key: false,
        timestamp: 0,
        duration: None,
        bytes: Bytes::new(),
    }
}

fn empty_picture() -> Picture
    ensures { the_empty kinds.VideoDecoder ≡ unit.Image result }
{
    Picture {
        shape: PictureShape {
            format: PictureFormat::I420,
            width: 0,
            height: 0,
            timestamp: 0,
            duration: None,
        },
        bytes: Bytes::new(),
    }
}

/// An output of a codec of this kind with nothing in it: no frames at a rate of 1, no bytes, or a picture of no size.
pub fn empty_output(kind: Kind) -> Unit
    ensures { result ≡ the_empty kind }
{
    match kind {
        Kind::AudioDecoder => Unit::Sound(empty_samples()),
        Kind::AudioEncoder | Kind::VideoEncoder => Unit::Coded {
            chunk: empty_chunk(),
            config: None,
        },
        Kind::VideoDecoder => Unit::Image(empty_picture()),
    }
}
