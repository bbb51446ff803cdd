// All codecs, and their coders.
ghost use Rattle.std.specs.Prelude.{Contains};
ghost use Rattle.wc_config.specs.declared.codec.CodecId.{CodecId};

use g711::Law;
use sample_coder::Coding;
use sample_conversion::SampleSize;
use wc_base::PictureFormat;
use wc_config::{CodecId, Role};

static CODECS: [CodecId; 11] = [
    CodecId::PcmU8,
    CodecId::PcmS16,
    CodecId::PcmS24,
    CodecId::PcmS32,
    CodecId::Alaw,
    CodecId::Ulaw,
    CodecId::Flac,
    CodecId::RawI420,
    CodecId::RawI422,
    CodecId::RawI444,
    CodecId::RawNv12,
];

/// All codecs, of which `main` makes boxes. A codec that is left out here is refused by the check of the clause.
pub fn all_codecs() -> &'static [CodecId; 11]
    ensures every { (c : CodecId) → Contains result.now c }
{
    &CODECS
}

/// A kind of coder.
#[derive(Clone, Copy)]
pub enum CoderKind {
    Samples(Coding),
    FlacDecoder,
    FlacEncoder,
    RawVideo(PictureFormat),
    RawVideoEncoder(PictureFormat),
}

/// The coder of a role and a codec: each codec has an arm here.
pub fn kind_of(role: Role, codec: CodecId) -> CoderKind {
    match codec {
        CodecId::PcmU8 => CoderKind::Samples(Coding::Pcm(SampleSize::One)),
        CodecId::PcmS16 => CoderKind::Samples(Coding::Pcm(SampleSize::Two)),
        CodecId::PcmS24 => CoderKind::Samples(Coding::Pcm(SampleSize::Three)),
        CodecId::PcmS32 => CoderKind::Samples(Coding::Pcm(SampleSize::Four)),
        CodecId::Alaw => CoderKind::Samples(Coding::G711(Law::Alaw)),
        CodecId::Ulaw => CoderKind::Samples(Coding::G711(Law::Ulaw)),
        CodecId::Flac => match role {
            Role::Decode => CoderKind::FlacDecoder,
            Role::Encode => CoderKind::FlacEncoder,
        },
        CodecId::RawI420 => raw_video(role, PictureFormat::I420),
        CodecId::RawI422 => raw_video(role, PictureFormat::I422),
        CodecId::RawI444 => raw_video(role, PictureFormat::I444),
        CodecId::RawNv12 => raw_video(role, PictureFormat::Nv12),
    }
}

fn raw_video(role: Role, format: PictureFormat) -> CoderKind {
    match role {
        Role::Decode => CoderKind::RawVideo(format),
        Role::Encode => CoderKind::RawVideoEncoder(format),
    }
}

/// A new box of a kind of coder; the last words are carried out where memory runs out. It is no function: of a boxed coder
/// that a function handed out, nothing could be told.
macro_rules! coder_box {
    ($alloc:expr, $role:expr, $kind:expr, $stop:expr) => {
        match $kind {
            $crate::codecs::CoderKind::Samples(coding) => {
                match Box::new($alloc, sample_coder::SampleCoder::new($role, coding)) {
                    Ok(coder) => coder_api::CoderBox::of(coder),
                    Err(_) => $stop,
                }
            }
            $crate::codecs::CoderKind::FlacDecoder => {
                match Box::new($alloc, flac_decode::FlacDecoder::new($alloc)) {
                    Ok(coder) => coder_api::CoderBox::of(coder),
                    Err(_) => $stop,
                }
            }
            $crate::codecs::CoderKind::FlacEncoder => {
                match Box::new($alloc, flac_encode::FlacEncoder::new()) {
                    Ok(coder) => coder_api::CoderBox::of(coder),
                    Err(_) => $stop,
                }
            }
            $crate::codecs::CoderKind::RawVideo(format) => {
                match Box::new($alloc, raw_video::RawVideo::new(format)) {
                    Ok(coder) => coder_api::CoderBox::of(coder),
                    Err(_) => $stop,
                }
            }
            $crate::codecs::CoderKind::RawVideoEncoder(format) => {
                match Box::new($alloc, raw_video::RawVideoEncoder::new(format)) {
                    Ok(coder) => coder_api::CoderBox::of(coder),
                    Err(_) => $stop,
                }
            }
        }
    };
}

pub(crate) use coder_box;

/// How many boxes of each coder there are.
pub(crate) const BOXES: u32 = 8;

/// So many boxes of each coder; the last words are carried out where memory runs out. It is no function, as `coder_box`.
macro_rules! coder_boxes {
    ($alloc:expr, $stop:expr) => {{
        let mut coders = Vec::new($alloc);
        for role in [wc_config::Role::Decode, wc_config::Role::Encode] {
            for _ in 0..$crate::codecs::BOXES {
                for codec in $crate::codecs::all_codecs() {
                    let kind = $crate::codecs::kind_of(role, *codec);
                    let coder = $crate::codecs::coder_box!($alloc, role, kind, $stop);
                    if coders.push(coder).is_err() {
                        $stop
                    }
                }
            }
        }
        coders
    }};
}

pub(crate) use coder_boxes;
