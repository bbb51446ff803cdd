// The words of a report, as they are written.
ghost use Rattle.std.specs.Prelude.{◌≡◌};
ghost use Rattle.report_text.specs.Words as spec;

use crate::line::CallWord;
use codec_model::CodecState;
use wc_base::{DomError, PictureFormat, SampleFormat};
use wc_config::{CodecId, Role};

pub fn error_name(error: DomError) -> &'static str
    ensures { result.now ≡ spec.error_name error }
{
    match error {
        DomError::Abort => "AbortError",
        DomError::InvalidState => "InvalidStateError",
        DomError::NotSupported => "NotSupportedError",
        DomError::Encoding => "EncodingError",
        DomError::Data => "DataError",
        DomError::DataClone => "DataCloneError",
        DomError::QuotaExceeded => "QuotaExceededError",
        DomError::TypeErr => "TypeError",
        DomError::RangeErr => "RangeError",
        DomError::OutOfMemory => "OutOfMemory",
    }
}

pub fn answer_text(error: Option<DomError>) -> &'static str
    ensures { result.now ≡ spec.answer_text error }
{
    match error {
        None => "ok",
        Some(error) => error_name(error),
    }
}

pub fn state_text(state: CodecState) -> &'static str
    ensures { result.now ≡ spec.state_text state }
{
    match state {
        CodecState::Unconfigured => "unconfigured",
        CodecState::Configured => "configured",
        CodecState::Closed => "closed",
    }
}

pub fn call_word(call: CallWord) -> &'static str
    ensures { result.now ≡ spec.call_word call }
{
    match call {
        CallWord::Configure => "configure",
        CallWord::Decode => "decode",
        CallWord::Encode => "encode",
        CallWord::Flush => "flush",
        CallWord::Reset => "reset",
        CallWord::Close => "close",
    }
}

/// All words of calls.
pub const CALL_WORDS: [CallWord; 6] = [
    CallWord::Configure,
    CallWord::Decode,
    CallWord::Encode,
    CallWord::Flush,
    CallWord::Reset,
    CallWord::Close,
];

pub fn sample_format_text(format: SampleFormat) -> &'static str
    ensures { result.now ≡ spec.sample_format_text format }
{
    match format {
        SampleFormat::U8 => "u8",
        SampleFormat::S16 => "s16",
        SampleFormat::S32 => "s32",
        SampleFormat::U8Planar => "u8-planar",
        SampleFormat::S16Planar => "s16-planar",
        SampleFormat::S32Planar => "s32-planar",
    }
}

pub fn picture_format_text(format: PictureFormat) -> &'static str
    ensures { result.now ≡ spec.picture_format_text format }
{
    match format {
        PictureFormat::I420 => "I420",
        PictureFormat::I422 => "I422",
        PictureFormat::I444 => "I444",
        PictureFormat::Nv12 => "NV12",
    }
}

/// The codec string of a codec.
pub fn codec_text(codec: CodecId) -> &'static str
    ensures { result.now ≡ spec.codec_text codec }
{
    match codec {
        CodecId::PcmU8 => "pcm-u8",
        CodecId::PcmS16 => "pcm-s16",
        CodecId::PcmS24 => "pcm-s24",
        CodecId::PcmS32 => "pcm-s32",
        CodecId::Alaw => "alaw",
        CodecId::Ulaw => "ulaw",
        CodecId::Flac => "flac",
        CodecId::RawI420 => "x-raw-i420",
        CodecId::RawI422 => "x-raw-i422",
        CodecId::RawI444 => "x-raw-i444",
        CodecId::RawNv12 => "x-raw-nv12",
    }
}

pub fn role_text(role: Role) -> &'static str
    ensures { result.now ≡ spec.role_text role }
{
    match role {
        Role::Decode => "decode",
        Role::Encode => "encode",
    }
}

pub fn chunk_type_text(key: bool) -> &'static str
    ensures { result.now ≡ spec.chunk_type_text key }
{
    if key { "key" } else { "delta" }
}
