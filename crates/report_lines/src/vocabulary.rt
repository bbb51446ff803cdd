// The words of a report, as they are read: each stands for the value that is written by it.
ghost use Rattle.std.specs.Prelude.{◌≡◌, bytes_eq};
ghost use Rattle.std.specs.List.{find};
ghost use Rattle.report_text.specs.Words as words;
ghost use Rattle.report_lines.specs.Vocabulary as spec;

use codec_model::CodecState;
use report_text::{
    CALL_WORDS, CallWord, answer_text, call_word, chunk_type_text, codec_text, error_name,
    picture_format_text, role_text, sample_format_text, state_text,
};
use wc_base::{DomError, PictureFormat, SampleFormat};
use wc_config::{CodecId, Role};

pub fn is(word: &[u8], text: &str) -> bool
    ensures { result ≡ bytes_eq word.now text.now }
{
    word == text.as_bytes()
}

pub fn error_of(word: &[u8]) -> Option<DomError>
    ensures { result ≡ spec.error_of word.now }
{
    if is(word, error_name(DomError::Abort)) {
        Some(DomError::Abort)
    } else if is(word, error_name(DomError::InvalidState)) {
        Some(DomError::InvalidState)
    } else if is(word, error_name(DomError::NotSupported)) {
        Some(DomError::NotSupported)
    } else if is(word, error_name(DomError::Encoding)) {
        Some(DomError::Encoding)
    } else if is(word, error_name(DomError::Data)) {
        Some(DomError::Data)
    } else if is(word, error_name(DomError::DataClone)) {
        Some(DomError::DataClone)
    } else if is(word, error_name(DomError::QuotaExceeded)) {
        Some(DomError::QuotaExceeded)
    } else if is(word, error_name(DomError::TypeErr)) {
        Some(DomError::TypeErr)
    } else if is(word, error_name(DomError::RangeErr)) {
        Some(DomError::RangeErr)
    } else if is(word, error_name(DomError::OutOfMemory)) {
        Some(DomError::OutOfMemory)
    } else {
        None
    }
}

pub fn answer_of(word: &[u8]) -> Option<Option<DomError>>
    ensures { result ≡ spec.answer_of word.now }
{
    if is(word, answer_text(None)) {
        Some(None)
    } else {
        let error = error_of(word)?;
        Some(Some(error))
    }
}

const STATES: [CodecState; 3] = [
    CodecState::Unconfigured,
    CodecState::Configured,
    CodecState::Closed,
];

pub fn state_of(word: &[u8]) -> Option<CodecState>
    ensures { result ≡ spec.state_of word.now }
{
    STATES
        .iter()
        .copied()
        .find(|state| is(word, state_text(*state)))
}

// The first of these words that this is.
fn first_call(calls: &[CallWord], word: &[u8]) -> Option<CallWord>
    ensures { result ≡ find (λ call. bytes_eq word.now (words.call_word call)) calls.now }
{
    calls
        .iter()
        .copied()
        .find(|call| is(word, call_word(*call)))
}

pub fn call_of(word: &[u8]) -> Option<CallWord>
    ensures { result ≡ spec.call_of word.now }
{
    first_call(&CALL_WORDS, word)
}

pub fn sample_format_of(word: &[u8]) -> Option<SampleFormat>
    ensures { result ≡ spec.sample_format_of word.now }
{
    if is(word, sample_format_text(SampleFormat::U8)) {
        Some(SampleFormat::U8)
    } else if is(word, sample_format_text(SampleFormat::S16)) {
        Some(SampleFormat::S16)
    } else if is(word, sample_format_text(SampleFormat::S32)) {
        Some(SampleFormat::S32)
    } else if is(word, sample_format_text(SampleFormat::U8Planar)) {
        Some(SampleFormat::U8Planar)
    } else if is(word, sample_format_text(SampleFormat::S16Planar)) {
        Some(SampleFormat::S16Planar)
    } else if is(word, sample_format_text(SampleFormat::S32Planar)) {
        Some(SampleFormat::S32Planar)
    } else {
        None
    }
}

const PICTURE_FORMATS: [PictureFormat; 4] = [
    PictureFormat::I420,
    PictureFormat::I422,
    PictureFormat::I444,
    PictureFormat::Nv12,
];

pub fn picture_format_of(word: &[u8]) -> Option<PictureFormat>
    ensures { result ≡ spec.picture_format_of word.now }
{
    PICTURE_FORMATS
        .iter()
        .copied()
        .find(|format| is(word, picture_format_text(*format)))
}

/// The codec of a codec string.
pub fn codec_id_of(word: &[u8]) -> Option<CodecId>
    ensures { result ≡ spec.codec_id_of word.now }
{
    if is(word, codec_text(CodecId::PcmU8)) {
        Some(CodecId::PcmU8)
    } else if is(word, codec_text(CodecId::PcmS16)) {
        Some(CodecId::PcmS16)
    } else if is(word, codec_text(CodecId::PcmS24)) {
        Some(CodecId::PcmS24)
    } else if is(word, codec_text(CodecId::PcmS32)) {
        Some(CodecId::PcmS32)
    } else if is(word, codec_text(CodecId::Alaw)) {
        Some(CodecId::Alaw)
    } else if is(word, codec_text(CodecId::Ulaw)) {
        Some(CodecId::Ulaw)
    } else if is(word, codec_text(CodecId::Flac)) {
        Some(CodecId::Flac)
    } else if is(word, codec_text(CodecId::RawI420)) {
        Some(CodecId::RawI420)
    } else if is(word, codec_text(CodecId::RawI422)) {
        Some(CodecId::RawI422)
    } else if is(word, codec_text(CodecId::RawI444)) {
        Some(CodecId::RawI444)
    } else if is(word, codec_text(CodecId::RawNv12)) {
        Some(CodecId::RawNv12)
    } else {
        None
    }
}

const ROLES: [Role; 2] = [Role::Decode, Role::Encode];

pub fn role_of(word: &[u8]) -> Option<Role>
    ensures { result ≡ spec.role_of word.now }
{
    ROLES
        .iter()
        .copied()
        .find(|role| is(word, role_text(*role)))
}

const KEYS: [bool; 2] = [true, false];

pub fn key_of(word: &[u8]) -> Option<bool>
    ensures { result ≡ spec.key_of word.now }
{
    KEYS.iter()
        .copied()
        .find(|key| is(word, chunk_type_text(*key)))
}

/// Whether the resource of a reference that ended has no reference any more.
pub fn last_of(word: &[u8]) -> Option<bool>
    ensures { result ≡ spec.last_of word.now }
{
    if is(word, "gone") {
        Some(true)
    } else if is(word, "kept") {
        Some(false)
    } else {
        None
    }
}
