// Which codec a sample coder is of, and how many samples at once are brought to and from its form.
ghost use Rattle.std.specs.Prelude.{◌≡◌, ◌≤◌, ◌%◌, true, length, IfOk};
ghost use Rattle.codec_definitions.specs.Pcm.{format_size, is_whole, resized};
ghost use Rattle.codec_definitions.specs.SampleCodecs.{coded, decoded};
ghost use Rattle.sample_conversion.specs.Sizes.{size_of};
ghost use Rattle.g711.specs.Slices.{codec_of, codes_of};
ghost use Rattle.sample_coder.specs.Coding.{definition, format_of, id_of};

use bytes::Bytes;
use g711::{Law, decode, encode};
use sample_conversion::{
    SampleSize, interleaved, interleaved_stays, is_same, sixteen_bits_come_back, stays, widened,
};
use std::alloc::Global;
use wc_base::{NoMemory, SampleFormat, SoundShape};
use wc_config::CodecId;

/// A codec that codes each sample by itself.
#[derive(Clone, Copy, Debug, PartialEq, Eq)]
pub enum Coding {
    /// Linear PCM (W3C WebCodecs, registration for linear PCM).
    Pcm(SampleSize),
    /// A-law or mu-law (W3C WebCodecs, registrations for A-law and mu-law PCM).
    G711(Law),
}

impl Coding {
    /// Its codec.
    pub fn codec(self) -> CodecId
        ensures { result ≡ id_of self }
    {
        match self {
            Coding::Pcm(SampleSize::One) => CodecId::PcmU8,
            Coding::Pcm(SampleSize::Two) => CodecId::PcmS16,
            Coding::Pcm(SampleSize::Three) => CodecId::PcmS24,
            Coding::Pcm(SampleSize::Four) => CodecId::PcmS32,
            Coding::G711(Law::Alaw) => CodecId::Alaw,
            Coding::G711(Law::Ulaw) => CodecId::Ulaw,
        }
    }

    /// The bytes of a coded sample.
    pub(crate) fn size(self) -> usize
        ensures { result ≡ (definition self).size }
    {
        match self {
            Coding::Pcm(size) => size.bytes(),
            Coding::G711(_) => 1,
        }
    }

    /// The format in which samples are decoded.
    pub(crate) fn format(self) -> SampleFormat
        ensures { result ≡ (definition self).format }
    {
        match self {
            Coding::Pcm(size) => format_of(size),
            Coding::G711(_) => SampleFormat::S16,
        }
    }

    /// Decodes a whole number of samples.
    pub(crate) fn decoded(self, alloc: Global, bytes: &Bytes) -> Result<Bytes, NoMemory>
        requires { length bytes.now % (definition self).size ≡ 0 }
        ensures { IfOk result (λ b. b ≡ decoded (definition self) bytes.now) }
    {
        match self {
            Coding::Pcm(size) => samples(alloc, size, bytes),
            Coding::G711(law) => values(alloc, law, bytes.as_slice()),
        }
    }

    /// Codes data of at most 32 channels that is as long as its shape needs.
    pub(crate) fn coded(
        self,
        alloc: Global,
        shape: &SoundShape,
        bytes: &[u8],
    ) -> Result<Bytes, NoMemory>
        requires channels { shape.now.channels ≤ 32 }
        requires whole { is_whole shape.now bytes.now ≡ true }
        ensures { IfOk result (λ b. b ≡ coded (definition self) shape.now bytes.now) }
    {
        match self {
            Coding::Pcm(size) => shared(interleaved(alloc, size, shape, bytes)?),
            Coding::G711(law) => codes(alloc, law, shape, bytes),
        }
    }
}

/// The format in which linear PCM is decoded.
fn format_of(size: SampleSize) -> SampleFormat
    ensures { result ≡ format_of size }
{
    match size {
        SampleSize::One => SampleFormat::U8,
        SampleSize::Two => SampleFormat::S16,
        SampleSize::Three | SampleSize::Four => SampleFormat::S32,
    }
}

/// The samples of linear PCM in the size of their decoded format: the same bytes, shared, but for 24 bits, which are
/// given 32.
fn samples(alloc: Global, size: SampleSize, bytes: &Bytes) -> Result<Bytes, NoMemory>
    requires { length bytes.now % size_of size ≡ 0 }
    ensures { IfOk result
        (λ b. b ≡ resized (size_of size) (format_size (format_of size)) bytes.now) }
{
    match size {
        SampleSize::Three => shared(widened(alloc, bytes.as_slice())?),
        SampleSize::One | SampleSize::Two | SampleSize::Four => {
            stays(size, bytes.as_slice());
            Ok(bytes.clone()?)
        }
    }
}

/// The samples that codes stand for.
fn values(alloc: Global, law: Law, bytes: &[u8]) -> Result<Bytes, NoMemory>
    ensures { IfOk result (λ b. b ≡ decoded (codec_of law) bytes.now) }
{
    let mut samples = Vec::with_capacity(alloc, 2 * bytes.len())?;
    samples.resize(2 * bytes.len(), 0)?;
    decode(law, bytes, &mut samples);
    shared(samples)
}

/// The codes of data, frame by frame.
fn codes(alloc: Global, law: Law, shape: &SoundShape, bytes: &[u8]) -> Result<Bytes, NoMemory>
    requires channels { shape.now.channels ≤ 32 }
    requires whole { is_whole shape.now bytes.now ≡ true }
    ensures { IfOk result (λ b. b ≡ coded (codec_of law) shape.now bytes.now) }
{
    sixteen_bits_come_back();
    if is_same(SampleSize::Two, shape.format) {
        interleaved_stays(SampleSize::Two, shape, bytes);
        codes_of(alloc, law, bytes)
    } else {
        codes_of(
            alloc,
            law,
            &interleaved(alloc, SampleSize::Two, shape, bytes)?,
        )
    }
}

/// The codes of interleaved 16-bit samples.
fn codes_of(alloc: Global, law: Law, samples: &[u8]) -> Result<Bytes, NoMemory>
    requires { length samples.now % 2 ≡ 0 }
    ensures { IfOk result (λ b. b ≡ codes_of law samples.now) }
{
    let mut codes = Vec::with_capacity(alloc, samples.len() / 2)?;
    codes.resize(samples.len() / 2, 0)?;
    encode(law, samples, &mut codes);
    shared(codes)
}

fn shared(bytes: Vec<u8>) -> Result<Bytes, NoMemory>
    ensures { IfOk result (λ b. b ≡ bytes.items) }
{
    match Bytes::from_vec(bytes) {
        Ok(bytes) => Ok(bytes),
        Err(_) => Err(NoMemory),
    }
}
