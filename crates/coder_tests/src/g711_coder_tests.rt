use bytes::Bytes;
use coder_api::{Coder, CoderBox, Input, Unit};
use g711::{Law, alaw_decode, alaw_encode, ulaw_decode, ulaw_encode};
use sample_coder::{Coding, SampleCoder};
use std::alloc::Global;
use std::test::Fail;
use wc_base::{NoMemory, SampleFormat, Samples, SoundShape, Text};
use wc_chunk::Chunk;
use wc_config::{AudioDecoderConfig, AudioEncoderConfig, Config, Role};

#[test]
fn values_of_mu_law(rt: HostRuntime) {
    for (code, value) in [
        (0x00, -32124),
        (0x80, 32124),
        (0x7F, 0),
        (0xFF, 0),
        (0xEF, 132),
    ] {
        assert_eq!(rt; ulaw_decode(code), value, "at {code}");
    }
    for (value, code) in [
        (0, 0xFF),
        (3, 0xFF),
        (4, 0xFE),
        (-1, 0x7F),
        (124, 0xEF),
        (32767, 0x80),
    ] {
        assert_eq!(rt; ulaw_encode(value), code, "at {value}");
    }
}

#[test]
fn values_of_a_law(rt: HostRuntime) {
    for (code, value) in [
        (0xD5, 8),
        (0x55, -8),
        (0xAA, 32256),
        (0x2A, -32256),
        (0xD4, 24),
    ] {
        assert_eq!(rt; alaw_decode(code), value, "at {code}");
    }
    for (value, code) in [
        (0, 0xD5),
        (15, 0xD5),
        (16, 0xD4),
        (-1, 0x55),
        (32767, 0xAA),
        (-32768, 0x2A),
    ] {
        assert_eq!(rt; alaw_encode(value), code, "at {value}");
    }
}

/// The checksum of nothing (FNV-1a, 64 bits).
const EMPTY: u64 = 0xcbf2_9ce4_8422_2325;

/// A checksum with one byte more.
fn with_byte(sum: u64, byte: u8) -> u64 {
    (sum ^ u64::from(byte)).wrapping_mul(0x100_0000_01b3)
}

fn with_value(sum: u64, value: i16) -> u64 {
    let bytes = value.to_le_bytes();
    with_byte(with_byte(sum, bytes[0]), bytes[1])
}

/// The checksums of the values of all codes, in order, as little-endian bytes.
fn sums_of_values() -> (u64, u64) {
    let mut ulaw = EMPTY;
    let mut alaw = EMPTY;
    for code in 0..=255 {
        ulaw = with_value(ulaw, ulaw_decode(code));
        alaw = with_value(alaw, alaw_decode(code));
    }
    (ulaw, alaw)
}

/// The checksums of the codes of all values from the least on.
fn sums_of_codes() -> (u64, u64) {
    let mut ulaw = EMPTY;
    let mut alaw = EMPTY;
    for value in i16::MIN..=i16::MAX {
        ulaw = with_byte(ulaw, ulaw_encode(value));
        alaw = with_byte(alaw, alaw_encode(value));
    }
    (ulaw, alaw)
}

/// All values of both laws. The expected checksums are those of what SoX 14.4.2 makes of the bytes 0 to 255 (`sox -D -t
/// raw -e mu-law` or `-e a-law`, to signed 16-bit), and Python 3.11 (`audioop.ulaw2lin` and `alaw2lin`) likewise.
#[test]
fn values_as_other_programs_have_them(rt: HostRuntime) {
    let (ulaw, alaw) = sums_of_values();
    assert_eq!(rt; ulaw, 0xb91e_65d6_8481_a1a8);
    assert_eq!(rt; alaw, 0x693a_40ca_62a3_d2a5);
}

/// All codes of both laws. The expected checksums are those of the bytes that libsndfile 1.2.0 writes for all values
/// (`sf_write_short` to a raw file, mu-law), and Python 3.11 (`audioop.lin2alaw`). Others agree but where they round:
/// SoX first rounds to 14 bits for mu-law (383 values differ) and 13 for A-law (1020 values); `audioop.lin2ulaw` shifts
/// a negative value before its magnitude is taken (381 values); libsndfile takes a negative value's whole magnitude for
/// A-law (127 values).
#[test]
fn codes_as_other_programs_have_them(rt: HostRuntime) {
    let (ulaw, alaw) = sums_of_codes();
    assert_eq!(rt; ulaw, 0x94d7_5252_14c7_5eb2);
    assert_eq!(rt; alaw, 0xf030_666e_b780_cf25);
}

fn bytes_of(alloc: Global, bytes: &[u8]) -> Result<Bytes, NoMemory> {
    match Bytes::from_vec(Vec::from_slice(alloc, bytes)?) {
        Ok(bytes) => Ok(bytes),
        Err(_) => Err(NoMemory),
    }
}

fn text_of(alloc: Global, codec: &str) -> Result<Text, NoMemory> {
    Ok(Text::of(String::from_str(alloc, codec)?))
}

fn decoder_config(alloc: Global, codec: &str) -> Result<AudioDecoderConfig, NoMemory> {
    Ok(AudioDecoderConfig {
        codec: text_of(alloc, codec)?,
        rate: 8000,
        channels: 1,
        description: None,
    })
}

fn encoder_config(alloc: Global, codec: &str) -> Result<AudioEncoderConfig, NoMemory> {
    Ok(AudioEncoderConfig {
        codec: text_of(alloc, codec)?,
        rate: 8000,
        channels: 1,
        block_size: 0,
        level: 5,
        depth: 16,
    })
}

fn shape_of(frames: u32) -> SoundShape {
    SoundShape {
        format: SampleFormat::S16,
        rate: 8000,
        channels: 1,
        frames,
        timestamp: 7,
    }
}

fn chunk_of(duration: Option<u64>, bytes: Bytes) -> Chunk {
    Chunk {
        key: true,
        timestamp: 7,
        duration,
        bytes,
    }
}

/// What a decoder gives for a chunk and a drain, freshly configured.
fn decoded<C: Coder>(
    alloc: Global,
    coder: &mut C,
    config: &Config,
    chunk: &Chunk,
) -> Option<Vec<Unit>> {
    let mut out = Vec::new(alloc);
    if coder.id().role != Role::Decode || !coder.supports(config) {
        return None;
    }
    if let Err(_) = coder.configure(alloc, config) {
        return None;
    }
    match coder.setup(alloc) {
        Ok(None) => {}
        _ => return None,
    }
    if let Err(_) = coder.push(alloc, &Input::Chunk(chunk), &mut out) {
        return None;
    }
    match coder.drain(alloc, &mut out) {
        Ok(()) => Some(out),
        Err(_) => None,
    }
}

/// The config of an encoder's outputs, and what it gives for samples and a drain, freshly configured.
fn encoded<C: Coder>(
    alloc: Global,
    coder: &mut C,
    config: &Config,
    shape: &SoundShape,
    bytes: &[u8],
) -> Option<(AudioDecoderConfig, Vec<Unit>)> {
    let mut out = Vec::new(alloc);
    if coder.id().role != Role::Encode || !coder.supports(config) {
        return None;
    }
    if let Err(_) = coder.configure(alloc, config) {
        return None;
    }
    let setup = match coder.setup(alloc) {
        Ok(Some(setup)) => setup,
        _ => return None,
    };
    if let Err(_) = coder.push(alloc, &Input::Sound(shape, bytes), &mut out) {
        return None;
    }
    match coder.drain(alloc, &mut out) {
        Ok(()) => Some((setup, out)),
        Err(_) => None,
    }
}

/// Whether four codes in one chunk give these bytes of samples.
fn decodes<C: Coder>(
    alloc: Global,
    coder: &mut C,
    text: &str,
    codes: &[u8],
    samples: &[u8],
) -> Result<bool, NoMemory> {
    let config = Config::AudioDecoder(decoder_config(alloc, text)?);
    let chunk = chunk_of(None, bytes_of(alloc, codes)?);
    let expected = Unit::Sound(Samples {
        shape: shape_of(4),
        bytes: bytes_of(alloc, samples)?,
    });
    Ok(is_one(&decoded(alloc, coder, &config, &chunk), &expected))
}

fn is_one(units: &Option<Vec<Unit>>, expected: &Unit) -> bool {
    match units {
        Some(units) => units.len() == 1 && units[0] == *expected,
        None => false,
    }
}

/// Whether four samples of 16 bits give these codes in one chunk.
fn encodes<C: Coder>(
    alloc: Global,
    coder: &mut C,
    text: &str,
    samples: &[u8],
    codes: &[u8],
) -> Result<bool, NoMemory> {
    let config = Config::AudioEncoder(encoder_config(alloc, text)?);
    let setup = decoder_config(alloc, text)?;
    let expected = Unit::Coded {
        chunk: chunk_of(Some(500), bytes_of(alloc, codes)?),
        config: None,
    };
    let given = encoded(alloc, coder, &config, &shape_of(4), samples);
    Ok(is_coded(&given, &setup, &expected))
}

fn is_coded(
    given: &Option<(AudioDecoderConfig, Vec<Unit>)>,
    setup: &AudioDecoderConfig,
    expected: &Unit,
) -> bool {
    match given {
        Some((config, units)) => *config == *setup && units.len() == 1 && units[0] == *expected,
        None => false,
    }
}

const ULAW_CODES: [u8; 4] = [0x00, 0x80, 0x7F, 0xFF];

const ULAW_SAMPLES: [u8; 8] = [0x84, 0x82, 0x7C, 0x7D, 0, 0, 0, 0];

#[test]
fn mu_law_coders(rt: HostRuntime) {
    let alloc = rt.alloc();
    let mut decoder = SampleCoder::new(Role::Decode, Coding::G711(Law::Ulaw));
    let decoded = decodes(alloc, &mut decoder, "ulaw", &ULAW_CODES, &ULAW_SAMPLES);
    assert!(rt; matches!(decoded, Ok(true)));
    let mut encoder = SampleCoder::new(Role::Encode, Coding::G711(Law::Ulaw));
    let samples = [3, 0, 4, 0, 0xFF, 0xFF, 0xFF, 0x7F];
    let encoded = encodes(
        alloc,
        &mut encoder,
        "ulaw",
        &samples,
        &[0xFF, 0xFE, 0x7F, 0x80],
    );
    assert!(rt; matches!(encoded, Ok(true)));
}

#[test]
fn a_law_coders(rt: HostRuntime) {
    let alloc = rt.alloc();
    let mut decoder = SampleCoder::new(Role::Decode, Coding::G711(Law::Alaw));
    let samples = [8, 0, 0xF8, 0xFF, 0x00, 0x7E, 0x00, 0x82];
    let decoded = decodes(
        alloc,
        &mut decoder,
        "alaw",
        &[0xD5, 0x55, 0xAA, 0x2A],
        &samples,
    );
    assert!(rt; matches!(decoded, Ok(true)));
    let mut encoder = SampleCoder::new(Role::Encode, Coding::G711(Law::Alaw));
    let samples = [0, 0, 0xFF, 0xFF, 0xFF, 0x7F, 0x00, 0x80];
    let encoded = encodes(
        alloc,
        &mut encoder,
        "alaw",
        &samples,
        &[0xD5, 0x55, 0xAA, 0x2A],
    );
    assert!(rt; matches!(encoded, Ok(true)));
}

#[test]
fn a_boxed_coder(rt: HostRuntime) -> Result<(), Fail> {
    let alloc = rt.alloc();
    let mut decoder = CoderBox::of(Box::new(
        alloc,
        SampleCoder::new(Role::Decode, Coding::G711(Law::Ulaw)),
    )?);
    let decoded = decodes(alloc, &mut decoder, "ulaw", &ULAW_CODES, &ULAW_SAMPLES);
    assert!(rt; matches!(decoded, Ok(true)));
    Ok(())
}
