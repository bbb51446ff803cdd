// Each coder with ample memory, through a bound, through a box, and lent.
ghost use Rattle.std.specs.Prelude.{◌≡◌, IfSome};
ghost use Rattle.std.specs.List.{All};
ghost use Rattle.coder_api.specs.Meaning.{Fits};

use bytes::Bytes;
use coder_api::{Coder, CoderBox, CoderFault, Command, Input, SlotBox, Unit, feed};
use sample_coder::{Coding, SampleCoder};
use sample_conversion::SampleSize;
use std::alloc::Global;
use std::test::Fail;
use wc_base::{By, SampleFormat, Samples, SoundShape, Text, Who};
use wc_chunk::Chunk;
use wc_config::{AudioDecoderConfig, AudioEncoderConfig, CodecId, CoderId, Config, Role};

fn text(alloc: Global, codec: &str) -> Result<Text, Fail> {
    Ok(Text::of(String::from_str(alloc, codec)?))
}

fn decoder(alloc: Global, codec: &str, channels: u32) -> Result<Config, Fail> {
    Ok(Config::AudioDecoder(AudioDecoderConfig {
        codec: text(alloc, codec)?,
        rate: 48000,
        channels,
        description: None,
    }))
}

fn encoder(alloc: Global, codec: &str, channels: u32) -> Result<Config, Fail> {
    Ok(Config::AudioEncoder(AudioEncoderConfig {
        codec: text(alloc, codec)?,
        rate: 48000,
        channels,
        block_size: 0,
        level: 5,
        depth: 16,
    }))
}

fn bytes_of(alloc: Global, bytes: &[u8]) -> Result<Bytes, Fail> {
    Ok(Bytes::from_vec(Vec::from_slice(alloc, bytes)?)?)
}

fn chunk(alloc: Global, bytes: &[u8]) -> Result<Chunk, Fail> {
    Ok(Chunk {
        key: true,
        timestamp: 7,
        duration: None,
        bytes: bytes_of(alloc, bytes)?,
    })
}

fn sound(
    alloc: Global,
    format: SampleFormat,
    channels: u32,
    frames: u32,
    bytes: &[u8],
) -> Result<Samples, Fail> {
    Ok(Samples {
        shape: SoundShape {
            format,
            rate: 48000,
            channels,
            frames,
            timestamp: 7,
        },
        bytes: bytes_of(alloc, bytes)?,
    })
}

/// The coder that a config asks for.
fn coder_for(config: &Config) -> Option<SampleCoder> {
    let id = config.coder_id()?;
    let size = match id.codec {
        CodecId::PcmU8 => SampleSize::One,
        CodecId::PcmS16 => SampleSize::Two,
        CodecId::PcmS24 => SampleSize::Three,
        CodecId::PcmS32 => SampleSize::Four,
        _ => return None,
    };
    Some(SampleCoder::new(id.role, Coding::Pcm(size)))
}

/// What a coder gives for an input, freshly configured.
fn units<C: Coder>(
    alloc: Global,
    coder: &mut C,
    config: &Config,
    input: &Input<'_>,
) -> Option<Vec<Unit>> {
    let mut out = Vec::new(alloc);
    if !coder.supports(config) {
        return None;
    }
    if let Err(_) = coder.configure(alloc, config) {
        return None;
    }
    let pushed = match (coder.id().role, input) {
        (Role::Decode, Input::Chunk(chunk)) => coder.push(alloc, &Input::Chunk(chunk), &mut out),
        (Role::Encode, Input::Sound(shape, bytes)) => {
            coder.push(alloc, &Input::Sound(shape, bytes), &mut out)
        }
        _ => Err(CoderFault::Refused),
    };
    match pushed {
        Ok(()) => Some(out),
        Err(_) => None,
    }
}

/// The same through a plain coder and a boxed one, where both give one unit.
fn unit(alloc: Global, config: &Config, input: &Input<'_>) -> Result<Option<Unit>, Fail> {
    let Some(mut plain) = coder_for(config) else {
        return Ok(None);
    };
    let Some(inner) = coder_for(config) else {
        return Ok(None);
    };
    let mut boxed = CoderBox::of(Box::new(alloc, inner)?);
    let Some(mut first) = units(alloc, &mut plain, config, input) else {
        return Ok(None);
    };
    let Some(second) = units(alloc, &mut boxed, config, input) else {
        return Ok(None);
    };
    if first == second && first.len() == 1 {
        Ok(first.pop())
    } else {
        Ok(None)
    }
}

#[test]
fn decoders_give_samples(rt: HostRuntime) -> Result<(), Fail> {
    let alloc = rt.alloc();
    let rows: [(&str, &[u8], SampleFormat, &[u8]); 4] = [
        ("pcm-u8", &[0, 255], SampleFormat::U8, &[0, 255]),
        ("pcm-s16", &[1, 2, 3, 4], SampleFormat::S16, &[1, 2, 3, 4]),
        (
            "pcm-s24",
            &[255, 255, 255, 1, 0, 0],
            SampleFormat::S32,
            &[0, 255, 255, 255, 0, 1, 0, 0],
        ),
        (
            "pcm-s32",
            &[1, 2, 3, 4, 5, 6, 7, 8],
            SampleFormat::S32,
            &[1, 2, 3, 4, 5, 6, 7, 8],
        ),
    ];
    for (codec, bytes, format, samples) in rows {
        let config = decoder(alloc, codec, 1)?;
        let given = unit(alloc, &config, &Input::Chunk(&chunk(alloc, bytes)?))?;
        let wanted = Unit::Sound(sound(alloc, format, 1, 2, samples)?);
        assert!(rt; given == Some(wanted), "{codec}");
    }
    Ok(())
}

#[test]
fn encoders_convert_samples(rt: HostRuntime) -> Result<(), Fail> {
    let alloc = rt.alloc();
    // Two channels and two frames: -128, 127, 1 and -1 at the top of each sample, or a little above.
    let u8s: &[u8] = &[0, 255, 129, 127];
    let s16s: &[u8] = &[0, 128, 255, 127, 128, 1, 255, 255];
    let s32s: &[u8] = &[
        0, 0, 0, 128, 255, 255, 255, 127, 4, 3, 2, 1, 255, 255, 255, 255,
    ];
    let rows: [(&str, SampleFormat, &[u8], &[u8]); 14] = [
        ("pcm-u8", SampleFormat::U8, u8s, u8s),
        ("pcm-u8", SampleFormat::S16, s16s, &[0, 255, 129, 127]),
        ("pcm-u8", SampleFormat::S32, s32s, &[0, 255, 129, 127]),
        (
            "pcm-s16",
            SampleFormat::U8,
            u8s,
            &[0, 128, 0, 127, 0, 1, 0, 255],
        ),
        ("pcm-s16", SampleFormat::S16, s16s, s16s),
        (
            "pcm-s16",
            SampleFormat::S32,
            s32s,
            &[0, 128, 255, 127, 2, 1, 255, 255],
        ),
        (
            "pcm-s24",
            SampleFormat::U8,
            u8s,
            &[0, 0, 128, 0, 0, 127, 0, 0, 1, 0, 0, 255],
        ),
        (
            "pcm-s24",
            SampleFormat::S16,
            s16s,
            &[0, 0, 128, 0, 255, 127, 0, 128, 1, 0, 255, 255],
        ),
        (
            "pcm-s24",
            SampleFormat::S32,
            s32s,
            &[0, 0, 128, 255, 255, 127, 3, 2, 1, 255, 255, 255],
        ),
        (
            "pcm-s32",
            SampleFormat::S16,
            s16s,
            &[0, 0, 0, 128, 0, 0, 255, 127, 0, 0, 128, 1, 0, 0, 255, 255],
        ),
        ("pcm-s32", SampleFormat::S32, s32s, s32s),
        ("pcm-u8", SampleFormat::U8Planar, u8s, &[0, 129, 255, 127]),
        (
            "pcm-s16",
            SampleFormat::S16Planar,
            s16s,
            &[0, 128, 128, 1, 255, 127, 255, 255],
        ),
        ("pcm-u8", SampleFormat::S32Planar, s32s, &[0, 129, 255, 127]),
    ];
    for (codec, format, samples, bytes) in rows {
        let config = encoder(alloc, codec, 2)?;
        let data = sound(alloc, format, 2, 2, samples)?;
        let given = unit(
            alloc,
            &config,
            &Input::Sound(&data.shape, data.bytes.as_slice()),
        )?;
        let mut chunk = chunk(alloc, bytes)?;
        // Two frames at 48000 a second last 41 whole microseconds.
        chunk.duration = Some(41);
        let wanted = Unit::Coded {
            chunk,
            config: None,
        };
        assert!(rt; given == Some(wanted), "{codec} {format:?}");
    }
    Ok(())
}

#[test]
fn commands_are_fed_up_to_a_refusal(rt: HostRuntime) -> Result<(), Fail> {
    let alloc = rt.alloc();
    let config = decoder(alloc, "pcm-s16", 1)?;
    let mut coder = SampleCoder::new(Role::Decode, Coding::Pcm(SampleSize::Two));
    let mut out = Vec::new(alloc);
    assert!(rt; coder.supports(&config));
    coder.configure(alloc, &config)?;
    let commands = [
        Command::Chunk(chunk(alloc, &[1, 2])?),
        Command::Drain,
        Command::Chunk(chunk(alloc, &[3])?),
    ];
    let fed = feed(alloc, &mut coder, &commands, &mut out);
    assert_eq!(rt; fed, Err(CoderFault::Refused));
    let wanted = Unit::Sound(sound(alloc, SampleFormat::S16, 1, 1, &[1, 2])?);
    assert!(rt; out.len() == 1 && out[0] == wanted);
    Ok(())
}

#[test]
fn a_box_is_lent_with_its_number(rt: HostRuntime) -> Result<(), Fail> {
    let alloc = rt.alloc();
    let id = CoderId {
        role: Role::Decode,
        codec: CodecId::PcmU8,
    };
    let by = By::Caller(Who { caller: 1, step: 2 });
    let config = decoder(alloc, "pcm-u8", 1)?;
    let coder = SampleCoder::new(Role::Decode, Coding::Pcm(SampleSize::One));
    let mut lent = SlotBox::new(coder, 3, by);
    assert!(rt; lent.id() == id && lent.number() == 3 && lent.by() == by);
    assert!(rt; lent.supports(&config));
    lent.configure(alloc, &config)?;
    assert!(rt; lent.setup(alloc)?.is_none());
    let mut out = Vec::new(alloc);
    lent.push(alloc, &Input::Chunk(&chunk(alloc, &[6])?), &mut out)?;
    lent.drain(alloc, &mut out)?;
    lent.stop();
    let wanted = Unit::Sound(sound(alloc, SampleFormat::U8, 1, 1, &[6])?);
    assert!(rt; out.len() == 1 && out[0] == wanted);
    Ok(())
}

#[test]
fn a_boxed_encoder_says_its_decoders_config(rt: HostRuntime) -> Result<(), Fail> {
    let alloc = rt.alloc();
    let config = encoder(alloc, "pcm-s24", 2)?;
    let inner = coder_for(&config).expect(&rt, "a coder");
    let mut coder: Box<dyn Coder> = Box::new(alloc, inner)?;
    assert!(rt; coder.supports(&config));
    coder.configure(alloc, &config)?;
    let setup = coder.setup(alloc)?.map(Config::AudioDecoder);
    assert!(rt; setup == Some(decoder(alloc, "pcm-s24", 2)?));
    let mut out = Vec::new(alloc);
    coder.drain(alloc, &mut out)?;
    coder.stop();
    assert!(rt; out.is_empty() && coder.id().codec == CodecId::PcmS24);
    Ok(())
}
