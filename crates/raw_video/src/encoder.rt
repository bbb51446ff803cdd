// The encoder.
ghost use Rattle.std.specs.Prelude.{◌≡◌, ◌+◌, true, length, IfOk};
ghost use Rattle.codec_definitions.specs.declared.command.Command.TheVariants as command;
ghost use Rattle.codec_definitions.specs.RawVideoEncoder.{is_format, is_picture_taken, number_in};
ghost use Rattle.coder_api.specs.Meaning.{Stopped, Configured, IsConfigured, new_state, command_of, serves};
ghost use Rattle.picture_planes.specs.Planes.{picture_size};
ghost use Rattle.wc_config.specs.declared.config.Config.TheVariants as config_of;
ghost use Rattle.raw_video.specs.Encoder.{encoder_id, IsCoding, meaning_of, after, answer_in, is_key_next};
ghost use Rattle.raw_video.specs.Encoder.{GivesUnits, GivesChunk, with_picture};
ghost use Rattle.raw_video.specs.declared.encoder.Setting.TheVariants as setting;

use crate::deltas::coded_bytes;
use crate::ids::codec_of;
use bytes::Bytes;
use codec_definitions::Unit;
use coder_api::{Coder, CoderFault, Input};
use picture_planes::picture_size;
use std::alloc::Global;
use std::marker::Model;
use std::mem;
use wc_base::{NoMemory, PictureFormat, PictureShape};
use wc_chunk::Chunk;
use wc_config::{AudioDecoderConfig, CoderId, Config, Role, VideoEncoderConfig};

/// An encoder of raw video: a chunk is a picture's planes, or those less the planes of the picture before it.
#[derive(Drop)]
pub struct RawVideoEncoder {
    format: PictureFormat,
    setting: Setting,
}

/// What it was configured to do.
#[derive(Drop)]
enum Setting {
    Stopped,
    Encoder(Encoding),
}

/// The config, what its pictures are and how many bytes they have, the last picture, and the number of the next, modulo
/// the key interval.
#[derive(Drop)]
struct Encoding {
    config: VideoEncoderConfig,
    shape: PictureShape,
    size: usize,
    last: Option<Bytes>,
    next: u32,
}

impl Model for RawVideoEncoder {
    ghost use Rattle.std.specs.Prelude.{◌≡◌};
    ghost use Rattle.raw_video.specs.Encoder.{EncoderValue, encoder_id, IsCoding, meaning_of};

    ghost Value = { EncoderValue };

    ghost view = { λ p. record { id = encoder_id p.format; meaning = meaning_of p.setting } };

    ghost invariant = { λ p. IsCoding p.format p.setting };
}

impl RawVideoEncoder {
    /// A stopped encoder of pictures of a format, with no memory.
    pub fn new(format: PictureFormat) -> RawVideoEncoder
        ensures { result ≡ record { id = encoder_id format; meaning = Stopped } }
    {
        RawVideoEncoder {
            format,
            setting: Setting::Stopped,
        }
    }
}

impl Coder for RawVideoEncoder {
    ghost coder = { λ p. p.id };

    ghost meaning = { λ p. p.meaning };

    fn id(&self) -> CoderId {
        encoder_id(self.format)
    }

    fn supports(&self, config: &Config) -> bool {
        match config.coder_id() {
            Some(id) => config.supported() && id == encoder_id(self.format),
            None => false,
        }
    }

    fn configure(&mut self, _alloc: Global, config: &Config) -> Result<(), NoMemory> {
        self.setting = Setting::Stopped;
        self.setting = setting_of(self.format, config)?;
        Ok(())
    }

    fn setup(&self, _alloc: Global) -> Result<Option<AudioDecoderConfig>, NoMemory> {
        let _setting = &self.setting;
        Ok(None)
    }

    fn push(
        &mut self,
        alloc: Global,
        input: &Input<'_>,
        out: &mut Vec<Unit>,
    ) -> Result<(), CoderFault> {
        let setting = mem::replace(&mut self.setting, Setting::Stopped);
        match take(alloc, self.format, setting, input, out) {
            Ok(setting) => {
                self.setting = setting;
                Ok(())
            }
            Err(e) => Err(e),
        }
    }

    #[tactic(auto, using(crate::proofs::EncoderLaws::drained_renewed))]
    fn drain(&mut self, _alloc: Global, _out: &mut Vec<Unit>) -> Result<(), NoMemory> {
        let setting = mem::replace(&mut self.setting, Setting::Stopped);
        self.setting = drained(self.format, setting);
        Ok(())
    }

    fn stop(&mut self) {
        self.setting = Setting::Stopped;
    }
}

fn encoder_id(format: PictureFormat) -> CoderId
    ensures { result ≡ encoder_id format }
{
    CoderId {
        role: Role::Encode,
        codec: codec_of(format),
    }
}

/// What a config that this encoder serves asks for.
fn setting_of(format: PictureFormat, config: &Config) -> Result<Setting, NoMemory>
    requires serves { serves (encoder_id format) config.now ≡ true }
    ensures meaning { IfOk result (λ s. meaning_of s ≡ Configured config.now new_state) }
    ensures coding { IfOk result (IsCoding format) }
{
    match config {
        Config::VideoEncoder(c) => Ok(Setting::Encoder(encoding_of(format, c)?)),
        Config::AudioDecoder(_) => unreachable!(),
        Config::AudioEncoder(_) => unreachable!(),
        Config::VideoDecoder(_) => unreachable!(),
        Config::Bad => unreachable!(),
    }
}

/// The pictures of a config, of which none was given. Those that memory could not hold want memory.
fn encoding_of(format: PictureFormat, c: &VideoEncoderConfig) -> Result<Encoding, NoMemory>
    requires { serves (encoder_id format) (config_of.VideoEncoder c.now) ≡ true }
    ensures meaning { IfOk result (λ e. meaning_of (setting.Encoder e) ≡
        Configured (config_of.VideoEncoder c.now) new_state) }
    ensures coding { IfOk result (λ e. IsCoding format (setting.Encoder e)) }
{
    let shape = PictureShape {
        format,
        width: c.width,
        height: c.height,
        timestamp: 0,
        duration: None,
    };
    let Some(size) = picture_size(&shape) else {
        return Err(NoMemory);
    };
    Ok(Encoding {
        config: c.copy()?,
        shape,
        size,
        last: None,
        next: 0,
    })
}

/// Appends the chunk of one input, and answers the setting after it.
fn take(
    alloc: Global,
    format: PictureFormat,
    setting: Setting,
    input: &Input<'_>,
    out: &mut Vec<Unit>,
) -> Result<Setting, CoderFault>
    requires coding { IsCoding format setting }
    requires configured { IsConfigured (meaning_of setting) }
    ensures units { GivesUnits
        (answer_in setting (command_of input.now)) result out.old.items out.new.items }
    ensures after { IfOk result (λ s. s ≡ after setting (command_of input.now)) }
    ensures coding { IfOk result (IsCoding format) }
{
    match (setting, input) {
        (Setting::Encoder(e), Input::Image(shape, bytes)) => {
            let e = encode(alloc, format, e, shape, bytes, out)?;
            Ok(Setting::Encoder(e))
        }
        _ => Err(CoderFault::Refused),
    }
}

/// Appends the chunk of a picture, and keeps the picture.
#[tactic(auto, using(crate::proofs::EncoderLaws::taken_size))]
fn encode(
    alloc: Global,
    format: PictureFormat,
    e: Encoding,
    shape: &PictureShape,
    bytes: &Bytes,
    out: &mut Vec<Unit>,
) -> Result<Encoding, CoderFault>
    requires { IsCoding format (setting.Encoder e) }
    ensures units { GivesChunk
        e (record { shape = shape.now; bytes = bytes.now }) result out.old.items out.new.items }
    ensures after { IfOk result (λ f. f ≡ with_picture bytes.now e) }
    ensures coding { IfOk result (λ f. IsCoding format (setting.Encoder f)) }
{
    if !is_taken(&e.shape, e.size, shape, bytes) {
        return Err(CoderFault::Refused);
    }
    let key = is_key_next(&e);
    let Ok(kept) = bytes.clone() else {
        return Err(CoderFault::NoMemory);
    };
    let Ok(coded) = coded_bytes(alloc, key, &e.last, bytes) else {
        return Err(CoderFault::NoMemory);
    };
    let unit = Unit::Coded {
        chunk: Chunk {
            key,
            timestamp: shape.timestamp,
            duration: shape.duration,
            bytes: coded,
        },
        config: None,
    };
    match out.push(unit) {
        Ok(()) => Ok(with_picture(format, e, kept)),
        Err(_) => Err(CoderFault::NoMemory),
    }
}

/// The same with a picture given.
#[tactic(auto, using(crate::proofs::EncoderLaws::number_again))]
fn with_picture(format: PictureFormat, e: Encoding, picture: Bytes) -> Encoding
    requires coding { IsCoding format (setting.Encoder e) }
    requires size { length picture ≡ e.size }
    ensures after { result ≡ with_picture picture e }
    ensures coding { IsCoding format (setting.Encoder result) }
{
    let next = number_after(e.config.key_interval, e.next);
    Encoding {
        config: e.config,
        shape: e.shape,
        size: e.size,
        last: Some(picture),
        next,
    }
}

/// Whether a picture is of the config's format and size, and has as many bytes as it needs.
fn is_taken(wanted: &PictureShape, size: usize, shape: &PictureShape, bytes: &Bytes) -> bool
    requires { size ≡ picture_size wanted.now }
    ensures { result
        ≡ is_picture_taken wanted.now (record { shape = shape.now; bytes = bytes.now }) }
{
    is_format(wanted.format, shape.format)
        && shape.width == wanted.width
        && shape.height == wanted.height
        && bytes.len() == size
}

fn is_format(a: PictureFormat, b: PictureFormat) -> bool
    ensures { result ≡ is_format a b }
{
    a == b
}

/// Whether the next chunk is a key chunk.
fn is_key_next(e: &Encoding) -> bool
    ensures { result ≡ is_key_next e.now }
{
    e.last.is_none() || (e.config.key_interval != 0 && e.next == 0)
}

/// The number behind a picture's number, modulo the key interval.
#[tactic(auto, using(crate::proofs::EncoderLaws::number_below, crate::proofs::EncoderLaws::number_rises, crate::proofs::EncoderLaws::number_ends))]
fn number_after(interval: u32, number: u32) -> u32
    requires { number_in interval number ≡ number }
    ensures { result ≡ number_in interval (number + 1) }
{
    if interval == 0 {
        return 0;
    }
    let after = number + 1;
    if after == interval { 0 } else { after }
}

/// The same with no last picture.
fn drained(format: PictureFormat, setting: Setting) -> Setting
    requires { IsCoding format setting }
    ensures after { result ≡ after setting command.Drain }
    ensures coding { IsCoding format result }
{
    match setting {
        Setting::Encoder(e) => Setting::Encoder(Encoding {
            config: e.config,
            shape: e.shape,
            size: e.size,
            last: None,
            next: 0,
        }),
        Setting::Stopped => Setting::Stopped,
    }
}
