// The decoder.
ghost use Rattle.std.specs.Prelude.{◌≡◌, true, length, IfOk, IfSome};
ghost use Rattle.codec_definitions.specs.declared.command.Command.TheVariants as command;
ghost use Rattle.coder_api.specs.Meaning.{Stopped, Configured, IsConfigured, new_state, command_of, serves};
ghost use Rattle.wc_config.specs.declared.config.Config.TheVariants as config_of;
ghost use Rattle.raw_video.specs.Value.{id_of, IsServed, meaning_of, after, answer_in};
ghost use Rattle.raw_video.specs.Value.{next_picture, GivesUnits, GivesPictureUnit, AreBytes, AreBytesOf};
ghost use Rattle.raw_video.specs.declared.coder.Setting.TheVariants as setting;

use crate::ids::codec_of;
use crate::picture::next_picture;
use bytes::Bytes;
use codec_definitions::Unit;
use coder_api::{Coder, CoderFault, Input};
use picture_planes::picture_size;
use std::alloc::Global;
use std::marker::Model;
use std::mem;
use wc_base::{NoMemory, Picture, PictureFormat, PictureShape};
use wc_chunk::Chunk;
use wc_config::{AudioDecoderConfig, CoderId, Config, Role, VideoDecoderConfig};

/// A decoder of raw video: a chunk is a picture's planes, or what is added to those of the last picture.
#[derive(Drop)]
pub struct RawVideo {
    format: PictureFormat,
    setting: Setting,
}

/// What it was configured to do.
#[derive(Drop)]
enum Setting {
    Stopped,
    Decoder(Decoding),
}

/// The config, what its pictures are and how many bytes they have, and the last picture.
#[derive(Drop)]
struct Decoding {
    config: VideoDecoderConfig,
    shape: PictureShape,
    size: usize,
    last: Option<Bytes>,
}

impl Model for RawVideo {
    ghost use Rattle.std.specs.Prelude.{◌≡◌};
    ghost use Rattle.raw_video.specs.Value.{RawValue, id_of, IsServed, meaning_of};

    ghost Value = { RawValue };

    ghost view = { λ p. record { id = id_of p.format; meaning = meaning_of p.setting } };

    ghost invariant = { λ p. IsServed p.format p.setting };
}

impl RawVideo {
    /// A stopped decoder of pictures of a format, with no memory.
    pub fn new(format: PictureFormat) -> RawVideo
        ensures { result ≡ record { id = id_of format; meaning = Stopped } }
    {
        RawVideo {
            format,
            setting: Setting::Stopped,
        }
    }
}

impl Coder for RawVideo {
    ghost coder = { λ p. p.id };

    ghost meaning = { λ p. p.meaning };

    fn id(&self) -> CoderId {
        id_of(self.format)
    }

    fn supports(&self, config: &Config) -> bool {
        match config.coder_id() {
            Some(id) => config.supported() && id == id_of(self.format),
            None => false,
        }
    }

    fn configure(&mut self, _alloc: Global, config: &Config) -> Result<(), NoMemory> {
        self.setting = Setting::Stopped;
        self.setting = setting_of(self.format, config)?;
        Ok(())
    }

    fn setup(&self, _alloc: Global) -> Result<Option<AudioDecoderConfig>, NoMemory> {
        let _setting = &self.setting;
        Ok(None)
    }

    fn push(
        &mut self,
        alloc: Global,
        input: &Input<'_>,
        out: &mut Vec<Unit>,
    ) -> Result<(), CoderFault> {
        let setting = mem::replace(&mut self.setting, Setting::Stopped);
        match take(alloc, self.format, setting, input, out) {
            Ok(setting) => {
                self.setting = setting;
                Ok(())
            }
            Err(e) => Err(e),
        }
    }

    #[tactic(auto, using(crate::proofs::CoderLaws::drained_renewed))]
    fn drain(&mut self, _alloc: Global, _out: &mut Vec<Unit>) -> Result<(), NoMemory> {
        let setting = mem::replace(&mut self.setting, Setting::Stopped);
        self.setting = drained(self.format, setting);
        Ok(())
    }

    fn stop(&mut self) {
        self.setting = Setting::Stopped;
    }
}

fn id_of(format: PictureFormat) -> CoderId
    ensures { result ≡ id_of format }
{
    CoderId {
        role: Role::Decode,
        codec: codec_of(format),
    }
}

/// What a config that this decoder serves asks for.
fn setting_of(format: PictureFormat, config: &Config) -> Result<Setting, NoMemory>
    requires serves { serves (id_of format) config.now ≡ true }
    ensures meaning { IfOk result (λ s. meaning_of s ≡ Configured config.now new_state) }
    ensures served { IfOk result (IsServed format) }
{
    match config {
        Config::VideoDecoder(c) => Ok(Setting::Decoder(pictures_of(format, c)?)),
        Config::AudioDecoder(_) => unreachable!(),
        Config::AudioEncoder(_) => unreachable!(),
        Config::VideoEncoder(_) => unreachable!(),
        Config::Bad => unreachable!(),
    }
}

/// The pictures of a config. Those that memory could not hold want memory.
fn pictures_of(format: PictureFormat, c: &VideoDecoderConfig) -> Result<Decoding, NoMemory>
    requires { serves (id_of format) (config_of.VideoDecoder c.now) ≡ true }
    ensures meaning { IfOk result (λ d. meaning_of (setting.Decoder d) ≡
        Configured (config_of.VideoDecoder c.now) new_state) }
    ensures served { IfOk result (λ d. IsServed format (setting.Decoder d)) }
{
    let Some(width) = c.width else { unreachable!() };
    let Some(height) = c.height else {
        unreachable!()
    };
    let shape = PictureShape {
        format,
        width,
        height,
        timestamp: 0,
        duration: None,
    };
    let Some(size) = picture_size(&shape) else {
        return Err(NoMemory);
    };
    Ok(Decoding {
        config: c.copy()?,
        shape,
        size,
        last: None,
    })
}

/// Appends the units of one input, and answers the setting after it.
fn take(
    alloc: Global,
    format: PictureFormat,
    setting: Setting,
    input: &Input<'_>,
    out: &mut Vec<Unit>,
) -> Result<Setting, CoderFault>
    requires served { IsServed format setting }
    requires configured { IsConfigured (meaning_of setting) }
    ensures units { GivesUnits
        (answer_in setting (command_of input.now)) result out.old.items out.new.items }
    ensures after { IfOk result (λ s. s ≡ after setting (command_of input.now)) }
    ensures served { IfOk result (IsServed format) }
    ensures bytes { AreBytesOf (command_of input.now) }
{
    match (setting, input) {
        (Setting::Decoder(d), Input::Chunk(chunk)) => {
            let d = decode(alloc, d, chunk, out)?;
            Ok(Setting::Decoder(d))
        }
        _ => Err(CoderFault::Refused),
    }
}

/// Appends the picture of a chunk, and keeps it.
fn decode(
    alloc: Global,
    d: Decoding,
    chunk: &Chunk,
    out: &mut Vec<Unit>,
) -> Result<Decoding, CoderFault>
    requires { IfSome d.last (λ p. length p ≡ d.size) }
    ensures units { GivesPictureUnit d chunk.now result out.old.items out.new.items }
    ensures after { IfOk result (λ e. e ≡ record d { last = next_picture d.size d.last chunk.now.bytes }) }
    ensures size { IfOk result (λ e. IfSome e.last (λ p. length p ≡ d.size)) }
    ensures bytes { AreBytes chunk.now.bytes }
{
    let picture = next_picture(alloc, d.size, &d.last, &chunk.bytes)?;
    let kept = match picture.clone() {
        Ok(kept) => kept,
        Err(_) => return Err(CoderFault::NoMemory),
    };
    let unit = Unit::Image(Picture {
        shape: PictureShape {
            timestamp: chunk.timestamp,
            duration: chunk.duration,
            ..d.shape
        },
        bytes: picture,
    });
    match out.push(unit) {
        Ok(()) => Ok(Decoding {
            config: d.config,
            shape: d.shape,
            size: d.size,
            last: Some(kept),
        }),
        Err(_) => Err(CoderFault::NoMemory),
    }
}

/// The same with no last picture.
fn drained(format: PictureFormat, setting: Setting) -> Setting
    requires { IsServed format setting }
    ensures after { result ≡ after setting command.Drain }
    ensures served { IsServed format result }
{
    match setting {
        Setting::Decoder(d) => Setting::Decoder(Decoding {
            config: d.config,
            shape: d.shape,
            size: d.size,
            last: None,
        }),
        Setting::Stopped => Setting::Stopped,
    }
}
