// The decoder.
ghost use Rattle.std.specs.Prelude.{◌≡◌, true, Some, IfOk};
ghost use Rattle.codec_definitions.specs.Flac.{described};
ghost use Rattle.coder_api.specs.Meaning.{Stopped, Configured, new_state, Answers, command_of, serves};
ghost use Rattle.flac_decode.specs.Coder.{decoder_id, answer_in, IsDescribed, meaning_of};
ghost use Rattle.wc_config.specs.declared.config.Config.TheVariants as config_of;
ghost use Rattle.flac_decode.specs.declared.coder.Setting.TheVariants as setting;

use crate::chunk::decode_chunk;
use codec_definitions::Unit;
use coder_api::{Coder, CoderFault, Input};
use std::alloc::Global;
use std::marker::Model;
use wc_base::NoMemory;
use wc_config::{AudioDecoderConfig, CodecId, CoderId, Config, Role, StreamInfo, read_streaminfo};

/// A decoder of FLAC (RFC 9639; W3C WebCodecs, registration for FLAC): each chunk is one frame of the stream that the
/// config's description describes, and gives its samples.
#[derive(Drop)]
pub struct FlacDecoder {
    setting: Setting,
    // Room to work in, which each chunk uses again.
    residual: Vec<i32>,
    samples: Vec<i64>,
}

/// What it was configured to do: the config, and what its description says.
#[derive(Drop)]
enum Setting {
    Stopped,
    Decoder(AudioDecoderConfig, StreamInfo),
}

impl Model for FlacDecoder {
    ghost use Rattle.std.specs.Prelude.{◌≡◌};
    ghost use Rattle.flac_decode.specs.Coder.{DecoderValue, IsDescribed, meaning_of};

    ghost Value = { DecoderValue };

    ghost view = { λ p. record { meaning = meaning_of p.setting } };

    ghost invariant = { λ p. IsDescribed p.setting };
}

impl FlacDecoder {
    /// A stopped decoder, with no memory.
    pub fn new(alloc: Global) -> FlacDecoder
        ensures { result ≡ record { meaning = Stopped } }
    {
        FlacDecoder {
            setting: Setting::Stopped,
            residual: Vec::new(alloc),
            samples: Vec::new(alloc),
        }
    }
}

impl Coder for FlacDecoder {
    ghost coder = { λ p. decoder_id };

    ghost meaning = { λ p. p.meaning };

    fn id(&self) -> CoderId {
        decoder_id()
    }

    fn supports(&self, config: &Config) -> bool {
        match config.coder_id() {
            Some(id) => config.supported() && id == decoder_id(),
            None => false,
        }
    }

    fn configure(&mut self, _alloc: Global, config: &Config) -> Result<(), NoMemory> {
        self.setting = Setting::Stopped;
        self.setting = setting_of(config)?;
        Ok(())
    }

    fn setup(&self, _alloc: Global) -> Result<Option<AudioDecoderConfig>, NoMemory> {
        let _setting = &self.setting;
        Ok(None)
    }

    #[tactic(auto, using(coder_api::specs::Kept::kept_after))]
    fn push(
        &mut self,
        alloc: Global,
        input: &Input<'_>,
        out: &mut Vec<Unit>,
    ) -> Result<(), CoderFault> {
        let (residual, samples) = (&mut self.residual, &mut self.samples);
        let result = answer(alloc, &self.setting, input, residual, samples, out);
        if result.is_err() {
            self.stop();
        }
        result
    }

    fn drain(&mut self, _alloc: Global, _out: &mut Vec<Unit>) -> Result<(), NoMemory> {
        // Nothing is pending: each chunk is answered at once.
        let _setting = &self.setting;
        Ok(())
    }

    fn stop(&mut self) {
        self.setting = Setting::Stopped;
    }
}

fn decoder_id() -> CoderId
    ensures { result ≡ decoder_id }
{
    CoderId {
        role: Role::Decode,
        codec: CodecId::Flac,
    }
}

/// What a config that this id serves asks for.
fn setting_of(config: &Config) -> Result<Setting, NoMemory>
    requires serves { serves decoder_id config.now ≡ true }
    ensures meaning { IfOk result (λ s. meaning_of s ≡ Configured config.now new_state) }
    ensures described { IfOk result IsDescribed }
{
    match config {
        Config::AudioDecoder(c) => {
            let info = stream_of(c);
            Ok(Setting::Decoder(c.copy()?, info))
        }
        Config::AudioEncoder(_) => unreachable!(),
        Config::VideoDecoder(_) => unreachable!(),
        Config::VideoEncoder(_) => unreachable!(),
        Config::Bad => unreachable!(),
    }
}

/// What the description of a config says that this decoder serves.
fn stream_of(c: &AudioDecoderConfig) -> StreamInfo
    requires { serves decoder_id (config_of.AudioDecoder c.now) ≡ true }
    ensures { described c.now.description ≡ Some result }
{
    match &c.description {
        Some(d) => match read_streaminfo(d.as_slice()) {
            Some(info) => info,
            None => unreachable!(),
        },
        None => unreachable!(),
    }
}

/// Appends the units of one input.
fn answer(
    alloc: Global,
    setting: &Setting,
    input: &Input<'_>,
    residual: &mut Vec<i32>,
    samples: &mut Vec<i64>,
    out: &mut Vec<Unit>,
) -> Result<(), CoderFault>
    requires described { IsDescribed setting.now }
    ensures { Answers (answer_in setting.now (command_of input.now)) result out.old.items out.new.items }
{
    match (setting, input) {
        (Setting::Decoder(_, info), Input::Chunk(chunk)) => {
            decode_chunk(alloc, info, chunk, residual, samples, out)
        }
        _ => Err(CoderFault::Refused),
    }
}
