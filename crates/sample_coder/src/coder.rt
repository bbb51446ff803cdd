// The coder.
ghost use Rattle.std.specs.Prelude.{◌≡◌, [], true, IfOk};
ghost use Rattle.sample_coder.specs.Coding.{id_of};
ghost use Rattle.sample_coder.specs.Value.{answer_in, IsInRange, meaning_of};
ghost use Rattle.coder_api.specs.Meaning.{Stopped, IsAt, Answers, command_of, serves};
ghost use Rattle.sample_coder.specs.declared.coder.Setting.TheVariants as setting;

use crate::coding::Coding;
use crate::decode::decode;
use crate::encode::encode;
use codec_definitions::Unit;
use coder_api::{Coder, CoderFault, Input};
use std::alloc::Global;
use std::marker::Model;
use wc_base::NoMemory;
use wc_config::{AudioDecoderConfig, AudioEncoderConfig, CoderId, Config, Role};

/// A decoder or encoder of linear PCM, A-law or mu-law (W3C WebCodecs, their registrations).
#[derive(Drop)]
pub struct SampleCoder {
    role: Role,
    coding: Coding,
    setting: Setting,
}

/// What it was configured to do.
#[derive(Drop)]
enum Setting {
    Stopped,
    Decoder(AudioDecoderConfig),
    Encoder(AudioEncoderConfig),
}

impl Model for SampleCoder {
    ghost use Rattle.std.specs.Prelude.{◌≡◌, true, IfOk};
    ghost use Rattle.sample_coder.specs.Coding.{id_of};
    ghost use Rattle.sample_coder.specs.Value.{CoderValue, IsInRange, meaning_of};

    ghost Value = { CoderValue };

    ghost view = { λ p. record { id = record { role = p.role; codec = id_of p.coding }; meaning = meaning_of p.setting } };

    ghost invariant = { λ p. IsInRange p.setting };
}

impl SampleCoder {
    /// A stopped decoder or encoder, with no memory.
    pub fn new(role: Role, coding: Coding) -> SampleCoder
        ensures { result
            ≡ record { id = record { role = role; codec = id_of coding }; meaning = Stopped } }
    {
        SampleCoder {
            role,
            coding,
            setting: Setting::Stopped,
        }
    }
}

impl Coder for SampleCoder {
    ghost coder = { λ p. p.id };

    ghost meaning = { λ p. p.meaning };

    fn id(&self) -> CoderId {
        CoderId {
            role: self.role,
            codec: self.coding.codec(),
        }
    }

    fn supports(&self, config: &Config) -> bool {
        match config.coder_id() {
            Some(id) => config.supported() && id == self.id(),
            None => false,
        }
    }

    fn configure(&mut self, _alloc: Global, config: &Config) -> Result<(), NoMemory> {
        self.setting = Setting::Stopped;
        self.setting = setting_of(self.role, self.coding, config)?;
        Ok(())
    }

    fn setup(&self, _alloc: Global) -> Result<Option<AudioDecoderConfig>, NoMemory> {
        match &self.setting {
            Setting::Encoder(c) => Ok(Some(AudioDecoderConfig {
                codec: c.codec.copy()?,
                rate: c.rate,
                channels: c.channels,
                description: None,
            })),
            _ => Ok(None),
        }
    }

    #[tactic(auto, using(coder_api::specs::Kept::kept_after))]
    fn push(
        &mut self,
        alloc: Global,
        input: &Input<'_>,
        out: &mut Vec<Unit>,
    ) -> Result<(), CoderFault> {
        let result = answer(alloc, self.coding, &self.setting, input, out);
        if result.is_err() {
            self.stop();
        }
        result
    }

    fn drain(&mut self, _alloc: Global, _out: &mut Vec<Unit>) -> Result<(), NoMemory> {
        // Nothing is pending: each input is answered at once.
        let _setting = &self.setting;
        Ok(())
    }

    fn stop(&mut self) {
        self.setting = Setting::Stopped;
    }
}

/// What a config that this coder serves asks for.
fn setting_of(role: Role, coding: Coding, config: &Config) -> Result<Setting, NoMemory>
    requires { serves (record { role = role; codec = id_of coding }) config.now ≡ true }
    ensures meaning { IfOk result
        (λ s. IsAt (record { role = role; codec = id_of coding }) config.now [] (meaning_of s)) }
    ensures range { IfOk result IsInRange }
{
    match config {
        Config::AudioDecoder(c) => Ok(Setting::Decoder(c.copy()?)),
        Config::AudioEncoder(c) => Ok(Setting::Encoder(c.copy()?)),
        Config::VideoDecoder(_) => unreachable!(),
        Config::VideoEncoder(_) => unreachable!(),
        Config::Bad => unreachable!(),
    }
}

/// Appends the units of one input.
fn answer(
    alloc: Global,
    coding: Coding,
    setting: &Setting,
    input: &Input<'_>,
    out: &mut Vec<Unit>,
) -> Result<(), CoderFault>
    requires { IsInRange setting.now }
    ensures { Answers
        (answer_in coding setting.now (command_of input.now)) result out.old.items out.new.items }
{
    match (setting, input) {
        (Setting::Decoder(c), Input::Chunk(chunk)) => decode(alloc, coding, c, chunk, out),
        (Setting::Encoder(c), Input::Sound(shape, bytes)) => {
            encode(alloc, coding, c, shape, bytes, out)
        }
        _ => Err(CoderFault::Refused),
    }
}
