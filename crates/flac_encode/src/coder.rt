// The encoder.
ghost use Rattle.std.specs.Prelude.{◌≡◌, [], true, IfOk, OnOk, OnErr};
ghost use Rattle.wc_config.specs.declared.config.Config.TheVariants as configs;
ghost use Rattle.coder_api.specs.Meaning.{Stopped, IsConfigured, IsAt, Answers, serves, command_of, as_coder_fault, renewed};
ghost use Rattle.codec_definitions.specs.declared.command.Command.TheVariants as command;
ghost use Rattle.codec_definitions.specs.FlacEncoder.{nothing_kept};
ghost use Rattle.flac_encode.specs.Value.{encoder_id, state_of, IsReady, meaning_of, IsInRange, answer_in, after_in};

use crate::description::decoder_config;
use crate::encoder::{Encoder, encode, finish};
use codec_definitions::Unit;
use coder_api::{Coder, CoderFault, Input};
use std::alloc::Global;
use std::marker::Model;
use wc_base::NoMemory;
use wc_config::{AudioDecoderConfig, AudioEncoderConfig, CodecId, CoderId, Config, Role};

/// An encoder of FLAC (RFC 9639; W3C WebCodecs, registration for FLAC): stopped, or configured, with the samples that no
/// block has yet. An input gives the blocks that are whole with it and not without it, and a drain what is left as one
/// smaller block, after which numbering begins anew.
#[derive(Drop)]
pub struct FlacEncoder {
    setting: Setting,
}

/// What it was configured to do.
#[derive(Drop)]
enum Setting {
    Stopped,
    Encoder(Encoder),
}

impl Model for FlacEncoder {
    ghost use Rattle.std.specs.Prelude.{◌≡◌};
    ghost use Rattle.flac_encode.specs.Value.{EncoderValue, IsInRange, meaning_of};

    ghost Value = { EncoderValue };

    ghost view = { λ p. record { meaning = meaning_of p.setting } };

    ghost invariant = { λ p. IsInRange p.setting };
}

impl FlacEncoder {
    /// A stopped encoder, with no memory.
    pub fn new() -> FlacEncoder
        ensures { result ≡ record { meaning = Stopped } }
    {
        FlacEncoder {
            setting: Setting::Stopped,
        }
    }
}

impl Coder for FlacEncoder {
    ghost coder = { λ p. encoder_id };

    ghost meaning = { λ p. p.meaning };

    fn id(&self) -> CoderId {
        encoder_id()
    }

    fn supports(&self, config: &Config) -> bool {
        match config.coder_id() {
            Some(id) => config.supported() && id == encoder_id(),
            None => false,
        }
    }

    fn configure(&mut self, alloc: Global, config: &Config) -> Result<(), NoMemory> {
        self.setting = Setting::Stopped;
        self.setting = setting_of(alloc, config)?;
        Ok(())
    }

    fn setup(&self, alloc: Global) -> Result<Option<AudioDecoderConfig>, NoMemory> {
        match &self.setting {
            Setting::Encoder(e) => Ok(Some(decoder_config(alloc, &e.config)?)),
            Setting::Stopped => Ok(None),
        }
    }

    #[tactic(auto, using(coder_api::specs::Kept::kept_after))]
    fn push(
        &mut self,
        alloc: Global,
        input: &Input<'_>,
        out: &mut Vec<Unit>,
    ) -> Result<(), CoderFault> {
        let result = take(alloc, &mut self.setting, input, out);
        if result.is_err() {
            self.setting = Setting::Stopped;
        }
        result
    }

    fn drain(&mut self, alloc: Global, out: &mut Vec<Unit>) -> Result<(), NoMemory> {
        let result = drain(alloc, &mut self.setting, out);
        if result.is_err() {
            self.setting = Setting::Stopped;
        }
        result
    }

    fn stop(&mut self) {
        self.setting = Setting::Stopped;
    }
}

fn encoder_id() -> CoderId
    ensures { result ≡ encoder_id }
{
    CoderId {
        role: Role::Encode,
        codec: CodecId::Flac,
    }
}

/// What a config that this id serves asks for.
fn setting_of(alloc: Global, config: &Config) -> Result<Setting, NoMemory>
    requires serves { serves encoder_id config.now ≡ true }
    ensures at { IfOk result (λ s. IsAt encoder_id config.now [] (meaning_of s)) }
    ensures range { IfOk result IsInRange }
{
    match config {
        Config::AudioEncoder(c) => Ok(Setting::Encoder(encoder_of(alloc, c)?)),
        Config::AudioDecoder(_) => unreachable!(),
        Config::VideoDecoder(_) => unreachable!(),
        Config::VideoEncoder(_) => unreachable!(),
        Config::Bad => unreachable!(),
    }
}

/// An encoder with a config that FLAC serves, and nothing kept.
fn encoder_of(alloc: Global, config: &AudioEncoderConfig) -> Result<Encoder, NoMemory>
    requires { serves encoder_id (configs.AudioEncoder config.now) ≡ true }
    ensures config { IfOk result (λ e. e.config ≡ config.now) }
    ensures state { IfOk result (λ e. state_of e ≡ nothing_kept) }
    ensures ready { IfOk result IsReady }
{
    Ok(Encoder {
        config: config.copy()?,
        rest: Vec::new(alloc),
        origin: 0,
        offset: 0,
        number: 0,
    })
}

/// Takes one input.
fn take(
    alloc: Global,
    setting: &mut Setting,
    input: &Input<'_>,
    out: &mut Vec<Unit>,
) -> Result<(), CoderFault>
    requires range { IsInRange setting.old }
    ensures answer { Answers
        (answer_in setting.old (command_of input.now)) result out.old.items out.new.items }
    ensures after { OnOk result
        (meaning_of setting.new ≡ after_in setting.old (command_of input.now)) }
    ensures ready { OnOk result (IsInRange setting.new) }
{
    let Input::Sound(shape, bytes) = input else {
        return Err(CoderFault::Refused);
    };
    match setting {
        Setting::Encoder(e) => encode(alloc, e, shape, bytes, out),
        Setting::Stopped => Err(CoderFault::Refused),
    }
}

/// Gives what is left.
fn drain(alloc: Global, setting: &mut Setting, out: &mut Vec<Unit>) -> Result<(), NoMemory>
    requires range { IsInRange setting.old }
    requires configured { IsConfigured (meaning_of setting.old) }
    ensures answer { Answers (answer_in setting.old command.Drain)
        (as_coder_fault result) out.old.items out.new.items }
    ensures after { OnOk result (meaning_of setting.new ≡ after_in setting.old command.Drain) }
    ensures anew { OnOk result (meaning_of setting.new ≡ renewed (meaning_of setting.old)) }
    ensures kept { OnErr result (out.new.items ≡ out.old.items) }
    ensures ready { OnOk result (IsInRange setting.new) }
{
    match setting {
        Setting::Encoder(e) => finish(alloc, e, out),
        Setting::Stopped => unreachable!(),
    }
}
