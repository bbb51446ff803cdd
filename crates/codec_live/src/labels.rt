// The config that the outputs of encoders carry: that of the decoder which takes them (W3C WebCodecs,
// EncodedAudioChunkMetadata).
ghost use Rattle.std.specs.Prelude.{◌≡◌, ◌∷◌, [], Some, IfOk};
ghost use Rattle.coder_api.specs.Meaning.{IsConfigured, setup_of};
ghost use Rattle.codec_live.specs.Job.{IsReadyEnd, IsOrWants, labelled_end, starts_coded};
ghost use Rattle.codec_model.specs.declared.entry.Ended.TheVariants as ended;
ghost use Rattle.codec_model.specs.Replay.{labelled};
ghost use Rattle.codec_queues.specs.Labels.{first_config, label_of};

use codec_model::Ended;
use coder_api::{Coder, SlotBox, Unit};
use std::alloc::Global;
use wc_base::{List, NoMemory};
use wc_config::AudioDecoderConfig;

fn starts_coded(units: &[Unit]) -> bool
    ensures { result ≡ starts_coded units.now }
{
    match units.first() {
        Some(Unit::Coded { .. }) => true,
        Some(Unit::Sound(_)) => false,
        Some(Unit::Image(_)) => false,
        None => false,
    }
}

fn put_config(unit: &mut Unit, own: AudioDecoderConfig)
    ensures { unit.new ∷ [] ≡ labelled (Some own) (unit.old ∷ []) }
{
    match unit {
        Unit::Coded { chunk: _, config } => {
            *config = Some(own);
        }
        Unit::Sound(_) => {}
        Unit::Image(_) => {}
    }
}

/// The first of these outputs carries this config, if it is an encoder's.
fn labelled(units: List<Unit>, config: Option<AudioDecoderConfig>) -> List<Unit>
    ensures { result ≡ labelled config units }
{
    let Some(config) = config else {
        return units;
    };
    let mut units = units.into_vec();
    if !units.is_empty() {
        put_config(&mut units[0], config);
    }
    List::of(units)
}

fn label_units<C: Coder>(alloc: Global, units: List<Unit>, coder: &SlotBox<C>) -> Ended
    requires { IsConfigured coder.now.meaning }
    ensures { IsOrWants (ended.Ran (labelled (setup_of coder.now.meaning) units)) result }
{
    if !starts_coded(units.as_slice()) {
        return Ended::Ran(units);
    }
    match coder.setup(alloc) {
        Ok(config) => Ended::Ran(labelled(units, config)),
        Err(NoMemory) => Ended::NoMemory,
    }
}

/// The first output of an end carries the config with which it is decoded, if it is an encoder's; or memory was wanted.
pub(crate) fn label_end<C: Coder>(alloc: Global, end: Ended, coder: &SlotBox<C>) -> Ended
    requires { IsReadyEnd end coder.now.meaning }
    ensures { IsOrWants (labelled_end (setup_of coder.now.meaning) end) result }
{
    match end {
        Ended::Ran(units) => label_units(alloc, units, coder),
        Ended::Refused => Ended::Refused,
        Ended::NoSlot(entry) => Ended::NoSlot(entry),
        Ended::NoMemory => Ended::NoMemory,
    }
}

fn first_config(units: &[Unit]) -> Result<Option<AudioDecoderConfig>, NoMemory>
    ensures { IfOk result (λ config. config ≡ first_config units.now) }
{
    match units.first() {
        Some(Unit::Coded { chunk: _, config }) => match config {
            Some(config) => Ok(Some(config.copy()?)),
            None => Ok(None),
        },
        Some(Unit::Sound(_)) => Ok(None),
        Some(Unit::Image(_)) => Ok(None),
        None => Ok(None),
    }
}

fn label_of(end: &Ended) -> Result<Option<AudioDecoderConfig>, NoMemory>
    ensures { IfOk result (λ config. config ≡ label_of end.now) }
{
    match end {
        Ended::Ran(units) => first_config(units.as_slice()),
        Ended::Refused => Ok(None),
        Ended::NoSlot(_) => Ok(None),
        Ended::NoMemory => Ok(None),
    }
}

/// An end with a copy of the config that its outputs carry, or want of memory.
pub(crate) fn with_label(end: Ended) -> (Ended, Option<AudioDecoderConfig>)
    ensures end { IsOrWants end result.0 }
    ensures label { result.1 ≡ label_of result.0 }
{
    match label_of(&end) {
        Ok(label) => (end, label),
        Err(NoMemory) => (Ended::NoMemory, None),
    }
}
