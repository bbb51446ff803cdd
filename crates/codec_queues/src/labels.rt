// The decoder config that outputs carry: it is shown with an output where it is not the one before (W3C WebCodecs,
// EncodedAudioChunkMetadata).
ghost use Rattle.std.specs.Prelude.{◌≡◌, Some};
ghost use Rattle.codec_model.specs.Control.{same_description, is_active, carried, active_after};
ghost use Rattle.codec_queues.specs.Labels.{first_config, task_label, without_config};
ghost use Rattle.codec_queues.specs.Queues.{counts};

use bytes::Bytes;
use codec_model::Task;
use coder_api::Unit;
use std::marker::Model;
use wc_base::List;
use wc_config::AudioDecoderConfig;

/// An event task with the epoch in which it was queued. Beside it stands a copy of the config that its outputs carry, so that
/// its turn takes no memory. A contract sees the epoch and the task.
#[derive(Drop)]
pub struct Queued {
    epoch: u64,
    task: Task,
    label: Option<AudioDecoderConfig>,
}

impl Model for Queued {
    ghost use Rattle.codec_queues.specs.Queues.{QueuedTask};

    ghost Value = { QueuedTask };

    ghost use Rattle.std.specs.Prelude.{◌≡◌};
    ghost use Rattle.codec_queues.specs.Labels.{task_label};

    ghost view = { λ q. record { epoch = q.epoch; task = q.task } };

    ghost invariant = { λ q. q.label ≡ task_label q.task };
}

impl Queued {
    /// A task of this epoch, with a copy of the config that its outputs carry.
    pub fn new(epoch: u64, task: Task, label: Option<AudioDecoderConfig>) -> Queued
        requires { label ≡ task_label task }
        ensures { result ≡ record { epoch = epoch; task = task } }
    {
        Queued { epoch, task, label }
    }

    /// Whether it counts in an epoch: it is of that epoch, or fires the dequeue event.
    pub fn counts(&self, epoch: u64) -> bool
        ensures { result ≡ counts epoch self.now }
    {
        self.epoch == epoch || matches!(self.task, Task::Dequeue)
    }

    /// The task, and the copy.
    pub fn into_parts(self) -> (Task, Option<AudioDecoderConfig>)
        ensures task { result.0 ≡ self.task }
        ensures label { result.1 ≡ task_label self.task }
    {
        (self.task, self.label)
    }
}

fn same_description(a: &Option<Bytes>, b: &Option<Bytes>) -> bool
    ensures { result ≡ same_description a.now b.now }
{
    match (a, b) {
        (None, None) => true,
        (Some(a), Some(b)) => a.as_slice() == b.as_slice(),
        _ => false,
    }
}

fn same_config(a: &AudioDecoderConfig, b: &AudioDecoderConfig) -> bool
    ensures { result ≡ is_active (Some a.now) b.now }
{
    a.codec.as_str() == b.codec.as_str()
        && a.rate == b.rate
        && a.channels == b.channels
        && same_description(&a.description, &b.description)
}

fn is_active(active: &Option<AudioDecoderConfig>, config: &AudioDecoderConfig) -> bool
    ensures { result ≡ is_active active.now config.now }
{
    match active {
        Some(last) => same_config(last, config),
        None => false,
    }
}

/// Takes the config off the first of these outputs.
#[tactic(auto, using(crate::proofs::Carried::first_without, crate::proofs::Carried::none_without, crate::proofs::Carried::sound_without, crate::proofs::Carried::image_without))]
fn without_config(units: List<Unit>) -> List<Unit>
    ensures { result ≡ without_config units }
{
    let mut units = units.into_vec();
    if !units.is_empty() {
        if let Unit::Coded { chunk: _, config } = &mut units[0] {
            *config = None;
        }
    }
    List::of(units)
}

/// Outputs as they are shown, by a copy of the config that they carry, which is active then.
#[tactic(auto, using(crate::proofs::Carried::carried_none, crate::proofs::Carried::active_none, crate::proofs::Carried::carried_some, crate::proofs::Carried::active_some))]
pub fn carry(
    active: &mut Option<AudioDecoderConfig>,
    label: Option<AudioDecoderConfig>,
    units: List<Unit>,
) -> List<Unit>
    requires { label ≡ first_config units }
    ensures units { result ≡ carried active.old units }
    ensures active { active.new ≡ active_after active.old units }
{
    match label {
        None => units,
        Some(config) => {
            if is_active(active, &config) {
                without_config(units)
            } else {
                *active = Some(config);
                units
            }
        }
    }
}
