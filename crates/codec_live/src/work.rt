// What the box of a job does.
ghost use Rattle.std.specs.Prelude.{◌≡◌, None};
ghost use Rattle.coder_api.specs.Meaning.{IsConfigured};
ghost use Rattle.codec_definitions.specs.declared.command.Command.TheVariants as command;
ghost use Rattle.codec_live.specs.Job.{EndsCommand, EndsWork, IsReady, IsReadyBox, end_by, holds, missing_for, outcome_of};
ghost use Rattle.codec_model.specs.declared.entry.Work.TheVariants as work;
ghost use Rattle.codec_model.specs.Replay.{command_of, medium_command};

use crate::labels::label_end;
use bytes::Bytes;
use codec_model::{Coded, Ended, HeldMedium, MediaShape, Outcome, Work};
use coder_api::{Coder, CoderFault, Input, SlotBox, Unit};
use std::alloc::Global;
use wc_base::{List, PictureShape, SoundShape};
use wc_chunk::Chunk;
use wc_config::{CoderId, Config, Role};

/// The outcome that an end is.
pub(crate) fn outcome_of_end(end: &Ended) -> Outcome
    ensures { result ≡ outcome_of end.now }
{
    match end {
        Ended::Ran(units) => Outcome::Ran {
            units: units.len() as u64,
        },
        Ended::Refused => Outcome::Refused,
        Ended::NoSlot(entry) => Outcome::NoSlot { entry: *entry },
        Ended::NoMemory => Outcome::NoMemory,
    }
}

/// The coder id of which an item needs a box that is not there.
pub(crate) fn missing_id<C: Coder>(work: &Work, coder: &Option<SlotBox<C>>) -> Option<CoderId>
    ensures { result ≡ missing_for work.now coder.now }
{
    let config = work.config()?;
    if config.supported() && !holds(coder, config) {
        config.coder_id()
    } else {
        None
    }
}

fn holds<C: Coder>(coder: &Option<SlotBox<C>>, config: &Config) -> bool
    ensures { result ≡ holds coder.now config.now }
{
    match coder {
        Some(b) => b.supports(config),
        None => false,
    }
}

/// The end that the units of a command are, or its fault.
fn end_of(answer: Result<(), CoderFault>, units: Vec<Unit>) -> Ended
    ensures { result ≡ end_by answer units.items }
{
    match answer {
        Ok(()) => Ended::Ran(List::of(units)),
        Err(CoderFault::Refused) => Ended::Refused,
        Err(CoderFault::NoMemory) => Ended::NoMemory,
    }
}

/// Gives a chunk to a configured coder.
fn push_end<C: Coder>(alloc: Global, chunk: &Chunk, coder: &mut SlotBox<C>) -> Ended
    requires { IsConfigured coder.old.meaning }
    ensures { EndsCommand coder.old (command.Chunk chunk.now) result coder.new }
{
    // An encoder takes no chunk.
    if coder.id().role != Role::Decode {
        return Ended::Refused;
    }
    let mut units = Vec::new(alloc);
    let answer = coder.push(alloc, &Input::Chunk(chunk), &mut units);
    end_of(answer, units)
}

/// Gives samples to a configured coder.
fn sound_end<C: Coder>(
    alloc: Global,
    shape: &SoundShape,
    bytes: &Bytes,
    coder: &mut SlotBox<C>,
) -> Ended
    requires { IsConfigured coder.old.meaning }
    ensures { EndsCommand coder.old
        (command.Sound (record { shape = shape.now; bytes = bytes.now })) result coder.new }
{
    // A decoder takes no samples.
    if coder.id().role != Role::Encode {
        return Ended::Refused;
    }
    let mut units = Vec::new(alloc);
    let input = Input::Sound(shape, bytes.as_slice());
    let answer = coder.push(alloc, &input, &mut units);
    end_of(answer, units)
}

/// Gives a picture to a configured coder.
fn image_end<C: Coder>(
    alloc: Global,
    shape: &PictureShape,
    bytes: &Bytes,
    coder: &mut SlotBox<C>,
) -> Ended
    requires { IsConfigured coder.old.meaning }
    ensures { EndsCommand coder.old
        (command.Image (record { shape = shape.now; bytes = bytes.now })) result coder.new }
{
    // A decoder takes no picture.
    if coder.id().role == Role::Decode {
        return Ended::Refused;
    }
    let mut units = Vec::new(alloc);
    let answer = coder.push(alloc, &Input::Image(shape, bytes), &mut units);
    end_of(answer, units)
}

/// Gives a medium to a configured coder.
fn medium_end<C: Coder>(alloc: Global, medium: &HeldMedium, coder: &mut SlotBox<C>) -> Ended
    requires { IsConfigured coder.old.meaning }
    ensures { EndsCommand coder.old
        (medium_command medium.now.shape medium.now.bytes) result coder.new }
{
    match &medium.shape {
        MediaShape::Sound(shape) => sound_end(alloc, shape, &medium.bytes, coder),
        MediaShape::Image(shape) => image_end(alloc, shape, &medium.bytes, coder),
    }
}

/// Gives an input to a configured coder.
fn input_end<C: Coder>(alloc: Global, input: &Coded, coder: &mut SlotBox<C>) -> Ended
    requires { IsConfigured coder.old.meaning }
    ensures { EndsCommand coder.old (command_of input.now) result coder.new }
{
    match input {
        Coded::Chunk(chunk) => push_end(alloc, chunk, coder),
        Coded::Medium(medium) => medium_end(alloc, medium, coder),
    }
}

/// Drains a configured coder.
fn drain_end<C: Coder>(alloc: Global, coder: &mut SlotBox<C>) -> Ended
    requires { IsConfigured coder.old.meaning }
    ensures { EndsCommand coder.old command.Drain result coder.new }
{
    let mut units = Vec::new(alloc);
    match coder.drain(alloc, &mut units) {
        Ok(()) => Ended::Ran(List::of(units)),
        Err(_) => Ended::NoMemory,
    }
}

fn configure_end<C: Coder>(alloc: Global, config: &Config, coder: &mut Option<SlotBox<C>>) -> Ended
    requires { missing_for (work.Configure config.now) coder.old ≡ None }
    ensures { EndsWork coder.old (work.Configure config.now) result coder.new }
{
    if !config.supported() {
        return Ended::Refused;
    }
    match coder {
        Some(b) => match b.configure(alloc, config) {
            Ok(()) => Ended::Ran(List::empty(alloc)),
            Err(_) => Ended::NoMemory,
        },
        None => Ended::NoMemory,
    }
}

fn coded_end<C: Coder>(alloc: Global, input: &Coded, coder: &mut Option<SlotBox<C>>) -> Ended
    requires { IsReadyBox coder.old }
    ensures { EndsWork coder.old (work.Coded input.now) result coder.new }
{
    match coder {
        Some(b) => {
            let end = input_end(alloc, input, b);
            label_end(alloc, end, b)
        }
        None => Ended::Refused,
    }
}

fn flush_end<C: Coder>(alloc: Global, coder: &mut Option<SlotBox<C>>) -> Ended
    requires { IsReadyBox coder.old }
    ensures { EndsWork coder.old work.Flush result coder.new }
{
    match coder {
        Some(b) => {
            let end = drain_end(alloc, b);
            label_end(alloc, end, b)
        }
        None => Ended::Refused,
    }
}

/// Does the work of an item with the box that is there.
pub(crate) fn work_end<C: Coder>(
    alloc: Global,
    work: &Work,
    coder: &mut Option<SlotBox<C>>,
) -> Ended
    requires box_is_there { missing_for work.now coder.old ≡ None }
    requires ready { IsReady work.now coder.old }
    ensures { EndsWork coder.old work.now result coder.new }
{
    match work {
        Work::Configure(config) => configure_end(alloc, config, coder),
        Work::Coded(input) => coded_end(alloc, input, coder),
        Work::Flush => flush_end(alloc, coder),
    }
}
