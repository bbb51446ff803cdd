// What the last step showed: outputs, and ends of promises.
ghost use Rattle.std.specs.Prelude.{◌≡◌, ◌∷◌, [], None, Some, length, slice_get, option_map};
ghost use Rattle.codec_model.specs.Shown.{shown_of, units_in, ends_of, word_of_task};
ghost use Rattle.engine.specs.Codes.{done, word_code, word_error};
ghost use Rattle.engine.specs.Told.{task_outputs, resolved_by, Told, IsOutput, OfUnit, OutputTold};
ghost use Rattle.engine.specs.Told.{IsPut, IsChunk, IsConfigOutput, OfCoded, ChunkTold, ConfigTold};
ghost use Rattle.engine.specs.Told.{config_in, codec_string, description_of, no_chunk, no_config};
ghost use Rattle.engine.specs.Told.{settled_of, unsettled, no_output};

use crate::answers::{
    ChunkOutput, ConfigOutput, DONE, Output, REFUSED, Settled, TOO_SMALL, Turn, error_code,
    exception_code, flag, format_code,
};
use codec_model::{PromiseEnd, Showing, Task};
use coder_api::Unit;
use wc_base::{DomError, Samples};
use wc_chunk::Chunk;
use wc_config::AudioDecoderConfig;

fn outputs_of_task(task: &Task) -> &[Unit]
    ensures { result.now ≡ task_outputs task.now }
{
    match task {
        Task::Output(units) => units.as_slice(),
        Task::Flushed { promise: _, units } => units.as_slice(),
        Task::Unblock => &[],
        Task::Process => &[],
        Task::Desaturate => &[],
        Task::Dequeue => &[],
        Task::Close(_) => &[],
    }
}

/// The outputs of a step.
fn outputs_of(showing: &Showing) -> &[Unit]
    ensures { result.now ≡ units_in (shown_of showing.now).events }
{
    match showing {
        Showing::Turn { task, outputs: _ } => outputs_of_task(task),
        Showing::Nothing => &[],
        Showing::Refusal(_) => &[],
        Showing::Rejection { .. } => &[],
        Showing::Removal(_) => &[],
        Showing::Reclaim(_) => &[],
        Showing::Close { .. } => &[],
    }
}

fn resolved_count(task: &Task) -> u64
    ensures { result ≡ length (resolved_by task.now) }
{
    match task {
        Task::Flushed { .. } => 1,
        Task::Output(_) => 0,
        Task::Unblock => 0,
        Task::Process => 0,
        Task::Desaturate => 0,
        Task::Dequeue => 0,
        Task::Close(_) => 0,
    }
}

/// How many promises a step settled.
pub(crate) fn settled_count(showing: &Showing) -> u64
    ensures { result ≡ length (ends_of (shown_of showing.now).events) }
{
    match showing {
        Showing::Turn { task, outputs: _ } => resolved_count(task),
        Showing::Nothing => 0,
        Showing::Refusal(_) => 0,
        Showing::Rejection { .. } => 1,
        Showing::Removal(promises) => promises.len() as u64,
        Showing::Reclaim(promises) => promises.len() as u64,
        Showing::Close { error: _, promises } => promises.len() as u64,
    }
}

fn rejected_at(promises: &[u64], error: DomError, number: usize) -> Option<PromiseEnd>
    ensures { result
        ≡ option_map (λ p. record { promise = p; error = Some error })
        (slice_get promises.now number) }
{
    let promise = promises.get(number)?;
    Some(PromiseEnd {
        promise: *promise,
        error: Some(error),
    })
}

fn only(end: PromiseEnd, number: usize) -> Option<PromiseEnd>
    ensures { result ≡ slice_get (end ∷ []) number }
{
    if number == 0 { Some(end) } else { None }
}

fn resolved_at(task: &Task, number: usize) -> Option<PromiseEnd>
    ensures { result ≡ slice_get (resolved_by task.now) number }
{
    match task {
        Task::Flushed { promise, units: _ } => only(
            PromiseEnd {
                promise: *promise,
                error: None,
            },
            number,
        ),
        Task::Output(_) => None,
        Task::Unblock => None,
        Task::Process => None,
        Task::Desaturate => None,
        Task::Dequeue => None,
        Task::Close(_) => None,
    }
}

/// An end of a promise of a step, by its number among them.
fn end_at(showing: &Showing, number: usize) -> Option<PromiseEnd>
    ensures { result ≡ slice_get (ends_of (shown_of showing.now).events) number }
{
    match showing {
        Showing::Turn { task, outputs: _ } => resolved_at(task, number),
        Showing::Nothing => None,
        Showing::Refusal(_) => None,
        Showing::Rejection { promise, error } => only(
            PromiseEnd {
                promise: *promise,
                error: Some(*error),
            },
            number,
        ),
        Showing::Removal(promises) => rejected_at(promises.as_slice(), DomError::Abort, number),
        Showing::Reclaim(promises) => {
            rejected_at(promises.as_slice(), DomError::QuotaExceeded, number)
        }
        Showing::Close { error, promises } => rejected_at(promises.as_slice(), *error, number),
    }
}

/// An end of a promise that the last step settled.
pub(crate) fn settled_at(showing: &Showing, number: u64) -> Settled
    ensures { result
        ≡ settled_of (slice_get (ends_of (shown_of showing.now).events) number) }
{
    match end_at(showing, number as usize) {
        Some(end) => Settled {
            status: DONE,
            error: exception_code(end.error),
            promise: end.promise,
        },
        None => unsettled(REFUSED),
    }
}

pub(crate) fn unsettled(status: u32) -> Settled
    ensures { result ≡ unsettled status }
{
    Settled {
        status,
        error: 0,
        promise: 0,
    }
}

fn word_of_task(task: &Task) -> u32
    ensures { result ≡ word_code (Some (word_of_task task.now)) }
{
    match task {
        Task::Unblock => 1,
        Task::Process => 2,
        Task::Desaturate => 3,
        Task::Output(_) => 4,
        Task::Flushed { .. } => 5,
        Task::Dequeue => 6,
        Task::Close(_) => 7,
    }
}

fn word_of(showing: &Showing) -> u32
    ensures { result ≡ word_code (shown_of showing.now).turn }
{
    match showing {
        Showing::Turn { task, outputs: _ } => word_of_task(task),
        Showing::Close { .. } => 7,
        Showing::Nothing => 0,
        Showing::Refusal(_) => 0,
        Showing::Rejection { .. } => 0,
        Showing::Removal(_) => 0,
        Showing::Reclaim(_) => 0,
    }
}

fn error_of_task(task: &Task) -> u32
    ensures { result ≡ word_error (Some (word_of_task task.now)) }
{
    match task {
        Task::Close(error) => error_code(*error),
        Task::Unblock => 0,
        Task::Process => 0,
        Task::Desaturate => 0,
        Task::Output(_) => 0,
        Task::Flushed { .. } => 0,
        Task::Dequeue => 0,
    }
}

fn error_of(showing: &Showing) -> u32
    ensures { result ≡ word_error (shown_of showing.now).turn }
{
    match showing {
        Showing::Turn { task, outputs: _ } => error_of_task(task),
        Showing::Close { error, .. } => error_code(*error),
        Showing::Nothing => 0,
        Showing::Refusal(_) => 0,
        Showing::Rejection { .. } => 0,
        Showing::Removal(_) => 0,
        Showing::Reclaim(_) => 0,
    }
}

/// What a turn at a place showed.
pub(crate) fn told(showing: &Showing, place: u64) -> Turn
    ensures status { result.status ≡ done }
    ensures place { result.place ≡ place }
    ensures told { Told (shown_of showing.now) result }
{
    Turn {
        status: DONE,
        word: word_of(showing),
        error: error_of(showing),
        outputs: outputs_of(showing).len() as u64,
        settled: settled_count(showing),
        place,
    }
}

/// Puts bytes at the front of some room, if they fit.
fn put(bytes: &[u8], room: &mut [u8]) -> u32
    ensures { IsPut bytes.now room.old room.new result }
{
    if bytes.len() > room.len() {
        TOO_SMALL
    } else {
        room[..bytes.len()].copy_from_slice(bytes);
        DONE
    }
}

fn put_samples(samples: &Samples, room: &mut [u8]) -> Output
    ensures { IsOutput samples.now room.old room.new result }
{
    let bytes = samples.bytes.as_slice();
    let status = put(bytes, room);
    Output {
        status,
        format: format_code(samples.shape.format),
        rate: samples.shape.rate,
        channels: samples.shape.channels,
        frames: samples.shape.frames,
        timestamp: samples.shape.timestamp,
        size: bytes.len() as u64,
    }
}

fn put_chunk(chunk: &Chunk, config: &Option<AudioDecoderConfig>, room: &mut [u8]) -> ChunkOutput
    ensures { IsChunk chunk.now config.now room.old room.new result }
{
    let bytes = chunk.bytes.as_slice();
    let status = put(bytes, room);
    ChunkOutput {
        status,
        key: flag(chunk.key),
        has_duration: flag(chunk.duration.is_some()),
        has_config: flag(config.is_some()),
        timestamp: chunk.timestamp,
        duration: chunk.duration.unwrap_or(0),
        size: bytes.len() as u64,
    }
}

fn put_part(config: &AudioDecoderConfig, bytes: &[u8], room: &mut [u8]) -> ConfigOutput
    ensures { IsConfigOutput config.now bytes.now room.old room.new result }
{
    let status = put(bytes, room);
    ConfigOutput {
        status,
        rate: config.rate,
        channels: config.channels,
        has_description: flag(config.description.is_some()),
        size: bytes.len() as u64,
    }
}

pub(crate) fn no_output(status: u32) -> Output
    ensures { result ≡ no_output status }
{
    Output {
        status,
        format: 0,
        rate: 0,
        channels: 0,
        frames: 0,
        timestamp: 0,
        size: 0,
    }
}

fn put_unit(unit: Option<&Unit>, room: &mut [u8]) -> Output
    ensures { OfUnit (option_map (λ u. u.now) unit.entry) room.old room.new result }
{
    match unit {
        Some(Unit::Sound(samples)) => put_samples(samples, room),
        Some(Unit::Image(_)) => no_output(REFUSED),
        Some(Unit::Coded { .. }) => no_output(REFUSED),
        None => no_output(REFUSED),
    }
}

/// Puts an output of the last step at the front of some room.
pub(crate) fn put_output(showing: &Showing, number: u64, room: &mut [u8]) -> Output
    ensures { OutputTold (shown_of showing.now) number room.old room.new result }
{
    put_unit(outputs_of(showing).get(number as usize), room)
}

pub(crate) fn no_chunk(status: u32) -> ChunkOutput
    ensures { result ≡ no_chunk status }
{
    ChunkOutput {
        status,
        key: 0,
        has_duration: 0,
        has_config: 0,
        timestamp: 0,
        duration: 0,
        size: 0,
    }
}

fn put_coded(unit: Option<&Unit>, room: &mut [u8]) -> ChunkOutput
    ensures { OfCoded (option_map (λ u. u.now) unit.entry) room.old room.new result }
{
    match unit {
        Some(Unit::Coded { chunk, config }) => put_chunk(chunk, config, room),
        Some(Unit::Sound(_)) => no_chunk(REFUSED),
        Some(Unit::Image(_)) => no_chunk(REFUSED),
        None => no_chunk(REFUSED),
    }
}

/// Puts the bytes of a chunk that the last step showed at the front of some room.
pub(crate) fn put_chunk_output(showing: &Showing, number: u64, room: &mut [u8]) -> ChunkOutput
    ensures { ChunkTold (shown_of showing.now) number room.old room.new result }
{
    put_coded(outputs_of(showing).get(number as usize), room)
}

pub(crate) fn no_config(status: u32) -> ConfigOutput
    ensures { result ≡ no_config status }
{
    ConfigOutput {
        status,
        rate: 0,
        channels: 0,
        has_description: 0,
        size: 0,
    }
}

fn config_in(unit: Option<&Unit>) -> Option<&AudioDecoderConfig>
    ensures { option_map (λ c. c.now) result ≡ config_in (option_map (λ u. u.now) unit.entry) }
{
    match unit {
        Some(Unit::Coded { chunk: _, config }) => match config {
            Some(config) => Some(config),
            None => None,
        },
        Some(Unit::Sound(_)) => None,
        Some(Unit::Image(_)) => None,
        None => None,
    }
}

/// The decoder config that an output of the last step carries.
fn config_at(showing: &Showing, number: u64) -> Option<&AudioDecoderConfig>
    ensures { option_map (λ c. c.now) result
        ≡ config_in (slice_get (units_in (shown_of showing.now).events) number) }
{
    config_in(outputs_of(showing).get(number as usize))
}

/// Puts the codec string of the decoder config of an output at the front of some room.
pub(crate) fn put_codec(showing: &Showing, number: u64, room: &mut [u8]) -> ConfigOutput
    ensures { ConfigTold codec_string
        (shown_of showing.now) number room.old room.new result }
{
    match config_at(showing, number) {
        Some(config) => put_part(config, config.codec.as_str().as_bytes(), room),
        None => no_config(REFUSED),
    }
}

fn description_of(config: &AudioDecoderConfig) -> &[u8]
    ensures { result.now ≡ description_of config.now }
{
    match &config.description {
        Some(description) => description.as_slice(),
        None => &[],
    }
}

/// Puts the description of the decoder config of an output at the front of some room.
pub(crate) fn put_description(showing: &Showing, number: u64, room: &mut [u8]) -> ConfigOutput
    ensures { ConfigTold description_of
        (shown_of showing.now) number room.old room.new result }
{
    match config_at(showing, number) {
        Some(config) => put_part(config, description_of(config), room),
        None => no_config(REFUSED),
    }
}
