// The media that encodes are given.
ghost use Rattle.std.specs.Prelude.{ℕ, ◌≡◌, ◌≤◌, ◌<◌, ◌^◌, IfOk, IfNone, IfSome, None, Option, min, option_and_then, slice_get};
ghost use Rattle.picture_planes.specs.Planes as planes;
ghost use Rattle.wc_audio.specs.Sound as sound;
ghost use Rattle.media_accounts.specs.Contents.{Kept, From, bytes_kept, bytes_of_init, content_of_init, content_of_picture, content_of_sound, content_of_unit, kept_before, kept_by};
ghost use Rattle.run_model.specs.Recorded.{steps_of};
ghost use Rattle.script_types.specs.declared.steps.Step.TheVariants as script_step;
ghost use Rattle.report_reader.specs.declared.known.Known.{Known as KnownValue};
ghost use Rattle.report_reader.specs.Arguments as spec;
ghost use Rattle.report_reader.specs.Places as places;

use crate::known::{Known, poster_in, taken_in};
use bytes::Bytes;
use codec_model::{Content, MediaShape};
use coder_api::Unit;
use picture_planes::picture_size;
use run_model::steps_of;
use sample_conversion::format_size;
use script_types::{BufferedInit, InitData, InitShape, MediaStep, ScriptData, Step};
use wc_base::{NoMemory, PictureShape, SoundShape, Who};

// As many bytes as the shape needs, or as there are, where there are fewer.
fn needed(shape: &SoundShape, bytes: usize) -> usize
    ensures { result ≡ min (sound.needed shape.now) bytes }
{
    let samples = shape.frames as u64 * shape.channels as u64;
    let size = format_size(shape.format);
    if (bytes / size) as u64 >= samples {
        samples as usize * size
    } else {
        bytes
    }
}

// As many bytes as the picture needs, or as there are, where there are fewer.
fn picture_bytes(shape: &PictureShape, bytes: usize) -> usize
    ensures { result ≡ min (planes.picture_size shape.now) bytes }
{
    match picture_size(shape) {
        Some(count) if count <= bytes => count,
        _ => bytes,
    }
}

// Audio data of this shape, with as many of these bytes as it needs.
fn sound_content(shape: SoundShape, content: &Bytes) -> Result<Content, NoMemory>
    ensures { IfOk result (λ c. c ≡ content_of_sound (record { shape = shape; content = content.now })) }
{
    let mut bytes = content.clone()?;
    let count = needed(&shape, bytes.len());
    bytes.truncate(count);
    Ok(Content {
        shape: MediaShape::Sound(shape),
        bytes,
    })
}

// A frame of this shape, with as many of these bytes as it needs.
fn picture_content(shape: PictureShape, content: &Bytes) -> Result<Content, NoMemory>
    ensures { IfOk result (λ c. c ≡ content_of_picture (record { shape = shape; content = content.now })) }
{
    let mut bytes = content.clone()?;
    let count = picture_bytes(&shape, bytes.len());
    bytes.truncate(count);
    Ok(Content {
        shape: MediaShape::Image(shape),
        bytes,
    })
}

// What an init makes of these bytes, if it is audio data or a frame.
fn init_content(shape: &InitShape, bytes: &Bytes) -> Result<Option<Content>, NoMemory>
    ensures { IfOk result (λ o. o ≡ content_of_init shape.now bytes.now) }
{
    match shape {
        InitShape::Chunk { .. } => Ok(None),
        InitShape::Sound(shape) => Ok(Some(sound_content(*shape, bytes)?)),
        InitShape::Picture(shape) => Ok(Some(picture_content(*shape, bytes)?)),
    }
}

// What an output is, if it is samples or a picture.
fn content_of_unit(unit: &Unit) -> Result<Option<Content>, NoMemory>
    ensures { IfOk result (λ o. o ≡ content_of_unit unit.now) }
{
    match unit {
        Unit::Sound(samples) => Ok(Some(sound_content(samples.shape, &samples.bytes)?)),
        Unit::Image(picture) => Ok(Some(picture_content(picture.shape, &picture.bytes)?)),
        Unit::Coded {
            chunk: _,
            config: _,
        } => Ok(None),
    }
}

// What the output is that a step took, if it took samples or a picture.
fn content_taken(known: &Known, caller: u32, step: u32) -> Result<Option<Content>, NoMemory>
    ensures { IfOk result
        (λ o. o ≡ option_and_then content_of_unit (spec.taken_in known.now caller step)) }
{
    match taken_in(known, caller, step) {
        Some(unit) => content_of_unit(unit),
        None => Ok(None),
    }
}

// ---- buffers

// The step that defines the variable whose buffer a step clones or hands on, if it does.
fn buffer_source(step: &Step) -> Option<u32>
    ensures some { (earlier : ℕ → Option Kept) (from : From)
        → IfSome result (λ j. kept_by earlier from step.now ≡ earlier j) }
    ensures none { (earlier : ℕ → Option Kept) (from : From)
        → IfNone result (bytes_kept (kept_by earlier from step.now) ≡ places.own_bytes step.now) }
{
    match step {
        Step::Media(MediaStep::Clone { of, bind: _ }) => Some(of.step),
        Step::Media(MediaStep::Transfer { of, bind: _ }) => Some(of.step),
        _ => None,
    }
}

// The bytes of a buffer that a step makes; none of any other step.
fn own_bytes(step: &Step) -> Result<Bytes, NoMemory>
    ensures { IfOk result (λ b. b ≡ places.own_bytes step.now) }
{
    match step {
        Step::Media(MediaStep::Buffer { bind: _, content }) => Ok(content.clone()?),
        _ => Ok(Bytes::new()),
    }
}

/// The bytes of the buffer of the variable that the step with this number defines, of the first `before` steps of a caller,
/// whether it is detached or not; none where it has no buffer.
pub fn find_bytes(steps: &[Step], before: u32, step: u32) -> Result<Bytes, NoMemory>
    ensures { (from : ℕ → From)
        → IfOk result (λ b. b ≡ bytes_kept (kept_before steps.now from before step)) }
{
    let mut end = before;
    let mut number = step;
    while number < end {
        let Some(defining) = steps.get(number as usize) else {
            return Ok(Bytes::new());
        };
        match buffer_source(defining) {
            Some(source) => {
                end = number;
                number = source;
            }
            None => return own_bytes(defining),
        }
    }
    Ok(Bytes::new())
}

// The bytes of an init, of the buffers of the first `before` steps of a caller.
fn init_bytes(steps: &[Step], before: u32, content: &InitData) -> Result<Bytes, NoMemory>
    ensures { (from : ℕ → From)
        → IfOk result (λ b. b ≡ bytes_of_init (kept_before steps.now from before) content.now) }
{
    match content {
        InitData::Hex(bytes) => Ok(bytes.clone()?),
        InitData::Buffer(variable) => find_bytes(steps, before, variable.step),
    }
}

// ---- audio data and frames

/// Where a medium is looked for: in the variable that the step with this number of a caller defines, of the caller's first
/// `end` steps. What was received is followed to its post so often as `left` says.
#[derive(Clone, Copy, Debug, PartialEq, Eq)]
pub struct Place {
    pub left: u64,
    pub caller: u32,
    pub end: u32,
    pub number: u32,
}

// The variable that a step posts, by the step that defines it, if it posts one.
fn posted_at(script: &ScriptData, who: Who) -> Option<u32>
    ensures { result
        ≡ option_and_then spec.posted_in (slice_get (steps_of script.now who.caller) who.step) }
{
    match steps_of(script, who.caller).get(who.step as usize) {
        Some(Step::Media(MediaStep::Post { to: _, content })) => Some(content.step),
        _ => None,
    }
}

// Where that is which a step posted, if it posted something.
fn posted_place(script: &ScriptData, left: u64, who: Who) -> Option<Place>
    ensures some { (known : KnownValue)
        → IfSome result (λ p. spec.posted_by script.now (spec.from_in script.now known left) who
        ≡ places.content_at script.now known p) }
    ensures less { IfSome result (λ p. (p.left ≡ left) × (p.end < 2 ^ 32)) }
    ensures none { (known : KnownValue)
        → IfNone result (spec.posted_by script.now (spec.from_in script.now known left) who ≡ None) }
{
    match posted_at(script, who) {
        Some(number) => Some(Place {
            left,
            caller: who.caller,
            end: who.step,
            number,
        }),
        None => None,
    }
}

// Where that is which the step of a place received, if it received something.
fn received_from(script: &ScriptData, known: &Known, at: Place) -> Option<Place>
    ensures some { IfSome result (λ p. places.received_at script.now known.now at
        ≡ places.content_at script.now known.now p) }
    ensures smaller { IfSome result (λ p. places.room_of p ≤ places.room_before at) }
    ensures none { IfNone result (places.received_at script.now known.now at ≡ None) }
{
    if at.left == 0 {
        return None;
    }
    match poster_in(known, at.caller, at.number) {
        Some(who) => posted_place(script, at.left - 1, who),
        None => None,
    }
}

/// Where a step has from what it gives its variable: the variable of an earlier step, a port, or its own.
#[derive(Clone, Copy, Debug, PartialEq, Eq)]
pub enum Source {
    Earlier(u32),
    Port,
    Own,
}

#[tactic(auto, using(crate::proofs::PlaceLaws::bytes_same))]
fn source_kind(step: &Step) -> Source
    ensures { (earlier : ℕ → Option Kept) (from : From)
        → places.IsSource result earlier from step.now }
{
    match step {
        Step::Media(MediaStep::Clone { of, bind: _ }) => Source::Earlier(of.step),
        Step::Media(MediaStep::Transfer { of, bind: _ }) => Source::Earlier(of.step),
        Step::Media(MediaStep::Receive { .. }) => Source::Port,
        _ => Source::Own,
    }
}

// Where that is which the step of a place clones, hands on or received, if it does.
fn source_of(script: &ScriptData, known: &Known, at: Place, step: &Step) -> Option<Place>
    ensures some { IfSome result (λ p. places.content_by script.now known.now at step.now
        ≡ places.content_at script.now known.now p) }
    ensures smaller { IfSome result (λ p. places.room_of p ≤ places.room_before at) }
    ensures none { IfNone result (places.content_by script.now known.now at step.now
        ≡ places.own_content script.now known.now at step.now) }
{
    match source_kind(step) {
        Source::Earlier(number) => Some(earlier(at, number)),
        Source::Port => received_from(script, known, at),
        Source::Own => None,
    }
}

// A variable of the same caller, before the step of a place.
fn earlier(at: Place, number: u32) -> Place
    ensures { result ≡ record at { end = at.number; number = number } }
{
    Place {
        left: at.left,
        caller: at.caller,
        end: at.number,
        number,
    }
}

// What an init gives its variable, of the buffers of the first `before` steps of a caller.
fn buffered_content(
    steps: &[Step],
    before: u32,
    init: &BufferedInit,
) -> Result<Option<Content>, NoMemory>
    ensures { (from : ℕ → From) → IfOk result (λ o. o ≡ content_of_init init.now.shape
        (bytes_of_init (kept_before steps.now from before) init.now.content)) }
{
    let bytes = init_bytes(steps, before, &init.content)?;
    init_content(&init.shape, &bytes)
}

// What a step on media gives its variable, where it clones and hands on nothing and received nothing.
fn media_content(
    script: &ScriptData,
    known: &Known,
    at: Place,
    step: &MediaStep,
) -> Result<Option<Content>, NoMemory>
    ensures { IfOk result
        (λ o. o ≡ places.own_content script.now known.now at (script_step.Media step.now)) }
{
    match step {
        MediaStep::Audio {
            bind: _,
            init: Some(init),
        } => Ok(Some(sound_content(init.shape, &init.content)?)),
        MediaStep::Frame {
            bind: _,
            init: Some(init),
        } => Ok(Some(picture_content(init.shape, &init.content)?)),
        MediaStep::Buffered { bind: _, init } => {
            buffered_content(steps_of(script, at.caller), at.number, init)
        }
        MediaStep::Take { .. } => content_taken(known, at.caller, at.number),
        _ => Ok(None),
    }
}

// What the step of a place gives its variable, where it clones and hands on nothing and received nothing.
fn own_content(
    script: &ScriptData,
    known: &Known,
    at: Place,
    step: &Step,
) -> Result<Option<Content>, NoMemory>
    ensures { IfOk result (λ o. o ≡ places.own_content script.now known.now at step.now) }
{
    match step {
        Step::Media(step) => media_content(script, known, at, step),
        _ => Ok(None),
    }
}

/// What the audio data or the frame is of a place. It goes back from what clones or hands on to what was cloned, and from what
/// was received to what was posted.
pub fn find_content(
    script: &ScriptData,
    known: &Known,
    place: Place,
) -> Result<Option<Content>, NoMemory>
    ensures { IfOk result (λ o. o ≡ places.content_at script.now known.now place) }
{
    let mut at = place;
    while at.number < at.end {
        let Some(step) = steps_of(script, at.caller).get(at.number as usize) else {
            return Ok(None);
        };
        match source_of(script, known, at, step) {
            Some(source) => at = source,
            None => return own_content(script, known, at, step),
        }
    }
    Ok(None)
}
