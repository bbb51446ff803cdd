// A medium that a variable holds: audio data, a video frame, a chunk or an array buffer.
ghost use Rattle.std.specs.Prelude.{◌≡◌, ◌≤◌, Option, Some, None, IfOk, IfSome, OnErr};
ghost use Rattle.std.specs.Prelude.{false, true, length, is_some, option_map};
ghost use Rattle.wc_base.specs.declared.who.By.TheVariants as by;
ghost use Rattle.codec_definitions.specs.declared.unit.Unit.TheVariants as unit;
ghost use Rattle.picture_planes.specs.Planes.{picture_size};
ghost use Rattle.wc_audio.specs.Sound.{IsHeldOf, KeepsButHeld, needed};
ghost use Rattle.wc_video.specs.Frames as frames;
ghost use Rattle.wc_pool.specs.Pools.{KeepsAll};
ghost use Rattle.media_variables.specs.declared.medium.Kind.TheVariants as kind;
ghost use Rattle.media_variables.specs.declared.lending.MediumFound.{MediumFound};
ghost use Rattle.media_variables.specs.declared.lending.MediumFound.TheVariants as found;
ghost use Rattle.report_text.specs.declared.result.StepResult.TheVariants as step_result;
ghost use Rattle.media_variables.specs.Variables.{buffer_in, bytes_held, is_invalid_init};
ghost use Rattle.media_variables.specs.Variables.{shape_over, takes_buffers};
ghost use Rattle.media_variables.specs.Variables.{chunk_in_medium, lendable_in};
ghost use Rattle.media_variables.specs.Held.{medium_found, reference_of, seen, whole_of};
ghost use Rattle.media_variables.specs.Held.{without_reference, IsEnoughUnit};
ghost use Rattle.media_variables.specs.Given.{Does, Gives, IsGivenOf, Lends};
ghost use Rattle.media_variables.specs.Given.{audio_done, frame_done, buffer_done, init_done};
ghost use Rattle.media_variables.specs.Given.{clone_done, closed_op, taken_done, transferred};

use crate::given::{Given, gives, gives_nothing};
use crate::lending::{
    MediumFound, another_audio, another_buffer, another_frame, find_frame, find_sound, lend_frame,
    lend_sound,
};
use array_buffers::ArrayBuffer;
use bytes::Bytes;
use codec_definitions::Unit;
use codec_model::HeldMedium;
use report_text::StepResult;
use script_types::{InitShape, PictureInit, SoundInit};
use std::alloc::Global;
use std::marker::Model;
use wc_audio::AudioData;
use wc_base::{By, DomError, NoMemory, Picture, Samples, Who};
use wc_chunk::Chunk;
use wc_pool::{MediaFault, MediaRef, RefPool};
use wc_video::VideoFrame;

/// What kind of medium it is.
#[derive(Drop)]
pub(crate) enum Kind {
    Audio(AudioData),
    Frame(VideoFrame),
    Chunk(Chunk),
    Buffer(ArrayBuffer),
}

/// A medium. A contract sees its shape, and all of the reference that it holds.
#[derive(Drop)]
pub struct Medium {
    kind: Kind,
}

impl Model for Medium {
    ghost use Rattle.media_variables.specs.Held.{WholeMedium, whole_of};

    ghost Value = { WholeMedium };

    ghost view = { λ m. whole_of m.kind };
}

/// Audio data of an init; without one, or with an invalid one, it is refused.
pub(crate) fn make_audio<P: RefPool>(
    alloc: Global,
    pool: &mut P,
    who: Who,
    init: &Option<SoundInit>,
) -> Result<Given, NoMemory>
    ensures ok { let adds = P.adds pool.old pool.new in let same = pool.new ≡ pool.old in
        IfOk result (Gives adds same who (audio_done init.now)) }
    ensures of { IfOk result (IsGivenOf (P.is_of pool.new)) }
    ensures err { OnErr result (P.stays pool.old pool.new) }
    ensures kept { KeepsAll (P.is_of pool.old) (P.is_of pool.new) }
{
    let Some(i) = init else {
        return Ok(gives_nothing(DomError::TypeErr));
    };
    let by = By::Caller(who);
    match AudioData::new(alloc, i.shape, i.content.as_slice(), pool, by) {
        Ok(audio) => Ok(gives(Medium {
            kind: Kind::Audio(audio),
        })),
        Err(MediaFault::Dom(e)) => Ok(gives_nothing(e)),
        Err(MediaFault::NoMemory) => Err(NoMemory),
    }
}

/// A video frame of an init; without one, or with an invalid one, it is refused.
pub(crate) fn make_frame<P: RefPool>(
    alloc: Global,
    pool: &mut P,
    who: Who,
    init: &Option<PictureInit>,
) -> Result<Given, NoMemory>
    ensures ok { let adds = P.adds pool.old pool.new in let same = pool.new ≡ pool.old in
        IfOk result (Gives adds same who (frame_done init.now)) }
    ensures of { IfOk result (IsGivenOf (P.is_of pool.new)) }
    ensures err { OnErr result (P.stays pool.old pool.new) }
    ensures kept { KeepsAll (P.is_of pool.old) (P.is_of pool.new) }
{
    let Some(i) = init else {
        return Ok(gives_nothing(DomError::TypeErr));
    };
    let by = By::Caller(who);
    match VideoFrame::new(alloc, i.shape, i.content.as_slice(), pool, by) {
        Ok(frame) => Ok(gives(Medium {
            kind: Kind::Frame(frame),
        })),
        Err(MediaFault::Dom(e)) => Ok(gives_nothing(e)),
        Err(MediaFault::NoMemory) => Err(NoMemory),
    }
}

/// A buffer of these bytes.
pub(crate) fn make_buffer<P: RefPool>(
    alloc: Global,
    pool: &mut P,
    who: Who,
    content: &[u8],
) -> Result<Given, NoMemory>
    ensures ok { let adds = P.adds pool.old pool.new in let same = pool.new ≡ pool.old in
        IfOk result (Gives adds same who (buffer_done content.now)) }
    ensures of { IfOk result (IsGivenOf (P.is_of pool.new)) }
    ensures err { OnErr result (P.stays pool.old pool.new) }
    ensures kept { KeepsAll (P.is_of pool.old) (P.is_of pool.new) }
{
    let buffer = ArrayBuffer::new(alloc, content, pool, By::Caller(who))?;
    Ok(gives(Medium {
        kind: Kind::Buffer(buffer),
    }))
}

/// Whether an init is refused: audio data or a frame of no extent, or of more bytes than there are.
pub(crate) fn is_invalid_init(shape: InitShape, bytes: usize) -> bool
    ensures { result ≡ is_invalid_init shape bytes }
{
    match shape {
        InitShape::Chunk { .. } => false,
        InitShape::Sound(shape) => !AudioData::is_valid(&shape, bytes),
        InitShape::Picture(shape) => !VideoFrame::is_valid(&shape, bytes),
    }
}

/// Audio data or a frame over a resource that is there already, which has bytes enough.
pub(crate) fn adopt_medium(shape: InitShape, held: MediaRef) -> Medium
    requires medium { takes_buffers shape ≡ true }
    requires valid { is_invalid_init shape (length held.bytes) ≡ false }
    ensures { result ≡ record { shape = shape_over shape; held = Some held } }
{
    match shape {
        InitShape::Sound(shape) => match AudioData::adopt(shape, held) {
            Ok(audio) => Medium {
                kind: Kind::Audio(audio),
            },
            Err(_) => unreachable!(),
        },
        InitShape::Picture(shape) => match VideoFrame::adopt(shape, held) {
            Ok(frame) => Medium {
                kind: Kind::Frame(frame),
            },
            Err(_) => unreachable!(),
        },
        InitShape::Chunk { .. } => unreachable!(),
    }
}

/// What an init makes of these bytes: audio data, a frame, or a chunk with a copy of them.
pub(crate) fn make_init<P: RefPool>(
    alloc: Global,
    pool: &mut P,
    who: Who,
    shape: InitShape,
    content: &[u8],
) -> Result<Given, NoMemory>
    requires { is_invalid_init shape (length content.now) ≡ false }
    ensures ok { let adds = P.adds pool.old pool.new in let same = pool.new ≡ pool.old in
        IfOk result (Gives adds same who (init_done shape content.now)) }
    ensures done { IfOk result (λ g. g.answer ≡ step_result.Local None) }
    ensures of { IfOk result (IsGivenOf (P.is_of pool.new)) }
    ensures err { OnErr result (P.stays pool.old pool.new) }
    ensures kept { KeepsAll (P.is_of pool.old) (P.is_of pool.new) }
{
    let by = By::Caller(who);
    match shape {
        InitShape::Chunk {
            key,
            timestamp,
            duration,
        } => Ok(gives(Medium {
            kind: Kind::Chunk(Chunk {
                key,
                timestamp,
                duration,
                bytes: Bytes::copy_from_slice(alloc, content)?,
            }),
        })),
        InitShape::Sound(shape) => match AudioData::new(alloc, shape, content, pool, by) {
            Ok(audio) => Ok(gives(Medium {
                kind: Kind::Audio(audio),
            })),
            Err(MediaFault::Dom(_)) => unreachable!(),
            Err(MediaFault::NoMemory) => Err(NoMemory),
        },
        InitShape::Picture(shape) => match VideoFrame::new(alloc, shape, content, pool, by) {
            Ok(frame) => Ok(gives(Medium {
                kind: Kind::Frame(frame),
            })),
            Err(MediaFault::Dom(_)) => unreachable!(),
            Err(MediaFault::NoMemory) => Err(NoMemory),
        },
    }
}

/// Audio data with the samples of an output.
fn take_samples<P: RefPool>(
    pool: &mut P,
    who: Who,
    samples: Samples,
    answer: StepResult,
) -> Result<Given, NoMemory>
    requires { needed samples.shape ≤ length samples.bytes }
    ensures ok { let adds = P.adds pool.old pool.new in let same = pool.new ≡ pool.old in
        IfOk result (Gives adds same who (taken_done answer (unit.Sound samples))) }
    ensures of { IfOk result (IsGivenOf (P.is_of pool.new)) }
    ensures err { OnErr result (P.stays pool.old pool.new) }
    ensures kept { KeepsAll (P.is_of pool.old) (P.is_of pool.new) }
{
    let audio = AudioData::of_samples(samples, pool, By::Caller(who))?;
    Ok(Given {
        answer,
        medium: Some(Medium {
            kind: Kind::Audio(audio),
        }),
    })
}

/// A video frame with the picture of an output.
fn take_picture<P: RefPool>(
    pool: &mut P,
    who: Who,
    picture: Picture,
    answer: StepResult,
) -> Result<Given, NoMemory>
    requires { picture_size picture.shape ≤ length picture.bytes }
    ensures ok { let adds = P.adds pool.old pool.new in let same = pool.new ≡ pool.old in
        IfOk result (Gives adds same who (taken_done answer (unit.Image picture))) }
    ensures of { IfOk result (IsGivenOf (P.is_of pool.new)) }
    ensures err { OnErr result (P.stays pool.old pool.new) }
    ensures kept { KeepsAll (P.is_of pool.old) (P.is_of pool.new) }
{
    let frame = VideoFrame::of_picture(picture, pool, By::Caller(who))?;
    Ok(Given {
        answer,
        medium: Some(Medium {
            kind: Kind::Frame(frame),
        }),
    })
}

/// The chunk of an output, as it is.
fn take_chunk(chunk: Chunk, answer: StepResult) -> Given
    ensures { result ≡ record { answer = answer; medium = Some (whole_of (kind.Chunk chunk)) } }
{
    Given {
        answer,
        medium: Some(Medium {
            kind: Kind::Chunk(chunk),
        }),
    }
}

/// Audio data or a video frame with the bytes of an output, or the output itself where it is a chunk.
pub(crate) fn make_taken<P: RefPool>(
    pool: &mut P,
    who: Who,
    unit: Unit,
    answer: StepResult,
) -> Result<Given, NoMemory>
    requires { IsEnoughUnit unit }
    ensures ok { let adds = P.adds pool.old pool.new in let same = pool.new ≡ pool.old in
        IfOk result (Gives adds same who (taken_done answer unit)) }
    ensures of { IfOk result (IsGivenOf (P.is_of pool.new)) }
    ensures err { OnErr result (P.stays pool.old pool.new) }
    ensures kept { KeepsAll (P.is_of pool.old) (P.is_of pool.new) }
{
    match unit {
        Unit::Sound(samples) => take_samples(pool, who, samples, answer),
        Unit::Image(picture) => take_picture(pool, who, picture, answer),
        Unit::Coded {
            chunk,
            config: _config,
        } => Ok(take_chunk(chunk, answer)),
    }
}

fn clone_audio<P: RefPool>(audio: &mut AudioData, pool: &mut P, who: Who) -> Result<Given, NoMemory>
    requires { IsHeldOf (P.is_of pool.old) audio.old }
    ensures same { seen (whole_of (kind.Audio audio.new)) ≡ seen (whole_of (kind.Audio audio.old)) }
    ensures still { IsHeldOf (P.is_of pool.new) audio.new }
    ensures ok { let adds = P.adds pool.old pool.new in let same = pool.new ≡ pool.old in
        let medium = seen (whole_of (kind.Audio audio.old)) in
        IfOk result (Gives adds same who (clone_done (Some medium))) }
    ensures of { IfOk result (IsGivenOf (P.is_of pool.new)) }
    ensures err { OnErr result (P.stays pool.old pool.new) }
    ensures kept { KeepsAll (P.is_of pool.old) (P.is_of pool.new) }
{
    match another_audio(audio, pool, By::Caller(who)) {
        Ok(clone) => Ok(gives(Medium {
            kind: Kind::Audio(clone),
        })),
        Err(MediaFault::Dom(e)) => Ok(gives_nothing(e)),
        Err(MediaFault::NoMemory) => Err(NoMemory),
    }
}

fn clone_frame<P: RefPool>(
    frame: &mut VideoFrame,
    pool: &mut P,
    who: Who,
) -> Result<Given, NoMemory>
    requires { frames.IsHeldOf (P.is_of pool.old) frame.old }
    ensures same { seen (whole_of (kind.Frame frame.new)) ≡ seen (whole_of (kind.Frame frame.old)) }
    ensures still { frames.IsHeldOf (P.is_of pool.new) frame.new }
    ensures ok { let adds = P.adds pool.old pool.new in let same = pool.new ≡ pool.old in
        let medium = seen (whole_of (kind.Frame frame.old)) in
        IfOk result (Gives adds same who (clone_done (Some medium))) }
    ensures of { IfOk result (IsGivenOf (P.is_of pool.new)) }
    ensures err { OnErr result (P.stays pool.old pool.new) }
    ensures kept { KeepsAll (P.is_of pool.old) (P.is_of pool.new) }
{
    match another_frame(frame, pool, By::Caller(who)) {
        Ok(clone) => Ok(gives(Medium {
            kind: Kind::Frame(clone),
        })),
        Err(MediaFault::Dom(e)) => Ok(gives_nothing(e)),
        Err(MediaFault::NoMemory) => Err(NoMemory),
    }
}

fn clone_buffer<P: RefPool>(
    buffer: &mut ArrayBuffer,
    pool: &mut P,
    who: Who,
) -> Result<Given, NoMemory>
    requires { IfSome buffer.old (P.is_of pool.old) }
    ensures same { seen (whole_of (kind.Buffer buffer.new))
        ≡ seen (whole_of (kind.Buffer buffer.old)) }
    ensures still { IfSome buffer.new (P.is_of pool.new) }
    ensures ok { let adds = P.adds pool.old pool.new in let same = pool.new ≡ pool.old in
        let medium = seen (whole_of (kind.Buffer buffer.old)) in
        IfOk result (Gives adds same who (clone_done (Some medium))) }
    ensures of { IfOk result (IsGivenOf (P.is_of pool.new)) }
    ensures err { OnErr result (P.stays pool.old pool.new) }
    ensures kept { KeepsAll (P.is_of pool.old) (P.is_of pool.new) }
{
    match another_buffer(buffer, pool, By::Caller(who)) {
        Ok(clone) => Ok(gives(Medium {
            kind: Kind::Buffer(clone),
        })),
        Err(MediaFault::Dom(e)) => Ok(gives_nothing(e)),
        Err(MediaFault::NoMemory) => Err(NoMemory),
    }
}

fn transfer_audio(audio: &mut AudioData) -> Given
    ensures detached { audio.new ≡ record audio.old { held = None } }
    ensures given { result ≡ transferred (whole_of (kind.Audio audio.old)) audio.old.held }
{
    match audio.transfer() {
        Ok(audio) => gives(Medium {
            kind: Kind::Audio(audio),
        }),
        Err(e) => gives_nothing(e),
    }
}

fn transfer_frame(frame: &mut VideoFrame) -> Given
    ensures detached { frame.new ≡ record frame.old { held = None } }
    ensures given { result ≡ transferred (whole_of (kind.Frame frame.old)) frame.old.held }
{
    match frame.transfer() {
        Ok(frame) => gives(Medium {
            kind: Kind::Frame(frame),
        }),
        Err(e) => gives_nothing(e),
    }
}

fn transfer_buffer(buffer: &mut ArrayBuffer) -> Given
    ensures detached { buffer.new ≡ None }
    ensures given { result ≡ transferred (whole_of (kind.Buffer buffer.old)) buffer.old }
{
    match buffer.transfer() {
        Ok(buffer) => gives(Medium {
            kind: Kind::Buffer(buffer),
        }),
        Err(e) => gives_nothing(e),
    }
}

fn close_audio<P: RefPool>(audio: &mut AudioData, pool: &mut P, who: Who)
    requires { IsHeldOf (P.is_of pool.old) audio.old }
    ensures detached { audio.new ≡ record audio.old { held = None } }
    ensures does { let held = option_map reference_of audio.old.held in
        Does (P.adds pool.old pool.new) (pool.new ≡ pool.old) who (closed_op held) }
    ensures kept { KeepsButHeld audio.old.held (P.is_of pool.old) (P.is_of pool.new) }
{
    audio.close_data(pool, By::Caller(who));
}

fn close_frame<P: RefPool>(frame: &mut VideoFrame, pool: &mut P, who: Who)
    requires { frames.IsHeldOf (P.is_of pool.old) frame.old }
    ensures detached { frame.new ≡ record frame.old { held = None } }
    ensures does { let held = option_map reference_of frame.old.held in
        Does (P.adds pool.old pool.new) (pool.new ≡ pool.old) who (closed_op held) }
    ensures kept { KeepsButHeld frame.old.held (P.is_of pool.old) (P.is_of pool.new) }
{
    frame.close_frame(pool, By::Caller(who));
}

fn close_buffer<P: RefPool>(buffer: &mut ArrayBuffer, pool: &mut P, who: Who)
    requires { IfSome buffer.old (P.is_of pool.old) }
    ensures detached { buffer.new ≡ None }
    ensures does { let held = option_map reference_of buffer.old in
        Does (P.adds pool.old pool.new) (pool.new ≡ pool.old) who (closed_op held) }
    ensures kept { KeepsButHeld buffer.old (P.is_of pool.old) (P.is_of pool.new) }
{
    buffer.close_buffer(pool, By::Caller(who));
}

impl Medium {
    /// One more reference to the resource that is held; a detached medium is refused.
    #[tactic(auto, using(crate::proofs::Made::not_cloned))]
    pub(crate) fn clone_medium<P: RefPool>(
        &mut self,
        pool: &mut P,
        who: Who,
    ) -> Result<Given, NoMemory>
        requires { IfSome self.old.held (P.is_of pool.old) }
        ensures same { seen self.new ≡ seen self.old }
        ensures still { IfSome self.new.held (P.is_of pool.new) }
        ensures ok { let adds = P.adds pool.old pool.new in let same = pool.new ≡ pool.old in
            IfOk result (Gives adds same who (clone_done (Some (seen self.old)))) }
        ensures of { IfOk result (IsGivenOf (P.is_of pool.new)) }
        ensures err { OnErr result (P.stays pool.old pool.new) }
        ensures kept { KeepsAll (P.is_of pool.old) (P.is_of pool.new) }
    {
        match &mut self.kind {
            Kind::Audio(audio) => clone_audio(audio, pool, who),
            Kind::Frame(frame) => clone_frame(frame, pool, who),
            Kind::Chunk(_) => Ok(gives_nothing(DomError::InvalidState)),
            Kind::Buffer(buffer) => clone_buffer(buffer, pool, who),
        }
    }

    /// The reference is handed on; a detached medium is refused.
    pub(crate) fn transfer(&mut self) -> Given
        ensures detached { self.new ≡ without_reference self.old }
        ensures given { result ≡ transferred self.old self.old.held }
    {
        match &mut self.kind {
            Kind::Audio(audio) => transfer_audio(audio),
            Kind::Frame(frame) => transfer_frame(frame),
            Kind::Chunk(_) => gives_nothing(DomError::DataClone),
            Kind::Buffer(buffer) => transfer_buffer(buffer),
        }
    }

    /// The reference ends, if one is held.
    pub(crate) fn close<P: RefPool>(&mut self, pool: &mut P, who: Who)
        requires { IfSome self.old.held (P.is_of pool.old) }
        ensures detached { self.new ≡ without_reference self.old }
        ensures does { let held = option_map reference_of self.old.held in
            Does (P.adds pool.old pool.new) (pool.new ≡ pool.old) who (closed_op held) }
        ensures kept { KeepsButHeld self.old.held (P.is_of pool.old) (P.is_of pool.new) }
    {
        match &mut self.kind {
            Kind::Audio(audio) => close_audio(audio, pool, who),
            Kind::Frame(frame) => close_frame(frame, pool, who),
            Kind::Chunk(_) => (),
            Kind::Buffer(buffer) => close_buffer(buffer, pool, who),
        }
    }

    /// One more reference to the resource of an open medium, for a codec, with its shape and bytes.
    pub(crate) fn lend<P: RefPool>(
        &mut self,
        pool: &mut P,
        by: By,
    ) -> Result<(HeldMedium, MediaRef), NoMemory>
        requires open { medium_found (lendable_in (seen self.old)) ≡ found.Open }
        requires held { IfSome self.old.held (P.is_of pool.old) }
        ensures same { seen self.new ≡ seen self.old }
        ensures still { IfSome self.new.held (P.is_of pool.new) }
        ensures lent { IfOk result
            (Lends (P.adds pool.old pool.new) by (lendable_in (seen self.old))) }
        ensures of { IfOk result (λ x. P.is_of pool.new x.1) }
        ensures err { OnErr result (P.stays pool.old pool.new) }
        ensures kept { KeepsAll (P.is_of pool.old) (P.is_of pool.new) }
    {
        match &mut self.kind {
            Kind::Audio(audio) => lend_sound(audio, pool, by),
            Kind::Frame(frame) => lend_frame(frame, pool, by),
            Kind::Chunk(_) | Kind::Buffer(_) => unreachable!(),
        }
    }

    /// Whether it is audio data or a frame, and whether that is open.
    pub(crate) fn find(&self) -> MediumFound
        ensures { result ≡ medium_found (lendable_in (seen self.now)) }
    {
        match &self.kind {
            Kind::Audio(audio) => find_sound(audio),
            Kind::Frame(frame) => find_frame(frame),
            Kind::Chunk(_) | Kind::Buffer(_) => MediumFound::Absent,
        }
    }

    /// The chunk that it is, if it is one.
    pub(crate) fn chunk(&self) -> Option<&Chunk>
        ensures { option_map (λ c. c.now) result ≡ chunk_in_medium (seen self.now) }
    {
        match &self.kind {
            Kind::Audio(_) => None,
            Kind::Frame(_) => None,
            Kind::Chunk(chunk) => Some(chunk),
            Kind::Buffer(_) => None,
        }
    }

    /// Whether it is an open buffer.
    pub(crate) fn is_open_buffer(&self) -> bool
        ensures { result ≡ is_some (buffer_in (seen self.now)) }
    {
        match &self.kind {
            Kind::Buffer(buffer) => !buffer.is_detached(),
            Kind::Audio(_) | Kind::Frame(_) | Kind::Chunk(_) => false,
        }
    }

    /// The bytes of an open buffer; none of anything else.
    pub(crate) fn buffer_bytes(&self) -> &[u8]
        ensures { result.now ≡ bytes_held (buffer_in (seen self.now)) }
    {
        match &self.kind {
            Kind::Buffer(buffer) => buffer.bytes(),
            Kind::Audio(_) | Kind::Frame(_) | Kind::Chunk(_) => &[],
        }
    }

    /// Hands the reference of a buffer out, which is detached; none of anything else.
    pub(crate) fn detach_buffer(&mut self) -> Option<MediaRef>
        ensures given { option_map reference_of result ≡ buffer_in (seen self.old) }
        ensures of { IfSome result (λ r. self.old.held ≡ Some r) }
        ensures detached { IfSome result (λ r. self.new ≡ without_reference self.old) }
        ensures same { result ≡ None → self.new ≡ self.old }
    {
        match &mut self.kind {
            Kind::Buffer(buffer) => buffer.detach(),
            Kind::Audio(_) | Kind::Frame(_) | Kind::Chunk(_) => None,
        }
    }

    pub(crate) fn kind(&self) -> &Kind
        ensures { whole_of result.now ≡ self.now }
    {
        &self.kind
    }
}
