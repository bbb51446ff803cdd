// What a medium hands to a codec: its shape and bytes, with one reference more to its resource.
ghost use Rattle.std.specs.Prelude.{◌≡◌, Some, true, is_some, length, take, IfOk, IfErr, IfSome, OnErr};
ghost use Rattle.picture_planes.specs.Planes.{picture_size};
ghost use Rattle.std.specs.Prelude.{option_map};
ghost use Rattle.wc_audio.specs.Sound.{IsCloneBy, IsCloneFault, IsHeldOf, needed};
ghost use Rattle.wc_video.specs.Frames as frames;
ghost use Rattle.array_buffers.specs.Buffers as buffers;
ghost use Rattle.wc_pool.specs.Pools.{KeepsAll, cloned_by};
ghost use Rattle.media_variables.specs.declared.lending.MediumFound.TheVariants as found;
ghost use Rattle.media_variables.specs.declared.medium.Kind.TheVariants as kind;
ghost use Rattle.media_variables.specs.Variables.{lendable_at};
ghost use Rattle.media_variables.specs.Held.{AreOf, medium_found, lendable_of_variable};
ghost use Rattle.media_variables.specs.Held.{lendable_frame, lendable_sound, pair_of};
ghost use Rattle.media_variables.specs.Held.{seen, seen_in, whole_held, whole_of};
ghost use Rattle.media_variables.specs.Given.{Lends};

use crate::medium::Medium;
use array_buffers::ArrayBuffer;
use bytes::Bytes;
use codec_model::{HeldMedium, MediaShape, Pair};
use wc_audio::AudioData;
use wc_base::{By, NoMemory};
use wc_pool::{MediaFault, MediaRef, RefPool};
use wc_video::VideoFrame;

/// What a variable holds of audio data or a frame: none, one that is detached, or one that is open.
#[derive(Clone, Copy, Debug, PartialEq, Eq)]
pub enum MediumFound {
    Absent,
    Detached,
    Open,
}

/// Whether audio data is open.
pub(crate) fn find_sound(audio: &AudioData) -> MediumFound
    ensures { result ≡ medium_found (Some (lendable_sound audio.now)) }
{
    if audio.is_detached() {
        MediumFound::Detached
    } else {
        MediumFound::Open
    }
}

/// Whether a frame is open.
pub(crate) fn find_frame(frame: &VideoFrame) -> MediumFound
    ensures { result ≡ medium_found (Some (lendable_frame frame.now)) }
{
    if frame.is_detached() {
        MediumFound::Detached
    } else {
        MediumFound::Open
    }
}

/// The front of these bytes, shared; its bytes are given.
fn front(bytes: &Bytes, content: &[u8]) -> Result<Bytes, NoMemory>
    requires { content.now ≡ take (length content.now) bytes.now }
    ensures { IfOk result (λ b. b ≡ content.now) }
{
    let mut shared = bytes.clone()?;
    shared.truncate(content.len());
    Ok(shared)
}

/// The bytes of open audio data that its shape needs, shared.
fn sound_bytes(audio: &AudioData) -> Result<Bytes, NoMemory>
    requires { is_some audio.now.held ≡ true }
    ensures { IfOk result (λ b. IfSome audio.now.held
        (λ r. b ≡ take (needed audio.now.shape) r.bytes)) }
{
    match audio.reference() {
        Some(r) => front(r.bytes(), audio.content()),
        None => unreachable!(),
    }
}

/// The bytes of an open frame that its planes need, shared.
fn frame_bytes(frame: &VideoFrame) -> Result<Bytes, NoMemory>
    requires { is_some frame.now.held ≡ true }
    ensures { IfOk result (λ b. IfSome frame.now.held
        (λ r. b ≡ take (picture_size frame.now.shape) r.bytes)) }
{
    match frame.reference() {
        Some(r) => front(r.bytes(), frame.content()),
        None => unreachable!(),
    }
}

/// Other audio data with one more reference to the same resource; this one is seen as it was.
pub(crate) fn another_audio<P: RefPool>(
    audio: &mut AudioData,
    pool: &mut P,
    by: By,
) -> Result<AudioData, MediaFault>
    requires { IsHeldOf (P.is_of pool.old) audio.old }
    ensures same { seen (whole_of (kind.Audio audio.new)) ≡ seen (whole_of (kind.Audio audio.old)) }
    ensures still { IsHeldOf (P.is_of pool.new) audio.new }
    ensures ok { IfOk result (IsCloneBy (P.adds pool.old pool.new) by audio.old) }
    ensures of { IfOk result (IsHeldOf (P.is_of pool.new)) }
    ensures err { let same = pool.new ≡ pool.old in
        IfErr result (IsCloneFault audio.old same (P.stays pool.old pool.new)) }
    ensures kept { KeepsAll (P.is_of pool.old) (P.is_of pool.new) }
{
    audio.clone_data(pool, by)
}

/// Another frame with one more reference to the same resource; this one is seen as it was.
pub(crate) fn another_frame<P: RefPool>(
    frame: &mut VideoFrame,
    pool: &mut P,
    by: By,
) -> Result<VideoFrame, MediaFault>
    requires { frames.IsHeldOf (P.is_of pool.old) frame.old }
    ensures same { seen (whole_of (kind.Frame frame.new)) ≡ seen (whole_of (kind.Frame frame.old)) }
    ensures still { frames.IsHeldOf (P.is_of pool.new) frame.new }
    ensures ok { IfOk result (frames.IsCloneBy (P.adds pool.old pool.new) by frame.old) }
    ensures of { IfOk result (frames.IsHeldOf (P.is_of pool.new)) }
    ensures err { let same = pool.new ≡ pool.old in
        IfErr result (frames.IsCloneFault frame.old same (P.stays pool.old pool.new)) }
    ensures kept { KeepsAll (P.is_of pool.old) (P.is_of pool.new) }
{
    frame.clone_frame(pool, by)
}

/// Another buffer with one more reference to the same resource; this one is seen as it was.
pub(crate) fn another_buffer<P: RefPool>(
    buffer: &mut ArrayBuffer,
    pool: &mut P,
    by: By,
) -> Result<ArrayBuffer, MediaFault>
    requires { IfSome buffer.old (P.is_of pool.old) }
    ensures same { seen (whole_of (kind.Buffer buffer.new))
        ≡ seen (whole_of (kind.Buffer buffer.old)) }
    ensures still { IfSome buffer.new (P.is_of pool.new) }
    ensures ok { IfOk result (buffers.IsCloneBy (P.adds pool.old pool.new) by buffer.old) }
    ensures of { IfOk result (λ b. IfSome b (P.is_of pool.new)) }
    ensures err { let same = pool.new ≡ pool.old in
        IfErr result (buffers.IsCloneFault buffer.old same (P.stays pool.old pool.new)) }
    ensures kept { KeepsAll (P.is_of pool.old) (P.is_of pool.new) }
{
    buffer.clone_buffer(pool, by)
}

/// One more reference to the resource of open audio data.
fn clone_sound<P: RefPool>(
    audio: &mut AudioData,
    pool: &mut P,
    by: By,
) -> Result<MediaRef, NoMemory>
    requires open { is_some audio.old.held ≡ true }
    requires held { IsHeldOf (P.is_of pool.old) audio.old }
    ensures same { seen (whole_of (kind.Audio audio.new)) ≡ seen (whole_of (kind.Audio audio.old)) }
    ensures still { IsHeldOf (P.is_of pool.new) audio.new }
    ensures clone { IfOk result
        (λ r. IfSome audio.old.held (λ was. r.resource ≡ was.resource)) }
    ensures added { IfOk result (λ r. P.adds pool.old pool.new (cloned_by by r)) }
    ensures of { IfOk result (P.is_of pool.new) }
    ensures err { OnErr result (P.stays pool.old pool.new) }
    ensures kept { KeepsAll (P.is_of pool.old) (P.is_of pool.new) }
{
    match another_audio(audio, pool, by) {
        Ok(clone) => match clone.into_reference() {
            Some(r) => Ok(r),
            None => unreachable!(),
        },
        Err(MediaFault::NoMemory) => Err(NoMemory),
        Err(MediaFault::Dom(_)) => unreachable!(),
    }
}

/// One more reference to the resource of an open frame.
fn clone_frame<P: RefPool>(
    frame: &mut VideoFrame,
    pool: &mut P,
    by: By,
) -> Result<MediaRef, NoMemory>
    requires open { is_some frame.old.held ≡ true }
    requires held { frames.IsHeldOf (P.is_of pool.old) frame.old }
    ensures same { seen (whole_of (kind.Frame frame.new)) ≡ seen (whole_of (kind.Frame frame.old)) }
    ensures still { frames.IsHeldOf (P.is_of pool.new) frame.new }
    ensures clone { IfOk result
        (λ r. IfSome frame.old.held (λ was. r.resource ≡ was.resource)) }
    ensures added { IfOk result (λ r. P.adds pool.old pool.new (cloned_by by r)) }
    ensures of { IfOk result (P.is_of pool.new) }
    ensures err { OnErr result (P.stays pool.old pool.new) }
    ensures kept { KeepsAll (P.is_of pool.old) (P.is_of pool.new) }
{
    match another_frame(frame, pool, by) {
        Ok(clone) => match clone.into_reference() {
            Some(r) => Ok(r),
            None => unreachable!(),
        },
        Err(MediaFault::NoMemory) => Err(NoMemory),
        Err(MediaFault::Dom(_)) => unreachable!(),
    }
}

/// A medium with the numbers of its reference, and the reference.
fn held_medium(shape: MediaShape, bytes: Bytes, r: MediaRef) -> (HeldMedium, MediaRef)
    ensures medium { result.0 ≡ record { shape = shape; bytes = bytes; pair = pair_of r } }
    ensures reference { result.1 ≡ r }
{
    let pair = Pair {
        resource: r.resource(),
        reference: r.number(),
    };
    (HeldMedium { shape, bytes, pair }, r)
}

/// One more reference to the resource of open audio data, with its shape and bytes.
pub(crate) fn lend_sound<P: RefPool>(
    audio: &mut AudioData,
    pool: &mut P,
    by: By,
) -> Result<(HeldMedium, MediaRef), NoMemory>
    requires open { is_some audio.old.held ≡ true }
    requires held { IsHeldOf (P.is_of pool.old) audio.old }
    ensures same { seen (whole_of (kind.Audio audio.new)) ≡ seen (whole_of (kind.Audio audio.old)) }
    ensures still { IsHeldOf (P.is_of pool.new) audio.new }
    ensures lent { let medium = Some (lendable_sound audio.old) in
        IfOk result (Lends (P.adds pool.old pool.new) by medium) }
    ensures of { IfOk result (λ x. P.is_of pool.new x.1) }
    ensures err { OnErr result (P.stays pool.old pool.new) }
    ensures kept { KeepsAll (P.is_of pool.old) (P.is_of pool.new) }
{
    let bytes = sound_bytes(audio)?;
    let shape = MediaShape::Sound(*audio.shape());
    let r = clone_sound(audio, pool, by)?;
    Ok(held_medium(shape, bytes, r))
}

/// One more reference to the resource of an open frame, with its shape and bytes.
pub(crate) fn lend_frame<P: RefPool>(
    frame: &mut VideoFrame,
    pool: &mut P,
    by: By,
) -> Result<(HeldMedium, MediaRef), NoMemory>
    requires open { is_some frame.old.held ≡ true }
    requires held { frames.IsHeldOf (P.is_of pool.old) frame.old }
    ensures same { seen (whole_of (kind.Frame frame.new)) ≡ seen (whole_of (kind.Frame frame.old)) }
    ensures still { frames.IsHeldOf (P.is_of pool.new) frame.new }
    ensures lent { let medium = Some (lendable_frame frame.old) in
        IfOk result (Lends (P.adds pool.old pool.new) by medium) }
    ensures of { IfOk result (λ x. P.is_of pool.new x.1) }
    ensures err { OnErr result (P.stays pool.old pool.new) }
    ensures kept { KeepsAll (P.is_of pool.old) (P.is_of pool.new) }
{
    let bytes = frame_bytes(frame)?;
    let shape = MediaShape::Image(*frame.shape());
    let r = clone_frame(frame, pool, by)?;
    Ok(held_medium(shape, bytes, r))
}

fn lend_variable<P: RefPool>(
    variable: &mut Option<Medium>,
    pool: &mut P,
    by: By,
) -> Result<(HeldMedium, MediaRef), NoMemory>
    requires open { medium_found (lendable_of_variable variable.old) ≡ found.Open }
    requires held { IfSome (whole_held variable.old) (P.is_of pool.old) }
    ensures same { option_map seen variable.new ≡ option_map seen variable.old }
    ensures still { IfSome (whole_held variable.new) (P.is_of pool.new) }
    ensures lent { IfOk result
        (Lends (P.adds pool.old pool.new) by (lendable_of_variable variable.old)) }
    ensures of { IfOk result (λ x. P.is_of pool.new x.1) }
    ensures err { OnErr result (P.stays pool.old pool.new) }
    ensures kept { KeepsAll (P.is_of pool.old) (P.is_of pool.new) }
{
    match variable {
        Some(medium) => medium.lend(pool, by),
        None => unreachable!(),
    }
}

/// One more reference to the open medium of a variable, with its shape and bytes.
pub(crate) fn lend_at<P: RefPool>(
    variables: &mut Vec<Option<Medium>>,
    of: u32,
    pool: &mut P,
    by: By,
) -> Result<(HeldMedium, MediaRef), NoMemory>
    requires open { let vs = seen_in variables.old.items in
        medium_found (lendable_at vs of) ≡ found.Open }
    requires held { AreOf (P.is_of pool.old) variables.old.items }
    ensures same { seen_in variables.new.items ≡ seen_in variables.old.items }
    ensures still { AreOf (P.is_of pool.new) variables.new.items }
    ensures lent { let medium = lendable_at (seen_in variables.old.items) of in
        IfOk result (Lends (P.adds pool.old pool.new) by medium) }
    ensures of { IfOk result (λ x. P.is_of pool.new x.1) }
    ensures err { OnErr result (P.stays pool.old pool.new) }
{
    match variables.get_mut(of as usize) {
        Some(variable) => lend_variable(variable, pool, by),
        None => unreachable!(),
    }
}
