// Audio data that is open or detached.
ghost use Rattle.std.specs.Prelude.{◌≡◌, ◌≤◌, [], true, false, length, take, Option, Some, None};
ghost use Rattle.std.specs.Prelude.{IfOk, IfErr, IfSome, MatchResult, OnOk, OnErr};
ghost use Rattle.std.specs.Prelude.{not, option_map, is_some, is_none, unwrap_or};
ghost use Rattle.codec_definitions.specs.Pcm.{is_whole};
ghost use Rattle.wc_base.specs.declared.error.DomError.TheVariants as dom;
ghost use Rattle.wc_pool.specs.Pools.{KeepsAll};
ghost use Rattle.wc_audio.specs.Sound.{held_as, needed, is_invalid, content_of, IsHeldOf, IsMadeBy};
ghost use Rattle.wc_audio.specs.Sound.{IsAdopted, IsRefused};
ghost use Rattle.wc_audio.specs.Sound.{IsCloneBy, IsInitFault, IsCloneFault, Closes, KeepsButHeld};

use bytes::Bytes;
use sample_conversion::format_size;
use std::alloc::Global;
use std::marker::Model;
use wc_base::{By, DomError, NoMemory, Samples, SoundShape};
use wc_pool::{MediaFault, MediaRef, RefPool};

/// Samples in a media resource (W3C WebCodecs, AudioData). It holds one reference to it while it is
/// open, and none once it is detached. One that is dropped while it is open leaves its reference live.
#[derive(Drop)]
pub struct AudioData {
    shape: SoundShape,
    held: Option<MediaRef>,
}

impl Model for AudioData {
    ghost use Rattle.wc_audio.specs.Sound.{Sound, IsEnough};

    ghost Value = { Sound };

    ghost view = { λ d. record { shape = d.shape; held = d.held } };

    ghost invariant = { λ d. IsEnough d.shape d.held };
}

/// As many bytes as the shape needs; none where there are fewer, or the shape has no rate, frame or channel.
fn needed(shape: &SoundShape, bytes: usize) -> Option<usize>
    ensures some { IfSome result (λ n. (n ≡ needed shape.now) × (n ≤ bytes)) }
    ensures none { is_none result ≡ is_invalid shape.now bytes }
{
    if shape.rate == 0 || shape.frames == 0 || shape.channels == 0 {
        return None;
    }
    let samples = shape.frames as u64 * shape.channels as u64;
    let size = format_size(shape.format);
    if (bytes / size) as u64 >= samples {
        Some(samples as usize * size)
    } else {
        None
    }
}

impl AudioData {
    /// Open data of a shape (W3C WebCodecs, AudioData's constructor): a new resource with the bytes that
    /// the shape needs, from the front of `content`. `TypeErr` comes exactly where the shape has no
    /// rate, frame or channel, or needs more bytes than there are; then the pool is as it was.
    pub fn new<P: RefPool>(
        alloc: Global,
        shape: SoundShape,
        content: &[u8],
        pool: &mut P,
        by: By,
    ) -> Result<AudioData, MediaFault>
        ensures ok { let adds = P.adds pool.old pool.new in
            IfOk result (IsMadeBy adds by shape (take (needed shape) content.now)) }
        ensures valid { OnOk result (is_invalid shape (length content.now) ≡ false) }
        ensures of { IfOk result (IsHeldOf (P.is_of pool.new)) }
        ensures err { let invalid = is_invalid shape (length content.now) in
            IfErr result (IsInitFault invalid (pool.new ≡ pool.old) (P.stays pool.old pool.new)) }
        ensures kept { KeepsAll (P.is_of pool.old) (P.is_of pool.new) }
    {
        let Some(count) = needed(&shape, content.len()) else {
            return Err(MediaFault::Dom(DomError::TypeErr));
        };
        let bytes = copy_bytes(alloc, &content[..count])?;
        let held = pool.make(by, bytes)?;
        Ok(AudioData {
            shape,
            held: Some(held),
        })
    }

    /// Whether audio data of a shape can be made of so many bytes: exactly where `new` and `adopt` are not
    /// refused with `TypeErr`.
    pub fn is_valid(shape: &SoundShape, bytes: usize) -> bool
        ensures { result ≡ not (is_invalid shape.now bytes) }
    {
        needed(shape, bytes).is_some()
    }

    /// Open data of a shape over a resource that is there already, with no copy of its bytes: it takes this
    /// reference over, and sees the bytes at the front that the shape needs. `TypeErr` comes exactly where
    /// the shape has no rate, frame or channel, or needs more bytes than the
    /// resource has; the reference comes back with it. It takes no memory, and makes no entry.
    pub fn adopt(shape: SoundShape, held: MediaRef) -> Result<AudioData, (DomError, MediaRef)>
        ensures { let invalid = is_invalid shape (length held.bytes) in
            MatchResult result (IsAdopted invalid shape held) (IsRefused invalid held) }
    {
        match needed(&shape, held.bytes().len()) {
            Some(_) => Ok(AudioData {
                shape,
                held: Some(held),
            }),
            None => Err((DomError::TypeErr, held)),
        }
    }

    /// Open data of samples that a decoder gave: a new resource with their bytes, of which there are at
    /// least as many as the shape needs.
    pub fn of_samples<P: RefPool>(
        samples: Samples,
        pool: &mut P,
        by: By,
    ) -> Result<AudioData, NoMemory>
        requires { needed samples.shape ≤ length samples.bytes }
        ensures ok { let adds = P.adds pool.old pool.new in
            IfOk result (IsMadeBy adds by samples.shape samples.bytes) }
        ensures of { IfOk result (IsHeldOf (P.is_of pool.new)) }
        ensures err { OnErr result (P.stays pool.old pool.new) }
        ensures kept { KeepsAll (P.is_of pool.old) (P.is_of pool.new) }
    {
        let held = pool.make(by, samples.bytes)?;
        Ok(AudioData {
            shape: samples.shape,
            held: Some(held),
        })
    }

    /// Open data with a second reference to the same resource, and the same shape (W3C WebCodecs,
    /// AudioData, `clone`). `InvalidState` comes exactly where it is detached. The data stays as it is,
    /// but for what the pool does not keep of a reference that is cloned.
    pub fn clone_data<P: RefPool>(&mut self, pool: &mut P, by: By) -> Result<AudioData, MediaFault>
        requires { IsHeldOf (P.is_of pool.old) self.old }
        ensures same { held_as P.lasting self.new ≡ held_as P.lasting self.old }
        ensures still { IsHeldOf (P.is_of pool.new) self.new }
        ensures ok { IfOk result (IsCloneBy (P.adds pool.old pool.new) by self.old) }
        ensures of { IfOk result (IsHeldOf (P.is_of pool.new)) }
        ensures err { IfErr result (IsCloneFault self.old (pool.new ≡ pool.old) (P.stays pool.old pool.new)) }
        ensures kept { KeepsAll (P.is_of pool.old) (P.is_of pool.new) }
    {
        match &mut self.held {
            None => Err(MediaFault::Dom(DomError::InvalidState)),
            Some(r) => match pool.clone_ref(by, r) {
                Ok(held) => Ok(AudioData {
                    shape: self.shape,
                    held: Some(held),
                }),
                Err(NoMemory) => Err(MediaFault::NoMemory),
            },
        }
    }

    /// Hands its reference on, and is detached (W3C WebCodecs, AudioData's transfer steps). `DataClone`
    /// comes exactly where it was detached already. It takes no memory, and makes no entry.
    pub fn transfer(&mut self) -> Result<AudioData, DomError>
        ensures ok { IfOk result (λ d. d ≡ self.old) }
        ensures open { OnOk result (is_some self.old.held ≡ true) }
        ensures err { IfErr result (λ e. (e ≡ dom.DataClone) × (self.old.held ≡ None)) }
        ensures detached { self.new ≡ record self.old { held = None } }
    {
        match self.held.take() {
            Some(held) => Ok(AudioData {
                shape: self.shape,
                held: Some(held),
            }),
            None => Err(DomError::DataClone),
        }
    }

    /// Ends its reference, and is detached (W3C WebCodecs, AudioData, `close`); where it is detached
    /// already nothing is done. The answer has the resource's bytes exactly where the reference was the
    /// last one. It takes no memory.
    pub fn close_data<P: RefPool>(&mut self, pool: &mut P, by: By) -> Option<Bytes>
        requires { IsHeldOf (P.is_of pool.old) self.old }
        ensures detached { self.new ≡ record self.old { held = None } }
        ensures closes { let adds = P.adds pool.old pool.new in
            Closes adds (pool.new ≡ pool.old) by self.old.held (is_some result) }
        ensures bytes { IfSome result (λ b. option_map (λ r. r.bytes) self.old.held ≡ Some b) }
        ensures kept { KeepsButHeld self.old.held (P.is_of pool.old) (P.is_of pool.new) }
    {
        match self.held.take() {
            Some(held) => pool.end(by, held),
            None => None,
        }
    }

    /// Its reference alone; none exactly where it is detached.
    pub fn into_reference(self) -> Option<MediaRef>
        ensures { result ≡ self.held }
    {
        self.held
    }

    /// Whether it holds no reference: it was closed, or its reference was handed on.
    pub fn is_detached(&self) -> bool
        ensures { result ≡ is_none self.now.held }
    {
        self.held.is_none()
    }

    /// The shape of its samples, also where it is detached.
    pub fn shape(&self) -> &SoundShape
        ensures { result.now ≡ self.now.shape }
    {
        &self.shape
    }

    /// The reference that it holds; none exactly where it is detached.
    pub fn reference(&self) -> Option<&MediaRef>
        ensures { option_map (λ r. r.now) result ≡ self.now.held }
    {
        self.held.as_ref()
    }

    /// The bytes that the shape needs; none where it is detached.
    pub fn content(&self) -> &[u8]
        ensures value { result.now ≡ unwrap_or (content_of self.now) [] }
        ensures whole { is_some self.now.held ≡ true → is_whole self.now.shape result.now ≡ true }
    {
        match &self.held {
            Some(r) => whole(&self.shape, r.bytes()),
            None => &[],
        }
    }
}

/// The front of the bytes that the shape needs.
fn whole<'a>(shape: &SoundShape, bytes: &'a Bytes) -> &'a [u8]
    requires { needed shape.now ≤ length bytes.now }
    ensures value { result.now ≡ take (needed shape.now) bytes.now }
    ensures whole { is_whole shape.now result.now ≡ true }
{
    let bytes = bytes.as_slice();
    let count = shape.frames as usize * shape.channels as usize * format_size(shape.format);
    &bytes[..count]
}

fn copy_bytes(alloc: Global, bytes: &[u8]) -> Result<Bytes, NoMemory>
    ensures { IfOk result (λ b. b ≡ bytes.now) }
{
    match Bytes::from_vec(Vec::from_slice(alloc, bytes)?) {
        Ok(bytes) => Ok(bytes),
        Err(_) => Err(NoMemory),
    }
}
