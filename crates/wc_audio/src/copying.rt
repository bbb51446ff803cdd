// Copies of audio data (W3C WebCodecs, AudioData, `allocationSize` and `copyTo`).
ghost use Rattle.std.specs.Prelude.{◌≡◌, ◌≤◌, true, length, take, drop, Ok, Err, IfOk, IfErr, OnErr};
ghost use Rattle.codec_definitions.specs.Pcm.{is_whole};
ghost use Rattle.wc_audio.specs.Copies.{allocation_size, copy_of, copied_audio, plan_of};
ghost use Rattle.wc_audio.specs.Copies.{copy_size, IsPlanOf};

use crate::data::AudioData;
use crate::options::{CopyOptions, Plan};
use crate::planning::{copy_size, plan_in, sample_size, size_within};
use sample_conversion::{copy_channel, copy_frames, is_planar};
use wc_base::{DomError, SoundShape};

impl AudioData {
    /// The bytes that a copy with these options writes. The refusals, in this order: `InvalidState`
    /// where the data is detached; `RangeErr` where the format is interleaved and the plane is not 0,
    /// or planar and there is no such plane; `NotSupported` for a format of floats; `RangeErr` where
    /// the first frame, or so many frames from it on, are not there, or the bytes are more than 64
    /// bits count. It takes no memory.
    pub fn allocation_size(&self, o: &CopyOptions) -> Result<u64, DomError>
        ensures { result ≡ allocation_size self.now o.now }
    {
        let p = plan(self, o)?;
        match copy_size(self.shape(), &p) {
            Some(n) => Ok(n),
            None => Err(DomError::RangeErr),
        }
    }

    /// Copies samples in a format to the front of `dst`, and answers how many bytes that took. It is
    /// refused as `allocation_size` is, and then with `RangeErr` where `dst` is shorter; after a
    /// refusal `dst` is unchanged. A sample is multiplied by a power of two, or divided by one and
    /// rounded down (our choice). It takes no memory.
    pub fn copy_to(&self, dst: &mut [u8], o: &CopyOptions) -> Result<usize, DomError>
        ensures ok { let copy = copied_audio self.now (length dst.old) o.now in
            IfOk result (λ n. copy ≡ Ok (take n dst.new)) }
        ensures size { IfOk result (λ n. allocation_size self.now o.now ≡ Ok n) }
        ensures within { IfOk result (λ n. n ≤ length dst.new) }
        ensures rest { IfOk result (λ n. drop n dst.new ≡ drop n dst.old) }
        ensures err { IfErr result (λ e. copied_audio self.now (length dst.old) o.now ≡ Err e) }
        ensures same { OnErr result (dst.new ≡ dst.old) }
    {
        let p = plan(self, o)?;
        match size_within(self.shape(), &p, dst.len()) {
            Some(n) => {
                write(self.shape(), self.content(), &p, &mut dst[..n]);
                Ok(n)
            }
            None => Err(DomError::RangeErr),
        }
    }
}

/// What a copy takes, or its first refusal.
fn plan(audio: &AudioData, o: &CopyOptions) -> Result<Plan, DomError>
    ensures { result ≡ plan_of audio.now o.now }
{
    if audio.is_detached() {
        return Err(DomError::InvalidState);
    }
    plan_in(audio.shape(), o)
}

/// Writes the copy of a plan, which fills the destination.
fn write(shape: &SoundShape, bytes: &[u8], p: &Plan, to: &mut [u8])
    requires whole { is_whole shape.now bytes.now ≡ true }
    requires plan { IsPlanOf shape.now p.now }
    requires room { length to.old ≡ copy_size shape.now p.now }
    ensures { to.new ≡ copy_of shape.now bytes.now p.now }
{
    let size = sample_size(p.format);
    if is_planar(p.format) {
        copy_channel(size, shape, bytes, p.plane, p.offset, p.count, to);
    } else {
        copy_frames(size, shape, bytes, p.offset, p.count, to);
    }
}
