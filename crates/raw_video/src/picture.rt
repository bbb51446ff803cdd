// Pictures of chunks.
ghost use Rattle.std.specs.Prelude.{◌≡◌, ◌<◌, length, drop, IfOk, IfErr, IfSome};
ghost use Rattle.raw_video.specs.Value.{added, next_picture, GivesPicture, AreBytes};
ghost use Rattle.coder_api.specs.declared.coder.CoderFault.TheVariants as fault;

use bytes::Bytes;
use coder_api::CoderFault;
use std::alloc::Global;
use wc_base::NoMemory;

/// The picture of a chunk after the last picture, if there is one, of so many bytes. It is refused where the
/// chunk's first byte is neither 0 nor 1, where it has not as many bytes behind that, or where its first byte
/// is 1 and there is no last picture.
pub(crate) fn next_picture(
    alloc: Global,
    size: usize,
    last: &Option<Bytes>,
    bytes: &Bytes,
) -> Result<Bytes, CoderFault>
    requires { IfSome last.now (λ p. length p ≡ size) }
    ensures picture { GivesPicture (next_picture size last.now bytes.now) result }
    ensures bytes { AreBytes bytes.now }
    ensures size { IfOk result (λ p. length p ≡ size) }
{
    let all = bytes.as_slice();
    if all.is_empty() || all.len() - 1 != size {
        return Err(CoderFault::Refused);
    }
    match all[0] {
        0 => key_picture(bytes),
        1 => match last {
            Some(picture) => delta_picture(alloc, picture.as_slice(), &all[1..]),
            None => Err(CoderFault::Refused),
        },
        _ => Err(CoderFault::Refused),
    }
}

/// The chunk's bytes behind the first, shared.
fn key_picture(bytes: &Bytes) -> Result<Bytes, CoderFault>
    requires { 0 < length bytes.now }
    ensures ok { IfOk result (λ b. b ≡ drop 1 bytes.now) }
    ensures err { IfErr result (λ e. e ≡ fault.NoMemory) }
{
    match bytes.slice(1..) {
        Ok(picture) => Ok(picture),
        Err(_) => Err(CoderFault::NoMemory),
    }
}

fn delta_picture(alloc: Global, picture: &[u8], delta: &[u8]) -> Result<Bytes, CoderFault>
    requires { length picture.now ≡ length delta.now }
    ensures ok { IfOk result (λ b. b ≡ added picture.now delta.now) }
    ensures size { IfOk result (λ b. length b ≡ length delta.now) }
    ensures err { IfErr result (λ e. e ≡ fault.NoMemory) }
{
    match sum(alloc, picture, delta) {
        Ok(picture) => Ok(picture),
        Err(NoMemory) => Err(CoderFault::NoMemory),
    }
}

fn sum(alloc: Global, picture: &[u8], delta: &[u8]) -> Result<Bytes, NoMemory>
    requires { length picture.now ≡ length delta.now }
    ensures ok { IfOk result (λ b. b ≡ added picture.now delta.now) }
    ensures size { IfOk result (λ b. length b ≡ length delta.now) }
{
    let mut sum = Vec::from_slice(alloc, picture)?;
    add(sum.as_mut_slice(), delta);
    match Bytes::from_vec(sum) {
        Ok(bytes) => Ok(bytes),
        Err(_) => Err(NoMemory),
    }
}

/// Adds to each byte the one at its place, modulo 256.
fn add(to: &mut [u8], delta: &[u8])
    requires { length to.old ≡ length delta.now }
    ensures { to.new ≡ added to.old delta.now }
{
    for i in 0..to.len() {
        to[i] = to[i].wrapping_add(delta[i]);
    }
}
