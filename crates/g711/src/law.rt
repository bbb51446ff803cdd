// Either law, over single codes and over many.
ghost use Rattle.std.specs.Prelude.{◌≡◌, ◌*◌, length};
ghost use Rattle.codec_definitions.specs.Pcm.{spelled};
ghost use Rattle.codec_definitions.specs.SampleCodecs.{decoded};
ghost use Rattle.g711.specs.Slices.{code_in, codec_of, codes_of, value_in};

use crate::alaw::{alaw_decode, alaw_encode};
use crate::ulaw::{ulaw_decode, ulaw_encode};

/// A law of G.711.
#[derive(Clone, Copy, Debug, PartialEq, Eq)]
pub enum Law {
    Alaw,
    Ulaw,
}

/// Puts the 16-bit samples that codes stand for into `out`, little-endian, two bytes a code.
pub fn decode(law: Law, codes: &[u8], out: &mut [u8])
    requires { length out.old ≡ 2 * length codes.now }
    ensures { out.new ≡ decoded (codec_of law) codes.now }
{
    // One loop for each law, in which the law is no longer looked at.
    match law {
        Law::Alaw => decode_each(Law::Alaw, codes, out),
        Law::Ulaw => decode_each(Law::Ulaw, codes, out),
    }
}

/// Puts the codes of 16-bit samples, little-endian, into `out`, a code for two bytes.
pub fn encode(law: Law, samples: &[u8], out: &mut [u8])
    requires { length samples.now ≡ 2 * length out.old }
    ensures { out.new ≡ codes_of law samples.now }
{
    match law {
        Law::Alaw => encode_each(Law::Alaw, samples, out),
        Law::Ulaw => encode_each(Law::Ulaw, samples, out),
    }
}

#[inline(always)]
fn decode_each(law: Law, codes: &[u8], out: &mut [u8])
    requires { length out.old ≡ 2 * length codes.now }
    ensures { out.new ≡ decoded (codec_of law) codes.now }
{
    for i in 0..codes.len() {
        put(value_in(law, codes[i]), &mut out[i * 2..i * 2 + 2]);
    }
}

#[inline(always)]
fn encode_each(law: Law, samples: &[u8], out: &mut [u8])
    requires { length samples.now ≡ 2 * length out.old }
    ensures { out.new ≡ codes_of law samples.now }
{
    let mut rest = samples;
    let mut done = 0;
    while let [low, high, more @ ..] = rest {
        out[done] = code_in(law, i16::from_le_bytes([*low, *high]));
        done += 1;
        rest = more;
    }
}

/// The value of a code.
#[inline(always)]
fn value_in(law: Law, code: u8) -> i16
    ensures { result ≡ value_in law code }
{
    match law {
        Law::Alaw => alaw_decode(code),
        Law::Ulaw => ulaw_decode(code),
    }
}

/// The code of a value.
#[inline(always)]
fn code_in(law: Law, value: i16) -> u8
    ensures { result ≡ code_in law value }
{
    match law {
        Law::Alaw => alaw_encode(value),
        Law::Ulaw => ulaw_encode(value),
    }
}

/// A sample's two bytes.
#[inline(always)]
fn put(value: i16, out: &mut [u8])
    requires { length out.old ≡ 2 }
    ensures { out.new ≡ spelled 2 value }
{
    let [low, high] = value.to_le_bytes();
    out[0] = low;
    out[1] = high;
}
