// Both laws of G.711 over whole buffers.
ghost use Rattle.std.specs.Prelude.{◌≡◌, length, map};
ghost use Rattle.codec_definitions.specs.G711.{alaw_value, alaw_code, ulaw_value, ulaw_code};
ghost use Rattle.c_library.specs.Status.{fill_status, filled};

use crate::status::{DONE, TOO_SMALL};
use g711::{alaw_decode, alaw_encode, ulaw_decode, ulaw_encode};

/// Puts the values that A-law codes stand for at the front of `samples`: the clause of `g711::alaw_decode`, for each code.
#[unsafe(no_mangle)]
pub extern "C" fn zemirako_alaw_decode(codes: &[u8], samples: &mut [i16]) -> u32
    ensures status { result ≡ fill_status (map alaw_value codes.now) samples.old }
    ensures samples { samples.new ≡ filled (map alaw_value codes.now) samples.old }
{
    if codes.len() > samples.len() {
        return TOO_SMALL;
    }
    alaw_values(codes, &mut samples[..codes.len()]);
    DONE
}

/// Puts the values that mu-law codes stand for at the front of `samples`: the clause of `g711::ulaw_decode`, for each code.
#[unsafe(no_mangle)]
pub extern "C" fn zemirako_ulaw_decode(codes: &[u8], samples: &mut [i16]) -> u32
    ensures status { result ≡ fill_status (map ulaw_value codes.now) samples.old }
    ensures samples { samples.new ≡ filled (map ulaw_value codes.now) samples.old }
{
    if codes.len() > samples.len() {
        return TOO_SMALL;
    }
    ulaw_values(codes, &mut samples[..codes.len()]);
    DONE
}

/// Puts the A-law codes of samples at the front of `codes`: the clause `code` of `g711::alaw_encode`, for each sample.
#[unsafe(no_mangle)]
pub extern "C" fn zemirako_alaw_encode(samples: &[i16], codes: &mut [u8]) -> u32
    ensures status { result ≡ fill_status (map alaw_code samples.now) codes.old }
    ensures codes { codes.new ≡ filled (map alaw_code samples.now) codes.old }
{
    if samples.len() > codes.len() {
        return TOO_SMALL;
    }
    alaw_codes(samples, &mut codes[..samples.len()]);
    DONE
}

/// Puts the mu-law codes of samples at the front of `codes`: the clause `code` of `g711::ulaw_encode`, for each sample.
#[unsafe(no_mangle)]
pub extern "C" fn zemirako_ulaw_encode(samples: &[i16], codes: &mut [u8]) -> u32
    ensures status { result ≡ fill_status (map ulaw_code samples.now) codes.old }
    ensures codes { codes.new ≡ filled (map ulaw_code samples.now) codes.old }
{
    if samples.len() > codes.len() {
        return TOO_SMALL;
    }
    ulaw_codes(samples, &mut codes[..samples.len()]);
    DONE
}

fn alaw_values(codes: &[u8], samples: &mut [i16])
    requires { length samples.old ≡ length codes.now }
    ensures { samples.new ≡ map alaw_value codes.now }
{
    for i in 0..codes.len() {
        samples[i] = alaw_decode(codes[i]);
    }
}

fn ulaw_values(codes: &[u8], samples: &mut [i16])
    requires { length samples.old ≡ length codes.now }
    ensures { samples.new ≡ map ulaw_value codes.now }
{
    for i in 0..codes.len() {
        samples[i] = ulaw_decode(codes[i]);
    }
}

fn alaw_codes(samples: &[i16], codes: &mut [u8])
    requires { length codes.old ≡ length samples.now }
    ensures { codes.new ≡ map alaw_code samples.now }
{
    for i in 0..samples.len() {
        codes[i] = alaw_encode(samples[i]);
    }
}

fn ulaw_codes(samples: &[i16], codes: &mut [u8])
    requires { length codes.old ≡ length samples.now }
    ensures { codes.new ≡ map ulaw_code samples.now }
{
    for i in 0..samples.len() {
        codes[i] = ulaw_encode(samples[i]);
    }
}
