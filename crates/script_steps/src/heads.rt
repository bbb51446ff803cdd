// Looks codecs and callers up, of which there are few.
ghost use Rattle.std.specs.Prelude.{◌≡◌, ◌≤◌, ◌<◌, IfSome, bytes_eq, length};
ghost use Rattle.std.specs.List.{position};
ghost use Rattle.script_types.specs.Names.{codec_named, caller_named};
ghost use Rattle.script_types.specs.Names as spec;

use script_types::{CallerItem, CodecItem, FoundCodec};

fn codec_position(codecs: &[CodecItem], name: &str) -> Option<usize>
    ensures { result ≡ position (λ c. bytes_eq c.name name.now) codecs.now }
{
    codecs.iter().position(|c| c.name.as_str() == name)
}

/// The codec of this name.
pub fn find_codec(codecs: &[CodecItem], name: &str) -> Option<FoundCodec>
    requires { length codecs.now ≤ 64 }
    ensures { result ≡ codec_named codecs.now name.now }
{
    let number = codec_position(codecs, name)?;
    let codec = codecs.get(number)?;
    Some(FoundCodec {
        number: number as u32,
        kind: codec.kind,
    })
}

fn caller_position(callers: &[CallerItem], name: &str) -> Option<usize>
    ensures value { result ≡ caller_named callers.now name.now }
    ensures bound { IfSome result (λ n. n < length callers.now) }
{
    callers.iter().position(|c| c.name.as_str() == name)
}

/// The number of the caller of this name.
pub fn find_caller(callers: &[CallerItem], name: &str) -> Option<u32>
    requires { length callers.now ≤ 16 }
    ensures { result ≡ caller_named callers.now name.now }
{
    let number = caller_position(callers, name)?;
    Some(number as u32)
}

/// Whether a codec has this name.
pub fn is_codec_name(codecs: &[CodecItem], name: &str) -> bool
    ensures { result ≡ spec.is_codec_name codecs.now name.now }
{
    codecs.iter().any(|c| c.name.as_str() == name)
}

/// Whether a caller has this name.
pub fn is_caller_name(callers: &[CallerItem], name: &str) -> bool
    ensures { result ≡ spec.is_caller_name callers.now name.now }
{
    callers.iter().any(|c| c.name.as_str() == name)
}
