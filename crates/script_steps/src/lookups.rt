// Reads what the names in a step name.
ghost use Rattle.std.specs.Prelude.{◌≡◌, ◌≢◌, ◌≤◌, IfOk, IfErr, length, codes};
ghost use Rattle.json_data.specs.View.{view};
ghost use Rattle.script_types.specs.Names as names;
ghost use Rattle.script_types.specs.Sound.{encodes};
ghost use Rattle.script_steps.specs.References.{unused, codec_if, variable_if, variable_of, variable_in, on_of, ground_in, ground_on, bound_on, given_to, encoded_data, bound_from};
ghost use Rattle.script_steps.specs.References as spec;
ghost use Rattle.script_steps.specs.declared.references.Needed.TheVariants as needed;
ghost use Rattle.script_types.specs.Reading.{Gives};

use crate::references::Needed;
use crate::{Stop, Variables, Wrong, copied, find_codec, name_member, text_member};
use json_data::Value;
use script_types::{
    CodecItem, FoundCodec, FoundVariable, Kind, Variable, VariableKind, decodes, ground_named,
};
use std::alloc::Global;
use wc_base::{Ground, NoMemory, Text};

fn is_right(needed: Needed, kind: VariableKind) -> bool
    ensures { result ≡ spec.is_right needed kind }
{
    match needed {
        Needed::Chunk => kind == VariableKind::Chunk,
        Needed::Audio => kind == VariableKind::Audio,
        Needed::Frame => kind == VariableKind::Frame,
        Needed::Medium => matches!(kind, VariableKind::Audio | VariableKind::Frame),
        Needed::Copied => !matches!(kind, VariableKind::Promise | VariableKind::Buffer),
        Needed::Promise => kind == VariableKind::Promise,
        Needed::Buffer => kind == VariableKind::Buffer,
        Needed::Sized => !matches!(kind, VariableKind::Chunk | VariableKind::Promise),
    }
}

/// A name that no step before defines, copied. `Twice` for another.
pub fn read_unused(alloc: Global, before: &Variables, name: &str) -> Result<Text, Stop<Wrong>>
    ensures { Gives result (unused before.now name.now) }
{
    if before.defines(name) {
        return Err(Stop::Fault(Wrong::Twice));
    }
    Ok(copied(alloc, name)?)
}

// The decoder of this name. `Shape` for a codec of another kind.
fn find_decoder(codecs: &[CodecItem], name: &str) -> Result<Option<FoundCodec>, Stop<Wrong>>
    requires { length codecs.now ≤ 64 }
    ensures { result ≡ codec_if names.decodes codecs.now name.now }
{
    match find_codec(codecs, name) {
        None => Ok(None),
        Some(codec) if decodes(codec.kind) => Ok(Some(codec)),
        Some(_) => Err(Stop::Fault(Wrong::Shape)),
    }
}

// The encoder of this name. `Shape` for a codec of another kind.
fn find_encoder(codecs: &[CodecItem], name: &str) -> Result<Option<FoundCodec>, Stop<Wrong>>
    requires { length codecs.now ≤ 64 }
    ensures { result ≡ codec_if encodes codecs.now name.now }
{
    match find_codec(codecs, name) {
        None => Ok(None),
        Some(codec) if decodes(codec.kind) => Err(Stop::Fault(Wrong::Shape)),
        Some(codec) => Ok(Some(codec)),
    }
}

/// The variable of this name, if there is one. `Shape` for one of another kind.
pub fn find_variable(
    before: &Variables,
    name: &str,
    needed: Needed,
) -> Result<Option<FoundVariable>, Stop<Wrong>>
    requires { length before.now ≤ 100000 }
    ensures { result ≡ variable_if needed before.now name.now }
{
    match before.find(name) {
        None => Ok(None),
        Some(variable) if is_right(needed, variable.kind) => Ok(Some(variable)),
        Some(_) => Err(Stop::Fault(Wrong::Shape)),
    }
}

/// A variable that was found under this name.
pub fn variable_of(alloc: Global, name: &str, found: FoundVariable) -> Result<Variable, NoMemory>
    ensures { IfOk result (λ v. v ≡ spec.variable_of name.now found) }
{
    let name = copied(alloc, name)?;
    Ok(Variable {
        name,
        step: found.step,
        kind: found.kind,
    })
}

/// The variable that a step names, where it names nothing else.
pub fn read_variable(
    alloc: Global,
    before: &Variables,
    value: &Value<'_>,
    key: &str,
    needed: Needed,
) -> Result<Variable, Stop<Wrong>>
    requires { length before.now ≤ 100000 }
    ensures { Gives result (variable_in key.now needed before.now (view value.now)) }
{
    let name = name_member(value, key)?;
    let found = find_variable(before, name, needed)?.ok_or(Stop::Fault(Wrong::UnknownName))?;
    Ok(variable_of(alloc, name, found)?)
}

/// The codec that a step names, where it names nothing else.
pub fn read_on(codecs: &[CodecItem], value: &Value<'_>) -> Result<u32, Stop<Wrong>>
    requires { length codecs.now ≤ 64 }
    ensures { result ≡ on_of codecs.now (view value.now) }
{
    let on = name_member(value, "on")?;
    match find_codec(codecs, on) {
        Some(codec) => Ok(codec.number),
        None => Err(Stop::Fault(Wrong::UnknownName)),
    }
}

fn ground_member(value: &Value<'_>) -> Option<Ground>
    ensures { result ≡ ground_in (view value.now) }
{
    ground_named(text_member(value, "to")?.as_bytes())
}

/// A codec of any kind, and where it is at work. `Shape` for a word of no ground comes before an unknown name.
pub fn read_ground_on(codecs: &[CodecItem], value: &Value<'_>) -> Result<(u32, Ground), Stop<Wrong>>
    requires { length codecs.now ≤ 64 }
    ensures { result ≡ ground_on codecs.now (view value.now) }
{
    let on = name_member(value, "on")?;
    let Some(to) = ground_member(value) else {
        return Err(Stop::Fault(Wrong::Shape));
    };
    match find_codec(codecs, on) {
        Some(codec) => Ok((codec.number, to)),
        None => Err(Stop::Fault(Wrong::UnknownName)),
    }
}

/// A codec of any kind, and a new name.
pub fn read_bound_on(
    alloc: Global,
    codecs: &[CodecItem],
    before: &Variables,
    value: &Value<'_>,
) -> Result<(FoundCodec, Text), Stop<Wrong>>
    requires { length codecs.now ≤ 64 }
    ensures { Gives result (bound_on codecs.now before.now (view value.now)) }
{
    let on = name_member(value, "on")?;
    let name = name_member(value, "as")?;
    let bind = read_unused(alloc, before, name)?;
    match find_codec(codecs, on) {
        Some(codec) => Ok((codec, bind)),
        None => Err(Stop::Fault(Wrong::UnknownName)),
    }
}

/// A decoder, and the chunk that it is given.
pub fn read_decoder_chunk(
    alloc: Global,
    codecs: &[CodecItem],
    before: &Variables,
    value: &Value<'_>,
) -> Result<(u32, Variable), Stop<Wrong>>
    requires codecs { length codecs.now ≤ 64 }
    requires steps { length before.now ≤ 100000 }
    ensures { Gives result
        (given_to names.decodes (codes "chunk") needed.Chunk codecs.now before.now
        (view value.now)) }
{
    let on = name_member(value, "on")?;
    let name = name_member(value, "chunk")?;
    let codec = find_decoder(codecs, on)?;
    let variable = find_variable(before, name, Needed::Chunk)?;
    let (Some(codec), Some(found)) = (codec, variable) else {
        return Err(Stop::Fault(Wrong::UnknownName));
    };
    Ok((codec.number, variable_of(alloc, name, found)?))
}

/// What an encoder is given. A codec that was not found may be given any medium.
fn encoded_by(codec: Option<FoundCodec>) -> Needed
    ensures { result ≡ spec.encoded_by codec }
{
    match codec {
        Some(codec) => encoded_by_kind(codec.kind),
        None => Needed::Medium,
    }
}

fn encoded_by_kind(kind: Kind) -> Needed
    ensures { result ≡ spec.encoded_by_kind kind }
{
    match kind {
        Kind::AudioEncoder => Needed::Audio,
        Kind::VideoEncoder => Needed::Frame,
        Kind::AudioDecoder | Kind::VideoDecoder => Needed::Medium,
    }
}

/// An encoder, and the medium that it is given.
pub fn read_encoder_data(
    alloc: Global,
    codecs: &[CodecItem],
    before: &Variables,
    value: &Value<'_>,
) -> Result<(u32, Variable), Stop<Wrong>>
    requires codecs { length codecs.now ≤ 64 }
    requires steps { length before.now ≤ 100000 }
    ensures { Gives result
        (encoded_data codecs.now before.now (view value.now)) }
{
    let on = name_member(value, "on")?;
    let name = name_member(value, "data")?;
    let codec = find_encoder(codecs, on)?;
    let variable = find_variable(before, name, encoded_by(codec))?;
    let (Some(codec), Some(found)) = (codec, variable) else {
        return Err(Stop::Fault(Wrong::UnknownName));
    };
    Ok((codec.number, variable_of(alloc, name, found)?))
}

/// A medium, and a new name.
pub fn read_bound_from(
    alloc: Global,
    before: &Variables,
    value: &Value<'_>,
) -> Result<(Variable, Text), Stop<Wrong>>
    requires { length before.now ≤ 100000 }
    ensures { Gives result (bound_from before.now (view value.now)) }
{
    let of = name_member(value, "of")?;
    let name = name_member(value, "as")?;
    let variable = find_variable(before, of, Needed::Medium)?;
    let bind = read_unused(alloc, before, name)?;
    let found = variable.ok_or(Stop::Fault(Wrong::UnknownName))?;
    Ok((variable_of(alloc, of, found)?, bind))
}
