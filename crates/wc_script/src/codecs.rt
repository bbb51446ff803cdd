// Reads codecs.
ghost use Rattle.std.specs.Prelude.{◌≡◌, ◌≢◌, ◌≤◌, [], IfOk, IfErr, Option, option_and_then, length, codes};
ghost use Rattle.json_data.specs.View.{view, items_view};
ghost use Rattle.serde_json.specs.Find.{get};
ghost use Rattle.script_steps.specs.Members.{text_in};
ghost use Rattle.script_types.specs.Names.{kind_named};
ghost use Rattle.wc_script.specs.Faults as faults;
ghost use Rattle.wc_script.specs.Codecs.{saturation_of, codec_of, codecs_of};
ghost use Rattle.script_types.specs.Reading.{Gives, GivesAs};

use crate::faults::fault_at;
use json_data::{Value, as_natural, member};
use script_steps::{is_codec_name, name_member, text_member};
use script_types::{CodecItem, Fault, Kind, Place, Stop, Wrong, copied, kind_named};
use std::alloc::Global;

fn kind_member(value: &Value<'_>) -> Option<Kind>
    ensures { result ≡ option_and_then kind_named (text_in (codes "kind") (view value.now)) }
{
    kind_named(text_member(value, "kind")?.as_bytes())
}

// The saturation number of a codec, 4 where the script says nothing. `Shape` outside 1 to 64.
fn saturation_member(value: &Value<'_>) -> Result<u32, Stop<Wrong>>
    ensures { result ≡ saturation_of (get (codes "saturation") (view value.now)) }
{
    let Some(number) = member(value, "saturation") else {
        return Ok(4);
    };
    match as_natural(number) {
        Some(n) if (1..=64).contains(&n) => Ok(n as u32),
        _ => Err(Stop::Fault(Wrong::Shape)),
    }
}

// A codec, after those before it.
#[tactic(auto, unfolding(crate::specs::Codecs::codec_of))]
fn read_codec(
    alloc: Global,
    before: &[CodecItem],
    value: &Value<'_>,
) -> Result<CodecItem, Stop<Wrong>>
    ensures { Gives result (codec_of before.now (view value.now)) }
{
    let name = name_member(value, "name")?;
    let kind = kind_member(value).ok_or(Stop::Fault(Wrong::Shape))?;
    let saturation = saturation_member(value)?;
    if is_codec_name(before, name) {
        return Err(Stop::Fault(Wrong::Twice));
    }
    let name = copied(alloc, name)?;
    Ok(CodecItem {
        name,
        kind,
        saturation,
    })
}

fn read_codec_at(
    alloc: Global,
    i: u32,
    before: &[CodecItem],
    value: &Value<'_>,
) -> Result<CodecItem, Stop<Fault>>
    ensures { Gives result (faults.at (Place.Codec i) (codec_of before.now (view value.now))) }
{
    match read_codec(alloc, before, value) {
        Ok(codec) => Ok(codec),
        Err(stop) => Err(fault_at(Place::Codec(i), stop)),
    }
}

pub fn read_codecs(alloc: Global, items: &[Value<'_>]) -> Result<Vec<CodecItem>, Stop<Fault>>
    requires { length items.now ≤ 64 }
    ensures given { GivesAs (λ v. v.items) result (codecs_of 0 [] (items_view items.now)) }
    ensures few { IfOk result (λ v. length v.items ≤ 64) }
{
    let mut codecs = Vec::new(alloc);
    for (i, value) in items.iter().enumerate() {
        let codec = read_codec_at(alloc, i as u32, &codecs, value)?;
        if codecs.push(codec).is_err() {
            return Err(Stop::NoMemory);
        }
    }
    Ok(codecs)
}
