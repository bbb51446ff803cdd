// Names of steps, entries, looks, items and coders.
ghost use Rattle.std.specs.Prelude.{◌≡◌, ◌++◌, OnOk};
ghost use Rattle.report_text.specs.Names as spec;

use crate::pieces::{push_number, push_text};
use crate::words::{codec_text, role_text};
use script_types::{CallerItem, CodecItem, ScriptData};
use std::alloc::AllocError;
use wc_base::{By, Who};
use wc_config::CoderId;

/// The name of a codec by its number, empty where the script has no such codec.
pub fn codec_name(codecs: &[CodecItem], number: u64) -> &str
    ensures { result.now ≡ spec.codec_name codecs.now number }
{
    match codecs.get(number as usize) {
        Some(codec) => codec.name.as_str(),
        None => "",
    }
}

/// The name of a caller by its number, empty where the script has no such caller.
pub fn caller_name(callers: &[CallerItem], number: u64) -> &str
    ensures { result.now ≡ spec.caller_name callers.now number }
{
    match callers.get(number as usize) {
        Some(caller) => caller.name.as_str(),
        None => "",
    }
}

// A caller's step, as `a.2`.
pub(crate) fn push_step(
    line: &mut Vec<u8>,
    callers: &[CallerItem],
    who: Who,
) -> Result<(), AllocError>
    ensures { OnOk result (line.new.items ≡ line.old.items ++ spec.who_text callers.now who) }
{
    let caller = caller_name(callers, u64::from(who.caller));
    push_text(line, caller)?;
    push_text(line, ".")?;
    push_number(line, u64::from(who.step))
}

// An entry of the codec with this number among these, by its place, as `d.2`.
pub(crate) fn push_entry_name(
    line: &mut Vec<u8>,
    codecs: &[CodecItem],
    codec: u32,
    place: u64,
) -> Result<(), AllocError>
    ensures { OnOk result
        (line.new.items ≡ line.old.items ++ spec.entry_name codecs.now codec place) }
{
    push_text(line, codec_name(codecs, u64::from(codec)))?;
    push_text(line, ".")?;
    push_number(line, place)
}

// A look at the codec with this number among these, after so many entries, as `d:14`.
pub(crate) fn push_look_name(
    line: &mut Vec<u8>,
    codecs: &[CodecItem],
    codec: u32,
    length: u64,
) -> Result<(), AllocError>
    ensures { OnOk result
        (line.new.items ≡ line.old.items ++ spec.look_name codecs.now codec length) }
{
    push_text(line, codec_name(codecs, u64::from(codec)))?;
    push_text(line, ":")?;
    push_number(line, length)
}

// Who caused an entry of the registry or of the pool.
pub(crate) fn push_cause(line: &mut Vec<u8>, script: &ScriptData, by: By) -> Result<(), AllocError>
    ensures { OnOk result (line.new.items ≡ line.old.items ++ spec.by_text script.now by) }
{
    match by {
        By::Caller(who) => push_step(line, script.callers.as_slice(), who),
        By::Codec { codec, place } => {
            push_entry_name(line, script.codecs.as_slice(), codec, place)
        }
    }
}

// An item of an epoch, as `0.1`.
pub(crate) fn push_item(line: &mut Vec<u8>, epoch: u64, item: u64) -> Result<(), AllocError>
    ensures { OnOk result (line.new.items ≡ line.old.items ++ spec.item_text epoch item) }
{
    push_number(line, epoch)?;
    push_text(line, ".")?;
    push_number(line, item)
}

// A coder's id, as `decode:pcm-s16`.
pub(crate) fn push_coder(line: &mut Vec<u8>, id: CoderId) -> Result<(), AllocError>
    ensures { OnOk result (line.new.items ≡ line.old.items ++ spec.coder_text id) }
{
    push_text(line, role_text(id.role))?;
    push_text(line, ":")?;
    push_text(line, codec_text(id.codec))
}
