// The pieces of a line: texts, numbers and hex, each appended to what stands on the line already.
ghost use Rattle.std.specs.Prelude.{◌≡◌, ◌++◌, OnOk, decimal};
ghost use Rattle.std.specs.Fmt.{signed_decimal};
ghost use Rattle.hex.specs.Hex.{encode_lower};
ghost use Rattle.report_text.specs.Text as spec;

use hex::encode_to_slice;
use itoa::Buffer;
use std::alloc::AllocError;

pub(crate) fn push_bytes(line: &mut Vec<u8>, bytes: &[u8]) -> Result<(), AllocError>
    ensures { OnOk result (line.new.items ≡ line.old.items ++ bytes.now) }
{
    line.extend_from_slice(bytes)
}

pub(crate) fn push_text(line: &mut Vec<u8>, text: &str) -> Result<(), AllocError>
    ensures { OnOk result (line.new.items ≡ line.old.items ++ text.now) }
{
    line.extend_from_slice(text.as_bytes())
}

pub(crate) fn push_number(line: &mut Vec<u8>, number: u64) -> Result<(), AllocError>
    ensures { OnOk result (line.new.items ≡ line.old.items ++ decimal number) }
{
    let mut buffer = Buffer::new();
    line.extend_from_slice(buffer.format(number).as_bytes())
}

pub(crate) fn push_signed(line: &mut Vec<u8>, number: i64) -> Result<(), AllocError>
    ensures { OnOk result (line.new.items ≡ line.old.items ++ signed_decimal number) }
{
    let mut buffer = Buffer::new();
    line.extend_from_slice(buffer.format(number).as_bytes())
}

// A number, or `-` where it is absent.
pub(crate) fn push_number_or_dash(line: &mut Vec<u8>, number: Option<u64>) -> Result<(), AllocError>
    ensures { OnOk result (line.new.items ≡ line.old.items ++ spec.number_or_dash number) }
{
    match number {
        None => push_text(line, "-"),
        Some(number) => push_number(line, number),
    }
}

// The bytes in lower case hex.
fn push_hex(line: &mut Vec<u8>, bytes: &[u8]) -> Result<(), AllocError>
    ensures { OnOk result (line.new.items ≡ line.old.items ++ encode_lower bytes.now) }
{
    let old = line.len();
    let Some(digits) = bytes.len().checked_mul(2) else {
        return Err(AllocError);
    };
    let Some(all) = old.checked_add(digits) else {
        return Err(AllocError);
    };
    line.resize(all, 0)?;
    match encode_to_slice(bytes, &mut line.as_mut_slice()[old..]) {
        Ok(()) => Ok(()),
        Err(_) => unreachable!(),
    }
}

// The bytes in lower case hex, or `-` where there are none.
pub(crate) fn push_hex_or_dash(line: &mut Vec<u8>, bytes: &[u8]) -> Result<(), AllocError>
    ensures { OnOk result (line.new.items ≡ line.old.items ++ spec.hex_or_dash bytes.now) }
{
    match bytes {
        [] => line.push(b'-')?,
        _ => push_hex(line, bytes)?,
    }
    Ok(())
}
