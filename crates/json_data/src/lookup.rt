// Looking into a value.
ghost use Rattle.std.specs.Prelude.{◌≡◌, is_some, option_and_then, option_map};
ghost use Rattle.serde_json.specs.Find.{as_array, as_i64, as_number, as_object, as_str, as_u64, get};
ghost use Rattle.json_data.specs.View.{items_view, view};

use crate::numeral::{natural_of, signed_of};
use json::Value;

/// The member of this name, where the value is an object. Of equal names the last holds.
pub fn member<'v, 'a>(value: &'v Value<'a>, key: &str) -> Option<&'v Value<'a>>
    ensures { option_map (λ v. view v.now) result ≡ get key.now (view value.now) }
{
    value.get(key)
}

/// The text of a string.
pub fn as_text<'v, 'a>(value: &'v Value<'a>) -> Option<&'v str>
    ensures { option_map (λ s. s.now) result ≡ as_str (view value.now) }
{
    value.as_str()
}

/// The items of an array.
pub fn as_items<'v, 'a>(value: &'v Value<'a>) -> Option<&'v [Value<'a>]>
    ensures { option_map (λ s. items_view s.now) result ≡ as_array (view value.now) }
{
    match value {
        Value::Array(items) => Some(items.as_slice()),
        _ => None,
    }
}

/// Whether the value is an object.
pub fn is_object(value: &Value<'_>) -> bool
    ensures { result ≡ is_some (as_object (view value.now)) }
{
    matches!(value, Value::Object(_))
}

/// A number that is an integer from 0 to 2^64 - 1, written with no minus, point or exponent.
pub fn as_natural(value: &Value<'_>) -> Option<u64>
    ensures { result ≡ option_and_then as_u64 (as_number (view value.now)) }
{
    natural_of(value.as_number()?)
}

/// A number that is an integer from -2^63 to 2^63 - 1, written with no point or exponent. `-0` is none.
pub fn as_signed(value: &Value<'_>) -> Option<i64>
    ensures { result ≡ option_and_then as_i64 (as_number (view value.now)) }
{
    signed_of(value.as_number()?)
}
