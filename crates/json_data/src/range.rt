// Whether all numbers of a value are within the range of floats.
ghost use Rattle.std.specs.Prelude.{◌≡◌, is_some};
ghost use Rattle.json.specs.Value.{items_view, members_view, value_view};
ghost use Rattle.serde_json.specs.Data.{no_members};
ghost use Rattle.serde_json.specs.Read.{of_items, of_json, of_members};

use crate::numeral::is_number_in_range;
use json::Value;

#[cycle(range)]
pub(crate) fn is_in_range(value: &Value<'_>) -> bool
    ensures { result ≡ is_some (of_json (value_view value.now)) }
{
    match value {
        Value::Number(text) => is_number_in_range(text),
        Value::Array(items) => are_items_in_range(items),
        Value::Object(members) => are_members_in_range(members),
        _ => true,
    }
}

#[cycle(range)]
fn are_items_in_range(items: &[Value<'_>]) -> bool
    ensures { result ≡ is_some (of_items (items_view items.now)) }
{
    for item in items {
        if !is_in_range(item) {
            return false;
        }
    }
    true
}

#[cycle(range)]
fn are_members_in_range(members: &[(&str, Value<'_>)]) -> bool
    ensures { result ≡ is_some (of_members (members_view members.now) no_members) }
{
    for member in members {
        if !is_in_range(&member.1) {
            return false;
        }
    }
    true
}
