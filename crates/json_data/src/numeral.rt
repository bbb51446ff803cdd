// Numbers, by their texts.
ghost use Rattle.std.specs.Prelude.{◌≡◌, ◌==◌, drop, false, if◌then◌else◌, is_some, option_and_then, option_map, slice_index, true};
ghost use Rattle.fast_float.specs.Text.{minus};
ghost use Rattle.serde_json.specs.Find.{as_i64, as_u64};
ghost use Rattle.serde_json.specs.Read.{float_of, number_from, number_of};

use fast_float::Numeral;

// What stands behind a minus at the front.
fn behind_minus(text: &[u8]) -> Option<&[u8]>
    ensures { option_map (λ s. s.now) result
        ≡ (if slice_index text.now 0 == minus then Some (drop 1 text.now) else None) }
{
    match text {
        [b'-', digits @ ..] => Some(digits),
        _ => None,
    }
}

fn natural(numeral: &Numeral<'_>) -> Option<u64>
    ensures { result ≡ option_and_then as_u64 (number_from false numeral.now) }
{
    numeral.to_u64()
}

fn from_zero(numeral: &Numeral<'_>) -> Option<i64>
    ensures { result ≡ option_and_then as_i64 (number_from false numeral.now) }
{
    numeral.to_i64(false)
}

// Zero behind a minus is a float, as in serde_json.
fn below_zero(numeral: &Numeral<'_>) -> Option<i64>
    ensures { result ≡ option_and_then as_i64 (number_from true numeral.now) }
{
    match numeral.to_i64(true) {
        Some(number) if number < 0 => Some(number),
        _ => None,
    }
}

fn is_finite(numeral: &Numeral<'_>, negative: bool) -> bool
    ensures { result ≡ is_some (float_of negative numeral.now) }
{
    numeral.to_float::<f64>(negative).is_finite()
}

// Integers of 64 bits are told first, since floats take longer.
fn fits(numeral: &Numeral<'_>, negative: bool) -> bool
    ensures { result ≡ is_some (number_from negative numeral.now) }
{
    if negative {
        below_zero(numeral).is_some() || is_finite(numeral, true)
    } else {
        natural(numeral).is_some() || is_finite(numeral, false)
    }
}

// Whether a number is within the range of floats.
pub(crate) fn is_number_in_range(text: &str) -> bool
    ensures { result ≡ is_some (number_of text.now) }
{
    let text = text.as_bytes();
    match behind_minus(text) {
        Some(digits) => fits(&Numeral::scan(digits), true),
        None => fits(&Numeral::scan(text), false),
    }
}

pub(crate) fn natural_of(text: &str) -> Option<u64>
    ensures { result ≡ option_and_then as_u64 (number_of text.now) }
{
    let text = text.as_bytes();
    match behind_minus(text) {
        Some(_) => None,
        None => natural(&Numeral::scan(text)),
    }
}

pub(crate) fn signed_of(text: &str) -> Option<i64>
    ensures { result ≡ option_and_then as_i64 (number_of text.now) }
{
    let text = text.as_bytes();
    match behind_minus(text) {
        Some(digits) => below_zero(&Numeral::scan(digits)),
        None => from_zero(&Numeral::scan(text)),
    }
}
