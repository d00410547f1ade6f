//! The number that a numeral of JSON stands for.
ghost use Rattle.std.specs.Prelude.{◌≡◌, ◌<◌, ◌==◌, IsTrue, length, option_map, slice_index, true, false};
ghost use Rattle.serde_json.specs.Read.{float_of, number_from, number_of as kit_number_of};
ghost use Rattle.serde_json.specs.View.{number_view};
ghost use Rattle.structured_attrs.specs.Numerals.{number_of};

use fast_float::Numeral;
use serde_json::Number;

// The number that a numeral of JSON stands for, where there is one.
pub(crate) fn parse_number(numeral: &str) -> Option<Number>
    ensures { option_map number_view result ≡ number_of numeral.now }
{
    if numeral == "-0" {
        return Some(Number::from(0u64));
    }
    kit_number(numeral.as_bytes())
}

// The number of a numeral, where `-0` is a double.
fn kit_number(numeral: &[u8]) -> Option<Number>
    ensures { option_map number_view result ≡ kit_number_of numeral.now }
{
    if has_minus(numeral) {
        negative_number(&Numeral::scan(&numeral[1..]))
    } else {
        positive_number(&Numeral::scan(numeral))
    }
}

// Whether the bytes begin with a minus.
pub(crate) fn has_minus(bytes: &[u8]) -> bool
    ensures value { result ≡ (slice_index bytes.now 0 == 45) }
    ensures len { IsTrue result → 0 < length bytes.now }
{
    !bytes.is_empty() && bytes[0] == b'-'
}

// The number of a numeral that stands after no minus.
fn positive_number(numeral: &Numeral<'_>) -> Option<Number>
    ensures { option_map number_view result ≡ number_from false numeral.now }
{
    match numeral.to_u64() {
        Some(n) => Some(Number::from(n)),
        None => nearest_number(false, numeral),
    }
}

// The number of a numeral that stands after a minus.
fn negative_number(numeral: &Numeral<'_>) -> Option<Number>
    ensures { option_map number_view result ≡ number_from true numeral.now }
{
    if let Some(n) = numeral.to_i64(true) {
        if n < 0 {
            return Some(Number::from(n));
        }
    }
    nearest_number(true, numeral)
}

// The double nearest to a numeral, where it is finite.
fn nearest_number(negative: bool, numeral: &Numeral<'_>) -> Option<Number>
    ensures { option_map number_view result ≡ float_of negative numeral.now }
{
    Number::from_f64(numeral.to_float::<f64>(negative))
}
