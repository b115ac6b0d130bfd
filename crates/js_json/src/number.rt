//! Numbers as a JSON text writes them.
//!
//! What is held as a 64-bit integer is whole, and any other number isn't; one that is too large for a float is none.
//! Both readers of texts stand on this. It costs time in proportion to the text and takes no memory.

ghost use Rattle.std.specs.Prelude.{◌≡◌, ◌==◌, ◌<◌, IsTrue, true, false, length, option_map, slice_index};
ghost use Rattle.serde_json.specs.Read.{number_of, number_from, float_of};
ghost use Rattle.js_json.specs.Value.{json_number};
ghost use Rattle.js_json.specs.Reading.{json_written};

use fast_float::Numeral;

/// What a number's text writes.
#[derive(Clone, Copy, Drop)]
pub(crate) enum Written {
    Whole(i128),
    NotWhole,
    TooLarge,
}

/// The number of a token.
pub(crate) fn number(text: &str) -> Written
    ensures { json_written result ≡ option_map json_number (number_of text.now) }
{
    let bytes = text.as_bytes();
    if has_minus(bytes) {
        below_zero(&Numeral::scan(&bytes[1..]))
    } else {
        without_sign(&Numeral::scan(bytes))
    }
}

fn has_minus(bytes: &[u8]) -> bool
    ensures value { result ≡ (slice_index bytes.now 0 == 45) }
    ensures len { IsTrue result → 0 < length bytes.now }
{
    !bytes.is_empty() && bytes[0] == b'-'
}

fn without_sign(numeral: &Numeral<'_>) -> Written
    ensures { json_written result ≡ option_map json_number (number_from false numeral.now) }
{
    match numeral.to_u64() {
        Some(n) => Written::Whole(i128::from(n)),
        None => nearest(false, numeral),
    }
}

/// A zero with a sign isn't whole.
fn below_zero(numeral: &Numeral<'_>) -> Written
    ensures { json_written result ≡ option_map json_number (number_from true numeral.now) }
{
    if let Some(n) = numeral.to_i64(true) {
        if n < 0 {
            return Written::Whole(i128::from(n));
        }
    }
    nearest(true, numeral)
}

fn nearest(negative: bool, numeral: &Numeral<'_>) -> Written
    ensures { json_written result ≡ option_map json_number (float_of negative numeral.now) }
{
    if numeral.to_float::<f64>(negative).is_finite() {
        Written::NotWhole
    } else {
        Written::TooLarge
    }
}
