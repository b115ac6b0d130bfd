//! Numbers among the words.

ghost use Rattle.std.specs.Prelude.{◌≡◌};
ghost use Rattle.std.specs.Char.{is_ascii_digit};
ghost use Rattle.std.specs.List.{list_all};
ghost use Rattle.js_words.specs.Numbers as N;

/// The number of a plain decimal, if it is from `low` to `high`. `clap`'s own reader also takes `+4` and `007`.
pub(crate) fn number_in(text: &str, low: u32, high: u32) -> Option<u32>
    ensures { result ≡ N.number_in low high text.now }
{
    if !is_plain_decimal(text) {
        return None;
    }
    match text.parse::<u32>() {
        Ok(number) => {
            if low <= number && number <= high {
                Some(number)
            } else {
                None
            }
        }
        Err(_) => None,
    }
}

/// Digits without a sign and without a leading zero.
fn is_plain_decimal(text: &str) -> bool
    ensures { result ≡ N.is_plain_decimal text.now }
{
    let bytes = text.as_bytes();
    if bytes.is_empty() || !are_digits(bytes) {
        return false;
    }
    bytes[0] != b'0' || bytes.len() == 1
}

fn are_digits(bytes: &[u8]) -> bool
    ensures { result ≡ list_all is_ascii_digit bytes.now }
{
    bytes.iter().all(|b| b.is_ascii_digit())
}
