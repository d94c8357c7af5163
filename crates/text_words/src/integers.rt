ghost use Rattle.std.specs.Prelude.{◌≡◌};
ghost use Rattle.std.specs.Char.{is_ascii_digit};
ghost use Rattle.std.specs.List.{list_all};
ghost use Rattle.text_words.specs.Integers.{int_of, is_integer_form as is_form, is_positive_numeral as is_numeral};

use std::str;

/// The integer that a word writes: an optional `-` and digits, without a leading zero but for `0` itself, within 64
/// bits. `-0` is none.
pub fn integer_of(bytes: &[u8]) -> Option<i64>
    ensures { result ≡ int_of bytes.now }
{
    if !is_integer_form(bytes) {
        return None;
    }
    match str::from_utf8(bytes) {
        Ok(digits) => digits.parse().ok(),
        Err(_) => None,
    }
}

/// Whether bytes are an integer in decimal, of whatever size.
fn is_integer_form(bytes: &[u8]) -> bool
    ensures { result ≡ is_form bytes.now }
{
    match bytes {
        [b'-', digits @ ..] => is_positive_numeral(digits),
        _ => bytes == b"0".as_slice() || is_positive_numeral(bytes),
    }
}

fn is_positive_numeral(digits: &[u8]) -> bool
    ensures { result ≡ is_numeral digits.now }
{
    match digits {
        [] | [b'0', ..] => false,
        _ => are_digits(digits),
    }
}

fn are_digits(bytes: &[u8]) -> bool
    ensures { result ≡ list_all is_ascii_digit bytes.now }
{
    bytes.iter().all(|byte| byte.is_ascii_digit())
}
