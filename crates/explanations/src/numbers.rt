//! Numbers in decimal.

ghost use Rattle.std.specs.Prelude.{◌≡◌, ◌++◌, option_map, OnOk};
ghost use Rattle.std.specs.Fmt.{decimal};
ghost use Rattle.explanations.specs.Matching.{number_at as number_in, number_from, with_digit as one_digit_more};

use itoa::Buffer;
use std::alloc::AllocError;

/// The number that stands at the front of a text, where one does, and what comes behind its digits. One above 2^64 - 1
/// counts as that.
pub(crate) fn number_at(text: &[u8]) -> Option<(u64, &[u8])>
    ensures { option_map (λ read. (read.0, read.1.now)) result ≡ number_in text.now }
{
    match text {
        [b'0'..=b'9', ..] => Some(number_of(text)),
        _ => None,
    }
}

/// The number that the digits at the front write, and what comes behind them.
fn number_of(text: &[u8]) -> (u64, &[u8])
    ensures { (result.0, result.1.now) ≡ number_from 0 text.now }
{
    let mut number: u64 = 0;
    let mut rest = text;
    while let [digit, later @ ..] = rest {
        if !digit.is_ascii_digit() {
            break;
        }
        number = with_digit(number, *digit);
        rest = later;
    }
    (number, rest)
}

/// The number with a digit more behind it.
fn with_digit(number: u64, digit: u8) -> u64
    ensures { result ≡ one_digit_more number digit }
{
    number
        .saturating_mul(10)
        .saturating_add(u64::from(digit.saturating_sub(b'0')))
}

/// Adds a number in decimal.
pub(crate) fn push_number(out: &mut Vec<u8>, number: u64) -> Result<(), AllocError>
    ensures { OnOk result (out.new.items ≡ out.old.items ++ decimal number) }
{
    let mut buffer = Buffer::new();
    out.extend_from_slice(buffer.format(number).as_bytes())
}
