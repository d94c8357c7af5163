ghost use Rattle.std.specs.Prelude.{◌≡◌, ◌≤◌, length};
ghost use Rattle.std.specs.Char.{is_ascii_digit};
ghost use Rattle.std.specs.List.{list_all};
ghost use Rattle.update_model.specs.declared.limits.TheConstants.{MAX_TEXT};
ghost use Rattle.row_check.specs.Checksum.{is_luhn, luhn_sum, weight_of};

use crate::{Checks, Relation};
use update_model::Value;

/// The relation of the checksum of payment card numbers (ISO/IEC 7812-1, annex B): true exactly for check number 1
/// and one argument, a text of at least one digit and nothing else, whose Luhn sum is a multiple of 10.
#[derive(Drop)]
pub struct Luhn;

impl Relation for Luhn {
    ghost answer = { is_luhn };
}

impl Checks<Luhn> for Luhn {
    fn check(&self, number: u16, args: &[Value]) -> bool {
        passes_luhn(number, args)
    }
}

/// Whether [`Luhn`] holds of this number and these arguments.
pub fn passes_luhn(number: u16, args: &[Value]) -> bool
    ensures { result ≡ is_luhn number args.now }
{
    match args {
        [Value::Text(text)] => {
            let digits = text.as_slice();
            number == 1 && !digits.is_empty() && are_digits(digits) && sum(digits) % 10 == 0
        }
        _ => false,
    }
}

fn are_digits(bytes: &[u8]) -> bool
    ensures { result ≡ list_all is_ascii_digit bytes.now }
{
    bytes.iter().all(|byte| byte.is_ascii_digit())
}

/// The sum of digits, every second one from the right doubled.
fn sum(digits: &[u8]) -> u32
    requires { length digits.now ≤ MAX_TEXT }
    ensures { result ≡ luhn_sum digits.now }
{
    let mut sum = 0;
    let mut doubles = false;
    let mut rest = digits;
    while let Some((last, front)) = rest.split_last() {
        sum += weight(last.saturating_sub(b'0'), doubles);
        doubles = !doubles;
        rest = front;
    }
    sum
}

/// What a digit adds to the sum.
fn weight(digit: u8, doubles: bool) -> u32
    ensures { result ≡ weight_of doubles digit }
{
    let digit = u32::from(digit);
    match doubles {
        false => digit,
        true if digit > 4 => 2 * digit - 9,
        true => 2 * digit,
    }
}
