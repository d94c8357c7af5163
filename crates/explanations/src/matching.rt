//! Whether a line is of a kind of refusal, and the numbers that it has.

ghost use Rattle.std.specs.Prelude.{◌≡◌, option_copied, option_map};
ghost use Rattle.explanations.specs.Matching.{after_byte as byte_passed, after_id as id_passed, marked as with_mark};
ghost use Rattle.explanations.specs.Matching.{matched_sign as sign_matched, numbers_of};

use crate::marks::Marks;
use crate::numbers::number_at;

/// The numbers that a line has where it is of the kind that a key of the table describes: `L`, `C`, `N`, `K` and `P` in
/// the key are a number in decimal, `D` is digits of an id, and any other byte is itself.
pub(crate) fn matched(key: &[u8], said: &[u8]) -> Option<Marks>
    ensures { result ≡ numbers_of key.now said.now }
{
    let mut marks = Marks::NONE;
    let mut signs = key;
    let mut left = said;
    while let [sign, later @ ..] = signs {
        let (found, rest) = matched_sign(*sign, marks, left)?;
        marks = found;
        left = rest;
        signs = later;
    }
    if left.is_empty() { Some(marks) } else { None }
}

/// What one byte of a key takes from the front of a line: the numbers with what it found, and what comes behind it.
fn matched_sign(sign: u8, marks: Marks, said: &[u8]) -> Option<(Marks, &[u8])>
    ensures { option_map (λ read. (read.0, read.1.now)) result ≡ sign_matched sign marks said.now }
{
    match sign {
        b'C' | b'K' | b'L' | b'N' | b'P' => {
            let (number, rest) = number_at(said)?;
            Some((marked(sign, marks, number), rest))
        }
        b'D' => Some((marks, after_id(said))),
        _ => Some((marks, after_byte(sign, said)?)),
    }
}

/// The numbers with one more.
fn marked(sign: u8, marks: Marks, number: u64) -> Marks
    ensures { result ≡ with_mark sign marks number }
{
    match sign {
        b'C' => Marks {
            column: Some(number),
            ..marks
        },
        b'K' => Marks {
            operation: Some(number),
            ..marks
        },
        b'L' => Marks {
            line: Some(number),
            ..marks
        },
        b'N' => Marks {
            number: Some(number),
            ..marks
        },
        _ => marks,
    }
}

/// What comes behind the digits of an id.
fn after_id(said: &[u8]) -> &[u8]
    ensures { result.now ≡ id_passed said.now }
{
    let mut rest = said;
    while let [b'0'..=b'9' | b'a'..=b'f', later @ ..] = rest {
        rest = later;
    }
    rest
}

/// What comes behind this byte.
fn after_byte(sign: u8, said: &[u8]) -> Option<&[u8]>
    ensures { option_copied result ≡ byte_passed sign said.now }
{
    match said {
        [byte, rest @ ..] if *byte == sign => Some(rest),
        _ => None,
    }
}
