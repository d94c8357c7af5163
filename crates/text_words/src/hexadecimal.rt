//! Bytes in lower-case hexadecimal, and names of rows.

ghost use Rattle.std.specs.Prelude.{◌≡◌, position};
ghost use Rattle.std.specs.List.{list_all};
ghost use Rattle.text_words.specs.Hexadecimal.{is_lower_digit, block_of_hex, index_of as number_of, is_colon, row_of};

use crate::integer_of;

/// The bytes that lower-case hexadecimal digits write, two digits for each byte.
pub fn bytes_of_hex<const N: usize>(digits: &[u8]) -> Option<[u8; N]>
    ensures { result ≡ block_of_hex N digits.now }
{
    let mut bytes = [0; N];
    if !are_lower_digits(digits) || hex::decode_to_slice(digits, &mut bytes).is_err() {
        return None;
    }
    Some(bytes)
}

fn are_lower_digits(digits: &[u8]) -> bool
    ensures { result ≡ list_all is_lower_digit digits.now }
{
    digits
        .iter()
        .all(|byte| matches!(*byte, b'0'..=b'9' | b'a'..=b'f'))
}

/// The name of a row that a word writes: the id of an update in 64 lower-case hexadecimal digits, `:`, and the number
/// of an operation in decimal, without leading zeros and within 16 bits.
pub fn row_name_of(word: &[u8]) -> Option<([u8; 32], u16)>
    ensures { result ≡ row_of word.now }
{
    let colon = place_of_colon(word)?;
    let id = bytes_of_hex(&word[..colon])?;
    let index = index_of(&word[colon + 1..])?;
    Some((id, index))
}

fn place_of_colon(word: &[u8]) -> Option<usize>
    ensures { result ≡ position is_colon word.now }
{
    word.iter().position(|byte| *byte == b':')
}

/// The number of an operation that a word writes.
fn index_of(word: &[u8]) -> Option<u16>
    ensures { result ≡ number_of word.now }
{
    u16::try_from(integer_of(word)?).ok()
}
