//! Words of a line, and the numbers that they write.

ghost use Rattle.std.specs.Prelude.{◌≡◌, ◌<◌, ◌≤◌, ◌^◌, IfSome, option_map, position};
ghost use Rattle.std.specs.Char.{is_ascii_digit};
ghost use Rattle.std.specs.List.{list_all, position_or_len};
ghost use Rattle.text_words.specs.Integers.{is_positive_numeral as is_positive};
ghost use Rattle.text_words.specs.Words.{is_blank as is_blank_byte};
ghost use Rattle.world_script.specs.Words.{next_word as word_at, is_end as ends_here, is_number_form as is_form};
ghost use Rattle.world_script.specs.Words.{number_of as number_in, number_at as number_here};
ghost use Rattle.world_script.specs.Words.{number_below as number_under};

use std::str;
use text_words::skip_blanks;

/// The next word of a line, up to a blank or the line's end, and what stands after it. It is empty where there is none.
pub(crate) fn next_word(rest: &[u8]) -> (&[u8], &[u8])
    ensures { (result.0.now, result.1.now) ≡ word_at rest.now }
{
    let start = skip_blanks(rest);
    start.split_at(word_length(start))
}

/// Whether only blanks follow.
pub(crate) fn is_end(rest: &[u8]) -> bool
    ensures { result ≡ ends_here rest.now }
{
    skip_blanks(rest).is_empty()
}

/// How many bytes stand before the first blank.
fn word_length(start: &[u8]) -> usize
    ensures { result ≡ position_or_len is_blank_byte start.now }
{
    place_of_blank(start).unwrap_or(start.len())
}

fn place_of_blank(start: &[u8]) -> Option<usize>
    ensures { result ≡ position is_blank_byte start.now }
{
    start
        .iter()
        .position(|byte| *byte == b' ' || *byte == b'\t')
}

/// The number below 2^64 that a word writes: digits, without a leading zero but for `0` itself.
fn number_of(word: &[u8]) -> Option<u64>
    ensures { result ≡ number_in word.now }
{
    if !is_number_form(word) {
        return None;
    }
    match str::from_utf8(word) {
        Ok(digits) => digits.parse().ok(),
        Err(_) => None,
    }
}

/// Whether a word is a number in decimal, of whatever size.
fn is_number_form(word: &[u8]) -> bool
    ensures { result ≡ is_form word.now }
{
    word == b"0".as_slice() || is_positive_numeral(word)
}

fn is_positive_numeral(digits: &[u8]) -> bool
    ensures { result ≡ is_positive digits.now }
{
    match digits {
        [] | [b'0', ..] => false,
        _ => are_digits(digits),
    }
}

fn are_digits(bytes: &[u8]) -> bool
    ensures { result ≡ list_all is_ascii_digit bytes.now }
{
    bytes.iter().all(|byte| byte.is_ascii_digit())
}

/// The number that the next word writes, and what stands after it.
pub(crate) fn number_at(rest: &[u8]) -> Option<(u64, &[u8])>
    ensures { option_map (λ read. (read.0, read.1.now)) result ≡ number_here rest.now }
{
    let (word, after) = next_word(rest);
    Some((number_of(word)?, after))
}

/// The number below a limit that the next word writes, and what stands after it.
pub(crate) fn number_below(limit: u64, rest: &[u8]) -> Option<(u32, &[u8])>
    requires { limit ≤ 2 ^ 32 }
    ensures read { option_map (λ read. (read.0, read.1.now)) result ≡ number_under limit rest.now }
    ensures below { IfSome result (λ read. read.0 < limit) }
{
    let (number, after) = number_at(rest)?;
    if number < limit {
        Some((number as u32, after))
    } else {
        None
    }
}
