//! Texts in double quotes, and their escapes.

ghost use Rattle.std.specs.Prelude.{◌≡◌, [], option_map, IfOk};
ghost use Rattle.text_words.specs.Quoted.{text_at, closing, piece_at, escape_at, hex_escape, digit_of};

use crate::ByteString;
use std::alloc::{AllocError, Global};

/// The text that goes on after its opening quote, and the bytes after its closing quote.
pub(crate) fn text_of(
    alloc: Global,
    bytes: &[u8],
) -> Result<Option<(ByteString, &[u8])>, AllocError>
    ensures { IfOk result (λ found. option_map (λ read. (read.0, read.1.now)) found ≡ text_at bytes.now) }
{
    let mut text = Vec::new(alloc);
    let mut rest = bytes;
    while let Some((byte, after)) = piece(rest) {
        text.push(byte)?;
        rest = after;
    }
    let Some(after) = after_quote(rest) else {
        return Ok(None);
    };
    Ok(Some((ByteString::from_vec(text), after)))
}

/// The bytes after a closing quote.
fn after_quote(bytes: &[u8]) -> Option<&[u8]>
    ensures { option_map (λ after. ([], after.now)) result ≡ closing bytes.now }
{
    match bytes {
        [b'"', after @ ..] => Some(after),
        _ => None,
    }
}

/// One byte of a text, as it stands or escaped, and the bytes after it.
fn piece(bytes: &[u8]) -> Option<(u8, &[u8])>
    ensures { option_map (λ read. (read.0, read.1.now)) result ≡ piece_at bytes.now }
{
    match bytes {
        [] | [b'"', ..] => None,
        [b'\\', rest @ ..] => escape(rest),
        [byte, ..] if *byte < 0x20 => None,
        [byte, rest @ ..] => Some((*byte, rest)),
    }
}

/// What stands after a backslash.
fn escape(bytes: &[u8]) -> Option<(u8, &[u8])>
    ensures { option_map (λ read. (read.0, read.1.now)) result ≡ escape_at bytes.now }
{
    match bytes {
        [b'"', rest @ ..] => Some((b'"', rest)),
        [b'\\', rest @ ..] => Some((b'\\', rest)),
        [b'n', rest @ ..] => Some((b'\n', rest)),
        [b't', rest @ ..] => Some((b'\t', rest)),
        [b'x', rest @ ..] => hex_byte(rest),
        _ => None,
    }
}

/// What stands after `\x`: two digits of a byte below 80 hexadecimal.
fn hex_byte(bytes: &[u8]) -> Option<(u8, &[u8])>
    ensures { option_map (λ read. (read.0, read.1.now)) result ≡ hex_escape bytes.now }
{
    let [high, low, rest @ ..] = bytes else {
        return None;
    };
    let high = digit(*high)?;
    let low = digit(*low)?;
    if high < 8 {
        Some((16 * high + low, rest))
    } else {
        None
    }
}

/// The value of a lower-case hexadecimal digit.
fn digit(byte: u8) -> Option<u8>
    ensures { result ≡ digit_of byte }
{
    match byte {
        b'0'..=b'9' => Some(byte - b'0'),
        b'a'..=b'f' => Some(byte - b'a' + 10),
        _ => None,
    }
}
