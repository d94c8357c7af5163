//! What the words of each command about seals ask for.

ghost use Rattle.std.specs.Prelude.{◌≡◌, IfOk, MatchOption, map, option_map, string_bytes};
ghost use Rattle.std.specs.List.{list_all};
ghost use Rattle.text_words.specs.Hexadecimal.{is_lower_digit};
ghost use Rattle.command_words.specs.SealCommands.{hsskey_asked, hsskey_of, seal_of, seal_request_named};
ghost use Rattle.command_words.specs.SealCommands.{seal_request_of, unseal_asked, unseal_of, unseal_with};
ghost use Rattle.command_words.specs.SealRequests.{AsksSeal, SealText, hex_bytes, level_height_of};
ghost use Rattle.command_words.specs.Seen.{seal_seen};

use crate::argument::{Argument, Form};
use crate::given::Given;
use crate::reading::read_words;
use crate::requests::{directory_of, width_of};
use crate::{SealRequest, seal_requests_are_by_rule};
use hex::FromHexError;
use lms_tree::LmsType;
use std::alloc::{AllocError, Global};
use text_words::bytes_of_hex;

/// What these words ask for about seals, or `None` where they ask for nothing about them. The first word names the
/// command. The one error is want of memory, after which nothing is known of the words.
pub fn parse_seal_request<'a>(
    alloc: Global,
    words: &'a [String],
) -> Result<Option<SealRequest<'a>>, AllocError>
    ensures { IfOk result (λ found. MatchOption found ((request : SealText)
        → AsksSeal (map string_bytes words.entry.now) request → ⊥)
        (λ request. AsksSeal (map string_bytes words.entry.now) (seal_seen request))) }
{
    seal_requests_are_by_rule();
    seal_request_of(alloc, words)
}

/// The same by the first word.
fn seal_request_of<'a>(
    alloc: Global,
    words: &'a [String],
) -> Result<Option<SealRequest<'a>>, AllocError>
    ensures { IfOk result (λ found. option_map seal_seen found ≡ seal_request_of (map string_bytes words.entry.now)) }
{
    match words.first() {
        Some(first) => seal_request_named(alloc, first.as_str(), words),
        None => Ok(None),
    }
}

fn seal_request_named<'a>(
    alloc: Global,
    first: &str,
    words: &'a [String],
) -> Result<Option<SealRequest<'a>>, AllocError>
    ensures { IfOk result (λ found. option_map seal_seen found ≡ seal_request_named first.now
        (map string_bytes words.entry.now)) }
{
    match first {
        "hsskey" => hsskey_of(alloc, words),
        "seal" => seal_of(alloc, words),
        "unseal" => unseal_of(alloc, words),
        _ => Ok(None),
    }
}

static HSSKEY: [Argument<'static>; 3] = [
    Argument {
        name: "DIR",
        form: Form::Position,
        required: true,
    },
    Argument {
        name: "height",
        form: Form::Value,
        required: false,
    },
    Argument {
        name: "width",
        form: Form::Value,
        required: false,
    },
];

/// `hsskey DIR [--height 5,10] [--width 1,2,4,8]`
fn hsskey_of<'a>(alloc: Global, words: &'a [String]) -> Result<Option<SealRequest<'a>>, AllocError>
    ensures { IfOk result (λ found. option_map seal_seen found ≡ hsskey_of (map string_bytes words.entry.now)) }
{
    match read_words(alloc, "hsskey", &HSSKEY, words)? {
        Some(given) => Ok(hsskey_asked(&given)),
        None => Ok(None),
    }
}

fn hsskey_asked<'a>(given: &Given<'a>) -> Option<SealRequest<'a>>
    ensures { option_map seal_seen result ≡ hsskey_asked given.now }
{
    let directory = given.word("DIR")?;
    let height = level_height_of(given.word("height"))?;
    let width = width_of(given.word("width"))?;
    Some(SealRequest::Hsskey {
        directory,
        height,
        width,
    })
}

/// The height of a level that a word writes, which is 10 where there is none.
fn level_height_of(word: Option<&str>) -> Option<LmsType>
    ensures { result ≡ level_height_of (option_map (λ w. w.now) word.entry) }
{
    let Some(word) = word else {
        return Some(LmsType::H10);
    };
    if word == "5" {
        Some(LmsType::H5)
    } else if word == "10" {
        Some(LmsType::H10)
    } else {
        None
    }
}

/// `seal DIR`
fn seal_of<'a>(alloc: Global, words: &'a [String]) -> Result<Option<SealRequest<'a>>, AllocError>
    ensures { IfOk result (λ found. option_map seal_seen found ≡ seal_of (map string_bytes words.entry.now)) }
{
    match directory_of(alloc, "seal", words)? {
        Some(directory) => Ok(Some(SealRequest::Seal { directory })),
        None => Ok(None),
    }
}

static UNSEAL: [Argument<'static>; 2] = [
    Argument {
        name: "KEY",
        form: Form::Position,
        required: true,
    },
    Argument {
        name: "SIG",
        form: Form::Position,
        required: true,
    },
];

/// `unseal KEY SIG`
fn unseal_of<'a>(alloc: Global, words: &'a [String]) -> Result<Option<SealRequest<'a>>, AllocError>
    ensures { IfOk result (λ found. option_map seal_seen found ≡ unseal_of (map string_bytes words.entry.now)) }
{
    match read_words(alloc, "unseal", &UNSEAL, words)? {
        Some(given) => unseal_asked(alloc, &given),
        None => Ok(None),
    }
}

fn unseal_asked<'a>(alloc: Global, given: &Given<'a>) -> Result<Option<SealRequest<'a>>, AllocError>
    ensures { IfOk result (λ found. option_map seal_seen found ≡ unseal_asked given.now) }
{
    let Some(key) = given.word("KEY") else {
        return Ok(None);
    };
    let Some(signature) = given.word("SIG") else {
        return Ok(None);
    };
    unseal_with(alloc, key, signature)
}

/// The request of a key and a signature that two words write: 60 bytes and any number of them.
fn unseal_with<'a>(
    alloc: Global,
    key: &str,
    signature: &str,
) -> Result<Option<SealRequest<'a>>, AllocError>
    ensures { IfOk result (λ found. option_map seal_seen found ≡ unseal_with key.now signature.now) }
{
    let Some(key) = bytes_of_hex(key.as_bytes()) else {
        return Ok(None);
    };
    match hex_bytes(alloc, signature.as_bytes())? {
        Some(signature) => Ok(Some(SealRequest::Unseal { key, signature })),
        None => Ok(None),
    }
}

/// The bytes that lower-case digits write, two for each byte.
fn hex_bytes(alloc: Global, digits: &[u8]) -> Result<Option<Vec<u8>>, AllocError>
    ensures { IfOk result (λ found. option_map (λ bytes. bytes.items) found ≡ hex_bytes digits.now) }
{
    if !are_lower_digits(digits) {
        return Ok(None);
    }
    match hex::decode(alloc, digits) {
        Ok(bytes) => Ok(Some(bytes)),
        Err(FromHexError::OutOfMemory) => Err(AllocError),
        Err(_) => Ok(None),
    }
}

fn are_lower_digits(digits: &[u8]) -> bool
    ensures { result ≡ list_all is_lower_digit digits.now }
{
    digits
        .iter()
        .all(|byte| matches!(*byte, b'0'..=b'9' | b'a'..=b'f'))
}
