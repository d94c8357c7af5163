//! What the words of each command ask for.

ghost use Rattle.std.specs.Prelude.{◌≡◌, true, IfOk, MatchOption, map, option_map, string_bytes};
ghost use Rattle.clap.specs.Words.{is_simple_and_free};
ghost use Rattle.command_words.specs.Requests.{Asks, RequestText, height_of, note_of, width_of, directory_app};
ghost use Rattle.command_words.specs.Commands.{request_of, request_named, heads_of, check_of, dump_of, dump_asked};
ghost use Rattle.command_words.specs.Commands.{init_of, keygen_of, keygen_asked, apply_of, apply_asked, join_of};
ghost use Rattle.command_words.specs.Commands.{export_of, export_asked, query_of, query_asked, merge_of, merge_asked};
ghost use Rattle.command_words.specs.Commands.{notes_of, directory_of};
ghost use Rattle.command_words.specs.Seen.{request_seen};

use crate::argument::{Argument, Form};
use crate::given::Given;
use crate::reading::read_words;
use crate::{Request, requests_are_by_rule};
use lm_ots::OtsType;
use lms_tree::LmsType;
use std::alloc::{AllocError, Global};
use update_model::MAX_NOTE;

/// What these words ask for, or `None` where they are no command. The first word names the command. The one error is
/// want of memory, after which nothing is known of the words.
pub fn parse_request<'a>(
    alloc: Global,
    words: &'a [String],
) -> Result<Option<Request<'a>>, AllocError>
    ensures { IfOk result (λ found. MatchOption found ((request : RequestText)
        → Asks (map string_bytes words.entry.now) request → ⊥)
        (λ request. Asks (map string_bytes words.entry.now) (request_seen request))) }
{
    requests_are_by_rule();
    request_of(alloc, words)
}

/// The same by the first word.
fn request_of<'a>(alloc: Global, words: &'a [String]) -> Result<Option<Request<'a>>, AllocError>
    ensures { IfOk result (λ found. option_map request_seen found ≡ request_of (map string_bytes words.entry.now)) }
{
    match words.first() {
        Some(first) => request_named(alloc, first.as_str(), words),
        None => Ok(None),
    }
}

fn request_named<'a>(
    alloc: Global,
    first: &str,
    words: &'a [String],
) -> Result<Option<Request<'a>>, AllocError>
    ensures { IfOk result (λ found. option_map request_seen found ≡ request_named first.now
        (map string_bytes words.entry.now)) }
{
    match first {
        "heads" => heads_of(alloc, words),
        "check" => check_of(alloc, words),
        "dump" => dump_of(alloc, words),
        "init" => init_of(alloc, words),
        "keygen" => keygen_of(alloc, words),
        "apply" => apply_of(alloc, words),
        "join" => join_of(alloc, words),
        "export" => export_of(alloc, words),
        "query" => query_of(alloc, words),
        "merge" => merge_of(alloc, words),
        "notes" => notes_of(alloc, words),
        _ => Ok(None),
    }
}

static HEADS: [Argument<'static>; 1] = [Argument {
    name: "DIR",
    form: Form::Position,
    required: false,
}];

/// `heads [DIR]`
fn heads_of<'a>(alloc: Global, words: &'a [String]) -> Result<Option<Request<'a>>, AllocError>
    ensures { IfOk result (λ found. option_map request_seen found ≡ heads_of (map string_bytes words.entry.now)) }
{
    match read_words(alloc, "heads", &HEADS, words)? {
        Some(given) => Ok(Some(Request::Heads {
            directory: given.word("DIR"),
        })),
        None => Ok(None),
    }
}

/// `check`
fn check_of<'a>(alloc: Global, words: &'a [String]) -> Result<Option<Request<'a>>, AllocError>
    ensures { IfOk result (λ found. option_map request_seen found ≡ check_of (map string_bytes words.entry.now)) }
{
    match read_words(alloc, "check", &[], words)? {
        Some(_) => Ok(Some(Request::Check)),
        None => Ok(None),
    }
}

static DUMP: [Argument<'static>; 2] = [
    Argument {
        name: "DIR",
        form: Form::Position,
        required: false,
    },
    Argument {
        name: "json",
        form: Form::Flag,
        required: false,
    },
];

/// `dump [DIR] [--json]`
fn dump_of<'a>(alloc: Global, words: &'a [String]) -> Result<Option<Request<'a>>, AllocError>
    ensures { IfOk result (λ found. option_map request_seen found ≡ dump_of (map string_bytes words.entry.now)) }
{
    match read_words(alloc, "dump", &DUMP, words)? {
        Some(given) => Ok(Some(dump_asked(&given))),
        None => Ok(None),
    }
}

fn dump_asked<'a>(given: &Given<'a>) -> Request<'a>
    ensures { request_seen result ≡ dump_asked given.now }
{
    let directory = given.word("DIR");
    let json = given.is_set("json");
    Request::Dump { directory, json }
}

static DIRECTORY: [Argument<'static>; 1] = [Argument {
    name: "DIR",
    form: Form::Position,
    required: true,
}];

/// The directory of a command that takes nothing else.
pub(crate) fn directory_of<'a>(
    alloc: Global,
    name: &'a str,
    words: &'a [String],
) -> Result<Option<&'a str>, AllocError>
    requires { is_simple_and_free (directory_app name.now) ≡ true }
    ensures { IfOk result (λ found. option_map (λ directory. directory.now) found ≡ directory_of name.entry.now
        (map string_bytes words.entry.now)) }
{
    match read_words(alloc, name, &DIRECTORY, words)? {
        Some(given) => Ok(given.word("DIR")),
        None => Ok(None),
    }
}

/// `init DIR`
fn init_of<'a>(alloc: Global, words: &'a [String]) -> Result<Option<Request<'a>>, AllocError>
    ensures { IfOk result (λ found. option_map request_seen found ≡ init_of (map string_bytes words.entry.now)) }
{
    match directory_of(alloc, "init", words)? {
        Some(directory) => Ok(Some(Request::Init { directory })),
        None => Ok(None),
    }
}

static APPLY: [Argument<'static>; 2] = [
    Argument {
        name: "DIR",
        form: Form::Position,
        required: true,
    },
    Argument {
        name: "note",
        form: Form::Value,
        required: false,
    },
];

/// `apply DIR [--note TEXT]`
fn apply_of<'a>(alloc: Global, words: &'a [String]) -> Result<Option<Request<'a>>, AllocError>
    ensures { IfOk result (λ found. option_map request_seen found ≡ apply_of (map string_bytes words.entry.now)) }
{
    match read_words(alloc, "apply", &APPLY, words)? {
        Some(given) => Ok(apply_asked(&given)),
        None => Ok(None),
    }
}

fn apply_asked<'a>(given: &Given<'a>) -> Option<Request<'a>>
    ensures { option_map request_seen result ≡ apply_asked given.now }
{
    let directory = given.word("DIR")?;
    let note = note_of(given.word("note"))?;
    Some(Request::Apply { directory, note })
}

/// The note that a word is, or none where there is no word. A word of more than 256 bytes is no note.
fn note_of<'a>(word: Option<&'a str>) -> Option<Option<&'a str>>
    ensures { option_map (λ note. option_map (λ n. n.now) note) result ≡ note_of (option_map (λ w. w.now) word.entry) }
{
    match word {
        Some(text) if usize::from(MAX_NOTE) < text.len() => None,
        note => Some(note),
    }
}

/// `join DIR`
fn join_of<'a>(alloc: Global, words: &'a [String]) -> Result<Option<Request<'a>>, AllocError>
    ensures { IfOk result (λ found. option_map request_seen found ≡ join_of (map string_bytes words.entry.now)) }
{
    match directory_of(alloc, "join", words)? {
        Some(directory) => Ok(Some(Request::Join { directory })),
        None => Ok(None),
    }
}

static KEYGEN: [Argument<'static>; 3] = [
    Argument {
        name: "DIR",
        form: Form::Position,
        required: true,
    },
    Argument {
        name: "height",
        form: Form::Value,
        required: false,
    },
    Argument {
        name: "width",
        form: Form::Value,
        required: false,
    },
];

/// `keygen DIR [--height 5,10,15] [--width 1,2,4,8]`
fn keygen_of<'a>(alloc: Global, words: &'a [String]) -> Result<Option<Request<'a>>, AllocError>
    ensures { IfOk result (λ found. option_map request_seen found ≡ keygen_of (map string_bytes words.entry.now)) }
{
    match read_words(alloc, "keygen", &KEYGEN, words)? {
        Some(given) => Ok(keygen_asked(&given)),
        None => Ok(None),
    }
}

fn keygen_asked<'a>(given: &Given<'a>) -> Option<Request<'a>>
    ensures { option_map request_seen result ≡ keygen_asked given.now }
{
    let directory = given.word("DIR")?;
    let height = height_of(given.word("height"))?;
    let width = width_of(given.word("width"))?;
    Some(Request::Keygen {
        directory,
        height,
        width,
    })
}

/// The height that a word writes, which is 10 where there is none.
fn height_of(word: Option<&str>) -> Option<LmsType>
    ensures { result ≡ height_of (option_map (λ w. w.now) word.entry) }
{
    let Some(word) = word else {
        return Some(LmsType::H10);
    };
    if word == "5" {
        Some(LmsType::H5)
    } else if word == "10" {
        Some(LmsType::H10)
    } else if word == "15" {
        Some(LmsType::H15)
    } else {
        None
    }
}

/// The width that a word writes, which is 4 where there is none.
pub(crate) fn width_of(word: Option<&str>) -> Option<OtsType>
    ensures { result ≡ width_of (option_map (λ w. w.now) word.entry) }
{
    let Some(word) = word else {
        return Some(OtsType::W4);
    };
    if word == "1" {
        Some(OtsType::W1)
    } else if word == "2" {
        Some(OtsType::W2)
    } else if word == "4" {
        Some(OtsType::W4)
    } else if word == "8" {
        Some(OtsType::W8)
    } else {
        None
    }
}

static EXPORT: [Argument<'static>; 2] = [
    Argument {
        name: "DIR",
        form: Form::Position,
        required: true,
    },
    Argument {
        name: "updates",
        form: Form::Flag,
        required: false,
    },
];

/// `export DIR [--updates]`
fn export_of<'a>(alloc: Global, words: &'a [String]) -> Result<Option<Request<'a>>, AllocError>
    ensures { IfOk result (λ found. option_map request_seen found ≡ export_of (map string_bytes words.entry.now)) }
{
    match read_words(alloc, "export", &EXPORT, words)? {
        Some(given) => Ok(export_asked(&given)),
        None => Ok(None),
    }
}

fn export_asked<'a>(given: &Given<'a>) -> Option<Request<'a>>
    ensures { option_map request_seen result ≡ export_asked given.now }
{
    let directory = given.word("DIR")?;
    let updates = given.is_set("updates");
    Some(Request::Export { directory, updates })
}

static QUERY: [Argument<'static>; 3] = [
    Argument {
        name: "DIR",
        form: Form::Position,
        required: true,
    },
    Argument {
        name: "TEXT",
        form: Form::Position,
        required: true,
    },
    Argument {
        name: "json",
        form: Form::Flag,
        required: false,
    },
];

/// `query DIR TEXT [--json]`
fn query_of<'a>(alloc: Global, words: &'a [String]) -> Result<Option<Request<'a>>, AllocError>
    ensures { IfOk result (λ found. option_map request_seen found ≡ query_of (map string_bytes words.entry.now)) }
{
    match read_words(alloc, "query", &QUERY, words)? {
        Some(given) => Ok(query_asked(&given)),
        None => Ok(None),
    }
}

fn query_asked<'a>(given: &Given<'a>) -> Option<Request<'a>>
    ensures { option_map request_seen result ≡ query_asked given.now }
{
    let directory = given.word("DIR")?;
    let text = given.word("TEXT")?;
    let json = given.is_set("json");
    Some(Request::Query {
        directory,
        text,
        json,
    })
}

static MERGE: [Argument<'static>; 2] = [
    Argument {
        name: "DIR",
        form: Form::Position,
        required: true,
    },
    Argument {
        name: "OTHER",
        form: Form::Position,
        required: true,
    },
];

/// `merge DIR DIR`
fn merge_of<'a>(alloc: Global, words: &'a [String]) -> Result<Option<Request<'a>>, AllocError>
    ensures { IfOk result (λ found. option_map request_seen found ≡ merge_of (map string_bytes words.entry.now)) }
{
    match read_words(alloc, "merge", &MERGE, words)? {
        Some(given) => Ok(merge_asked(&given)),
        None => Ok(None),
    }
}

fn merge_asked<'a>(given: &Given<'a>) -> Option<Request<'a>>
    ensures { option_map request_seen result ≡ merge_asked given.now }
{
    let first = given.word("DIR")?;
    let second = given.word("OTHER")?;
    if first == second {
        return None;
    }
    Some(Request::Merge { first, second })
}

/// `notes DIR`
fn notes_of<'a>(alloc: Global, words: &'a [String]) -> Result<Option<Request<'a>>, AllocError>
    ensures { IfOk result (λ found. option_map request_seen found ≡ notes_of (map string_bytes words.entry.now)) }
{
    match directory_of(alloc, "notes", words)? {
        Some(directory) => Ok(Some(Request::Notes { directory })),
        None => Ok(None),
    }
}
