//! What the words of each command that brings updates into a directory ask for.

ghost use Rattle.std.specs.Prelude.{◌≡◌, IfOk, map, option_map, string_bytes};
ghost use Rattle.command_words.specs.ImportRequests.{clone_asked, clone_of, clone_with, import_of};
ghost use Rattle.command_words.specs.ImportRequests.{import_request_named, import_request_of};
ghost use Rattle.command_words.specs.Seen.{import_seen};

use crate::ImportRequest;
use crate::argument::{Argument, Form};
use crate::given::Given;
use crate::reading::read_words;
use crate::requests::directory_of;
use std::alloc::{AllocError, Global};

/// What these words ask for that brings updates into a directory, or `None` where they ask for nothing so. The first
/// word names the command, and `-` in the place of what is cloned is the bundle that is read. The one error is want of
/// memory, after which nothing is known of the words.
pub fn parse_import_request<'a>(
    alloc: Global,
    words: &'a [String],
) -> Result<Option<ImportRequest<'a>>, AllocError>
    ensures { IfOk result (λ found. option_map import_seen found
        ≡ import_request_of (map string_bytes words.entry.now)) }
{
    match words.first() {
        Some(first) => import_request_named(alloc, first.as_str(), words),
        None => Ok(None),
    }
}

fn import_request_named<'a>(
    alloc: Global,
    first: &str,
    words: &'a [String],
) -> Result<Option<ImportRequest<'a>>, AllocError>
    ensures { IfOk result (λ found. option_map import_seen found ≡ import_request_named first.now
        (map string_bytes words.entry.now)) }
{
    match first {
        "import" => import_of(alloc, words),
        "clone" => clone_of(alloc, words),
        _ => Ok(None),
    }
}

/// `import DIR`
fn import_of<'a>(
    alloc: Global,
    words: &'a [String],
) -> Result<Option<ImportRequest<'a>>, AllocError>
    ensures { IfOk result (λ found. option_map import_seen found ≡ import_of (map string_bytes words.entry.now)) }
{
    match directory_of(alloc, "import", words)? {
        Some(directory) => Ok(Some(ImportRequest::Import { directory })),
        None => Ok(None),
    }
}

static CLONE: [Argument<'static>; 2] = [
    Argument {
        name: "FROM",
        form: Form::Position,
        required: true,
    },
    Argument {
        name: "DIR",
        form: Form::Position,
        required: true,
    },
];

/// `clone FROM DIR`
fn clone_of<'a>(alloc: Global, words: &'a [String]) -> Result<Option<ImportRequest<'a>>, AllocError>
    ensures { IfOk result (λ found. option_map import_seen found ≡ clone_of (map string_bytes words.entry.now)) }
{
    match read_words(alloc, "clone", &CLONE, words)? {
        Some(given) => Ok(clone_asked(&given)),
        None => Ok(None),
    }
}

fn clone_asked<'a>(given: &Given<'a>) -> Option<ImportRequest<'a>>
    ensures { option_map import_seen result ≡ clone_asked given.now }
{
    let from = given.word("FROM")?;
    let directory = given.word("DIR")?;
    Some(cloned(from, directory))
}

/// To clone what a word names into a directory.
fn cloned<'a>(from: &'a str, directory: &'a str) -> ImportRequest<'a>
    ensures { import_seen result ≡ clone_with directory.entry.now from.entry.now }
{
    if from == "-" {
        ImportRequest::CloneBundle { directory }
    } else {
        ImportRequest::CloneStore { from, directory }
    }
}
