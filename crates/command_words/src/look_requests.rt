//! What the words of each command that looks at a store ask for.

ghost use Rattle.std.specs.Prelude.{◌≡◌, true, IfOk, map, option_and_then, option_map, string_bytes};
ghost use Rattle.clap.specs.Words.{is_simple_and_free};
ghost use Rattle.command_words.specs.LookRequests.{QuestionText, alone_of, csv_asked, csv_of, diff_of, draw_asked};
ghost use Rattle.command_words.specs.LookRequests.{draw_of, key_of, log_asked, log_of, look_request_named};
ghost use Rattle.command_words.specs.LookRequests.{look_request_of, named_app, named_asked, named_of, place_of, show_of};
ghost use Rattle.command_words.specs.LookRequests.{who_of};
ghost use Rattle.command_words.specs.Requests.{directory_app};
ghost use Rattle.command_words.specs.Seen.{look_seen, named_seen, question_seen};

use crate::argument::{Argument, Form};
use crate::given::Given;
use crate::reading::read_words;
use crate::requests::directory_of;
use crate::{Listing, LookRequest, Question};
use std::alloc::{AllocError, Global};

/// What these words ask for that looks at a store, or `None` where they ask for nothing so. The first word names the
/// command, and `-` in the place of a directory is the bundle that is read. The one error is want of memory, after
/// which nothing is known of the words.
pub fn parse_look_request<'a>(
    alloc: Global,
    words: &'a [String],
) -> Result<Option<LookRequest<'a>>, AllocError>
    ensures { IfOk result (λ found. option_map look_seen found ≡ look_request_of (map string_bytes words.entry.now)) }
{
    match words.first() {
        Some(first) => look_request_named(alloc, first.as_str(), words),
        None => Ok(None),
    }
}

fn look_request_named<'a>(
    alloc: Global,
    first: &str,
    words: &'a [String],
) -> Result<Option<LookRequest<'a>>, AllocError>
    ensures { IfOk result (λ found. option_map look_seen found ≡ look_request_named first.now
        (map string_bytes words.entry.now)) }
{
    match first {
        "draw" => draw_of(alloc, words),
        "log" => log_of(alloc, words),
        "show" => show_of(alloc, words),
        "who" => who_of(alloc, words),
        "diff" => diff_of(alloc, words),
        "page" => alone_of(alloc, "page", Question::Page, words),
        "status" => alone_of(alloc, "status", Question::Status, words),
        "schema" => alone_of(alloc, "schema", Question::Schema, words),
        "records" => alone_of(alloc, "records", Question::Records, words),
        "csv" => csv_of(alloc, words),
        "key" => key_of(alloc, words),
        _ => Ok(None),
    }
}

static DRAW: [Argument<'static>; 2] = [
    Argument {
        name: "DIR",
        form: Form::Position,
        required: false,
    },
    Argument {
        name: "dot",
        form: Form::Flag,
        required: false,
    },
];

/// `draw [DIR] [--dot]`
fn draw_of<'a>(alloc: Global, words: &'a [String]) -> Result<Option<LookRequest<'a>>, AllocError>
    ensures { IfOk result (λ found. option_map look_seen found ≡ draw_of (map string_bytes words.entry.now)) }
{
    match read_words(alloc, "draw", &DRAW, words)? {
        Some(given) => Ok(Some(draw_asked(&given))),
        None => Ok(None),
    }
}

fn draw_asked<'a>(given: &Given<'a>) -> LookRequest<'a>
    ensures { look_seen result ≡ draw_asked given.now }
{
    let directory = place_given(given.word("DIR"));
    let dot = given.is_set("dot");
    LookRequest::One {
        directory,
        question: Question::Updates(Listing::Picture { dot }),
    }
}

static LOG: [Argument<'static>; 4] = [
    Argument {
        name: "DIR",
        form: Form::Position,
        required: false,
    },
    Argument {
        name: "rows",
        form: Form::Flag,
        required: false,
    },
    Argument {
        name: "full",
        form: Form::Flag,
        required: false,
    },
    Argument {
        name: "json",
        form: Form::Flag,
        required: false,
    },
];

/// `log [DIR] [--rows] [--full] [--json]`
fn log_of<'a>(alloc: Global, words: &'a [String]) -> Result<Option<LookRequest<'a>>, AllocError>
    ensures { IfOk result (λ found. option_map look_seen found ≡ log_of (map string_bytes words.entry.now)) }
{
    match read_words(alloc, "log", &LOG, words)? {
        Some(given) => Ok(Some(log_asked(&given))),
        None => Ok(None),
    }
}

fn log_asked<'a>(given: &Given<'a>) -> LookRequest<'a>
    ensures { look_seen result ≡ log_asked given.now }
{
    let directory = place_given(given.word("DIR"));
    let rows = given.is_set("rows");
    let full = given.is_set("full");
    let json = given.is_set("json");
    LookRequest::One {
        directory,
        question: Question::Updates(Listing::Log { rows, full, json }),
    }
}

/// What the words of `show`, `who` and `diff` give.
#[derive(Clone, Copy, Drop)]
pub(crate) struct Named<'a> {
    /// The directory.
    pub directory: &'a str,
    /// What is named beside it.
    pub name: &'a str,
    pub full: bool,
    pub json: bool,
}

static WITH_NAME: [Argument<'static>; 4] = [
    Argument {
        name: "DIR",
        form: Form::Position,
        required: true,
    },
    Argument {
        name: "NAME",
        form: Form::Position,
        required: true,
    },
    Argument {
        name: "full",
        form: Form::Flag,
        required: false,
    },
    Argument {
        name: "json",
        form: Form::Flag,
        required: false,
    },
];

/// `COMMAND DIR NAME [--full] [--json]`
fn named_of<'a>(
    alloc: Global,
    command: &'a str,
    words: &'a [String],
) -> Result<Option<Named<'a>>, AllocError>
    requires { is_simple_and_free (named_app command.now) ≡ true }
    ensures { IfOk result (λ found. option_map named_seen found ≡ named_of command.entry.now
        (map string_bytes words.entry.now)) }
{
    match read_words(alloc, command, &WITH_NAME, words)? {
        Some(given) => Ok(named_asked(&given)),
        None => Ok(None),
    }
}

fn named_asked<'a>(given: &Given<'a>) -> Option<Named<'a>>
    ensures { option_map named_seen result ≡ named_asked given.now }
{
    let directory = given.word("DIR")?;
    let name = given.word("NAME")?;
    let full = given.is_set("full");
    let json = given.is_set("json");
    Some(Named {
        directory,
        name,
        full,
        json,
    })
}

/// `show DIR ID [--full] [--json]`
fn show_of<'a>(alloc: Global, words: &'a [String]) -> Result<Option<LookRequest<'a>>, AllocError>
    ensures { IfOk result (λ found. option_map look_seen found ≡ show_of (map string_bytes words.entry.now)) }
{
    match named_of(alloc, "show", words)? {
        Some(named) => Ok(Some(LookRequest::One {
            directory: place_of(named.directory),
            question: Question::Updates(Listing::Show {
                id: named.name,
                full: named.full,
                json: named.json,
            }),
        })),
        None => Ok(None),
    }
}

/// `who DIR ROW [--full] [--json]`
fn who_of<'a>(alloc: Global, words: &'a [String]) -> Result<Option<LookRequest<'a>>, AllocError>
    ensures { IfOk result (λ found. option_map look_seen found ≡ who_of (map string_bytes words.entry.now)) }
{
    match named_of(alloc, "who", words)? {
        Some(named) => Ok(Some(LookRequest::One {
            directory: place_of(named.directory),
            question: Question::Updates(Listing::Who {
                row: named.name,
                full: named.full,
                json: named.json,
            }),
        })),
        None => Ok(None),
    }
}

/// `diff DIR OTHER [--full] [--json]`
fn diff_of<'a>(alloc: Global, words: &'a [String]) -> Result<Option<LookRequest<'a>>, AllocError>
    ensures { IfOk result (λ found. option_map look_seen found ≡ diff_of (map string_bytes words.entry.now)) }
{
    match named_of(alloc, "diff", words)? {
        Some(named) => Ok(Some(LookRequest::Both {
            first: place_of(named.directory),
            second: place_of(named.name),
            full: named.full,
            json: named.json,
        })),
        None => Ok(None),
    }
}

/// `COMMAND DIR`, by which this is asked.
fn alone_of<'a>(
    alloc: Global,
    command: &'a str,
    question: Question<'a>,
    words: &'a [String],
) -> Result<Option<LookRequest<'a>>, AllocError>
    requires { is_simple_and_free (directory_app command.now) ≡ true }
    ensures { IfOk result (λ found. option_map look_seen found ≡ alone_of command.entry.now
        (question_seen question.entry) (map string_bytes words.entry.now)) }
{
    match directory_of(alloc, command, words)? {
        Some(directory) => Ok(Some(LookRequest::One {
            directory: place_of(directory),
            question,
        })),
        None => Ok(None),
    }
}

static CSV: [Argument<'static>; 2] = [
    Argument {
        name: "DIR",
        form: Form::Position,
        required: true,
    },
    Argument {
        name: "TEXT",
        form: Form::Position,
        required: true,
    },
];

/// `csv DIR TEXT`
fn csv_of<'a>(alloc: Global, words: &'a [String]) -> Result<Option<LookRequest<'a>>, AllocError>
    ensures { IfOk result (λ found. option_map look_seen found ≡ csv_of (map string_bytes words.entry.now)) }
{
    match read_words(alloc, "csv", &CSV, words)? {
        Some(given) => Ok(csv_asked(&given)),
        None => Ok(None),
    }
}

fn csv_asked<'a>(given: &Given<'a>) -> Option<LookRequest<'a>>
    ensures { option_map look_seen result ≡ csv_asked given.now }
{
    let directory = given.word("DIR")?;
    let text = given.word("TEXT")?;
    Some(LookRequest::One {
        directory: place_of(directory),
        question: Question::Csv(text),
    })
}

/// `key DIR`
fn key_of<'a>(alloc: Global, words: &'a [String]) -> Result<Option<LookRequest<'a>>, AllocError>
    ensures { IfOk result (λ found. option_map look_seen found ≡ key_of (map string_bytes words.entry.now)) }
{
    match directory_of(alloc, "key", words)? {
        Some(directory) => Ok(Some(LookRequest::Key { directory })),
        None => Ok(None),
    }
}

/// The directory that a word names, or none where it stands for the bundle that is read.
fn place_of(word: &str) -> Option<&str>
    ensures { option_map (λ directory. directory.now) result ≡ place_of word.entry.now }
{
    if word == "-" { None } else { Some(word) }
}

/// The same of a word that may lack.
fn place_given(word: Option<&str>) -> Option<&str>
    ensures { option_map (λ directory. directory.now) result
        ≡ option_and_then place_of (option_map (λ w. w.now) word.entry) }
{
    match word {
        Some(word) => place_of(word),
        None => None,
    }
}
