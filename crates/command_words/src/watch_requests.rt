//! What the words of `watch` ask for.

ghost use Rattle.std.specs.Prelude.{◌≡◌, IfOk, MatchOption, map, option_map, string_bytes};
ghost use Rattle.command_words.specs.WatchCommands.{count_of, every_of, watch_asked, watch_of, watch_request_named};
ghost use Rattle.command_words.specs.WatchCommands.{watch_request_of};
ghost use Rattle.command_words.specs.WatchRequests.{AsksWatch, WatchText};
ghost use Rattle.command_words.specs.Seen.{watch_seen};

use crate::argument::{Argument, Form};
use crate::given::Given;
use crate::reading::read_words;
use crate::{WatchRequest, watch_requests_are_by_rule};
use std::alloc::{AllocError, Global};
use text_words::integer_of;

/// What these words ask for of a query that is watched, or `None` where they do not ask for that. The first word names
/// the command. The one error is want of memory, after which nothing is known of the words.
pub fn parse_watch_request<'a>(
    alloc: Global,
    words: &'a [String],
) -> Result<Option<WatchRequest<'a>>, AllocError>
    ensures { IfOk result (λ found. MatchOption found ((request : WatchText)
        → AsksWatch (map string_bytes words.entry.now) request → ⊥)
        (λ request. AsksWatch (map string_bytes words.entry.now) (watch_seen request))) }
{
    watch_requests_are_by_rule();
    watch_request_of(alloc, words)
}

/// The same by the first word.
fn watch_request_of<'a>(
    alloc: Global,
    words: &'a [String],
) -> Result<Option<WatchRequest<'a>>, AllocError>
    ensures { IfOk result (λ found. option_map watch_seen found ≡ watch_request_of (map string_bytes words.entry.now)) }
{
    match words.first() {
        Some(first) => watch_request_named(alloc, first.as_str(), words),
        None => Ok(None),
    }
}

fn watch_request_named<'a>(
    alloc: Global,
    first: &str,
    words: &'a [String],
) -> Result<Option<WatchRequest<'a>>, AllocError>
    ensures { IfOk result (λ found. option_map watch_seen found ≡ watch_request_named first.now
        (map string_bytes words.entry.now)) }
{
    match first {
        "watch" => watch_of(alloc, words),
        _ => Ok(None),
    }
}

static WATCH: [Argument<'static>; 3] = [
    Argument {
        name: "DIR",
        form: Form::Position,
        required: true,
    },
    Argument {
        name: "TEXT",
        form: Form::Position,
        required: true,
    },
    Argument {
        name: "every",
        form: Form::Value,
        required: false,
    },
];

/// `watch DIR TEXT [--every N]`
fn watch_of<'a>(alloc: Global, words: &'a [String]) -> Result<Option<WatchRequest<'a>>, AllocError>
    ensures { IfOk result (λ found. option_map watch_seen found ≡ watch_of (map string_bytes words.entry.now)) }
{
    match read_words(alloc, "watch", &WATCH, words)? {
        Some(given) => Ok(watch_asked(&given)),
        None => Ok(None),
    }
}

fn watch_asked<'a>(given: &Given<'a>) -> Option<WatchRequest<'a>>
    ensures { option_map watch_seen result ≡ watch_asked given.now }
{
    let directory = given.word("DIR")?;
    let text = given.word("TEXT")?;
    let every = every_of(given.word("every"))?;
    Some(WatchRequest {
        directory,
        text,
        every,
    })
}

/// The number of lines that a word writes, which is 1 where there is none.
fn every_of(word: Option<&str>) -> Option<u64>
    ensures { result ≡ every_of (option_map (λ w. w.now) word.entry) }
{
    match word {
        Some(word) => count_of(integer_of(word.as_bytes())),
        None => Some(1),
    }
}

/// A number of lines: an integer from 1 to 4,096.
fn count_of(integer: Option<i64>) -> Option<u64>
    ensures { result ≡ count_of integer }
{
    match integer {
        Some(count @ 1..=4096) => Some(count as u64),
        _ => None,
    }
}
