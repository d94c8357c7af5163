//! What the words of each command about worlds ask for.

ghost use Rattle.std.specs.Prelude.{◌≡◌, ◌<◌, ◌^◌, IfOk, IfSome, MatchOption, bytes_eq, decimal, map, option_map};
ghost use Rattle.std.specs.Prelude.{string_bytes};
ghost use Rattle.command_words.specs.WorldCommands.{count_of, demo_asked, demo_of, number_of, world_asked, world_of};
ghost use Rattle.command_words.specs.WorldCommands.{world_request_named, world_request_of};
ghost use Rattle.command_words.specs.WorldRequests.{AsksWorld, WorldText};
ghost use Rattle.command_words.specs.Seen.{world_seen};

use crate::argument::{Argument, Form};
use crate::given::Given;
use crate::reading::read_words;
use crate::{WorldRequest, world_requests_are_by_rule};
use itoa::Buffer;
use std::alloc::{AllocError, Global};

/// What these words ask for of worlds, or `None` where they ask for nothing of them. The first word names the command.
/// The one error is want of memory, after which nothing is known of the words.
pub fn parse_world_request(
    alloc: Global,
    words: &[String],
) -> Result<Option<WorldRequest>, AllocError>
    ensures { IfOk result (λ found. MatchOption found ((request : WorldText)
        → AsksWorld (map string_bytes words.now) request → ⊥)
        (λ request. AsksWorld (map string_bytes words.now) (world_seen request))) }
{
    world_requests_are_by_rule();
    world_request_of(alloc, words)
}

/// The same by the first word.
fn world_request_of(alloc: Global, words: &[String]) -> Result<Option<WorldRequest>, AllocError>
    ensures { IfOk result (λ found. option_map world_seen found ≡ world_request_of (map string_bytes words.now)) }
{
    match words.first() {
        Some(first) => world_request_named(alloc, first.as_str(), words),
        None => Ok(None),
    }
}

fn world_request_named(
    alloc: Global,
    first: &str,
    words: &[String],
) -> Result<Option<WorldRequest>, AllocError>
    ensures { IfOk result (λ found. option_map world_seen found ≡ world_request_named first.now
        (map string_bytes words.now)) }
{
    match first {
        "world" => world_of(alloc, words),
        "demo" => demo_of(alloc, words),
        _ => Ok(None),
    }
}

static WORLD: [Argument<'static>; 1] = [Argument {
    name: "audit",
    form: Form::Flag,
    required: false,
}];

/// `world [--audit]`
fn world_of(alloc: Global, words: &[String]) -> Result<Option<WorldRequest>, AllocError>
    ensures { IfOk result (λ found. option_map world_seen found ≡ world_of (map string_bytes words.now)) }
{
    match read_words(alloc, "world", &WORLD, words)? {
        Some(given) => Ok(Some(world_asked(&given))),
        None => Ok(None),
    }
}

fn world_asked(given: &Given) -> WorldRequest
    ensures { world_seen result ≡ world_asked given.now }
{
    let audit = given.is_set("audit");
    WorldRequest::World { audit }
}

static DEMO: [Argument<'static>; 2] = [
    Argument {
        name: "NUMBER",
        form: Form::Position,
        required: true,
    },
    Argument {
        name: "COUNT",
        form: Form::Position,
        required: true,
    },
];

/// `demo NUMBER COUNT`
fn demo_of(alloc: Global, words: &[String]) -> Result<Option<WorldRequest>, AllocError>
    ensures { IfOk result (λ found. option_map world_seen found ≡ demo_of (map string_bytes words.now)) }
{
    match read_words(alloc, "demo", &DEMO, words)? {
        Some(given) => Ok(demo_asked(&given)),
        None => Ok(None),
    }
}

fn demo_asked(given: &Given) -> Option<WorldRequest>
    ensures { option_map world_seen result ≡ demo_asked given.now }
{
    let number = number_of(given.word("NUMBER")?)?;
    let count = count_of(number_of(given.word("COUNT")?)?)?;
    Some(WorldRequest::Demo { number, count })
}

/// How many updates a demonstration makes: a number from 4 to 4,000.
fn count_of(number: u64) -> Option<u32>
    ensures { result ≡ count_of number }
{
    if number >= 4 && number <= 4000 {
        Some(number as u32)
    } else {
        None
    }
}

/// The number below 2^64 that a word is in decimal, without a leading zero.
fn number_of(word: &str) -> Option<u64>
    ensures said { result ≡ number_of word.now }
    ensures small { IfSome result (λ number. number < 2 ^ 64) }
{
    let Ok(number) = word.parse::<u64>() else {
        return None;
    };
    if is_written(word, number) {
        Some(number)
    } else {
        None
    }
}

/// Whether a word is this number in decimal.
fn is_written(word: &str, number: u64) -> bool
    ensures { result ≡ bytes_eq word.now (decimal number) }
{
    let mut buffer = Buffer::new();
    word == buffer.format(number)
}
