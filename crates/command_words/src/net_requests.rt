//! What the words of each command that needs a net ask for.

ghost use Rattle.std.specs.Prelude.{◌≡◌, IfOk, MatchOption, map, option_map, string_bytes};
ghost use Rattle.command_words.specs.NetRequests.{AsksNet, NetText};
ghost use Rattle.command_words.specs.NetCommands.{net_request_named, net_request_of, serve_asked, serve_of};
ghost use Rattle.command_words.specs.NetCommands.{session_count, sync_asked, sync_of};
ghost use Rattle.command_words.specs.Seen.{net_seen};

use crate::argument::{Argument, Form};
use crate::given::Given;
use crate::reading::read_words;
use crate::{NetRequest, net_requests_are_by_rule};
use std::alloc::{AllocError, Global};

/// What these words ask for over a net, or `None` where they ask for nothing over one: they are no command, or one that
/// needs no net. The first word names the command. The one error is want of memory, after which nothing is known of the
/// words.
pub fn parse_net_request<'a>(
    alloc: Global,
    words: &'a [String],
) -> Result<Option<NetRequest<'a>>, AllocError>
    ensures { IfOk result (λ found. MatchOption found ((request : NetText)
        → AsksNet (map string_bytes words.entry.now) request → ⊥)
        (λ request. AsksNet (map string_bytes words.entry.now) (net_seen request))) }
{
    net_requests_are_by_rule();
    net_request_of(alloc, words)
}

/// The same by the first word.
fn net_request_of<'a>(
    alloc: Global,
    words: &'a [String],
) -> Result<Option<NetRequest<'a>>, AllocError>
    ensures { IfOk result (λ found. option_map net_seen found ≡ net_request_of (map string_bytes words.entry.now)) }
{
    match words.first() {
        Some(first) => net_request_named(alloc, first.as_str(), words),
        None => Ok(None),
    }
}

fn net_request_named<'a>(
    alloc: Global,
    first: &str,
    words: &'a [String],
) -> Result<Option<NetRequest<'a>>, AllocError>
    ensures { IfOk result (λ found. option_map net_seen found ≡ net_request_named first.now
        (map string_bytes words.entry.now)) }
{
    match first {
        "sync" => sync_of(alloc, words),
        "serve" => serve_of(alloc, words),
        _ => Ok(None),
    }
}

static SYNC: [Argument<'static>; 2] = [
    Argument {
        name: "DIR",
        form: Form::Position,
        required: true,
    },
    Argument {
        name: "ADDR",
        form: Form::Position,
        required: true,
    },
];

/// `sync DIR ADDR`
fn sync_of<'a>(alloc: Global, words: &'a [String]) -> Result<Option<NetRequest<'a>>, AllocError>
    ensures { IfOk result (λ found. option_map net_seen found ≡ sync_of (map string_bytes words.entry.now)) }
{
    match read_words(alloc, "sync", &SYNC, words)? {
        Some(given) => Ok(sync_asked(&given)),
        None => Ok(None),
    }
}

fn sync_asked<'a>(given: &Given<'a>) -> Option<NetRequest<'a>>
    ensures { option_map net_seen result ≡ sync_asked given.now }
{
    let directory = given.word("DIR")?;
    let address = given.word("ADDR")?;
    Some(NetRequest::Sync { directory, address })
}

static SERVE: [Argument<'static>; 3] = [
    Argument {
        name: "DIR",
        form: Form::Position,
        required: true,
    },
    Argument {
        name: "ADDR",
        form: Form::Position,
        required: true,
    },
    Argument {
        name: "sessions",
        form: Form::Value,
        required: true,
    },
];

/// `serve DIR ADDR --sessions N`
fn serve_of<'a>(alloc: Global, words: &'a [String]) -> Result<Option<NetRequest<'a>>, AllocError>
    ensures { IfOk result (λ found. option_map net_seen found ≡ serve_of (map string_bytes words.entry.now)) }
{
    match read_words(alloc, "serve", &SERVE, words)? {
        Some(given) => Ok(serve_asked(&given)),
        None => Ok(None),
    }
}

fn serve_asked<'a>(given: &Given<'a>) -> Option<NetRequest<'a>>
    ensures { option_map net_seen result ≡ serve_asked given.now }
{
    let directory = given.word("DIR")?;
    let address = given.word("ADDR")?;
    let sessions = session_count(given.word("sessions")?)?;
    Some(NetRequest::Serve {
        directory,
        address,
        sessions,
    })
}

/// The number of sessions that a word writes: one digit, from 1 to 8.
fn session_count(word: &str) -> Option<u32>
    ensures { result ≡ session_count word.now }
{
    match word.as_bytes() {
        [digit @ b'1'..=b'8'] => Some(u32::from(*digit - b'0')),
        _ => None,
    }
}
