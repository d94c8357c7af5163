//! The words for how sessions ended, and the exit statuses.

ghost use Rattle.std.specs.Prelude.{◌≡◌, IfOk, drop};
ghost use Rattle.outcomes.specs.Texts.{peer_text};
ghost use Rattle.net_commands.specs.Words.{exit_status, has_status, lines_from, said_last, serve_status, serve_text};
ghost use Rattle.net_commands.specs.Words.{session_line, sync_text, text_by, words_by};

use outcomes::peer_line;
use outcomes::status::{DONE, FULL, OUT_OF_MEMORY, PEER, STORE_FAULT, STREAM_FAULT};
use session_rules::PeerFault;
use session_server::{Ending, Served};
use std::alloc::{AllocError, Global};

/// The exit status for a session that ended so.
pub(crate) fn exit_status(ending: &Ending) -> u8
    ensures { result ≡ exit_status ending.now }
{
    match ending {
        Ending::Done => DONE,
        Ending::Peer(_) | Ending::Cut => PEER,
        Ending::Full => FULL,
        Ending::Broken => STREAM_FAULT,
        Ending::Store => STORE_FAULT,
        Ending::Memory => OUT_OF_MEMORY,
    }
}

/// What `sync` prints of its session.
pub(crate) fn sync_text(alloc: Global, served: &Served) -> Result<Vec<u8>, AllocError>
    ensures { IfOk result (λ text. text.items ≡ sync_text served.now) }
{
    let Served {
        ending,
        gained,
        turns,
        ..
    } = served;
    match ending {
        Ending::Done => Ok(format!(in alloc; "gained {gained}\nturns {turns}\n")?.into_bytes()),
        Ending::Peer(fault) => Vec::from_slice(alloc, peer_line(fault)),
        Ending::Cut => Vec::from_slice(alloc, b"! cut\n"),
        Ending::Full => Vec::from_slice(alloc, b"! full\n"),
        Ending::Broken => Vec::from_slice(alloc, b"! stream fault\n"),
        Ending::Store => Vec::from_slice(alloc, b"! store fault\n"),
        Ending::Memory => Ok(Vec::new(alloc)),
    }
}

/// Whether one of the sessions has this exit status.
pub(crate) fn has_status(status: u8, sessions: &[Served]) -> bool
    ensures { result ≡ has_status status sessions.now }
{
    sessions
        .iter()
        .any(|served| exit_status(&served.ending) == status)
}

/// The exit status of `serve`.
pub(crate) fn serve_status(sessions: &[Served], store_failed: bool, net_failed: bool) -> u8
    ensures { result ≡ serve_status sessions.now store_failed net_failed }
{
    if has_status(OUT_OF_MEMORY, sessions) {
        return OUT_OF_MEMORY;
    }
    if store_failed || has_status(STORE_FAULT, sessions) {
        return STORE_FAULT;
    }
    if net_failed || has_status(STREAM_FAULT, sessions) {
        return STREAM_FAULT;
    }
    if has_status(FULL, sessions) {
        return FULL;
    }
    if has_status(PEER, sessions) {
        return PEER;
    }
    DONE
}

/// What `serve` prints: a line for each session, and what failed besides.
pub(crate) fn serve_text(
    alloc: Global,
    sessions: &[Served],
    store_failed: bool,
    net_failed: bool,
) -> Result<Vec<u8>, AllocError>
    ensures { IfOk result (λ text. text.items ≡ serve_text sessions.now store_failed net_failed) }
{
    let mut text = session_lines(alloc, sessions)?;
    text.extend_from_slice(said_last(store_failed, net_failed))?;
    Ok(text)
}

/// The line for what failed outside the sessions.
fn said_last(store_failed: bool, net_failed: bool) -> &'static [u8]
    ensures { result.now ≡ said_last store_failed net_failed }
{
    match (store_failed, net_failed) {
        (true, _) => b"! store fault\n",
        (false, true) => b"! stream fault\n",
        (false, false) => b"",
    }
}

/// A line for each session, numbered from 1.
fn session_lines(alloc: Global, sessions: &[Served]) -> Result<Vec<u8>, AllocError>
    ensures { IfOk result (λ text. text.items ≡ lines_from 1 sessions.now) }
{
    let mut text = Vec::new(alloc);
    let mut number = 0u64;
    for served in sessions {
        number += 1;
        text.extend_from_slice(session_line(alloc, number, served)?.as_slice())?;
    }
    Ok(text)
}

/// The line of a session.
fn session_line(alloc: Global, number: u64, served: &Served) -> Result<Vec<u8>, AllocError>
    ensures { IfOk result (λ line. line.items ≡ session_line number served.now) }
{
    let Served {
        ending,
        gained,
        turns,
        ..
    } = served;
    let mut line = format!(in alloc; "session {number} ")?.into_bytes();
    match ending {
        Ending::Done => {
            let counts = format!(in alloc; "done gained {gained} turns {turns}\n")?;
            line.extend_from_slice(counts.as_bytes())?
        }
        Ending::Peer(fault) => line.extend_from_slice(peer_words(fault))?,
        Ending::Cut => line.extend_from_slice(b"cut\n")?,
        Ending::Full => line.extend_from_slice(b"full\n")?,
        Ending::Broken => line.extend_from_slice(b"broken\n")?,
        Ending::Store => line.extend_from_slice(b"store\n")?,
        Ending::Memory => line.extend_from_slice(b"memory\n")?,
    }
    Ok(line)
}

/// The words for a peer that shows this fault: its line without the mark of a refusal.
fn peer_words(fault: &PeerFault) -> &'static [u8]
    ensures { result.now ≡ drop 2 (peer_text fault.now) }
{
    let line = peer_line(fault);
    &line[2..]
}
