//! What `sync` and `serve` answer over a link that gives what was written down before.

ghost use Rattle.std.specs.Prelude.{IfOk};
ghost use Rattle.bec_disk.specs.Shelved.{shelf_of};
ghost use Rattle.key_directory.specs.Parts.{IsHome};

use crate::runs::{Said, answer, begins};
use bec_disk::MemShelf;
use std::alloc::{AllocError, Global};
use std::sync::Wait;
use std::test::Fail;
use std::thread::Threads;

/// The words that have the store in A meet one caller.
const SERVES: &str = "serve A here --sessions 1";

/// The words that have the store in B call.
const SYNCS: &str = "sync B here";

/// A run over a copy of the shelf and a link that gives these bytes, and the copy. The call of the net that `failing`
/// numbers fails; no call is numbered 0.
fn tried<T: Threads + Wait + Sync>(
    rt: &T,
    alloc: Global,
    shelf: &MemShelf,
    line: &str,
    coming: &[u8],
    failing: u32,
) -> Result<(Said, MemShelf), AllocError>
    requires { IsHome (shelf_of shelf.now) }
    ensures { IfOk result (λ r. IsHome (shelf_of r.1)) }
{
    let mut copy = shelf.restart(0)?;
    let said = answer(rt, alloc, &mut copy, line, b"", (coming, failing))?;
    Ok((said, copy))
}

/// What is answered over a link that ends at once: the words, which call of the net fails, the status and the text.
const ROWS: &[(&str, u32, u8, &str)] = &[
    ("sync A here", 0, 6, "! cut\n"),
    (SERVES, 0, 6, "session 1 cut\n"),
    (
        "serve A here --sessions 2",
        0,
        4,
        "session 1 cut\n! stream fault\n",
    ),
    ("sync A here", 1, 4, "! stream fault\n"),
    (SERVES, 1, 4, "! stream fault\n"),
    (SERVES, 2, 4, "! stream fault\n"),
];

/// How many rows are answered as they say.
fn answered<T: Threads + Wait + Sync>(
    rt: &T,
    alloc: Global,
    shelf: &MemShelf,
) -> Result<usize, AllocError>
    requires { IsHome (shelf_of shelf.now) }
{
    let mut right = 0usize;
    for (line, failing, status, text) in ROWS {
        let (said, _) = tried(rt, alloc, shelf, line, b"", *failing)?;
        let is_right = said.status == *status && said.text.as_slice() == text.as_bytes();
        right = right.saturating_add(usize::from(is_right));
    }
    Ok(right)
}

#[test]
fn a_link_that_ends_at_once(rt: HostRuntime) -> Result<(), Fail> {
    let mut shelf = MemShelf::new(rt.alloc());
    assert!(rt; begins(&rt, rt.alloc(), &mut shelf)?);
    assert_eq!(rt; answered(&rt, rt.alloc(), &shelf)?, ROWS.len());
    Ok(())
}

/// Carries what each end says to the other, in runs that begin anew over copies of one shelf, so often; these words
/// call. It answers what both say last.
pub fn carried<T: Threads + Wait + Sync>(
    rt: &T,
    alloc: Global,
    shelf: &MemShelf,
    syncs: &str,
    times: u32,
) -> Result<(Said, Said), AllocError>
    requires { IsHome (shelf_of shelf.now) }
{
    let (mut served, _) = tried(rt, alloc, shelf, SERVES, b"", 0)?;
    let (mut synced, _) = tried(rt, alloc, shelf, syncs, b"", 0)?;
    for _ in 0..times {
        (served, _) = tried(rt, alloc, shelf, SERVES, &synced.sent, 0)?;
        (synced, _) = tried(rt, alloc, shelf, syncs, &served.sent, 0)?;
    }
    Ok((served, synced))
}

/// What a run over a link that gives these bytes and then ends answers, and what `heads A` does then.
fn tried_and_told<T: Threads + Wait + Sync>(
    rt: &T,
    alloc: Global,
    shelf: &MemShelf,
    line: &str,
    coming: &[u8],
) -> Result<(Said, Said), AllocError>
    requires { IsHome (shelf_of shelf.now) }
{
    let (said, mut copy) = tried(rt, alloc, shelf, line, coming, 0)?;
    let heads = answer(rt, alloc, &mut copy, "heads A", b"", (b"", 0))?;
    Ok((said, heads))
}

/// Whether a front of so many of these bytes is tried: each one in the Hello, in the first bytes of the update behind
/// it, and in the Turn at the end; in the rest of the update, whose bytes a session only gathers, one of 64.
fn is_tried(end: usize, len: usize) -> bool {
    end < 160 || len.saturating_sub(end) < 20 || end % 64 == 0
}

/// The length of the first front of these bytes of those that are tried, all of them left out, over which a run prints
/// anything but this or leaves an update in A. Where there is none, that of all.
fn first_uncut<T: Threads + Wait + Sync>(
    rt: &T,
    alloc: Global,
    shelf: &MemShelf,
    line: &str,
    coming: &[u8],
    text: &[u8],
) -> Result<usize, AllocError>
    requires { IsHome (shelf_of shelf.now) }
{
    for end in 0..coming.len() {
        if is_tried(end, coming.len()) {
            let (said, heads) = tried_and_told(rt, alloc, shelf, line, &coming[..end])?;
            if said.text.as_slice() != text || heads.status != 0 || !heads.text.is_empty() {
                return Ok(end);
            }
        }
    }
    Ok(coming.len())
}

/// Whether a recorded session brings the update of B, and no front of what either end said in it does.
fn goes_over<T: Threads + Wait + Sync>(
    rt: &T,
    alloc: Global,
    shelf: &MemShelf,
) -> Result<bool, AllocError>
    requires { IsHome (shelf_of shelf.now) }
{
    let (served, synced) = carried(rt, alloc, shelf, SYNCS, 3)?;
    let (_, here) = tried_and_told(rt, alloc, shelf, SERVES, &synced.sent)?;
    let (there, _) = tried(rt, alloc, shelf, "heads B", b"", 0)?;
    let is_told = served.text.as_slice() == b"session 1 done gained 1 turns 4\n".as_slice()
        && synced.text.as_slice() == b"gained 0\nturns 4\n".as_slice()
        && here.text.as_slice() == there.text.as_slice();
    let at_server = first_uncut(rt, alloc, shelf, SERVES, &synced.sent, b"session 1 cut\n")?;
    let at_caller = first_uncut(rt, alloc, shelf, SYNCS, &served.sent, b"! cut\n")?;
    Ok(is_told && (at_server, at_caller) == (synced.sent.len(), served.sent.len()))
}

#[test]
fn an_update_goes_over_and_no_front_of_it(rt: HostRuntime) -> Result<(), Fail> {
    let mut shelf = MemShelf::new(rt.alloc());
    assert!(rt; begins(&rt, rt.alloc(), &mut shelf)?);
    assert!(rt; goes_over(&rt, rt.alloc(), &shelf)?);
    Ok(())
}
