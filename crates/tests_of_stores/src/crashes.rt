//! Crashes at each call of a disk of a command: what was acknowledged is there, and the directory can be used again.

ghost use Rattle.bec_disk.specs.Shelved.{shelf_of};
ghost use Rattle.key_directory.specs.Parts.{IsHome};

use crate::runs::{Run, Said, answer, begins, crashed};
use crate::seals::{DRAW, SEAL, drawn_key, draws_again, seals_again};
use crate::stopping::Place;
use bec_disk::{MemShelf, Part};
use std::alloc::{AllocError, Global};
use std::test::Fail;

/// After how many calls a disk stops, at most. No command here makes so many on one disk.
const CALLS: u64 = 16;
/// What a crash leaves: what was synced last, what is read, or a mixture of both.
const CHOICES: u64 = 3;

/// Tasks on lists, whose second table has a reference of each kind that merging keeps.
const TASKS: &[u8] = br#"DATABASE tasks
TABLE list DELETABLE
COLUMN title TEXT 1 40
COLUMN cap INT 0 9
SAMPLE "Home" 9
TABLE task DELETABLE
COLUMN title TEXT 1 1024
COLUMN prio INT 0 9
COLUMN card TEXT 1 32 NULL
REF list list CASCADE
REF after task SETNULL NULL
CHECK prio < 9 OR LEN title > 3
CHECK card IS NULL OR NATIVE 1 card
MATCH prio <= list.cap
SAMPLE "Buy" 3 NULL
"#;

const INIT: Run<'static> = ("init A", TASKS, 42);

const KEYGEN: Run<'static> = ("keygen A --height 5 --width 2", b"", 42);

const APPLY: Run<'static> = ("apply A", b"INSERT list \"Home\" 9\n", 42);

const JOIN: Run<'static> = ("join A", b"", 42);

const MERGE: Run<'static> = ("merge A B", b"", 42);

/// Two stores, in each of which a list is that the other one lacks.
const APART: &[Run<'static>] = &[
    INIT,
    ("init B", TASKS, 42),
    KEYGEN,
    ("keygen B --height 5 --width 1", b"", 42),
    APPLY,
    ("apply B", b"INSERT list \"Work\" 9\n", 42),
];

/// What has to be there after a crash.
#[derive(Clone, Copy)]
enum Then<'a> {
    /// With which status the command ends a second time, once it was done; and where it was not, with which statuses
    /// `heads` may end and the command a second time.
    Again(u8, &'a [u8], &'a [u8]),
    /// The same of a command that prints the id that is the only head then, and can be repeated.
    Head,
    /// Both directories have what either had, once they are merged again.
    United,
    /// A key for seals can be drawn, if it was not, and seals.
    Drawn,
    /// Another seal is made, by other indices.
    Sealed,
}

use Then::{Again, Drawn, Head, Sealed, United};

/// What was done before, the command, the part whose disk stops, and what has to be there then.
type Row = (&'static [Run<'static>], Run<'static>, Place, Then<'static>);

const ROWS: &[Row] = &[
    (&[], INIT, ("A", Part::Schema), Again(8, &[0, 8], &[0, 8])),
    (&[], INIT, ("A", Part::Updates), Again(8, &[0, 8], &[0, 8])),
    (&[INIT], KEYGEN, ("A", Part::Key), Again(8, &[0], &[0, 8])),
    (&[INIT], KEYGEN, ("A", Part::Used), Again(8, &[0], &[0, 8])),
    (&[INIT, KEYGEN], APPLY, ("A", Part::Updates), Head),
    (&[INIT, KEYGEN], APPLY, ("A", Part::Used), Head),
    (&[INIT, KEYGEN], APPLY, ("A", Part::Key), Head),
    (&[INIT, KEYGEN], JOIN, ("A", Part::Updates), Head),
    (APART, MERGE, ("A", Part::Schema), United),
    (APART, MERGE, ("A", Part::Updates), United),
    (APART, MERGE, ("A", Part::Peers), United),
    (APART, MERGE, ("B", Part::Schema), United),
    (APART, MERGE, ("B", Part::Updates), United),
    (APART, MERGE, ("B", Part::Peers), United),
];

/// The same of drawing a key for seals.
const DRAW_ROWS: &[Row] = &[
    (&[], DRAW, ("A", Part::Key), Drawn),
    (&[], DRAW, ("A", Part::Used), Drawn),
];

/// The same of a seal that draws the first lower key.
const SEAL_ROWS: &[Row] = &[
    (&[DRAW], SEAL, ("A", Part::Key), Sealed),
    (&[DRAW], SEAL, ("A", Part::Used), Sealed),
    (&[DRAW], SEAL, ("A.0", Part::Key), Sealed),
    (&[DRAW], SEAL, ("A.0", Part::Used), Sealed),
    (&[DRAW], SEAL, ("A.0", Part::Peers), Sealed),
];

/// Whether a command may have ended so whose disk stops after so many calls: it fails where the disk passes none, and
/// is done where it passes all.
fn is_stopped(calls: u64, status: u8) -> bool {
    if calls == 0 {
        return status == 3;
    }
    status == 0 || (status == 3 && calls < CALLS - 1)
}

/// Whether what is there after a crash fits what the command answered.
fn is_right(then: Then<'_>, said: &Said, heads: &Said, again: &Said) -> bool {
    let was_done = said.status == 0;
    match then {
        Again(twice, _, _) if was_done => heads.status == 0 && again.status == twice,
        Again(_, undone, repeated) => {
            undone.contains(&heads.status) && repeated.contains(&again.status)
        }
        _ => {
            let is_head = !was_done || heads.bytes.as_slice() == said.bytes.as_slice();
            is_head && heads.status == 0 && again.status == 0
        }
    }
}

/// Whether two dumps are one, in which the two lists are.
fn is_united(one: &Said, other: &Said) -> bool {
    one.status == 0
        && one.bytes.as_slice() == other.bytes.as_slice()
        && one.bytes.iter().filter(|byte| **byte == b'\n').count() == 4
}

/// Whether two stores are equal once they are merged again.
fn unites(alloc: Global, left: &mut MemShelf) -> Result<bool, AllocError>
    requires home { IsHome (shelf_of left.old) }
{
    let again = answer(alloc, left, &MERGE)?;
    let one = answer(alloc, left, &("dump A", b"", 42))?;
    let other = answer(alloc, left, &("dump B", b"", 42))?;
    Ok(again.status == 0 && is_united(&one, &other))
}

/// Whether the heads and the same command again are as the row says.
fn is_there(alloc: Global, left: &mut MemShelf, row: &Row, said: &Said) -> Result<bool, AllocError>
    requires home { IsHome (shelf_of left.old) }
{
    let heads = answer(alloc, left, &("heads A", b"", 42))?;
    let again = answer(alloc, left, &row.1)?;
    Ok(is_right(row.3, said, &heads, &again))
}

/// Whether what a crash left is as the row says, where the command answered this. The key is the one that seals.
fn goes_on(
    alloc: Global,
    left: &mut MemShelf,
    row: &Row,
    key: &[u8],
    said: &Said,
) -> Result<bool, AllocError>
    requires home { IsHome (shelf_of left.old) }
{
    match row.3 {
        United => unites(alloc, left),
        Drawn => draws_again(alloc, left, key, said),
        Sealed => seals_again(alloc, left, key, said),
        _ => is_there(alloc, left, row, said),
    }
}

/// Whether nothing is lost in a run of this number, which is of so many calls after which the disk stops, and of the
/// choice by which a crash leaves something.
fn survives(
    alloc: Global,
    base: &MemShelf,
    row: &Row,
    key: &[u8],
    number: u64,
) -> Result<bool, AllocError>
    requires { IsHome (shelf_of base.now) }
{
    let (calls, choice) = (number / CHOICES, number % CHOICES);
    let (said, mut left) = crashed(alloc, base, (row.2, calls, choice), &row.1)?;
    Ok(is_stopped(calls, said.status) && goes_on(alloc, &mut left, row, key, &said)?)
}

/// How often a crash loses something.
fn losses(alloc: Global, base: &MemShelf, row: &Row) -> Result<u64, AllocError>
    requires { IsHome (shelf_of base.now) }
{
    let key = drawn_key(alloc)?;
    let mut losses: u64 = 0;
    'runs: for number in 0..CALLS * CHOICES {
        let survives = survives(alloc, base, row, &key, number)?;
        losses = losses.saturating_add(u64::from(!survives));
    }
    Ok(losses)
}

/// How often a crash loses something after what was done before, or `None` where that was not done.
fn losses_of(alloc: Global, row: &Row) -> Result<Option<u64>, AllocError> {
    let mut base = MemShelf::new(alloc);
    if !begins(alloc, &mut base, row.0)? {
        return Ok(None);
    }
    Ok(Some(losses(alloc, &base, row)?))
}

#[test]
fn a_crash_leaves_what_was_acknowledged(rt: HostRuntime) -> Result<(), Fail> {
    for row in ROWS {
        assert_eq!(rt; losses_of(rt.alloc(), row)?, Some(0), "{} at {}", row.1.0, row.2.0);
    }
    Ok(())
}

#[test]
fn a_crash_leaves_a_key_or_none(rt: HostRuntime) -> Result<(), Fail> {
    for row in DRAW_ROWS {
        assert_eq!(rt; losses_of(rt.alloc(), row)?, Some(0), "{} at {}", row.1.0, row.2.0);
    }
    Ok(())
}

#[test]
fn a_crash_costs_an_index_at_most(rt: HostRuntime) -> Result<(), Fail> {
    for row in SEAL_ROWS {
        assert_eq!(rt; losses_of(rt.alloc(), row)?, Some(0), "{} at {}", row.1.0, row.2.0);
    }
    Ok(())
}
