//! Two authors meet.

ghost use Rattle.std.specs.Prelude.{◌≡◌, ◌≢◌, ◌+◌, ◌<◌, ℕ, List, OnOk, length};
ghost use Rattle.demonstration.specs.Sites.{IsCourse, IsSite, MeetsWith, steps};
ghost use Rattle.lms_tree.specs.SecretKey.{SecretData};
ghost use Rattle.schema.specs.Data.{SchemaData};

use crate::author::Author;
use session_rules::End;
use std::alloc::{AllocError, Global};
use sync_session::{PairStart, sync_pair};
use update_model::IdList;

/// The authors with these two numbers meet: the first begins a session with the second, which is run to its end.
pub(crate) fn meet(
    alloc: Global,
    authors: &mut [Author],
    first: usize,
    second: usize,
) -> Result<(), AllocError>
    requires four { length authors.old ≡ 4 }
    requires first { first < 4 }
    requires second { second < 4 }
    requires differ { first ≢ second }
    ensures four { length authors.new ≡ 4 }
    ensures course { (keys : List SecretData) (count since met reach : ℕ)
        → IsCourse keys (steps count since met reach) authors.old
        → OnOk result (IsCourse keys (steps count since count reach) authors.new) }
    ensures reaches { (keys : List SecretData) (count since met : ℕ) → first ≡ 0
        → IsCourse keys (steps count since met second) authors.old
        → OnOk result (IsCourse keys (steps count since count (second + 1)) authors.new) }
{
    if first < second {
        let (front, back) = authors.split_at_mut(second);
        sync(alloc, &mut front[first], &mut back[0])
    } else {
        let (front, back) = authors.split_at_mut(first);
        sync(alloc, &mut back[0], &mut front[second])
    }
}

/// Runs a session between two authors, of whom the first begins. The one error is want of memory, of a disk too:
/// nothing else fails a call of their disks.
fn sync(alloc: Global, one: &mut Author, other: &mut Author) -> Result<(), AllocError>
    ensures one { (keys : List SecretData) (schema : SchemaData) (made : List (List ℕ))
        → IsSite keys schema made one.old → IsSite keys schema made other.old
        → OnOk result (IsSite keys schema made one.new) }
    ensures other { (keys : List SecretData) (schema : SchemaData) (made : List (List ℕ))
        → IsSite keys schema made one.old → IsSite keys schema made other.old
        → OnOk result (IsSite keys schema made other.new) }
    ensures meets { OnOk result (MeetsWith one.old other.old one.new other.new) }
{
    one.store.len(); // what every replica keeps
    other.store.len(); // the same
    let database = one.store.schema().rule().database;
    let start = PairStart {
        database_a: database,
        database_b: other.store.schema().rule().database,
        node_a: one.store.node(),
        node_b: other.store.node(),
        old_a: IdList::from_vec(Vec::new(alloc)),
        old_b: IdList::from_vec(Vec::new(alloc)),
    };
    let ended = sync_pair(alloc, &mut one.store, &mut other.store, start)?;
    one.store.len(); // what every replica keeps
    other.store.len(); // the same
    if let End::Store = ended.a {
        return Err(AllocError);
    }
    if one.store.starved() || other.store.starved() {
        return Err(AllocError);
    }
    Ok(())
}
