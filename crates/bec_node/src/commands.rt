//! The commands that need no net, each by a function of its own, for a caller that knows the first word.

ghost use Rattle.std.specs.Prelude.{IsTrue, codes};
ghost use Rattle.outcomes.specs.Seen.{seen_outside, seen_sink};
ghost use Rattle.bec_node.specs.Beside.{RunsBeside};
ghost use Rattle.bec_node.specs.RunAlone.{HasFirstWord, Runs};
ghost use Rattle.key_directory.specs.Parts.{IsHome};

use crate::alone::run_alone;
use crate::beside::run_beside;
use bec_bytes::{Sink, Source};
use bec_disk::Shelf;
use outcomes::Outside;
use rand_core::Rng;
use record_check::Verifier;
use std::alloc::Global;

/// The command `heads [DIR]`: prints the ids of the heads of the update stream that it reads, or of the directory's
/// store, rising, one per line in lower-case hexadecimal; or the line for what is refused. The first word has to be
/// `heads`.
///
/// Its clause is that of [`run_alone`] for these words.
pub fn command_heads<V: Verifier, H: Shelf, R: Rng, S: Source, K: Sink>(
    verifier: &V,
    alloc: Global,
    words: &[String],
    outside: &mut Outside<H, R, S>,
    out: &mut K,
) -> u8
    requires first { HasFirstWord (codes "heads") words.now }
    requires home { IsTrue (H.state outside.old.shelf).tells → IsHome (H.state outside.old.shelf) }
    ensures { Runs words.now
        (seen_outside S.Source H.Shelf R.stream outside.old) (seen_outside S.Source H.Shelf R.stream outside.new)
        (seen_sink K.Sink out.old) (seen_sink K.Sink out.new) result }
{
    run_alone(verifier, alloc, words, outside, out)
}

/// The command `check`: reads the text of a schema, and prints `confluent` where each invariant survives merging, or
/// the line for its first fault, or the lines for the first invariant that does not survive, with a history that breaks
/// it. The first word has to be `check`.
///
/// Its clause is that of [`run_alone`] for these words.
pub fn command_check<V: Verifier, H: Shelf, R: Rng, S: Source, K: Sink>(
    verifier: &V,
    alloc: Global,
    words: &[String],
    outside: &mut Outside<H, R, S>,
    out: &mut K,
) -> u8
    requires first { HasFirstWord (codes "check") words.now }
    requires home { IsTrue (H.state outside.old.shelf).tells → IsHome (H.state outside.old.shelf) }
    ensures { Runs words.now
        (seen_outside S.Source H.Shelf R.stream outside.old) (seen_outside S.Source H.Shelf R.stream outside.new)
        (seen_sink K.Sink out.old) (seen_sink K.Sink out.new) result }
{
    run_alone(verifier, alloc, words, outside, out)
}

/// The command `dump [DIR] [--json]`: prints the tables of the bundle that it reads, or of the directory's store, each
/// visible row on a line, and the updates that do nothing, or all of it as one JSON object; or the line for what is
/// refused. The first word has to be `dump`.
///
/// Its clause is that of [`run_alone`] for these words.
pub fn command_dump<V: Verifier, H: Shelf, R: Rng, S: Source, K: Sink>(
    verifier: &V,
    alloc: Global,
    words: &[String],
    outside: &mut Outside<H, R, S>,
    out: &mut K,
) -> u8
    requires first { HasFirstWord (codes "dump") words.now }
    requires home { IsTrue (H.state outside.old.shelf).tells → IsHome (H.state outside.old.shelf) }
    ensures { Runs words.now
        (seen_outside S.Source H.Shelf R.stream outside.old) (seen_outside S.Source H.Shelf R.stream outside.new)
        (seen_sink K.Sink out.old) (seen_sink K.Sink out.new) result }
{
    run_alone(verifier, alloc, words, outside, out)
}

/// The command `init DIR`: makes a store in a directory that has none, of the schema that it reads, and prints the id
/// of its database. The first word has to be `init`.
///
/// Its clause is that of [`run_alone`] for these words.
pub fn command_init<V: Verifier, H: Shelf, R: Rng, S: Source, K: Sink>(
    verifier: &V,
    alloc: Global,
    words: &[String],
    outside: &mut Outside<H, R, S>,
    out: &mut K,
) -> u8
    requires first { HasFirstWord (codes "init") words.now }
    requires home { IsTrue (H.state outside.old.shelf).tells → IsHome (H.state outside.old.shelf) }
    ensures { Runs words.now
        (seen_outside S.Source H.Shelf R.stream outside.old) (seen_outside S.Source H.Shelf R.stream outside.new)
        (seen_sink K.Sink out.old) (seen_sink K.Sink out.new) result }
{
    run_alone(verifier, alloc, words, outside, out)
}

/// The command `keygen DIR [--height 5,10,15] [--width 1,2,4,8]`: draws a key for a directory that has none, and prints
/// its public key in lower-case hexadecimal. The first word has to be `keygen`.
///
/// Its clause is that of [`run_alone`] for these words.
pub fn command_keygen<V: Verifier, H: Shelf, R: Rng, S: Source, K: Sink>(
    verifier: &V,
    alloc: Global,
    words: &[String],
    outside: &mut Outside<H, R, S>,
    out: &mut K,
) -> u8
    requires first { HasFirstWord (codes "keygen") words.now }
    requires home { IsTrue (H.state outside.old.shelf).tells → IsHome (H.state outside.old.shelf) }
    ensures { Runs words.now
        (seen_outside S.Source H.Shelf R.stream outside.old) (seen_outside S.Source H.Shelf R.stream outside.new)
        (seen_sink K.Sink out.old) (seen_sink K.Sink out.new) result }
{
    run_alone(verifier, alloc, words, outside, out)
}

/// The command `apply DIR`: makes an update of the transaction that it reads, by the key of the directory, adds it to
/// the directory's store, and prints its id. The first word has to be `apply`.
///
/// Its clause is that of [`run_alone`] for these words.
pub fn command_apply<V: Verifier, H: Shelf, R: Rng, S: Source, K: Sink>(
    verifier: &V,
    alloc: Global,
    words: &[String],
    outside: &mut Outside<H, R, S>,
    out: &mut K,
) -> u8
    requires first { HasFirstWord (codes "apply") words.now }
    requires home { IsTrue (H.state outside.old.shelf).tells → IsHome (H.state outside.old.shelf) }
    ensures { Runs words.now
        (seen_outside S.Source H.Shelf R.stream outside.old) (seen_outside S.Source H.Shelf R.stream outside.new)
        (seen_sink K.Sink out.old) (seen_sink K.Sink out.new) result }
{
    run_alone(verifier, alloc, words, outside, out)
}

/// The command `join DIR`: joins the heads of the directory's store by an update without operations, and prints its id,
/// or nothing where there are fewer than two heads. The first word has to be `join`.
///
/// Its clause is that of [`run_alone`] for these words.
pub fn command_join<V: Verifier, H: Shelf, R: Rng, S: Source, K: Sink>(
    verifier: &V,
    alloc: Global,
    words: &[String],
    outside: &mut Outside<H, R, S>,
    out: &mut K,
) -> u8
    requires first { HasFirstWord (codes "join") words.now }
    requires home { IsTrue (H.state outside.old.shelf).tells → IsHome (H.state outside.old.shelf) }
    ensures { Runs words.now
        (seen_outside S.Source H.Shelf R.stream outside.old) (seen_outside S.Source H.Shelf R.stream outside.new)
        (seen_sink K.Sink out.old) (seen_sink K.Sink out.new) result }
{
    run_alone(verifier, alloc, words, outside, out)
}

/// The command `export DIR [--updates]`: prints the bundle of the directory's store, its schema and its updates in the
/// order of arrival, or the updates alone. The first word has to be `export`.
///
/// Its clause is that of [`run_alone`] for these words.
pub fn command_export<V: Verifier, H: Shelf, R: Rng, S: Source, K: Sink>(
    verifier: &V,
    alloc: Global,
    words: &[String],
    outside: &mut Outside<H, R, S>,
    out: &mut K,
) -> u8
    requires first { HasFirstWord (codes "export") words.now }
    requires home { IsTrue (H.state outside.old.shelf).tells → IsHome (H.state outside.old.shelf) }
    ensures { Runs words.now
        (seen_outside S.Source H.Shelf R.stream outside.old) (seen_outside S.Source H.Shelf R.stream outside.new)
        (seen_sink K.Sink out.old) (seen_sink K.Sink out.new) result }
{
    run_alone(verifier, alloc, words, outside, out)
}

/// The command `query DIR TEXT [--json]`: prints what a query asks of the directory's store, a line for each row with
/// its columns apart by a tab, or one JSON object; or the line for what is refused. The first word has to be `query`.
///
/// Its clause is that of [`run_alone`] for these words.
pub fn command_query<V: Verifier, H: Shelf, R: Rng, S: Source, K: Sink>(
    verifier: &V,
    alloc: Global,
    words: &[String],
    outside: &mut Outside<H, R, S>,
    out: &mut K,
) -> u8
    requires first { HasFirstWord (codes "query") words.now }
    requires home { IsTrue (H.state outside.old.shelf).tells → IsHome (H.state outside.old.shelf) }
    ensures { Runs words.now
        (seen_outside S.Source H.Shelf R.stream outside.old) (seen_outside S.Source H.Shelf R.stream outside.new)
        (seen_sink K.Sink out.old) (seen_sink K.Sink out.new) result }
{
    run_alone(verifier, alloc, words, outside, out)
}

/// The command `merge DIR OTHER`: reconciles the stores of two directories, and prints how many updates each gained,
/// and in how many turns. The first word has to be `merge`.
///
/// Its clause is that of [`run_alone`] for these words.
pub fn command_merge<V: Verifier, H: Shelf, R: Rng, S: Source, K: Sink>(
    verifier: &V,
    alloc: Global,
    words: &[String],
    outside: &mut Outside<H, R, S>,
    out: &mut K,
) -> u8
    requires first { HasFirstWord (codes "merge") words.now }
    requires home { IsTrue (H.state outside.old.shelf).tells → IsHome (H.state outside.old.shelf) }
    ensures { Runs words.now
        (seen_outside S.Source H.Shelf R.stream outside.old) (seen_outside S.Source H.Shelf R.stream outside.new)
        (seen_sink K.Sink out.old) (seen_sink K.Sink out.new) result }
{
    run_alone(verifier, alloc, words, outside, out)
}

/// The command `notes DIR`: prints the notes of the directory's store that are not empty, each with the id of its
/// update, in rising order of ids; or the line for what is refused. The first word has to be `notes`.
///
/// Its clause is that of [`run_alone`] for these words.
pub fn command_notes<V: Verifier, H: Shelf, R: Rng, S: Source, K: Sink>(
    verifier: &V,
    alloc: Global,
    words: &[String],
    outside: &mut Outside<H, R, S>,
    out: &mut K,
) -> u8
    requires first { HasFirstWord (codes "notes") words.now }
    requires home { IsTrue (H.state outside.old.shelf).tells → IsHome (H.state outside.old.shelf) }
    ensures { Runs words.now
        (seen_outside S.Source H.Shelf R.stream outside.old) (seen_outside S.Source H.Shelf R.stream outside.new)
        (seen_sink K.Sink out.old) (seen_sink K.Sink out.new) result }
{
    run_alone(verifier, alloc, words, outside, out)
}

/// The command `hsskey DIR [--height 5,10] [--width 1,2,4,8]`: draws a key of two levels for a directory that has none,
/// and prints its public key in lower-case hexadecimal. The first word has to be `hsskey`.
///
/// Its clause is that of [`run_beside`] for these words.
pub fn command_hsskey<V: Verifier, H: Shelf, R: Rng, S: Source, K: Sink>(
    verifier: &V,
    alloc: Global,
    words: &[String],
    outside: &mut Outside<H, R, S>,
    out: &mut K,
) -> u8
    requires first { HasFirstWord (codes "hsskey") words.now }
    requires home { IsTrue (H.state outside.old.shelf).tells → IsHome (H.state outside.old.shelf) }
    ensures { RunsBeside words.now
        (seen_outside S.Source H.Shelf R.stream outside.old) (seen_outside S.Source H.Shelf R.stream outside.new)
        (seen_sink K.Sink out.old) (seen_sink K.Sink out.new) result }
{
    run_beside(verifier, alloc, words, outside, out)
}

/// The command `seal DIR`: seals what it reads by the two-level key of the directory, and prints the seal in lower-case
/// hexadecimal; or the line for what is refused. The first word has to be `seal`.
///
/// Its clause is that of [`run_beside`] for these words.
pub fn command_seal<V: Verifier, H: Shelf, R: Rng, S: Source, K: Sink>(
    verifier: &V,
    alloc: Global,
    words: &[String],
    outside: &mut Outside<H, R, S>,
    out: &mut K,
) -> u8
    requires first { HasFirstWord (codes "seal") words.now }
    requires home { IsTrue (H.state outside.old.shelf).tells → IsHome (H.state outside.old.shelf) }
    ensures { RunsBeside words.now
        (seen_outside S.Source H.Shelf R.stream outside.old) (seen_outside S.Source H.Shelf R.stream outside.new)
        (seen_sink K.Sink out.old) (seen_sink K.Sink out.new) result }
{
    run_beside(verifier, alloc, words, outside, out)
}

/// The command `unseal KEY SIG`: reads what was sealed, and prints `good` where the signature is a seal of it by this
/// key, or the line for what is refused. The first word has to be `unseal`.
///
/// Its clause is that of [`run_beside`] for these words.
pub fn command_unseal<V: Verifier, H: Shelf, R: Rng, S: Source, K: Sink>(
    verifier: &V,
    alloc: Global,
    words: &[String],
    outside: &mut Outside<H, R, S>,
    out: &mut K,
) -> u8
    requires first { HasFirstWord (codes "unseal") words.now }
    requires home { IsTrue (H.state outside.old.shelf).tells → IsHome (H.state outside.old.shelf) }
    ensures { RunsBeside words.now
        (seen_outside S.Source H.Shelf R.stream outside.old) (seen_outside S.Source H.Shelf R.stream outside.new)
        (seen_sink K.Sink out.old) (seen_sink K.Sink out.new) result }
{
    run_beside(verifier, alloc, words, outside, out)
}

/// The command `audit DIR`: prints a line for each key and index that signed two updates of the directory's store with
/// different messages, or nothing where there are none; or the line for what is refused. The first word has to be
/// `audit`.
///
/// Its clause is that of [`run_beside`] for these words.
pub fn command_audit<V: Verifier, H: Shelf, R: Rng, S: Source, K: Sink>(
    verifier: &V,
    alloc: Global,
    words: &[String],
    outside: &mut Outside<H, R, S>,
    out: &mut K,
) -> u8
    requires first { HasFirstWord (codes "audit") words.now }
    requires home { IsTrue (H.state outside.old.shelf).tells → IsHome (H.state outside.old.shelf) }
    ensures { RunsBeside words.now
        (seen_outside S.Source H.Shelf R.stream outside.old) (seen_outside S.Source H.Shelf R.stream outside.new)
        (seen_sink K.Sink out.old) (seen_sink K.Sink out.new) result }
{
    run_beside(verifier, alloc, words, outside, out)
}

/// The command `confirm`: reads two records, and prints `doubled` with the key and the index where one key signed both
/// under one index with different messages, or the line for what is refused. The first word has to be `confirm`.
///
/// Its clause is that of [`run_beside`] for these words.
pub fn command_confirm<V: Verifier, H: Shelf, R: Rng, S: Source, K: Sink>(
    verifier: &V,
    alloc: Global,
    words: &[String],
    outside: &mut Outside<H, R, S>,
    out: &mut K,
) -> u8
    requires first { HasFirstWord (codes "confirm") words.now }
    requires home { IsTrue (H.state outside.old.shelf).tells → IsHome (H.state outside.old.shelf) }
    ensures { RunsBeside words.now
        (seen_outside S.Source H.Shelf R.stream outside.old) (seen_outside S.Source H.Shelf R.stream outside.new)
        (seen_sink K.Sink out.old) (seen_sink K.Sink out.new) result }
{
    run_beside(verifier, alloc, words, outside, out)
}

/// The command `watch DIR TEXT [--every N]`: prints the answer of a query over the directory's store, and then, while
/// the records that it reads are added to the store, what they change in it, block by block; or the line for what is
/// refused. The first word has to be `watch`.
///
/// Its clause is that of [`run_beside`] for these words.
pub fn command_watch<V: Verifier, H: Shelf, R: Rng, S: Source, K: Sink>(
    verifier: &V,
    alloc: Global,
    words: &[String],
    outside: &mut Outside<H, R, S>,
    out: &mut K,
) -> u8
    requires first { HasFirstWord (codes "watch") words.now }
    requires home { IsTrue (H.state outside.old.shelf).tells → IsHome (H.state outside.old.shelf) }
    ensures { RunsBeside words.now
        (seen_outside S.Source H.Shelf R.stream outside.old) (seen_outside S.Source H.Shelf R.stream outside.new)
        (seen_sink K.Sink out.old) (seen_sink K.Sink out.new) result }
{
    run_beside(verifier, alloc, words, outside, out)
}

/// The command `world [--audit]`: reads the script of a world, and prints the report of the world that it comes to, or
/// the lines for what is refused. The first word has to be `world`.
///
/// Its clause is that of [`run_beside`] for these words.
pub fn command_world<V: Verifier, H: Shelf, R: Rng, S: Source, K: Sink>(
    verifier: &V,
    alloc: Global,
    words: &[String],
    outside: &mut Outside<H, R, S>,
    out: &mut K,
) -> u8
    requires first { HasFirstWord (codes "world") words.now }
    requires home { IsTrue (H.state outside.old.shelf).tells → IsHome (H.state outside.old.shelf) }
    ensures { RunsBeside words.now
        (seen_outside S.Source H.Shelf R.stream outside.old) (seen_outside S.Source H.Shelf R.stream outside.new)
        (seen_sink K.Sink out.old) (seen_sink K.Sink out.new) result }
{
    run_beside(verifier, alloc, words, outside, out)
}

/// The command `demo NUMBER COUNT`: makes at most COUNT updates of the demonstration, by the keys that NUMBER draws,
/// and prints five counts of what its replicas come to. The first word has to be `demo`.
///
/// Its clause is that of [`run_beside`] for these words.
pub fn command_demo<V: Verifier, H: Shelf, R: Rng, S: Source, K: Sink>(
    verifier: &V,
    alloc: Global,
    words: &[String],
    outside: &mut Outside<H, R, S>,
    out: &mut K,
) -> u8
    requires first { HasFirstWord (codes "demo") words.now }
    requires home { IsTrue (H.state outside.old.shelf).tells → IsHome (H.state outside.old.shelf) }
    ensures { RunsBeside words.now
        (seen_outside S.Source H.Shelf R.stream outside.old) (seen_outside S.Source H.Shelf R.stream outside.new)
        (seen_sink K.Sink out.old) (seen_sink K.Sink out.new) result }
{
    run_beside(verifier, alloc, words, outside, out)
}
