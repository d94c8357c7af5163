//! What differs in two stores, each in a directory or in a bundle that is read.

ghost use Rattle.std.specs.Prelude.{◌≤◌, ◌⊎◌, ◌≡◌, ℕ, IfErr, IfOk, IsTrue, List, is_none, option_map, true};
ghost use Rattle.key_directory.specs.Parts.{IsHome};
ghost use Rattle.outcomes.specs.Outcome.{IsFault};
ghost use Rattle.outcomes.specs.Rules.{nodes_of, rules_of};
ghost use Rattle.outcomes.specs.Seen.{seen_outside};
ghost use Rattle.outcomes.specs.declared.refusal.Refusal.TheVariants.{CutSchema};
ghost use Rattle.schema.specs.Data.{SchemaData};
ghost use Rattle.store_directory.specs.Standing.{Stands};
ghost use Rattle.tuple_state.specs.State.{IsStateOf};
ghost use Rattle.look_commands.specs.Bundles.{AreEntriesOf, BundleLacks, BundleRead, HoldsFirst, LacksFirst};
ghost use Rattle.look_commands.specs.Differences.{LacksSide, ListsSide, ListsStore, ShowsDifference};

use crate::bundle::{Bundle, read_bundle};
use crate::members::{Members, members_of};
use crate::telling::told_of;
use bec_bytes::{Framed, PlainSource, Source, read_framed};
use bec_disk::{Disk, Shelf};
use key_directory::KeyMaker;
use log_texts::{Entry, Style, diff_text, entries_of};
use outcomes::{Outside, Refusal};
use rand_core::Rng;
use record_check::Verifier;
use replica::Replica;
use row_check::{Luhn, Native};
use schema_text::one_schema;
use std::alloc::{AllocError, Global};
use store_directory::{Needs, close, each_stands, open};

/// How many bytes the first of two bundles has at most.
pub const MAX_FIRST_BYTES: usize = 314_572_800;

/// Which updates only one of two stores has. Each is that of a directory, or without one a bundle that is read; the
/// first of two bundles stands behind its length.
pub(crate) fn difference<V: Verifier, H: Shelf, R: Rng, S: Source>(
    maker: &KeyMaker<V>,
    style: Style,
    first: Option<&str>,
    second: Option<&str>,
    outside: &mut Outside<H, R, S>,
) -> Result<Vec<u8>, Refusal>
    requires { IsTrue (H.state outside.old.shelf).tells → IsHome (H.state outside.old.shelf) }
    ensures { ShowsDifference style (option_map (λ d. d.now) first.entry) (option_map (λ d. d.now) second.entry)
        (seen_outside S.Source H.Shelf R.stream outside.old) (seen_outside S.Source H.Shelf R.stream outside.new)
        result }
{
    let framed = is_bundle(second);
    let mut firsts = side_entries(maker, first, framed, outside)?;
    let mut seconds = side_entries(maker, second, false, outside)?;
    Ok(diff_text(maker.alloc, style, &mut firsts, &mut seconds)?)
}

/// Whether a side without a directory is meant, which is a bundle.
fn is_bundle(directory: Option<&str>) -> bool
    ensures { result ≡ is_none (option_map (λ d. d.now) directory.entry) }
{
    match directory {
        Some(_) => false,
        None => true,
    }
}

/// The entries of the store of a directory, or without one of the bundle that is read, behind its length or alone.
fn side_entries<V: Verifier, H: Shelf, R: Rng, S: Source>(
    maker: &KeyMaker<V>,
    directory: Option<&str>,
    framed: bool,
    outside: &mut Outside<H, R, S>,
) -> Result<Vec<Entry>, Refusal>
    requires { IsTrue (H.state outside.old.shelf).tells → IsHome (H.state outside.old.shelf) }
    ensures listed { IfOk result (λ entries. ListsSide framed
        (seen_outside S.Source H.Shelf R.stream outside.old) (seen_outside S.Source H.Shelf R.stream outside.new)
        entries (option_map (λ d. d.now) directory.entry)) }
    ensures lacks { IfErr result (λ refusal. LacksSide framed
        (seen_outside S.Source H.Shelf R.stream outside.old) (seen_outside S.Source H.Shelf R.stream outside.new)
        refusal (option_map (λ d. d.now) directory.entry)) }
    ensures home { IsTrue (H.state outside.new.shelf).tells → IsHome (H.state outside.new.shelf) }
{
    match directory {
        Some(directory) => store_entries(maker, &mut outside.shelf, directory),
        None => bundle_entries(maker.alloc, framed, &mut outside.input),
    }
}

/// The entries of the store of a directory.
fn store_entries<V: Verifier, H: Shelf>(
    maker: &KeyMaker<V>,
    shelf: &mut H,
    dir: &str,
) -> Result<Vec<Entry>, Refusal>
    requires { IsTrue (H.state shelf.old).tells → IsHome (H.state shelf.old) }
    ensures { ListsStore dir.now (H.state shelf.old) (H.state shelf.new) (H.faults shelf.old) (H.faults shelf.new)
        result }
{
    one_schema();
    let opened = open(maker.generator, maker.alloc, shelf, dir, Needs::Store)?;
    let entries = opened_entries(maker.alloc, &opened.store.replica);
    close(shelf, dir, opened);
    Ok(entries?)
}

/// The entries of a store that is open.
fn opened_entries<D: Disk>(
    alloc: Global,
    replica: &Replica<D, Luhn, Luhn>,
) -> Result<Vec<Entry>, AllocError>
    ensures stands { Stands replica.now }
    ensures entries { IfOk result (λ entries. AreEntriesOf replica.now.history.schema replica.now.history.members
        entries.items) }
{
    each_stands(replica);
    let native = Native::new(Luhn);
    entries_in(alloc, members_of(replica, &native))
}

/// The entries of the bundle that is read, behind its length or alone.
fn bundle_entries<S: Source>(
    alloc: Global,
    framed: bool,
    input: &mut S,
) -> Result<Vec<Entry>, Refusal>
    ensures listed { IfOk result (λ entries. (schema : SchemaData) × (members : List (List ℕ))
        × BundleRead framed (S.left input.old) (S.left input.new) schema members
        × AreEntriesOf schema members entries.items) }
    ensures lacks { IfErr result (λ refusal. BundleLacks framed (S.left input.old) (S.left input.new) refusal
        ⊎ IsFault (S.faults input.old) (S.faults input.new) refusal) }
    ensures later { S.faults input.old ≤ S.faults input.new }
{
    let native = Native::new(Luhn);
    let bundle = read_side(alloc, &native, framed, input)?;
    Ok(entries_in(alloc, bundle.members(&native))?)
}

/// Reads a bundle, behind its length or alone.
fn read_side<S: Source>(
    alloc: Global,
    native: &Native<Luhn, Luhn>,
    framed: bool,
    input: &mut S,
) -> Result<Bundle, Refusal>
    ensures held { IfOk result (λ bundle. BundleRead framed (S.left input.old) (S.left input.new) bundle.schema
        bundle.graph) }
    ensures state { IfOk result (λ bundle. IsStateOf (rules_of bundle.schema) (nodes_of bundle.graph) bundle.tables) }
    ensures refused { IfErr result (λ refusal. BundleLacks framed (S.left input.old) (S.left input.new) refusal
        ⊎ IsFault (S.faults input.old) (S.faults input.new) refusal) }
    ensures later { S.faults input.old ≤ S.faults input.new }
{
    if framed {
        read_first(alloc, native, input)
    } else {
        read_bundle(alloc, native, input)
    }
}

/// Reads the first of two bundles, and what it holds.
fn read_first<S: Source>(
    alloc: Global,
    native: &Native<Luhn, Luhn>,
    input: &mut S,
) -> Result<Bundle, Refusal>
    ensures held { IfOk result (λ bundle. BundleRead true (S.left input.old) (S.left input.new) bundle.schema
        bundle.graph) }
    ensures state { IfOk result (λ bundle. IsStateOf (rules_of bundle.schema) (nodes_of bundle.graph) bundle.tables) }
    ensures refused { IfErr result (λ refusal. BundleLacks true (S.left input.old) (S.left input.new) refusal
        ⊎ IsFault (S.faults input.old) (S.faults input.new) refusal) }
    ensures later { S.faults input.old ≤ S.faults input.new }
{
    let bytes = first_bundle(alloc, input)?;
    let mut source = PlainSource::new(bytes);
    read_bundle(alloc, native, &mut source)
}

/// Reads the bytes of the first of two bundles, and nothing behind it.
fn first_bundle<S: Source>(alloc: Global, input: &mut S) -> Result<Vec<u8>, Refusal>
    ensures first { IfOk result (λ bundle. HoldsFirst (S.left input.old) (S.left input.new) bundle.items) }
    ensures refused { IfErr result (λ refusal. (LacksFirst (S.left input.old) (S.left input.new)
        × (refusal ≡ CutSchema)) ⊎ IsFault (S.faults input.old) (S.faults input.new) refusal) }
    ensures later { S.faults input.old ≤ S.faults input.new }
{
    match read_framed(alloc, input, MAX_FIRST_BYTES)? {
        Framed::End | Framed::Cut(_) | Framed::TooLong => Err(Refusal::CutSchema),
        Framed::Whole(bundle) => Ok(bundle),
    }
}

/// The entries of members.
fn entries_in(alloc: Global, members: Members) -> Result<Vec<Entry>, AllocError>
    requires { IsStateOf (rules_of members.schema.now) (nodes_of members.graph.now) members.tables.now }
    ensures { IfOk result (λ entries. AreEntriesOf members.entry.schema.now members.entry.graph.now entries.items) }
{
    let told = told_of(alloc, members)?;
    entries_of(alloc, members.graph, &told)
}
