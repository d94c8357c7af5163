//! Cloning a store.

ghost use Rattle.std.specs.Prelude.{◌≡◌, IfErr, IfOk, IsTrue, map};
ghost use Rattle.key_directory.specs.Parts.{IsHome};
ghost use Rattle.outcomes.specs.Seen.{seen_outside};
ghost use Rattle.schema.specs.Data.{SchemaData};
ghost use Rattle.store_directory.specs.Standing.{Stands};
ghost use Rattle.update_codec.specs.Parts.{entry_of};
ghost use Rattle.update_model.specs.Graph.{IsClosed};
ghost use Rattle.import_commands.specs.Cloning.{ClonesBundle, ClonesStore, CopiesStore, KeepsHome};
ghost use Rattle.import_commands.specs.Cloning.{LacksStore};
ghost use Rattle.import_commands.specs.Making.{IsTextOf};

use crate::contents::{Contents, contents_of};
use crate::importing::import;
use crate::putting::put_in;
use bec_bytes::Source;
use bec_disk::{Disk, Shelf};
use key_directory::KeyMaker;
use outcomes::{Outside, Refusal};
use rand_core::Rng;
use record_check::Verifier;
use replica::Replica;
use row_check::Luhn;
use schema_text::one_schema;
use std::alloc::{AllocError, Global};
use store_directory::{Needs, close, each_stands, is_there, open};

/// Makes a store in a directory that has none, of the bundle that is read, and answers the lines of its database and of
/// how many updates it gained. Where there is a store, nothing is read.
pub fn clone_bundle<V: Verifier, H: Shelf, R: Rng, S: Source>(
    maker: &KeyMaker<V>,
    outside: &mut Outside<H, R, S>,
    dir: &str,
) -> Result<Vec<u8>, Refusal>
    requires { IsTrue (H.state outside.old.shelf).tells → IsHome (H.state outside.old.shelf) }
    ensures { ClonesBundle dir.now (seen_outside S.Source H.Shelf R.stream outside.old)
        (seen_outside S.Source H.Shelf R.stream outside.new) result }
{
    if is_there(maker.alloc, &mut outside.shelf, dir)? {
        return Err(Refusal::StoreThere);
    }
    import(maker, outside, dir)
}

/// The same of the store of another directory. Where there is a store, that one is not opened.
pub fn clone_store<V: Verifier, H: Shelf, R: Rng>(
    maker: &KeyMaker<V>,
    shelf: &mut H,
    random: &mut R,
    from: &str,
    dir: &str,
) -> Result<Vec<u8>, Refusal>
    requires { IsTrue (H.state shelf.old).tells → IsHome (H.state shelf.old) }
    ensures { ClonesStore from.now dir.now (R.stream random.old) (R.stream random.new) (H.state shelf.old)
        (H.state shelf.new) (H.faults shelf.old) (H.faults shelf.new) result }
{
    if is_there(maker.alloc, shelf, dir)? {
        return Err(Refusal::StoreThere);
    }
    let contents = store_contents(maker, shelf, from)?;
    put_in(maker, shelf, random, dir, contents)
}

/// What the store of a directory holds, on memory of its own.
fn store_contents<V: Verifier, H: Shelf>(
    maker: &KeyMaker<V>,
    shelf: &mut H,
    dir: &str,
) -> Result<Contents, Refusal>
    requires { IsTrue (H.state shelf.old).tells → IsHome (H.state shelf.old) }
    ensures copies { IfOk result (λ contents. (schema : SchemaData) × CopiesStore dir.now (H.state shelf.old)
        (H.state shelf.new) (H.faults shelf.old) (H.faults shelf.new) schema contents.updates.items
        × IsTextOf schema contents.database contents.text.items) }
    ensures closed { IfOk result (λ contents. IsClosed (map entry_of contents.updates.items)) }
    ensures lacks { IfErr result (λ refusal. LacksStore dir.now (H.state shelf.old) (H.state shelf.new)
        (H.faults shelf.old) (H.faults shelf.new) refusal) }
    ensures keeps { KeepsHome (H.state shelf.old) (H.state shelf.new) (H.faults shelf.old) (H.faults shelf.new) }
{
    one_schema();
    let opened = open(maker.generator, maker.alloc, shelf, dir, Needs::Store)?;
    let contents = opened_contents(maker.alloc, &opened.store.replica);
    close(shelf, dir, opened);
    Ok(contents?)
}

/// What a store holds that is open, on memory of its own.
fn opened_contents<D: Disk>(
    alloc: Global,
    replica: &Replica<D, Luhn, Luhn>,
) -> Result<Contents, AllocError>
    ensures stands { Stands replica.now }
    ensures text { IfOk result (λ contents. IsTextOf replica.now.history.schema contents.database
        contents.text.items) }
    ensures updates { IfOk result (λ contents. contents.updates.items ≡ replica.now.history.members) }
    ensures closed { IfOk result (λ contents. IsClosed (map entry_of contents.updates.items)) }
{
    each_stands(replica);
    contents_of(alloc, replica.schema(), replica.graph())
}
