//! A directory, opened once: its store, and its key where that is needed.

ghost use Rattle.std.specs.Prelude.{◌≡◌, ◌≢◌, ◌≤◌, IsTrue, IfOk, IfErr, IfSome, IsErrOf};
ghost use Rattle.bec_bytes.specs.Causes.{Rose};
ghost use Rattle.bec_disk.specs.declared.part.Part.TheVariants.{Schema, Updates};
ghost use Rattle.bec_disk.specs.Shelf.{out};
ghost use Rattle.key_directory.specs.Parts.{part_in};
ghost use Rattle.store_directory.specs.Opening.{Closes, IsKeyIn, IsKeyOut, IsStoreOut, LetsAllGo, Opens, Refuses};

use crate::open_refusal::OpenRefusal;
use crate::standing::each_stands;
use crate::store::{OpenStore, put_store, take_store};
use crate::store_refusal::StoreRefusal;
use bec_disk::{Disk, Shelf};
use key_directory::{KeyRefusal, put_key, take_key};
use key_index::KeyStore;
use record_check::Verifier;
use row_check::{Luhn, Native};
use schema_text::one_schema;
use std::alloc::Global;

/// What is needed of a directory.
#[derive(Clone, Copy)]
pub enum Needs {
    /// Its store.
    Store,
    /// Its store and its key.
    StoreAndKey,
}

/// What is needed of a directory, taken from a shelf and open.
#[derive(Drop)]
pub struct Opened<D: Disk> {
    /// The store.
    pub store: OpenStore<D, Luhn, Luhn>,
    /// The key, where it is needed.
    pub key: Option<KeyStore<D>>,
}

/// Takes what is needed of a directory from the shelf, and opens it: the store first, and then the key. The verifier
/// checks the records of the store, and computes the leaves of the key. Where either is refused, every part is in its
/// place again.
pub fn open<V: Verifier, H: Shelf>(
    verifier: &V,
    alloc: Global,
    shelf: &mut H,
    dir: &str,
    needs: Needs,
) -> Result<Opened<H::D>, OpenRefusal>
    requires schema_in { IsTrue (H.state shelf.old).tells → part_in (H.state shelf.old) dir.now Schema ≢ out }
    requires updates_in { IsTrue (H.state shelf.old).tells → part_in (H.state shelf.old) dir.now Updates ≢ out }
    requires key_in { IsTrue (H.state shelf.old).tells → IsKeyIn needs (H.state shelf.old) dir.now }
    ensures opens { IfOk result (λ opened. Opens needs (H.state shelf.old) dir.now opened.store opened.key
        (H.state shelf.new)) }
    ensures lets_go { IfErr result (λ _. LetsAllGo needs (H.state shelf.old) dir.now (H.state shelf.new)) }
    ensures refused { IfErr result (λ why. Refuses why needs (H.state shelf.old) dir.now) }
    ensures later { H.faults shelf.old ≤ H.faults shelf.new }
    ensures store_failed { IsErrOf result (OpenRefusal.Store StoreRefusal.DiskFault)
        → Rose (H.faults shelf.old) (H.faults shelf.new) }
    ensures key_failed { IsErrOf result (OpenRefusal.Key KeyRefusal.DiskFault)
        → Rose (H.faults shelf.old) (H.faults shelf.new) }
{
    one_schema();
    let store = take_store(verifier, alloc, shelf, dir, Native::new(Luhn))?;
    match needs {
        Needs::Store => Ok(Opened { store, key: None }),
        Needs::StoreAndKey => match take_key(verifier, alloc, shelf, dir) {
            Ok(key) => Ok(Opened {
                store,
                key: Some(key),
            }),
            Err(why) => {
                each_stands(&store.replica);
                put_store(shelf, dir, store);
                Err(OpenRefusal::Key(why))
            }
        },
    }
}

/// Puts back what was opened of a directory: the key first, and then the store. A disk that counted a fault makes the
/// shelf's count rise.
pub fn close<H: Shelf>(shelf: &mut H, dir: &str, opened: Opened<H::D>)
    requires store_of { IsTrue (H.state shelf.old).tells → IsStoreOut (H.state shelf.old) dir.now opened.store.schema
        opened.store.replica }
    requires key_of { IsTrue (H.state shelf.old).tells → IfSome opened.key (IsKeyOut (H.state shelf.old) dir.now) }
    ensures closes { Closes (H.state shelf.old) (H.faults shelf.old) dir.now opened.store opened.key (H.state shelf.new)
        (H.faults shelf.new) }
{
    let Opened { store, key } = opened;
    match key {
        None => put_store(shelf, dir, store),
        Some(key) => {
            put_key(shelf, dir, key);
            put_store(shelf, dir, store);
        }
    }
}
