//! The store of a directory.

ghost use Rattle.std.specs.Prelude.{◌≡◌, ◌≢◌, ◌≤◌, ◌<◌, ◌⊎◌, Some, IsTrue, IfOk, IfErr, IsErrOf};
ghost use Rattle.bec_bytes.specs.Causes.{Rose};
ghost use Rattle.bec_disk.specs.declared.part.Part.TheVariants.{Schema, Updates};
ghost use Rattle.bec_disk.specs.Disk.{IsSettled};
ghost use Rattle.bec_disk.specs.Shelf.{out};
ghost use Rattle.bec_disk.specs.Slot.{slot};
ghost use Rattle.store_directory.specs.Holding.{IsRefusalCause, IsStoreCause, LetsGo, LetsUpdatesGo, PutsStore};
ghost use Rattle.store_directory.specs.Holding.{TakesStore, TakesUpdates};
ghost use Rattle.key_directory.specs.Parts.{part_in, reading};

use crate::store_refusal::StoreRefusal;
use bec_disk::{Disk, Gated, Part, Shelf, read_gated};
use record_check::Verifier;
use replica::{OpenFault, Replica, open_store};
use row_check::{Checks, Native, Relation};
use std::alloc::Global;
use std::marker::Model;

/// The store of a directory, taken from a shelf and open.
#[derive(Drop)]
pub struct OpenStore<D: Disk, L: Relation, C: Checks<L>> {
    /// The disk of the part Schema.
    pub schema: D,
    /// The store.
    pub replica: Replica<D, L, C>,
}

impl<D: Disk, L: Relation, C: Checks<L>> Model for OpenStore<D, L, C> {
    ghost use Rattle.schema.specs.Checks.{coded_tree};
    ghost use Rattle.std.specs.Coded.{codes};
    ghost use Rattle.store_directory.specs.Holding.{OpenData};

    ghost Value = { OpenData };

    ghost coded = { Prim.hlevel (codes, coded_tree) };

    ghost view = { λ o. record { schema = D.state o.schema; schema_faults = D.faults o.schema; replica = o.replica } };
}

/// Takes the store of a directory from the shelf and opens it; the verifier checks its records. Where it is refused,
/// every part is in its place again.
pub fn take_store<V: Verifier, H: Shelf, L: Relation, C: Checks<L>>(
    verifier: &V,
    alloc: Global,
    shelf: &mut H,
    dir: &str,
    native: Native<L, C>,
) -> Result<OpenStore<H::D, L, C>, StoreRefusal>
    requires schema_in { IsTrue (H.state shelf.old).tells → part_in (H.state shelf.old) dir.now Schema ≢ out }
    requires updates_in { IsTrue (H.state shelf.old).tells → part_in (H.state shelf.old) dir.now Updates ≢ out }
    ensures takes { IfOk result (λ store. TakesStore L.answer (H.state shelf.old) dir.now store (H.state shelf.new)) }
    ensures lets_go { IfErr result (λ _. LetsGo L.answer (H.state shelf.old) dir.now (H.state shelf.new)) }
    ensures refused { IfErr result (λ why. IsTrue (H.state shelf.old).tells
        → IsStoreCause L.answer (H.state shelf.old) dir.now why) }
    ensures later { H.faults shelf.old ≤ H.faults shelf.new }
    ensures failed { IsErrOf result StoreRefusal.DiskFault → Rose (H.faults shelf.old) (H.faults shelf.new) }
{
    let Some(mut schema) = shelf.find(dir, Part::Schema)? else {
        return Err(StoreRefusal::NoStore);
    };
    match take_updates(verifier, alloc, shelf, dir, &mut schema, native) {
        Ok(replica) => Ok(OpenStore { schema, replica }),
        Err(why) => {
            shelf.put_back(schema);
            Err(why)
        }
    }
}

/// Finds the part Updates beside a part Schema that is handed out, and opens the store of both.
fn take_updates<V: Verifier, H: Shelf, L: Relation, C: Checks<L>>(
    verifier: &V,
    alloc: Global,
    shelf: &mut H,
    dir: &str,
    schema: &mut H::D,
    native: Native<L, C>,
) -> Result<Replica<H::D, L, C>, StoreRefusal>
    requires updates_in { IsTrue (H.state shelf.old).tells → part_in (H.state shelf.old) dir.now Updates ≢ out }
    requires settled { IsTrue (H.D.state schema.old).tells → IsSettled (H.D.state schema.old) }
    ensures takes { IfOk result (λ replica. TakesUpdates L.answer (H.state shelf.old) dir.now (H.D.state schema.old)
        replica (H.state shelf.new)) }
    ensures lets_go { IfErr result (λ _. LetsUpdatesGo L.answer (H.state shelf.old) dir.now (H.D.state schema.old)
        (H.state shelf.new)) }
    ensures refused { IfErr result (λ why. IsTrue (H.state shelf.old).tells → IsTrue (H.D.state schema.old).tells
        → IsRefusalCause L.answer (Some (H.D.state schema.old).seen)
        (reading (part_in (H.state shelf.old) dir.now Updates)) why) }
    ensures same { H.D.state schema.new ≡ H.D.state schema.old }
    ensures later { H.faults shelf.old ≤ H.faults shelf.new }
    ensures schema_later { H.D.faults schema.old ≤ H.D.faults schema.new }
    ensures failed { IsErrOf result StoreRefusal.DiskFault → Rose (H.faults shelf.old) (H.faults shelf.new)
        ⊎ Rose (H.D.faults schema.old) (H.D.faults schema.new) }
{
    if let Gated::Absent = read_gated(alloc, schema)? {
        return Err(StoreRefusal::NoStore);
    }
    let Some(updates) = shelf.find(dir, Part::Updates)? else {
        return Err(StoreRefusal::BadStore);
    };
    match open_store(verifier, alloc, schema, updates, native) {
        Ok(replica) => Ok(replica),
        Err(fault) => {
            let OpenFault { why, updates, .. } = fault;
            shelf.put_back(updates);
            Err(StoreRefusal::from(why))
        }
    }
}

/// Puts the two parts of a store back. A disk that counted a fault makes the shelf's count rise.
pub fn put_store<H: Shelf, L: Relation, C: Checks<L>>(
    shelf: &mut H,
    dir: &str,
    store: OpenStore<H::D, L, C>,
)
    requires schema_of { IsTrue (H.state shelf.old).tells → (store.schema.slot ≡ Some (slot dir.now Schema))
        × (part_in (H.state shelf.old) dir.now Schema ≡ out) }
    requires updates_of { IsTrue (H.state shelf.old).tells → (store.replica.log.disk.slot ≡ Some (slot dir.now Updates))
        × (part_in (H.state shelf.old) dir.now Updates ≡ out) }
    ensures puts { PutsStore (H.state shelf.old) dir.now store.schema store.replica.log.disk (H.state shelf.new) }
    ensures later { H.faults shelf.old ≤ H.faults shelf.new }
    ensures schema_faulted { 0 < store.schema_faults → Rose (H.faults shelf.old) (H.faults shelf.new) }
    ensures log_faulted { 0 < store.replica.log.faults → Rose (H.faults shelf.old) (H.faults shelf.new) }
{
    let OpenStore { schema, replica } = store;
    let (log, _native) = replica.into_parts();
    shelf.put_back(log);
    shelf.put_back(schema);
}
