//! Making the store of a directory.

ghost use Rattle.std.specs.Prelude.{◌≡◌, ◌≢◌, ◌≤◌, ◌⊎◌, ◌++◌, ◌∷◌, [], ℕ, List, Some, IsTrue, IfOk, IfErr, OnErr, OnOk};
ghost use Rattle.std.specs.Prelude.{IsErrOf, MatchBool};
ghost use Rattle.bec_bytes.specs.Causes.{Rose};
ghost use Rattle.bec_disk.specs.Gated.{gated_of};
ghost use Rattle.bec_disk.specs.declared.gated.Gated.TheVariants.{Absent};
ghost use Rattle.bec_disk.specs.declared.part.Part.TheVariants.{Schema, Updates};
ghost use Rattle.bec_disk.specs.Shelf.{out};
ghost use Rattle.bec_disk.specs.Slot.{slot};
ghost use Rattle.schema.specs.Data.{Meaning};
ghost use Rattle.replica.specs.declared.create_fault.CreateKind.TheVariants.{DiskFault as DiskFailed};
ghost use Rattle.key_directory.specs.Parts.{HandsOutAny, LetsNewGo, MayMakeAny, IsUntouched, KeepsAllBut, part_in};
ghost use Rattle.key_directory.specs.Parts.{reading};
ghost use Rattle.store_directory.specs.Making.{IsNewStoreCause, MakesStore};
ghost use Rattle.store_directory.specs.Stores.{IsNoStore};

use crate::store::OpenStore;
use bec_disk::{DiskError, Gated, Part, Shelf, read_gated};
use key_directory::find_or_make;
use replica::{CreateFault, CreateKind, create};
use row_check::{Checks, Native, Relation};
use std::alloc::Global;

/// Whether a directory has a part Schema that is not absent. It writes nothing.
pub fn is_there<H: Shelf>(alloc: Global, shelf: &mut H, dir: &str) -> Result<bool, DiskError>
    requires { IsTrue (H.state shelf.old).tells → part_in (H.state shelf.old) dir.now Schema ≢ out }
    ensures value { IsTrue (H.state shelf.old).tells
        → IfOk result (λ there. MatchBool there (IsNoStore (reading (part_in (H.state shelf.old) dir.now Schema))
        → ⊥) (IsNoStore (reading (part_in (H.state shelf.old) dir.now Schema)))) }
    ensures tells { (H.state shelf.new).tells ≡ (H.state shelf.old).tells }
    ensures untouched { IsTrue (H.state shelf.old).tells → IsUntouched (part_in (H.state shelf.old) dir.now Schema)
        (part_in (H.state shelf.new) dir.now Schema) }
    ensures others { IsTrue (H.state shelf.old).tells → KeepsAllBut (Schema ∷ []) dir.now (H.state shelf.old)
        (H.state shelf.new) }
    ensures later { H.faults shelf.old ≤ H.faults shelf.new }
    ensures failed { IsErrOf result DiskError.DiskFault → Rose (H.faults shelf.old) (H.faults shelf.new) }
{
    let Some(mut schema) = shelf.find(dir, Part::Schema)? else {
        return Ok(false);
    };
    let read = read_gated(alloc, &mut schema);
    shelf.put_back(schema);
    match read? {
        Gated::Absent => Ok(false),
        Gated::Damaged | Gated::Whole(_) => Ok(true),
    }
}

/// Makes a store without updates in a directory, by this node and text, where the part Schema is absent. Parts that are
/// not there are made. Where it is refused, every part is in its place again; one that was asked for may then stand
/// there with nothing in it.
pub fn new_store<H: Shelf, L: Relation, C: Checks<L>>(
    alloc: Global,
    shelf: &mut H,
    dir: &str,
    node: [u8; 32],
    text: &[u8],
    native: Native<L, C>,
) -> Result<OpenStore<H::D, L, C>, CreateKind>
    requires schema_in { IsTrue (H.state shelf.old).tells → part_in (H.state shelf.old) dir.now Schema ≢ out }
    requires updates_in { IsTrue (H.state shelf.old).tells → part_in (H.state shelf.old) dir.now Updates ≢ out }
    ensures makes { IfOk result (λ store. MakesStore L.answer (H.state shelf.old) dir.now node text.now store
        (H.state shelf.new)) }
    ensures lets_go { IfErr result (λ _. LetsNewGo Schema Updates (node ++ text.now) [] (H.state shelf.old) dir.now
        (H.state shelf.new)) }
    ensures refused { IfErr result (λ why. IsTrue (H.state shelf.old).tells
        → IsNewStoreCause L.answer (reading (part_in (H.state shelf.old) dir.now Schema)) text.now why) }
    ensures later { H.faults shelf.old ≤ H.faults shelf.new }
    ensures failed { IfErr result (λ why. why ≡ DiskFailed → Rose (H.faults shelf.old) (H.faults shelf.new)) }
{
    let Ok(mut schema) = find_or_make(shelf, dir, Part::Schema) else {
        return Err(CreateKind::DiskFault);
    };
    let updates = match updates_beside(alloc, shelf, dir, &mut schema) {
        Ok(updates) => updates,
        Err(why) => {
            shelf.put_back(schema);
            return Err(why);
        }
    };
    match create(alloc, &mut schema, updates, node, text, native) {
        Ok(replica) => Ok(OpenStore { schema, replica }),
        Err(fault) => {
            let CreateFault { why, updates, .. } = fault;
            shelf.put_back(updates);
            shelf.put_back(schema);
            Err(why)
        }
    }
}

/// Hands the part Updates out beside a part Schema that is handed out and absent, or makes it where it is not there.
fn updates_beside<H: Shelf>(
    alloc: Global,
    shelf: &mut H,
    dir: &str,
    schema: &mut H::D,
) -> Result<H::D, CreateKind>
    requires { IsTrue (H.state shelf.old).tells → part_in (H.state shelf.old) dir.now Updates ≢ out }
    ensures hands { IfOk result (λ updates. HandsOutAny (H.state shelf.old) (slot dir.now Updates) (H.D.state updates)
        (H.state shelf.new)) }
    ensures clean { IfOk result (λ updates. H.D.faults updates ≡ 0) }
    ensures may_make { OnErr result (MayMakeAny (H.state shelf.old) (slot dir.now Updates) (H.state shelf.new)) }
    ensures absent { IsTrue (H.D.state schema.old).tells → OnOk result (gated_of (H.D.state schema.old).seen ≡ Absent) }
    ensures there { IsTrue (H.D.state schema.old).tells → gated_of (H.D.state schema.old).seen ≢ Absent
        → H.state shelf.new ≡ H.state shelf.old }
    ensures refused { IfErr result (λ why. IsTrue (H.D.state schema.old).tells → (ask : Meaning) (text : List ℕ)
        → IsNewStoreCause ask (Some (H.D.state schema.old).seen) text why) }
    ensures same { H.D.state schema.new ≡ H.D.state schema.old }
    ensures later { H.faults shelf.old ≤ H.faults shelf.new }
    ensures schema_later { H.D.faults schema.old ≤ H.D.faults schema.new }
    ensures failed { IfErr result (λ why. why ≡ DiskFailed → Rose (H.faults shelf.old) (H.faults shelf.new)
        ⊎ Rose (H.D.faults schema.old) (H.D.faults schema.new)) }
{
    match read_gated(alloc, schema) {
        Ok(Gated::Absent) => {}
        Ok(Gated::Damaged | Gated::Whole(_)) => return Err(CreateKind::NotEmpty),
        Err(DiskError::DiskFault) => return Err(CreateKind::DiskFault),
        Err(DiskError::Memory) => return Err(CreateKind::Memory),
    }
    match find_or_make(shelf, dir, Part::Updates) {
        Ok(updates) => Ok(updates),
        Err(_fault) => Err(CreateKind::DiskFault),
    }
}
