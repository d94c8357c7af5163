//! Making the key of a directory.

ghost use Rattle.std.specs.Prelude.{◌≡◌, ◌≢◌, ◌≤◌, ◌⊎◌, IsTrue, IfOk, IfErr, OnErr, OnOk, IsErrOf};
ghost use Rattle.bec_bytes.specs.Causes.{Rose};
ghost use Rattle.bec_disk.specs.Gated.{gated_of};
ghost use Rattle.bec_disk.specs.declared.gated.Gated.TheVariants.{Absent};
ghost use Rattle.bec_disk.specs.declared.part.Part.TheVariants.{Key, Used};
ghost use Rattle.bec_disk.specs.Shelf.{out};
ghost use Rattle.bec_disk.specs.Slot.{slot};
ghost use Rattle.lms_tree.specs.LmsKind.{leaf_count};
ghost use Rattle.key_index.specs.Creating.{after_draw, drawn_key};
ghost use Rattle.key_index.specs.Payload.{payload_of};
ghost use Rattle.key_index.specs.Used.{none_used};
ghost use Rattle.key_directory.specs.Parts.{HandsOutAny, LetsNewGo, MayMakeAny, part_in, reading};
ghost use Rattle.key_directory.specs.Keys.{IsNewKeyCause, MakesKey};

use crate::finding::find_or_make;
use bec_disk::{Gated, Part, Shelf, read_gated};
use key_index::{CreateKey, CreateKeyKind, KeyStore};
use lms_tree::{KeyTypes, LeafGenerator};
use rand_core::Rng;
use std::alloc::Global;

/// Makes a key of these types in a directory, where the part Key is absent. The generator computes its leaves.
/// Its identifier is the next 16 bytes of `random`, and its seed the 32 bytes after them. Parts that are not
/// there are made. Where it is refused, every part is in its place again; one that was asked for may then stand
/// there with nothing in it.
pub fn new_key<G: LeafGenerator, H: Shelf, R: Rng>(
    generator: &G,
    alloc: Global,
    shelf: &mut H,
    dir: &str,
    types: KeyTypes,
    random: &mut R,
) -> Result<KeyStore<H::D>, CreateKeyKind>
    requires key_in { IsTrue (H.state shelf.old).tells → part_in (H.state shelf.old) dir.now Key ≢ out }
    requires used_in { IsTrue (H.state shelf.old).tells → part_in (H.state shelf.old) dir.now Used ≢ out }
    ensures makes { IfOk result (λ key. MakesKey (drawn_key types.lms types.ots (R.stream random.old))
        (H.state shelf.old) dir.now key (H.state shelf.new)) }
    ensures lets_go { IfErr result
        (λ _. LetsNewGo Key Used (payload_of (drawn_key types.lms types.ots (R.stream random.old)))
        (none_used (leaf_count types.lms)) (H.state shelf.old) dir.now (H.state shelf.new)) }
    ensures refused { IfErr result (λ why. IsTrue (H.state shelf.old).tells
        → IsNewKeyCause (reading (part_in (H.state shelf.old) dir.now Key)) why) }
    ensures drawn { OnOk result (R.stream random.new ≡ after_draw (R.stream random.old)) }
    ensures may_draw { (R.stream random.new ≡ R.stream random.old)
        ⊎ (R.stream random.new ≡ after_draw (R.stream random.old)) }
    ensures later { H.faults shelf.old ≤ H.faults shelf.new }
    ensures failed { IsErrOf result CreateKeyKind.DiskFault → Rose (H.faults shelf.old) (H.faults shelf.new) }
{
    let Ok(mut key) = find_or_make(shelf, dir, Part::Key) else {
        return Err(CreateKeyKind::DiskFault);
    };
    let used = match used_beside(alloc, shelf, dir, &mut key) {
        Ok(used) => used,
        Err(why) => {
            shelf.put_back(key);
            return Err(why);
        }
    };
    match KeyStore::create(generator, alloc, key, used, types, random) {
        Ok(store) => Ok(store),
        Err(refused) => {
            let CreateKey { why, key, used } = refused;
            shelf.put_back(used);
            shelf.put_back(key);
            Err(why)
        }
    }
}

/// Hands the part Used out beside a part Key that is handed out and absent, or makes it where it is not there.
fn used_beside<H: Shelf>(
    alloc: Global,
    shelf: &mut H,
    dir: &str,
    key: &mut H::D,
) -> Result<H::D, CreateKeyKind>
    requires { IsTrue (H.state shelf.old).tells → part_in (H.state shelf.old) dir.now Used ≢ out }
    ensures hands { IfOk result (λ used. HandsOutAny (H.state shelf.old) (slot dir.now Used) (H.D.state used)
        (H.state shelf.new)) }
    ensures clean { IfOk result (λ used. H.D.faults used ≡ 0) }
    ensures may_make { OnErr result (MayMakeAny (H.state shelf.old) (slot dir.now Used) (H.state shelf.new)) }
    ensures absent { IsTrue (H.D.state key.old).tells → OnOk result (gated_of (H.D.state key.old).seen ≡ Absent) }
    ensures there { IsTrue (H.D.state key.old).tells → gated_of (H.D.state key.old).seen ≢ Absent
        → H.state shelf.new ≡ H.state shelf.old }
    ensures refused { IfErr result (λ why. IsTrue (H.D.state key.old).tells → why ≡ CreateKeyKind.KeyThere
        → gated_of (H.D.state key.old).seen ≢ Absent) }
    ensures same { H.D.state key.new ≡ H.D.state key.old }
    ensures later { H.faults shelf.old ≤ H.faults shelf.new }
    ensures key_later { H.D.faults key.old ≤ H.D.faults key.new }
    ensures failed { IsErrOf result CreateKeyKind.DiskFault → Rose (H.faults shelf.old) (H.faults shelf.new)
        ⊎ Rose (H.D.faults key.old) (H.D.faults key.new) }
{
    match read_gated(alloc, key)? {
        Gated::Absent => {}
        Gated::Damaged | Gated::Whole(_) => return Err(CreateKeyKind::KeyThere),
    }
    Ok(find_or_make(shelf, dir, Part::Used)?)
}
