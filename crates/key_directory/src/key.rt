//! The key of a directory.

ghost use Rattle.std.specs.Prelude.{◌≡◌, ◌≢◌, ◌≤◌, ◌<◌, ◌⊎◌, Some, IsTrue, IfOk, IfErr, OnErr, IsErrOf};
ghost use Rattle.bec_bytes.specs.Causes.{Rose};
ghost use Rattle.bec_disk.specs.Disk.{IsImage};
ghost use Rattle.bec_disk.specs.declared.part.Part.TheVariants.{Key, Used};
ghost use Rattle.bec_disk.specs.Shelf.{HandsOut, out};
ghost use Rattle.bec_disk.specs.Slot.{slot};
ghost use Rattle.key_directory.specs.Keys.{IsKeyCause, IsKeyRefusalCause, LetsKeyGo, PutsKey, TakesKey};
ghost use Rattle.key_directory.specs.Parts.{part_in, reading};

use crate::key_refusal::KeyRefusal;
use bec_disk::{Gated, Part, Shelf, read_gated};
use key_index::{KeyFault, KeyStore};
use lms_tree::LeafGenerator;
use std::alloc::Global;

/// Takes the key of a directory from the shelf and opens it; the generator computes its leaves. Where it is
/// refused, every part is in its place again, and nothing was written.
pub fn take_key<G: LeafGenerator, H: Shelf>(
    generator: &G,
    alloc: Global,
    shelf: &mut H,
    dir: &str,
) -> Result<KeyStore<H::D>, KeyRefusal>
    requires key_in { IsTrue (H.state shelf.old).tells → part_in (H.state shelf.old) dir.now Key ≢ out }
    requires used_in { IsTrue (H.state shelf.old).tells → part_in (H.state shelf.old) dir.now Used ≢ out }
    ensures takes { IfOk result (λ key. TakesKey (H.state shelf.old) dir.now key (H.state shelf.new)) }
    ensures lets_go { IfErr result (λ _. LetsKeyGo (H.state shelf.old) dir.now (H.state shelf.new)) }
    ensures refused { IfErr result (λ why. IsTrue (H.state shelf.old).tells
        → IsKeyCause (H.state shelf.old) dir.now why) }
    ensures later { H.faults shelf.old ≤ H.faults shelf.new }
    ensures failed { IsErrOf result KeyRefusal.DiskFault → Rose (H.faults shelf.old) (H.faults shelf.new) }
{
    let Some(mut key) = shelf.find(dir, Part::Key)? else {
        return Err(KeyRefusal::NoKey);
    };
    let used = match take_used(alloc, shelf, dir, &mut key) {
        Ok(used) => used,
        Err(why) => {
            shelf.put_back(key);
            return Err(why);
        }
    };
    match KeyStore::open_key(generator, alloc, key, used) {
        Ok(store) => Ok(store),
        Err(fault) => {
            let KeyFault { why, key, used } = fault;
            shelf.put_back(used);
            shelf.put_back(key);
            Err(KeyRefusal::from(why))
        }
    }
}

/// Finds the part Used beside a part Key that is handed out and not absent.
fn take_used<H: Shelf>(
    alloc: Global,
    shelf: &mut H,
    dir: &str,
    key: &mut H::D,
) -> Result<H::D, KeyRefusal>
    requires used_in { IsTrue (H.state shelf.old).tells → part_in (H.state shelf.old) dir.now Used ≢ out }
    ensures finds { IfOk result (λ used. HandsOut (H.state shelf.old) (slot dir.now Used) (H.D.state used)
        (H.state shelf.new)) }
    ensures clean { IfOk result (λ used. H.D.faults used ≡ 0) }
    ensures unchanged { OnErr result (H.state shelf.new ≡ H.state shelf.old) }
    ensures refused { IfErr result (λ why. IsTrue (H.state shelf.old).tells → IsTrue (H.D.state key.old).tells
        → IsKeyRefusalCause (Some (H.D.state key.old).seen) (reading (part_in (H.state shelf.old) dir.now Used)) why) }
    ensures same { H.D.state key.new ≡ H.D.state key.old }
    ensures later { H.faults shelf.old ≤ H.faults shelf.new }
    ensures key_later { H.D.faults key.old ≤ H.D.faults key.new }
    ensures failed { IsErrOf result KeyRefusal.DiskFault → Rose (H.faults shelf.old) (H.faults shelf.new)
        ⊎ Rose (H.D.faults key.old) (H.D.faults key.new) }
{
    if let Gated::Absent = read_gated(alloc, key)? {
        return Err(KeyRefusal::NoKey);
    }
    match shelf.find(dir, Part::Used)? {
        Some(used) => Ok(used),
        None => Err(KeyRefusal::BadKey),
    }
}

/// Puts the two parts of a key back. A disk that counted a fault makes the shelf's count rise.
pub fn put_key<H: Shelf>(shelf: &mut H, dir: &str, key: KeyStore<H::D>)
    requires key_of { IsTrue (H.state shelf.old).tells → (key.parts.key.slot ≡ Some (slot dir.now Key))
        × (part_in (H.state shelf.old) dir.now Key ≡ out) }
    requires used_of { IsTrue (H.state shelf.old).tells → (key.parts.used.slot ≡ Some (slot dir.now Used))
        × (part_in (H.state shelf.old) dir.now Used ≡ out) }
    ensures puts { PutsKey (H.state shelf.old) dir.now key.parts (H.state shelf.new) }
    ensures reads { IsTrue key.parts.used.tells → IsImage key.parts.used.now key.parts.used.seen }
    ensures later { H.faults shelf.old ≤ H.faults shelf.new }
    ensures key_faulted { 0 < key.parts.key_faults → Rose (H.faults shelf.old) (H.faults shelf.new) }
    ensures used_faulted { 0 < key.parts.used_faults → Rose (H.faults shelf.old) (H.faults shelf.new) }
{
    let (key, used) = key.into_disks();
    shelf.put_back(used);
    shelf.put_back(key);
}
