ghost use Rattle.std.specs.Prelude.{◌≡◌, ◌≢◌, ◌≤◌, ◌<◌, ◌^◌, ◌⊎◌, false, IsTrue, IfOk, IfErr, OnOk, MatchResult};
ghost use Rattle.std.specs.Prelude.{length, replicate};
ghost use Rattle.bec_bytes.specs.Causes.{HasCause};
ghost use Rattle.bec_disk.specs.Disk.{IsSameDisk};
ghost use Rattle.lms_tree.specs.LmsKind.{leaf_count};
ghost use Rattle.key_index.specs.Creating.{CreatesKey, IsOnDisk, RefusesToCreate, WritesParts, after_draw, drawn_key};
ghost use Rattle.key_index.specs.KeyState.{AreSettled, parts_of, store_of};
ghost use Rattle.key_index.specs.Payload.{IsPayload};
ghost use Rattle.key_index.specs.Used.{none_used};

use crate::faults::{CreateKey, CreateKeyKind};
use crate::opened::OpenedKey;
use crate::seed::{draw_seed, payload_of};
use crate::store::KeyStore;
use bec_disk::{Disk, DiskError, DiskFault, Gated, read_gated, write_gated, write_synced};
use lms_tree::{KeySeed, KeyTypes, LeafGenerator};
use rand_core::Rng;
use std::alloc::Global;

impl<D: Disk> KeyStore<D> {
    /// Creates a key of these types on two disks that are settled, where the part Key is absent. The
    /// generator computes its leaves. Its identifier I is the next 16 bytes of `random`, and its seed SEED
    /// the 32 bytes after them; they are drawn once it is known that there is no key.
    ///
    /// It makes the part Used a byte 0 for each index, and only then writes the part Key. It answers
    /// [`CreateKeyKind::KeyThere`] exactly where the part Key is not absent, unless a disk fails or memory
    /// runs out first; then, and where memory runs out, nothing is written.
    pub fn create<G: LeafGenerator, R: Rng>(
        generator: &G,
        alloc: Global,
        mut key: D,
        mut used: D,
        types: KeyTypes,
        random: &mut R,
    ) -> Result<KeyStore<D>, CreateKey<D>>
        requires { AreSettled (parts_of D.state D.faults key used) }
        ensures creates { MatchResult result
            (λ store. CreatesKey (drawn_key types.lms types.ots (R.stream random.old))
            (parts_of D.state D.faults key used) store)
            (λ refused. RefusesToCreate (drawn_key types.lms types.ots (R.stream random.old))
            (parts_of D.state D.faults key used) refused.why (parts_of D.state D.faults refused.key refused.used)) }
        ensures drawn { OnOk result (R.stream random.new ≡ after_draw (R.stream random.old)) }
        ensures may_draw { (R.stream random.new ≡ R.stream random.old)
            ⊎ (R.stream random.new ≡ after_draw (R.stream random.old)) }
        ensures undrawn { IfErr result (λ refused. refused.why ≡ CreateKeyKind.KeyThere
            → R.stream random.new ≡ R.stream random.old) }
    {
        match create_parts(generator, alloc, &mut key, &mut used, types, random) {
            Ok(opened) => Ok(KeyStore::over(key, used, opened)),
            Err(why) => Err(CreateKey { why, key, used }),
        }
    }
}

/// Draws a key and writes its parts, where the part Key is absent.
fn create_parts<G: LeafGenerator, D: Disk, R: Rng>(
    generator: &G,
    alloc: Global,
    key: &mut D,
    used: &mut D,
    types: KeyTypes,
    random: &mut R,
) -> Result<OpenedKey, CreateKeyKind>
    requires { AreSettled (parts_of D.state D.faults key.old used.old) }
    ensures creates { MatchResult result
        (λ opened. CreatesKey (drawn_key types.lms types.ots (R.stream random.old))
        (parts_of D.state D.faults key.old used.old) (store_of D.state D.faults key.new used.new opened.secret
        opened.indices))
        (λ why. RefusesToCreate (drawn_key types.lms types.ots (R.stream random.old))
        (parts_of D.state D.faults key.old used.old) why (parts_of D.state D.faults key.new used.new)) }
    ensures drawn { OnOk result (R.stream random.new ≡ after_draw (R.stream random.old)) }
    ensures may_draw { (R.stream random.new ≡ R.stream random.old)
        ⊎ (R.stream random.new ≡ after_draw (R.stream random.old)) }
    ensures undrawn { IfErr result (λ why. why ≡ CreateKeyKind.KeyThere → R.stream random.new ≡ R.stream random.old) }
{
    let Gated::Absent = read_gated(alloc, key)? else {
        return Err(CreateKeyKind::KeyThere);
    };
    let seed = draw_seed(types, random);
    let fresh = Fresh::make(generator, alloc, &seed)?;
    write_parts(key, used, &fresh.payload, &fresh.unused)?;
    Ok(fresh.opened)
}

/// A key of which no index is used, and what is written of it.
#[derive(Drop)]
struct Fresh {
    opened: OpenedKey,
    payload: Vec<u8>,
    unused: Vec<u8>,
}

impl Fresh {
    /// The key that is made from this. It takes all the memory that a creation wants.
    fn make<G: LeafGenerator>(
        generator: &G,
        alloc: Global,
        seed: &KeySeed,
    ) -> Result<Fresh, DiskError>
        ensures secret { IfOk result (λ fresh. fresh.opened.secret ≡ seed.now) }
        ensures indices { IfOk result (λ fresh. fresh.opened.indices ≡ replicate (leaf_count seed.now.lms) false) }
        ensures payload { IfOk result (λ fresh. IsPayload fresh.payload.items seed.now) }
        ensures unused { IfOk result (λ fresh. fresh.unused.items ≡ none_used (leaf_count seed.now.lms)) }
        ensures memory { result ≢ Err DiskError.DiskFault }
    {
        let count = seed.lms.leaf_count() as usize;
        let payload = payload_of(alloc, seed)?;
        let unused = vec![in alloc; 0u8; count]?;
        let none = vec![in alloc; false; count]?;
        let opened = OpenedKey::make(generator, alloc, seed, none)?;
        Ok(Fresh {
            opened,
            payload,
            unused,
        })
    }
}

/// Makes the part Used these bytes, and then writes the part Key.
fn write_parts<D: Disk>(
    key: &mut D,
    used: &mut D,
    payload: &[u8],
    unused: &[u8],
) -> Result<(), DiskFault>
    requires settled { AreSettled (parts_of D.state D.faults key.old used.old) }
    requires few { length payload.now < 2 ^ 32 }
    requires zeros { unused.now ≡ none_used (length unused.now) }
    ensures { WritesParts payload.now (length unused.now) (parts_of D.state D.faults key.old used.old) result
        (parts_of D.state D.faults key.new used.new) }
{
    replace(used, unused)?;
    write_gated(key, payload)
}

/// Puts bytes in the place of what the disk has, and syncs.
fn replace<D: Disk>(disk: &mut D, bytes: &[u8]) -> Result<(), DiskFault>
    ensures disk { IsSameDisk (D.state disk.old) (D.state disk.new) }
    ensures written { IsTrue (D.state disk.old).tells → OnOk result (IsOnDisk bytes.now (D.state disk.new)) }
    ensures cause { HasCause (D.faults disk.old) (D.faults disk.new) result }
{
    disk.cut(0)?;
    write_synced(disk, 0, bytes)
}
