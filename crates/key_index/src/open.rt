ghost use Rattle.std.specs.Prelude.{◌≡◌, ◌≢◌, ◌≤◌, IsTrue, IfOk, IsErrOf, MatchOption, MatchResult, IfSome, length};
ghost use Rattle.std.specs.Prelude.{vec_len};
ghost use Rattle.bec_bytes.specs.Causes.{Rose};
ghost use Rattle.bec_disk.specs.Gated.{gated_of};
ghost use Rattle.bec_disk.specs.declared.gated.Gated.TheVariants.{Absent};
ghost use Rattle.lms_tree.specs.LmsKind.{leaf_count};
ghost use Rattle.key_index.specs.KeyState.{AreSettled, parts_of, store_of};
ghost use Rattle.key_index.specs.Opening.{Holds, HoldsNone, OpensKey, RefusesToOpen};
ghost use Rattle.key_index.specs.Used.{used_in};

use crate::faults::{KeyFault, KeyFaultKind};
use crate::opened::OpenedKey;
use crate::seed::seed_of;
use crate::store::KeyStore;
use bec_disk::{Disk, DiskError, Gated, read_gated};
use lms_tree::{KeySeed, LeafGenerator};
use std::alloc::{AllocError, Global};

impl<D: Disk> KeyStore<D> {
    /// Opens the key of two disks that are settled. The generator computes its leaves
    /// again, and nothing is written.
    ///
    /// It answers [`KeyFaultKind::NoKey`] exactly where the part Key is absent, and
    /// [`KeyFaultKind::BadKeyFile`] exactly where Key is there and the two parts are of no key, unless a
    /// disk fails or memory runs out first.
    pub fn open_key<G: LeafGenerator>(
        generator: &G,
        alloc: Global,
        mut key: D,
        mut used: D,
    ) -> Result<KeyStore<D>, KeyFault<D>>
        requires { AreSettled (parts_of D.state D.faults key used) }
        ensures { MatchResult result
            (λ store. OpensKey (parts_of D.state D.faults key used) store)
            (λ fault. RefusesToOpen (parts_of D.state D.faults key used) fault.why (parts_of D.state D.faults fault.key
            fault.used)) }
    {
        match read_parts(generator, alloc, &mut key, &mut used) {
            Ok(opened) => Ok(KeyStore::over(key, used, opened)),
            Err(why) => Err(KeyFault { why, key, used }),
        }
    }
}

/// The key that the two parts are of, and its indices that are used.
fn read_parts<G: LeafGenerator, D: Disk>(
    generator: &G,
    alloc: Global,
    key: &mut D,
    used: &mut D,
) -> Result<OpenedKey, KeyFaultKind>
    ensures opens { MatchResult result
        (λ opened. OpensKey (parts_of D.state D.faults key.old used.old) (store_of D.state D.faults key.new used.new
        opened.secret opened.indices))
        (λ why. RefusesToOpen (parts_of D.state D.faults key.old used.old) why
        (parts_of D.state D.faults key.new used.new)) }
    ensures size { IfOk result (λ opened. length opened.indices ≡ leaf_count opened.secret.lms) }
{
    let seed = read_seed(alloc, key)?;
    let Some(taken) = read_taken(alloc, used, seed.lms.leaf_count())? else {
        return Err(KeyFaultKind::BadKeyFile);
    };
    Ok(OpenedKey::make(generator, alloc, &seed, taken)?)
}

/// What the part Key keeps.
fn read_seed<D: Disk>(alloc: Global, key: &mut D) -> Result<KeySeed, KeyFaultKind>
    ensures held { IsTrue (D.state key.old).tells → IfOk result (λ seed. Holds (D.state key.old).seen seed) }
    ensures no_key { IsTrue (D.state key.old).tells → IsErrOf result KeyFaultKind.NoKey
        → gated_of (D.state key.old).seen ≡ Absent }
    ensures bad_file { IsTrue (D.state key.old).tells → IsErrOf result KeyFaultKind.BadKeyFile
        → HoldsNone (D.state key.old).seen }
    ensures same { D.state key.new ≡ D.state key.old }
    ensures later { D.faults key.old ≤ D.faults key.new }
    ensures failed { IsErrOf result KeyFaultKind.DiskFault → Rose (D.faults key.old) (D.faults key.new) }
{
    match read_gated(alloc, key)? {
        Gated::Absent => Err(KeyFaultKind::NoKey),
        Gated::Damaged => Err(KeyFaultKind::BadKeyFile),
        Gated::Whole(payload) => match seed_of(payload.as_slice()) {
            Some(seed) => Ok(seed),
            None => Err(KeyFaultKind::BadKeyFile),
        },
    }
}

/// Which indices the part Used has used, or `None` where it has not this many bytes.
fn read_taken<D: Disk>(
    alloc: Global,
    used: &mut D,
    count: u32,
) -> Result<Option<Vec<bool>>, DiskError>
    ensures size { IfOk result (λ found. IfSome found (λ taken. vec_len taken ≡ count)) }
    ensures value { IsTrue (D.state used.old).tells → IfOk result (λ found.
        MatchOption found (length (D.state used.old).seen ≢ count) (λ taken.
        taken.items ≡ used_in (D.state used.old).seen)) }
    ensures same { D.state used.new ≡ D.state used.old }
    ensures later { D.faults used.old ≤ D.faults used.new }
    ensures failed { IsErrOf result DiskError.DiskFault → Rose (D.faults used.old) (D.faults used.new) }
{
    if used.len()? != u64::from(count) {
        return Ok(None);
    }
    let mut bytes = vec![in alloc; 0; count as usize]?;
    used.read(0, &mut bytes)?;
    Ok(Some(used_in(alloc, &bytes)?))
}

/// For each byte whether it says used.
fn used_in(alloc: Global, bytes: &[u8]) -> Result<Vec<bool>, AllocError>
    ensures { IfOk result (λ taken. taken.items ≡ used_in bytes.now) }
{
    bytes.iter().map(|byte| *byte != 0).collect(alloc)
}
