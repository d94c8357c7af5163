//! Replicas and keys in memory.

ghost use Rattle.std.specs.Prelude.{◌≡◌, IfSome, IsTrue};
ghost use Rattle.bec_disk.specs.Disk.{IsSettled};
ghost use Rattle.bec_disk.specs.Replay.{state_of};

use bec_disk::MemDisk;
use key_index::KeyStore;
use lm_ots::OtsType;
use lms_tree::{KeyTypes, LmsType, OneThread};
use rand_pcg::Pcg32;
use replica::{Replica, create};
use row_check::{Luhn, Native};
use shared_replica::{Pass, Shared};
use std::alloc::Global;

/// The text of the schema.
const MEMBERS: &[u8] = b"DATABASE club\nTABLE member\nCOLUMN name TEXT 1 40\nSAMPLE \"Ann\"\n";

/// A replica of this schema without updates, with its log on this disk.
fn created(alloc: Global, log: MemDisk, text: &[u8]) -> Option<Replica<MemDisk, Luhn, Luhn>>
    requires { IsTrue (state_of log).tells → IsSettled (state_of log) }
{
    let mut schema = MemDisk::new(alloc);
    create(alloc, &mut schema, log, [9; 32], text, Native::new(Luhn)).ok()
}

/// A shared replica without updates, and its first pass.
pub fn shared(alloc: Global, log: MemDisk) -> Option<(Shared<MemDisk>, Pass<MemDisk>)>
    requires { IsTrue (state_of log).tells → IsSettled (state_of log) }
    ensures { IfSome result (λ r. r.1.lock ≡ r.0.lock) }
{
    let replica = created(alloc, log, MEMBERS)?;
    Shared::new(alloc, replica).ok()
}

/// A key of 32 indices, whose own bytes are drawn from this number.
pub fn key(alloc: Global, number: u64) -> Option<KeyStore<MemDisk>> {
    let key = MemDisk::new(alloc);
    let used = MemDisk::new(alloc);
    let mut random = Pcg32::new(number, 54);
    let types = KeyTypes {
        lms: LmsType::H5,
        ots: OtsType::W8,
    };
    KeyStore::create(&OneThread, alloc, key, used, types, &mut random).ok()
}
