ghost use Rattle.std.specs.Prelude.{◌≡◌, ◌≤◌, ◌<◌, ℕ, List, IfOk, Some, length, slice_get};
ghost use Rattle.row_check.specs.Checksum.{is_luhn};
ghost use Rattle.update_model.specs.Rows.{AreOps};
ghost use Rattle.update_model.specs.declared.limits.TheConstants.{MAX_OPS};
ghost use Rattle.world_rules.specs.Happens.{MakesBy, Signs};
ghost use Rattle.world_rules.specs.Worlds.{SignedData, held_by, sunk};
ghost use Rattle.world_rules.specs.Sites.{with_store};

use bec_disk::MemDisk;
use key_index::KeyStore;
use replica::{MakeFault, Replica};
use row_check::Luhn;
use std::alloc::{AllocError, Global};
use std::marker::Model;
use update_check::Checked;
use update_model::{IdList, OpList, UpdateId};

/// A correct replica: its part Schema, its store, its key, whether it is down, and the heads that it remembers of each
/// replica of its world, by their numbers.
///
/// Its type keeps that a session can begin with the heads that are remembered: they are at most 4,096, and rise.
#[derive(Drop)]
pub struct Site {
    pub(crate) alloc: Global,
    pub(crate) schema: MemDisk,
    pub(crate) store: Replica<MemDisk, Luhn, Luhn>,
    pub(crate) key: KeyStore<MemDisk>,
    pub(crate) is_down: bool,
    pub(crate) remembered: Vec<IdList>,
}

impl Model for Site {
    ghost use Rattle.schema.specs.Checks.{coded_tree};
    ghost use Rattle.std.specs.Coded.{codes};
    ghost use Rattle.bec_disk.specs.Replay.{state_of};
    ghost use Rattle.world_rules.specs.Worlds.{SiteData};
    ghost use Rattle.world_rules.specs.Sites.{AreRemembered};

    ghost Value = { SiteData };

    ghost coded = { Prim.hlevel (codes, coded_tree) };

    ghost view = { λ s. record {
      schema = state_of s.schema;
      store = s.store;
      key = s.key;
      is_down = s.is_down;
      remembered = s.remembered.items;
    } };

    ghost invariant = { λ s. AreRemembered s.remembered.items };
}

impl Site {
    /// Whether it is down.
    pub fn is_down(&self) -> bool
        ensures { result ≡ self.now.is_down }
    {
        self.is_down
    }

    /// Its store.
    pub fn store(&self) -> &Replica<MemDisk, Luhn, Luhn>
        ensures { result.now ≡ self.now.store }
    {
        &self.store
    }

    /// A copy of the update at a position of what it holds, counted from 0.
    pub fn copy_at(&self, position: u32) -> Result<Checked, AllocError>
        requires { position < length (held_by self.now) }
        ensures { IfOk result (λ update. slice_get (held_by self.now) position ≡ Some update) }
    {
        self.store.update_at(position).copy(self.alloc)
    }

    /// Makes an update of these operations with its own key. `c` are the 32 random bytes that the signed message is
    /// digested behind.
    ///
    /// There are at most 64 operations, of which `update_model::check_ops` is true.
    pub fn make(&mut self, ops: OpList, c: &[u8; 32]) -> Result<UpdateId, MakeFault>
        requires few { length ops ≤ MAX_OPS }
        requires form { AreOps 0 ops }
        ensures makes { MakesBy is_luhn self.old.store self.old.key ops c.now result self.new.store self.new.key }
        ensures signs { (r event : ℕ) → (signs : List SignedData) × Signs result r event self.old.store self.old.key ops
            signs }
        ensures same { self.new ≡ with_store self.old self.new.store self.new.key }
    {
        let made = self.store.make(self.alloc, ops, &mut self.key, c);
        self.store.len(); // what is held is on the disk
        made
    }

    /// Lets each of its disks pass so many calls more and then fail every call.
    pub fn arm(&mut self, calls: u32)
        ensures { self.new ≡ self.old }
    {
        self.schema.arm(calls);
        self.store.arm(calls);
        self.key.arm(calls);
    }

    /// It goes down.
    pub fn sink(&mut self)
        ensures { self.new ≡ sunk self.old }
    {
        self.is_down = true;
    }

    /// Whether a call of one of its disks failed for want of memory.
    pub fn starved(&self) -> bool {
        self.schema.starved() || self.store.starved() || self.key.starved()
    }
}
