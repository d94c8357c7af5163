//! A replica that stops, and opens what a crash left.

ghost use Rattle.std.specs.Prelude.{◌≡◌, ◌^◌, ◌-◌, [], IfOk};
ghost use Rattle.bec_disk.specs.Left.{IsRestarted};
ghost use Rattle.bec_disk.specs.Replay.{new_disk};
ghost use Rattle.row_check.specs.Checksum.{is_luhn};
ghost use Rattle.world_rules.specs.Happens.{Restarts, fresh};
ghost use Rattle.world_rules.specs.Restarting.{OpensSite};
ghost use Rattle.world_rules.specs.Sites.{AreRemembered, fresh_parts};

use crate::heads::no_heads;
use crate::site::Site;
use bec_disk::MemDisk;
use key_index::KeyStore;
use record_check::OneThread;
use replica::open_store;
use row_check::{Luhn, Native};
use std::alloc::{AllocError, Global};
use update_model::IdList;

impl Site {
    /// It stops, and opens what a crash left of its disks by this number: for 0 what was synced last, for 1 what they
    /// read as, and else a mixture. It is up then, and remembers nothing.
    ///
    /// The error is want of memory: its schema and its key were synced when it was created, so each image has them.
    pub fn restart(self, choice: u64) -> Result<Site, AllocError>
        ensures { IfOk result (λ new. Restarts is_luhn choice self new) }
    {
        let Site {
            alloc,
            schema,
            store,
            key,
            is_down: _,
            remembered,
        } = self;
        let (updates, native) = store.into_parts();
        let (key, used) = key.into_disks();
        let disks = Disks {
            schema,
            updates,
            key,
            used,
        };
        let left = disks.restart(choice)?;
        let none = no_heads(alloc, remembered.len())?;
        left.open(alloc, native, none)
    }
}

/// The four disks of a replica: of the parts Schema, Updates, Key and Used.
#[derive(Drop)]
struct Disks {
    schema: MemDisk,
    updates: MemDisk,
    key: MemDisk,
    used: MemDisk,
}

impl Disks {
    /// What a crash leaves of each of them.
    fn restart(&self, choice: u64) -> Result<Disks, AllocError>
        ensures schema { IfOk result (λ left. IsRestarted choice self.now.schema left.schema) }
        ensures updates { IfOk result (λ left. IsRestarted choice self.now.updates left.updates) }
        ensures key { IfOk result (λ left. IsRestarted choice self.now.key left.key) }
        ensures used { IfOk result (λ left. IsRestarted choice self.now.used left.used) }
    {
        Ok(Disks {
            schema: self.schema.restart(choice)?,
            updates: self.updates.restart(choice)?,
            key: self.key.restart(choice)?,
            used: self.used.restart(choice)?,
        })
    }

    /// Opens the key and the store of disks that had no call.
    fn open(
        self,
        alloc: Global,
        native: Native<Luhn, Luhn>,
        remembered: Vec<IdList>,
    ) -> Result<Site, AllocError>
        requires schema { self.schema ≡ new_disk self.schema.start [] (2 ^ 64 - 1) }
        requires updates { self.updates ≡ new_disk self.updates.start [] (2 ^ 64 - 1) }
        requires key { self.key ≡ new_disk self.key.start [] (2 ^ 64 - 1) }
        requires used { self.used ≡ new_disk self.used.start [] (2 ^ 64 - 1) }
        requires remembered { AreRemembered remembered.items }
        ensures { IfOk result (λ new. OpensSite is_luhn (fresh self.schema.start) (fresh self.updates.start)
            (fresh_parts self.key.start self.used.start) remembered.items new) }
    {
        let Disks {
            mut schema,
            updates,
            key,
            used,
        } = self;
        let Ok(key) = KeyStore::open_key(&OneThread, alloc, key, used) else {
            return Err(AllocError);
        };
        match open_store(&OneThread, alloc, &mut schema, updates, native) {
            Ok(store) => {
                store.len(); // what is held is on the disk
                Ok(Site {
                    alloc,
                    schema,
                    store,
                    key,
                    is_down: false,
                    remembered,
                })
            }
            Err(_) => Err(AllocError),
        }
    }
}
