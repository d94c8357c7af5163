//! A replica with its list.
ghost use Rattle.std.specs.Prelude.{◌≡◌, ◌<◌, ◌≤◌, ◌+◌, ◌∷◌, ℕ, List, Some, IfOk, IfErr, OnErr, OnOk, false, length};
ghost use Rattle.std.specs.Prelude.{map, slice_get};
ghost use Rattle.replica.specs.Making.{IsMakeCause, Makes};
ghost use Rattle.replica.specs.Signing.{KeyAfter};
ghost use Rattle.shared_replica.specs.declared.entry.Entry.TheVariants.{First, Opened};
ghost use Rattle.shared_replica.specs.Acts.{Grows, met_fault};
ghost use Rattle.shared_replica.specs.Entries.{IsStoreOf, opening_of, updates_of};
ghost use Rattle.table_model.specs.Visible.{rules_with};
ghost use Rattle.tuple_state.specs.State.{IsStateOf};
ghost use Rattle.history.specs.Histories.{nodes_of};
ghost use Rattle.update_codec.specs.Parts.{entry_of};
ghost use Rattle.update_model.specs.declared.limits.TheConstants.{MAX_OPS};
ghost use Rattle.update_model.specs.Graph.{AreHeads};
ghost use Rattle.update_model.specs.Rows.{AreOps};

use crate::entry::{Entry, Run};
use bec_disk::Disk;
use key_index::KeyStore;
use replica::{MakeFault, Replica, Side};
use row_check::Luhn;
use std::alloc::{AllocError, Global};
use std::marker::Model;
use std::snapshot::Snapshot;
use tuple_state::Tables;
use turn_lock::Kept;
use update_model::{ByteList, IdList, OpList, UpdateId};

/// A replica, what it was at the start, and what each act added since.
///
/// Its type keeps that the replica is as its list says, and that a crash at this moment leaves the updates of the list
/// in front of the log.
#[derive(Drop)]
pub struct Stored<D: Disk> {
    pub(crate) replica: Replica<D, Luhn, Luhn>,
    pub(crate) opening: Snapshot<Replica<D, Luhn, Luhn>>,
    pub(crate) opened: u32,
    pub(crate) runs: Vec<Run>,
    pub(crate) faults: u64,
}

impl<D: Disk> Model for Stored<D> {
    ghost use Rattle.schema.specs.Checks.{coded_tree};
    ghost use Rattle.shared_replica.specs.Entries.{IsStored, Story, listed};
    ghost use Rattle.std.specs.Coded.{codes};

    ghost Value = { Story };

    ghost coded = { Prim.hlevel (codes, coded_tree) };

    ghost view = { λ s. record {
      entries = listed s.opening.value s.opened s.runs.items s.replica.history.members;
      store = s.replica;
    } };

    ghost invariant = { λ s. IsStored s.opening.value s.opened s.runs.items s.faults s.replica };
}

impl<D: Disk> Kept for Stored<D> {
    ghost use Rattle.shared_replica.specs.Entries.{maker_of};

    type Entry = Entry;

    ghost list = { λ s. s.entries };

    ghost maker = { maker_of };

    fn count(&self) -> u64
        ensures { result ≡ length self.now.entries }
    {
        self.runs.len(); // there are no more faults than acts
        u64::from(self.replica.len()) + self.faults + 1
    }
}

/// The heads and the tables of a replica, on memory of their own.
#[derive(Drop)]
pub struct Picture {
    /// The ids of the heads, rising.
    pub heads: IdList,
    /// The tables of the updates.
    pub tables: Tables,
}

impl<D: Disk> Stored<D> {
    /// A replica with its list: the first entry, and an opening entry for each update.
    pub fn new(alloc: Global, replica: Replica<D, Luhn, Luhn>) -> Stored<D>
        ensures store { result.store ≡ replica }
        ensures entries { result.entries ≡ First (opening_of replica) ∷ map Opened replica.history.members }
    {
        let opening = Snapshot::of(&replica);
        let opened = replica.len();
        Stored {
            replica,
            opening,
            opened,
            runs: Vec::new(alloc),
            faults: 0,
        }
    }

    /// The replica is as its list says.
    pub fn into_replica(self) -> Replica<D, Luhn, Luhn>
        ensures value { result ≡ self.store }
        ensures list { IsStoreOf self.entries result }
    {
        let Stored { replica, .. } = self;
        replica
    }
}
