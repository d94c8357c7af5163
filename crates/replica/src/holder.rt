//! A store that is open as whoever holds updates, for sessions.

ghost use Rattle.update_model.specs.Batch.{store_limits};
ghost use Rattle.replica.specs.Holding.{IsWhole, KeepsOn, keeps_itself as stays_itself, keeps_on as goes_on};

use crate::replica::Replica;
use bec_bytes::Counted;
use bec_disk::Disk;
use row_check::Luhn;
use std::alloc::{AllocError, Global};
use update_check::{Checked, CommitFault, Committed, Holder};
use update_model::{DbRule, Member, UpdateId};

impl<D: Disk> Counted for Replica<D, Luhn, Luhn> {
    ghost faults = { λ replica. replica.log.faults };
}

/// It holds as many updates as a store may have, under the rule of its schema. Its count of faults is that of the log's
/// disk.
impl<D: Disk> Holder for Replica<D, Luhn, Luhn> {
    ghost members = { λ replica. replica.history.members };

    ghost rule = { λ replica. replica.history.schema.rule };

    ghost limits = { λ _. store_limits };

    ghost keeps = { KeepsOn };

    ghost keeps_itself = { stays_itself };

    ghost keeps_on = { goes_on };

    ghost is_whole = { IsWhole };

    fn len(&self) -> u32 {
        self.history.len()
    }

    fn position(&self, id: &UpdateId) -> Option<u32> {
        self.history.position(id)
    }

    fn rule(&self) -> &DbRule {
        self.history.schema().rule()
    }

    fn update_at(&self, position: u32) -> &Checked {
        self.history.at(position)
    }

    fn id_at(&self, position: u32) -> UpdateId {
        self.history.at(position).id()
    }

    fn preds_at(&self, position: u32) -> &[UpdateId] {
        self.history.at(position).preds()
    }

    fn heads(&self, alloc: Global) -> Result<Vec<UpdateId>, AllocError> {
        self.history.heads(alloc)
    }

    fn since(&self, alloc: Global, below: u32, old: &[UpdateId]) -> Result<Vec<u32>, AllocError> {
        self.history.since(alloc, below, old)
    }

    fn commit(&mut self, alloc: Global, batch: Vec<Checked>) -> Result<Committed, CommitFault> {
        let committed = self.commit(alloc, batch);
        self.len(); // what is held is on the disk
        committed
    }
}
