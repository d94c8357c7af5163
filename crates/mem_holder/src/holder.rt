//! It holds updates as whoever exchanges them wants it.

ghost use Rattle.mem_holder.specs.Holders.{Fails, limits_of};

use crate::adding::add_within;
use crate::id_sets::heads_of;
use crate::mem_holder::{Failing, MemHolder};
use crate::sweeping::since_of;
use bec_bytes::Counted;
use std::alloc::{AllocError, Global};
use update_check::{Checked, CommitFault, Committed, Holder};
use update_model::{DbRule, Member, UpdateId};

impl Counted for MemHolder {
    ghost faults = { λ holder. holder.faults };
}

/// It has the limit on updates that it was made for, and that of a store on bytes. Nothing of it outlives the program,
/// so nothing is said of what does.
impl Holder for MemHolder {
    ghost members = { λ holder. holder.members };

    ghost rule = { λ holder. holder.rule };

    ghost limits = { λ holder. limits_of holder.most };

    ghost keeps = { λ _ _. Unit {0} };

    ghost keeps_itself = { λ _. tt };

    ghost keeps_on = { λ _ _ _ _ _. tt };

    ghost is_whole = { λ _. Unit {0} };

    fn len(&self) -> u32 {
        self.graph.len()
    }

    fn position(&self, id: &UpdateId) -> Option<u32> {
        self.graph.position(id)
    }

    fn rule(&self) -> &DbRule {
        &self.rule
    }

    fn update_at(&self, position: u32) -> &Checked {
        self.graph.at(position)
    }

    fn id_at(&self, position: u32) -> UpdateId {
        self.graph.at(position).id()
    }

    fn preds_at(&self, position: u32) -> &[UpdateId] {
        self.graph.at(position).preds()
    }

    fn heads(&self, alloc: Global) -> Result<Vec<UpdateId>, AllocError> {
        heads_of(alloc, &self.graph)
    }

    fn since(&self, alloc: Global, below: u32, old: &[UpdateId]) -> Result<Vec<u32>, AllocError> {
        since_of(alloc, &self.graph, below, old)
    }

    fn commit(&mut self, alloc: Global, batch: Vec<Checked>) -> Result<Committed, CommitFault> {
        if fails_now(&mut self.failing) {
            return Err(CommitFault::DiskFault);
        }
        add_within(alloc, &mut self.graph, self.most, batch)
    }
}

/// Whether the commit that begins now is the one that is to fail, and counts it.
fn fails_now(failing: &mut Failing) -> bool
    ensures { Fails failing.old result failing.new }
{
    match *failing {
        Failing::Never | Failing::Failed => false,
        Failing::After(0) => {
            *failing = Failing::Failed;
            true
        }
        Failing::After(number) => {
            *failing = Failing::After(number - 1);
            false
        }
    }
}
