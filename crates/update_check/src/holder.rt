//! Whoever holds updates, and what adding a batch of them answers.

ghost use Rattle.std.specs.Prelude.{◌≡◌, ◌<◌, ◌≤◌, ℕ, List, All, length, map, slice_get, option_map, Some, IfOk, OnOk};
ghost use Rattle.update_model.specs.Batch.{Limits};
ghost use Rattle.update_model.specs.Graph.{AreHeads, position_of};
ghost use Rattle.update_model.specs.Rule.{RuleData};
ghost use Rattle.update_codec.specs.Parts.{entry_of, id_of, preds_of};
ghost use Rattle.update_check.specs.Holding.{ArePositionsSince, Commits, IsHeld};
ghost use Rattle.update_check.specs.Signed.{IsChecked};

use crate::{Checked, CheckedList};
use bec_bytes::Counted;
use std::alloc::{AllocError, Global};
use thiserror::Error;
use update_model::{DbRule, IdList, UpdateId};

/// What a batch added, and what of it waits for predecessors.
#[derive(Drop)]
pub struct Committed {
    /// The ids of what was added, in the order of arrival.
    pub added: IdList,
    /// What could not be added, in the batch's order.
    pub waiting: CheckedList,
}

/// Why nothing of a batch was added.
#[derive(Clone, Copy, Debug, Error)]
pub enum CommitFault {
    /// What can be added would pass a limit.
    #[error("the store is full")]
    Full,
    /// A call of the disk failed.
    #[error("a disk failed")]
    DiskFault,
    /// Memory ran out.
    #[error("out of memory")]
    Memory,
}

/// A list of updates in the order of arrival, closed, under a rule and within two limits that never change. It grows by
/// [`Holder::commit`] alone.
pub trait Holder: Counted {
    /// The updates in the order of arrival, each as its bytes.
    ghost members: { Self → List (List ℕ) };

    /// Whose updates are taken.
    ghost rule: { Self → RuleData };

    /// How many there may be, and of how many bytes.
    ghost limits: { Self → Limits };

    /// What else goes on from a moment of a holder to a later one, such as that a crash leaves what it held.
    ghost keeps: { Self → Self → Type 0 };

    /// It goes on from each moment to itself.
    ghost keeps_itself: { (holder : Self) → keeps holder holder };

    /// It goes on through a moment in between.
    ghost keeps_on: { (old mid new : Self) → keeps old mid → keeps mid new → keeps old new };

    /// What holds as long as no commit is refused, such as that a disk has nothing behind what is held.
    ghost is_whole: { Self → Type 0 };

    /// How many updates there are, and what holds of every holder.
    fn len(&self) -> u32
        ensures value { result ≡ length (members self.now) }
        ensures held { IsHeld (limits self.now) (rule self.now) (members self.now) };

    /// The position of the update with this id, or `None` where none has it.
    fn position(&self, id: &UpdateId) -> Option<u32>
        ensures { result ≡ position_of (map entry_of (members self.now)) id.now };

    /// The rule that each update is under.
    fn rule(&self) -> &DbRule
        ensures { result.now ≡ rule self.now };

    /// The update at a position, counted from 0 in the order of arrival.
    fn update_at(&self, position: u32) -> &Checked
        requires { position < length (members self.now) }
        ensures { slice_get (members self.now) position ≡ Some result.now };

    /// The id of the update at a position.
    fn id_at(&self, position: u32) -> UpdateId
        requires { position < length (members self.now) }
        ensures { option_map id_of (slice_get (members self.now) position) ≡ Some result };

    /// The predecessors of the update at a position.
    fn preds_at(&self, position: u32) -> &[UpdateId]
        requires { position < length (members self.now) }
        ensures { option_map preds_of (slice_get (members self.now) position) ≡ Some result.now };

    /// The ids of the updates that no update names, rising.
    fn heads(&self, alloc: Global) -> Result<Vec<UpdateId>, AllocError>
        ensures { IfOk result (λ heads. AreHeads (map entry_of (members self.now)) heads.items) };

    /// Of the first `below` updates, the positions of those that are neither among these ids nor ancestors of one,
    /// rising. Ids that none of them has are passed over.
    fn since(&self, alloc: Global, below: u32, old: &[UpdateId]) -> Result<Vec<u32>, AllocError>
        requires { below ≤ length (members self.now) }
        ensures { IfOk result (λ positions. ArePositionsSince (members self.now) below old.now positions.items) };

    /// Adds each update of a batch that can be added in some order, each once, and passes over known ones. The rest
    /// waits.
    ///
    /// [`CommitFault::Full`] comes where all that can be added would pass a limit, and [`CommitFault::DiskFault`] only
    /// where the count of faults rose. After a refusal the list is as it was, and the batch is given up.
    fn commit(&mut self, alloc: Global, batch: Vec<Checked>) -> Result<Committed, CommitFault>
        requires { All (IsChecked (rule self.old)) batch.items }
        ensures commits { Commits (limits self.old) (members self.old) batch.items result (Self.faults self.old)
            (Self.faults self.new) (members self.new) }
        ensures later { Self.faults self.old ≤ Self.faults self.new }
        ensures keeps { keeps self.old self.new }
        ensures whole { OnOk result (is_whole self.new) }
        ensures limits { limits self.new ≡ limits self.old }
        ensures rule { rule self.new ≡ rule self.old };
}
