ghost use Rattle.std.specs.Prelude.{◌≡◌};
ghost use Rattle.std.specs.List.Sorted.{IsStrictlySortedBy};
ghost use Rattle.update_model.specs.Entry.{Entry, id_cmp};

use crate::UpdateId;

/// A member of a graph, however it is kept: its id, its direct predecessors and its bytes never change.
///
/// A contract sees a member as its `entry`, so that all that is said of graphs is said of lists of entries.
pub trait Member {
    ghost entry: { Self → Entry };

    /// The member's id.
    fn id(&self) -> UpdateId
        ensures { result ≡ (entry self.now).id };

    /// The ids of its direct predecessors, rising.
    fn preds(&self) -> &[UpdateId]
        ensures value { result.now ≡ (entry self.now).preds }
        ensures rising { IsStrictlySortedBy id_cmp result.now };

    /// The member's whole spelling, whose length counts towards a store's limit.
    fn bytes(&self) -> &[u8]
        ensures { result.now ≡ (entry self.now).bytes };
}
