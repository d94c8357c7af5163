use update_check::CheckFault;
use update_model::UpdateId;

/// Why a record of a stream is refused. The first of these that applies to a record is its fault, and the first
/// record that has one ends the reading.
#[derive(Clone, Copy, Debug, PartialEq, Eq)]
pub enum RecordFault {
    /// What stands here is no update that passes the checks. A record that the input ends in is cut short where
    /// it ends, counted from the update's first byte, or at 0 where its length is cut; a record whose length is
    /// above [`UPDATE_LIMIT`](update_codec::UPDATE_LIMIT) is too long there. Neither is read further.
    Check(CheckFault),
    /// This predecessor is the id of no earlier record; of several, the least.
    Lacks(UpdateId),
    /// A new update would pass a limit of a graph, or [`MAX_RECORDS`](crate::MAX_RECORDS) stand before.
    Full,
}
