use crate::UpdateId;

/// The name of a row: the update that inserted it, and the number of the operation there, from 0.
///
/// Row names order by the bytes of the id, then by the number.
#[derive(Clone, Copy, PartialEq, Eq, PartialOrd, Ord)]
pub struct RowName {
    /// The update whose operation inserted the row.
    pub update: UpdateId,
    /// The number of that operation within the update.
    pub index: u16,
}
