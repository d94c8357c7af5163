use update_model::UpdateId;

/// An update that does nothing, and why.
#[derive(Clone, Copy)]
pub struct VoidLine {
    /// The update's id.
    pub id: UpdateId,
    /// The reason, as in [`crate::reason`].
    pub reason: u8,
    /// The number of the operation.
    pub operation: u16,
}
