/// What is judged of an update, on its ancestors alone.
#[derive(Clone, Copy)]
pub enum Verdict {
    /// It does what its operations say.
    Valid,
    /// It does nothing.
    Void {
        /// Why: one of the constants of [`crate::reason`], from 1 to 9.
        reason: u8,
        /// The number of the operation, from 0, and for reason 9 the number of operations.
        operation: u16,
    },
}
