use update_model::{OpList, TextValue};

/// What an update says: its operations, and its note, if it has one.
#[derive(Drop)]
pub struct Contents {
    /// The operations, which number from 0.
    pub ops: OpList,
    /// What its author says of it.
    pub note: Option<TextValue>,
}
