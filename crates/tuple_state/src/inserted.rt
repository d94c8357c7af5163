use update_model::{RowEntry, RowName};

/// A row that a valid update inserted.
#[derive(Drop)]
pub struct Inserted {
    /// The position of that update.
    pub position: u32,
    /// The row's name.
    pub name: RowName,
    /// Where it stands, who inserted it, and its values, in which a reference to a row of the same update is that row's
    /// name.
    pub entry: RowEntry,
}
