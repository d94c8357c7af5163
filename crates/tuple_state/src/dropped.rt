use update_model::RowName;

/// A name that a valid update deletes.
#[derive(Clone, Copy)]
pub struct Dropped {
    /// The position of that update.
    pub position: u32,
    /// The name of the row.
    pub name: RowName,
}
