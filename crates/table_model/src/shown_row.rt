use update_model::{RowName, ValueList};

/// A row as a table shows it.
#[derive(Drop)]
pub struct ShownRow {
    /// The row's name.
    pub name: RowName,
    /// A value for each column, in order: null where a `SETNULL` reference names a row that is not visible, and else as
    /// it was inserted, a reference to a row of the same update being that row's name.
    pub values: ValueList,
}
