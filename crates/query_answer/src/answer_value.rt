use update_model::{ByteList, ValueList};

/// An answer: the names of its columns, and its rows.
#[derive(Drop)]
pub struct Answer {
    /// The names of the columns, as they were asked for.
    pub columns: Vec<ByteList>,
    /// The rows in order, each with a value for each column.
    pub rows: Vec<ValueList>,
}
