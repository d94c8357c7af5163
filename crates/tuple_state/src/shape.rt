use schema::ColumnList;

/// What tells of a table which of its rows are visible.
#[derive(Drop)]
pub(crate) struct Shape {
    /// Its columns.
    pub(crate) columns: ColumnList,
    /// The column of which it keeps the least row of each value, if any.
    pub(crate) kept: Option<u8>,
}
