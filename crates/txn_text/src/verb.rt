/// What a line does, as its first words tell.
#[derive(Clone, Copy)]
pub(crate) enum Verb {
    /// Inserts a row into the table with this number, which has so many columns.
    Insert { table: u8, columns: usize },
    /// Deletes a row.
    Delete,
}
