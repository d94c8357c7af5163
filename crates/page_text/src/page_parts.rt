use schema::Schema;
use table_model::{ShownRowList, VoidLine};

/// What a page shows.
#[derive(Drop)]
pub struct PageParts<'a> {
    /// The name of the database.
    pub title: &'a [u8],
    /// The schema, whose tables are shown.
    pub schema: &'a Schema,
    /// The rows of each table, in the order of the schema. A table without a list is not shown, nor is a list without a
    /// table.
    pub lists: &'a [ShownRowList],
    /// The updates that do nothing.
    pub voids: &'a [VoidLine],
    /// The picture of the history, as SVG.
    pub picture: &'a [u8],
}
