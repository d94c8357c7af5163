use crate::RowLists;
use table_model::VoidList;

/// The tables of a set of updates.
#[derive(Drop)]
pub struct TableList {
    /// For each table of the schema, in order, the rows that it shows, in rising order of names.
    pub tables: RowLists,
    /// The updates that do nothing, in rising order of ids.
    pub voids: VoidList,
}
