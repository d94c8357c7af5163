use crate::{CheckList, ColumnList, MatchList, UniqueList};
use update_model::{TextValue, ValueList};

/// A table: its columns, and what holds of its rows. Each list is in the order of the lines that declare it.
#[derive(Drop)]
pub struct TableDef {
    /// Its name, which no other table of the schema has.
    pub name: TextValue,
    /// The columns, which number from 0.
    pub columns: ColumnList,
    /// The `CHECK` lines.
    pub checks: CheckList,
    /// The `MATCH` lines.
    pub matches: MatchList,
    /// The `UNIQUE` lines.
    pub uniques: UniqueList,
    /// The column of the `UNIQUE` line with `KEEP LEAST`, where there is one: of the rows that could be shown with one
    /// value in it, the one with the least name is.
    pub kept: Option<u8>,
    /// At most how many rows the table has, or 0 where there is no such limit.
    pub at_most: u8,
    /// The line that says so, from 1, or 0 where there is none.
    pub at_most_line: u32,
    /// Whether rows may be deleted.
    pub deletable: bool,
    /// Whether only the author of a row may delete it.
    pub owned: bool,
    /// A row that the table may have: a value for each column in order, null in each reference.
    pub sample: ValueList,
}
