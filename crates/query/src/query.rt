use crate::{Condition, Item, Key};

/// A query: which columns of which rows of a table, in which order, and how many.
#[derive(Drop)]
pub struct Query {
    /// The number of the table.
    pub table: u8,
    /// The columns of the answer, in order.
    pub columns: Vec<Item>,
    /// What is asked of each row, and nothing where all rows are wanted.
    pub condition: Option<Condition>,
    /// What the answer is ordered by, the first key first. Rows that tie rise by their own names.
    pub keys: Vec<Key>,
    /// How many rows the answer has at most.
    pub limit: Option<u32>,
}
