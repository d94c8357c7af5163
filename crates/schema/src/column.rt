use crate::Action;
use update_model::TextValue;

/// Which values a column has, besides null where it may have none.
#[derive(Clone, Copy)]
pub enum ColumnKind {
    /// Integers from `lo` to `hi`, both included.
    Int {
        /// The least one.
        lo: i64,
        /// The greatest one.
        hi: i64,
    },
    /// Texts whose length in bytes is from `lo` to `hi`, both included. At most 1,024.
    Text {
        /// The least length.
        lo: u16,
        /// The greatest length.
        hi: u16,
    },
    /// Truth values.
    Flag,
    /// References to rows of a table.
    Reference {
        /// The number of that table, from 0.
        target: u8,
        /// What becomes of the row when the row that it refers to goes.
        action: Action,
    },
}

/// A column of a table.
#[derive(Drop)]
pub struct Column {
    /// Its name, which no other column of the table has.
    pub name: TextValue,
    /// Which values it has.
    pub kind: ColumnKind,
    /// Whether null may stand in it.
    pub null: bool,
    /// The line that declares it, from 1.
    pub line: u32,
}
