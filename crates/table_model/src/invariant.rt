/// The kinds of invariants.
#[derive(Clone, Copy, Debug, PartialEq, Eq)]
pub enum InvariantKind {
    /// A `UNIQUE` line: no two rows of the table are equal in the column.
    Unique,
    /// A `UNIQUE` line with `KEEP LEAST`: the same, since of the rows that could be shown with one value only the one
    /// with the least name is.
    UniqueKept,
    /// The `ATMOST` line: the table has at most so many rows.
    AtMost,
    /// A `REF` line: each reference that is not null names a row of the other table.
    Reference,
    /// A `CHECK` line: the expression is true of each row of the table.
    Check,
    /// A `MATCH` line: the comparison is true of each row and the row that it refers to.
    Match,
}

/// An invariant that a schema declares, named by its place.
#[derive(Clone, Copy, Debug, PartialEq, Eq)]
pub struct Invariant {
    /// Its kind.
    pub kind: InvariantKind,
    /// The number of the table.
    pub table: u8,
    /// For a reference the number of the column, else that of the line among the table's lines of its kind. From 0.
    pub place: u8,
    /// The line of the schema that declares it, from 1.
    pub line: u32,
}
