use table_model::Invariant;

/// Why an invariant is refused.
#[derive(Clone, Copy)]
pub(crate) enum Flaw {
    /// Two sides may each insert a row with the same value in a `UNIQUE` column.
    Doubles {
        /// The number of the table.
        table: u8,
        /// The number of the column.
        column: u8,
    },
    /// Two sides may each insert the last row that an `ATMOST` leaves room for.
    TooMany {
        /// The number of the table.
        table: u8,
        /// At most how many rows the table has.
        count: u8,
    },
    /// One side may insert a row that names, by `RESTRICT`, a row that the other side makes vanish.
    Dangles {
        /// The number of the table that has the reference.
        table: u8,
        /// The number of its column.
        column: u8,
        /// The number of the table that it refers to.
        target: u8,
    },
}

/// An invariant that is refused.
#[derive(Clone, Copy)]
pub(crate) struct Finding {
    /// The invariant, by its place.
    pub(crate) which: Invariant,
    /// Why it is refused.
    pub(crate) flaw: Flaw,
}
