/// The numbers that a refusal has.
#[derive(Clone, Copy)]
pub(crate) struct Marks {
    /// The line of a text, counted from 1.
    pub(crate) line: Option<u64>,
    /// The byte of a line, counted from 1.
    pub(crate) column: Option<u64>,
    /// A count, or the number of a record.
    pub(crate) number: Option<u64>,
    /// The operation of a transaction, counted from 0.
    pub(crate) operation: Option<u64>,
}

impl Marks {
    /// No number.
    pub(crate) const NONE: Marks = Marks {
        line: None,
        column: None,
        number: None,
        operation: None,
    };
}
