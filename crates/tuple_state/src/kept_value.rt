/// What a value has by which another one can equal it. Null and references have nothing of it.
#[derive(PartialEq, Eq, PartialOrd, Ord, Drop)]
pub(crate) enum Content {
    /// An integer.
    Int(i64),
    /// The bytes of a text.
    Text(Vec<u8>),
    /// A truth value.
    Flag(bool),
}

/// A value of the column of which a table keeps the least row of each.
#[derive(PartialEq, Eq, PartialOrd, Ord, Drop)]
pub(crate) struct KeptValue {
    /// The table's number.
    pub(crate) table: u8,
    /// What the value has.
    pub(crate) content: Content,
}
