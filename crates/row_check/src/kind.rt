/// What the values of a column are, as far as an expression asks.
#[derive(Clone, Copy)]
pub enum Kind {
    /// Integers.
    Int,
    /// Texts.
    Text,
    /// Truth values.
    Flag,
    /// References to rows. No expression reads such a column.
    Reference,
}
