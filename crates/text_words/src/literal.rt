use crate::ByteString;

/// A value that a word writes.
#[derive(Drop)]
pub enum Literal {
    /// The word `NULL`.
    Null,
    /// A decimal integer.
    Integer(i64),
    /// A text in double quotes, of any length.
    Text(ByteString),
    /// The word `TRUE` or `FALSE`.
    Flag(bool),
}
