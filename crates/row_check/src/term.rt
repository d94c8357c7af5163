use update_model::Value;

/// A side of a comparison.
#[derive(Drop)]
pub enum Term {
    /// The value in the column with this number, from 0.
    Column(u8),
    /// A value that stands in the expression itself.
    Literal(Value),
    /// `LEN`: how many bytes the text in this column has, or null where there is none.
    Length(u8),
}
