use row_check::Cmp;
use update_model::ByteList;

/// What a word of an expression is to its grammar.
#[derive(Drop)]
pub enum Token {
    /// A word that is none of the others, which stands where a column does. Whether it is a name, and of which
    /// column, is judged later.
    Column(ByteList),
    /// A decimal integer.
    Integer(i64),
    /// A text that stood in double quotes, of any length.
    Text(ByteList),
    /// `TRUE` or `FALSE`.
    Flag(bool),
    /// One of the six signs of comparison.
    Sign(Cmp),
    /// `AND`
    And,
    /// `OR`
    Or,
    /// `NOT`
    Not,
    /// `IS`
    Is,
    /// `NULL`
    Null,
    /// `NATIVE`
    Native,
    /// `LEN`
    Len,
    /// `(`
    Open,
    /// `)`
    Close,
    /// `,`
    Comma,
    /// A word that begins as a value does, with a digit, `-` or `$`, and is none. No expression has it.
    Bad,
}
