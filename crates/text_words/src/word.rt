use crate::ByteString;

/// One word of a line.
#[derive(Drop)]
pub enum Word {
    /// Bytes as they stand.
    Plain(ByteString),
    /// A text that stood in double quotes, without these and with its escapes read.
    Quoted(ByteString),
    /// `(`, which is a word by itself in an expression alone.
    Open,
    /// `)`, likewise.
    Close,
    /// `,`, likewise.
    Comma,
}
