use std::error::Error;
use std::fmt;

/// What is wrong with bytes that spell no update.
#[derive(Clone, Copy, Debug, PartialEq, Eq)]
pub enum CodecKind {
    /// The first byte is neither 1 nor 2.
    Version,
    /// The bytes end in a field, or before one.
    Short,
    /// Bytes follow the update.
    Trailing,
    /// A predecessor is not above the one before it.
    Order,
    /// There are more than [`MAX_PREDS`](update_model::MAX_PREDS) predecessors, more than
    /// [`MAX_PLAIN_OPS`](update_model::MAX_PLAIN_OPS) operations in version 1 or [`MAX_OPS`](update_model::MAX_OPS) in
    /// version 2, or an insert has no values or more than [`MAX_VALUES`](update_model::MAX_VALUES).
    Count,
    /// An operation or a value has an unknown tag, or a flag is neither 0 nor 1.
    Tag,
    /// A text has more than [`MAX_TEXT`](update_model::MAX_TEXT) bytes, a note more than
    /// [`MAX_NOTE`](update_model::MAX_NOTE), or one is no UTF-8.
    Text,
    /// The LMS type is not 5 to 7, or the LM-OTS type is not 1 to 4.
    KeyType,
    /// The signature's length is not the one that the author's key asks for.
    SignatureLength,
    /// There are more than [`UPDATE_LIMIT`](crate::UPDATE_LIMIT) bytes.
    TooLong,
    /// An own reference names no earlier operation.
    OwnIndex,
}

impl fmt::Display for CodecKind {
    ghost use Rattle.std.specs.Prelude.{Some};
    ghost use Rattle.update_codec.specs.Words.{kind_words};

    ghost output = { λ kind. Some (kind_words kind) };

    fn fmt<W: fmt::Write>(&self, f: &mut fmt::Formatter<W>) -> fmt::Result {
        f.write_str(match self {
            CodecKind::Version => "version",
            CodecKind::Short => "short",
            CodecKind::Trailing => "trailing",
            CodecKind::Order => "order",
            CodecKind::Count => "count",
            CodecKind::Tag => "tag",
            CodecKind::Text => "text",
            CodecKind::KeyType => "key type",
            CodecKind::SignatureLength => "signature length",
            CodecKind::TooLong => "too long",
            CodecKind::OwnIndex => "own index",
        })
    }
}

/// The first fault of bytes that spell no update.
#[derive(Clone, Copy, Debug, PartialEq, Eq)]
pub struct CodecFault {
    /// What is wrong.
    pub kind: CodecKind,
    /// Where, in bytes from the first one: mostly the first byte of the field that has the fault. A text or a note
    /// that is no UTF-8 is told at its first byte, behind its length.
    pub place: u32,
}

impl fmt::Display for CodecFault {
    ghost use Rattle.std.specs.Prelude.{Some};
    ghost use Rattle.update_codec.specs.Words.{fault_words};

    ghost output = { λ fault. Some (fault_words fault.kind fault.place) };

    fn fmt<W: fmt::Write>(&self, f: &mut fmt::Formatter<W>) -> fmt::Result {
        let kind = self.kind;
        let place = self.place;
        write!(f, "{kind} at {place}")
    }
}

impl Error for CodecFault {}
