ghost use Rattle.std.specs.Prelude.{◌≡◌};
ghost use Rattle.txn_text.specs.declared.fault.TextError.TheVariants.{Memory};

use std::alloc::{AllocError, AllocFailed};
use std::error::Error;
use std::fmt;

/// What is wrong with a text that is no transaction.
#[derive(Clone, Copy, Debug)]
pub enum TextKind {
    /// The first word of a line is not one of those that begin an operation.
    UnknownWord,
    /// There is no table of this name, or no name.
    UnknownTable,
    /// A word that is no value, or where the name of a row is wanted no such name.
    NotAValue,
    /// A text of more bytes than a row may have.
    TextTooLong,
    /// `$k` where the k-th operation is no earlier one.
    LaterLine,
    /// Not as many values as the table has columns, or not one name of a row.
    WrongNumber,
    /// One operation more than an update may have.
    TooManyOperations,
    /// A byte that is not UTF-8.
    NotUtf8,
    /// A text of too many bytes.
    TooLong,
}

impl fmt::Display for TextKind {
    ghost use Rattle.std.specs.Prelude.{Some};
    ghost use Rattle.txn_text.specs.Words.{kind_words};

    ghost output = { λ kind. Some (kind_words kind) };

    fn fmt<W: fmt::Write>(&self, f: &mut fmt::Formatter<W>) -> fmt::Result {
        f.write_str(match self {
            TextKind::UnknownWord => "unknown word",
            TextKind::UnknownTable => "unknown table",
            TextKind::NotAValue => "not a value",
            TextKind::TextTooLong => "text too long",
            TextKind::LaterLine => "later line",
            TextKind::WrongNumber => "wrong number of values",
            TextKind::TooManyOperations => "too many operations",
            TextKind::NotUtf8 => "not utf-8",
            TextKind::TooLong => "too long",
        })
    }
}

/// The first fault of a text that is no transaction. It prints as `1:8: unknown table`.
#[derive(Clone, Copy, Debug)]
pub struct TextFault {
    /// The line where it is, from 1.
    pub line: u32,
    /// The byte of the line where it is, from 1. The end of a line is its length and 1.
    pub column: u32,
    /// What is wrong.
    pub kind: TextKind,
}

impl fmt::Display for TextFault {
    ghost use Rattle.std.specs.Prelude.{Some};
    ghost use Rattle.txn_text.specs.Words.{fault_words};

    ghost output = { λ fault. Some (fault_words fault) };

    fn fmt<W: fmt::Write>(&self, f: &mut fmt::Formatter<W>) -> fmt::Result {
        let line = self.line;
        let column = self.column;
        let kind = self.kind;
        write!(f, "{line}:{column}: {kind}")
    }
}

impl Error for TextFault {}

/// Why no transaction was read.
#[derive(Clone, Copy, Debug, thiserror::Error)]
pub enum TextError {
    /// The text is none.
    #[error("{0}")]
    Fault(TextFault),
    /// There was not enough memory.
    #[error("out of memory")]
    Memory,
}

impl From<AllocError> for TextError {
    ghost from_gives = { λ _ error. error ≡ Memory };

    fn from(_error: AllocError) -> TextError {
        TextError::Memory
    }
}

impl<T: Drop> From<AllocFailed<T>> for TextError {
    ghost from_gives = { λ _ error. error ≡ Memory };

    fn from(_error: AllocFailed<T>) -> TextError {
        TextError::Memory
    }
}
