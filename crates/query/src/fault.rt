ghost use Rattle.std.specs.Prelude.{◌≡◌};
ghost use Rattle.query.specs.declared.fault.QueryError.TheVariants.{Memory};

use std::alloc::{AllocError, AllocFailed};
use std::error::Error;
use std::fmt;

/// What is wrong with a text that is no query.
#[derive(Clone, Copy, Debug)]
pub enum QueryKind {
    /// A word that may not stand where it stands, or the end of the text where a word is wanted.
    UnknownWord,
    /// A word that is no value where it begins as one, or what follows `LIMIT` where it is no number of 32 bits.
    NotAValue,
    /// There is no table of this name.
    UnknownTable,
    /// The table has no column of this name, or a word before a dot is none of its references.
    UnknownColumn,
    /// The sides of a comparison are not of one kind, `LEN` is not of a text, or a reference stands where none may.
    TypesDiffer,
    /// A byte that is not UTF-8.
    NotUtf8,
    /// A text of too many bytes, a condition of too many words, or the end of one that names too many columns.
    TooLong,
}

impl fmt::Display for QueryKind {
    ghost use Rattle.std.specs.Prelude.{Some};
    ghost use Rattle.query.specs.Words.{kind_words};

    ghost output = { λ kind. Some (kind_words kind) };

    fn fmt<W: fmt::Write>(&self, f: &mut fmt::Formatter<W>) -> fmt::Result {
        f.write_str(match self {
            QueryKind::UnknownWord => "unknown word",
            QueryKind::NotAValue => "not a value",
            QueryKind::UnknownTable => "unknown table",
            QueryKind::UnknownColumn => "unknown column",
            QueryKind::TypesDiffer => "types differ",
            QueryKind::NotUtf8 => "not utf-8",
            QueryKind::TooLong => "too long",
        })
    }
}

/// The first fault of a text that is no query. It prints as `1:19: unknown table`.
#[derive(Clone, Copy, Debug)]
pub struct QueryFault {
    /// The line where it is, from 1.
    pub line: u32,
    /// The byte of the line where it is, from 1. The end of a line is its length and 1.
    pub column: u32,
    /// What is wrong.
    pub kind: QueryKind,
}

impl fmt::Display for QueryFault {
    ghost use Rattle.std.specs.Prelude.{Some};
    ghost use Rattle.query.specs.Words.{fault_words};

    ghost output = { λ fault. Some (fault_words fault) };

    fn fmt<W: fmt::Write>(&self, f: &mut fmt::Formatter<W>) -> fmt::Result {
        let line = self.line;
        let column = self.column;
        let kind = self.kind;
        write!(f, "{line}:{column}: {kind}")
    }
}

impl Error for QueryFault {}

/// Why no query was read.
#[derive(Clone, Copy, Debug, thiserror::Error)]
pub enum QueryError {
    /// The text is none.
    #[error("{0}")]
    Fault(QueryFault),
    /// There was not enough memory.
    #[error("out of memory")]
    Memory,
}

impl From<AllocError> for QueryError {
    ghost from_gives = { λ _ error. error ≡ Memory };

    fn from(_error: AllocError) -> QueryError {
        QueryError::Memory
    }
}

impl<T: Drop> From<AllocFailed<T>> for QueryError {
    ghost from_gives = { λ _ error. error ≡ Memory };

    fn from(_error: AllocFailed<T>) -> QueryError {
        QueryError::Memory
    }
}
