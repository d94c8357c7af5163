ghost use Rattle.std.specs.Prelude.{◌≡◌};
ghost use Rattle.schema_text.specs.declared.fault.SchemaError.TheVariants.{Memory};

use std::alloc::{AllocError, AllocFailed};
use std::error::Error;
use std::fmt;

/// What is wrong with a text that declares no schema.
#[derive(Clone, Copy, Debug)]
pub enum SchemaKind {
    /// A line has none of the forms, or it is not the turn of such a line, or the text ends too early.
    Line,
    /// A word is no name, a name is taken already, or there is no such column.
    Name,
    /// Bounds or kinds that do not go together.
    WrongType,
    /// A reference to no table that it may refer to, or without the NULL that it needs; a `RESTRICT` reference to rows
    /// that may be hidden for a lesser one; or a `CASCADE` of a table to itself that keeps the least row.
    Target,
    /// A `MATCH` along a `RESTRICT` reference.
    MatchKind,
    /// A sample that does not fit the table, or for which a `CHECK` or a `MATCH` is false.
    BadSample,
    /// Too much of something.
    Limit,
}

impl fmt::Display for SchemaKind {
    ghost use Rattle.std.specs.Prelude.{Some};
    ghost use Rattle.schema_text.specs.Words.{kind_word};

    ghost output = { λ kind. Some (kind_word kind) };

    fn fmt<W: fmt::Write>(&self, f: &mut fmt::Formatter<W>) -> fmt::Result {
        f.write_str(match self {
            SchemaKind::Line => "line",
            SchemaKind::Name => "name",
            SchemaKind::WrongType => "type",
            SchemaKind::Target => "target",
            SchemaKind::MatchKind => "match",
            SchemaKind::BadSample => "sample",
            SchemaKind::Limit => "limit",
        })
    }
}

/// The first fault of a text that declares no schema. It prints as `line 3: name`.
#[derive(Clone, Copy, Debug)]
pub struct SchemaFault {
    /// What is wrong.
    pub kind: SchemaKind,
    /// The line where it is, from 1: one past the last line where the text ends too early, and 0 where the text is too
    /// long.
    pub line: u32,
}

impl fmt::Display for SchemaFault {
    ghost use Rattle.std.specs.Prelude.{Some};
    ghost use Rattle.schema_text.specs.Words.{fault_words};

    ghost output = { λ fault. Some (fault_words fault) };

    fn fmt<W: fmt::Write>(&self, f: &mut fmt::Formatter<W>) -> fmt::Result {
        let line = self.line;
        let kind = self.kind;
        write!(f, "line {line}: {kind}")
    }
}

impl Error for SchemaFault {}

/// Why no schema was read.
#[derive(Clone, Copy, Debug, thiserror::Error)]
pub enum SchemaError {
    /// The text declares none.
    #[error("{0}")]
    Fault(SchemaFault),
    /// There was not enough memory.
    #[error("out of memory")]
    Memory,
}

impl From<AllocError> for SchemaError {
    ghost from_gives = { λ _ error. error ≡ Memory };

    fn from(_error: AllocError) -> SchemaError {
        SchemaError::Memory
    }
}

impl<T: Drop> From<AllocFailed<T>> for SchemaError {
    ghost from_gives = { λ _ error. error ≡ Memory };

    fn from(_error: AllocFailed<T>) -> SchemaError {
        SchemaError::Memory
    }
}
