use std::alloc::AllocError;
use std::error::Error;
use std::fmt;
use update_codec::{CodecFault, DecodeError};

/// Why bytes are no update of a database. Where there is more than one reason, it is the first in this order.
#[derive(Clone, Copy, Debug, PartialEq, Eq)]
pub enum CheckFault {
    /// The bytes spell no update, and this is their first fault.
    Codec(CodecFault),
    /// The update is of another database.
    WrongDatabase,
    /// The rule lists authors, and not the update's.
    AuthorNotListed,
    /// The signature is not the author's of this message (RFC 8554, section 5.4.2).
    BadSignature,
}

impl fmt::Display for CheckFault {
    ghost use Rattle.std.specs.Prelude.{Some};
    ghost use Rattle.update_check.specs.Words.{check_words};

    ghost output = { λ fault. Some (check_words fault) };

    fn fmt<W: fmt::Write>(&self, f: &mut fmt::Formatter<W>) -> fmt::Result {
        match self {
            CheckFault::Codec(fault) => write!(f, "{fault}"),
            CheckFault::WrongDatabase => f.write_str("other database"),
            CheckFault::AuthorNotListed => f.write_str("author not listed"),
            CheckFault::BadSignature => f.write_str("bad signature"),
        }
    }
}

impl Error for CheckFault {}

/// Why bytes were not taken.
#[derive(Clone, Copy, Debug, thiserror::Error)]
pub enum CheckError {
    /// The bytes are refused.
    #[error("{0}")]
    Fault(CheckFault),
    /// There was not enough memory.
    #[error("out of memory")]
    Memory,
}

impl From<CheckFault> for CheckError {
    ghost use Rattle.std.specs.Prelude.{◌≡◌};
    ghost use Rattle.update_check.specs.declared.check_error.CheckError.TheVariants as check_errors;

    ghost from_gives = { λ fault error. error ≡ check_errors.Fault fault };

    fn from(fault: CheckFault) -> CheckError {
        CheckError::Fault(fault)
    }
}

impl From<AllocError> for CheckError {
    ghost use Rattle.std.specs.Prelude.{◌≡◌};
    ghost use Rattle.update_check.specs.declared.check_error.CheckError.TheVariants as check_errors;

    ghost from_gives = { λ _ error. error ≡ check_errors.Memory };

    fn from(_error: AllocError) -> CheckError {
        CheckError::Memory
    }
}

impl From<DecodeError> for CheckError {
    ghost use Rattle.std.specs.Prelude.{◌≡◌};
    ghost use Rattle.update_check.specs.Causes.{error_from};

    ghost from_gives = { λ refused error. error ≡ error_from refused };

    fn from(refused: DecodeError) -> CheckError {
        match refused {
            DecodeError::Fault(fault) => CheckError::Fault(CheckFault::Codec(fault)),
            DecodeError::Memory => CheckError::Memory,
        }
    }
}
