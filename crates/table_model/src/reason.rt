//! Why an update is void. Where more than one applies to an operation, it is the first in this order.

/// An insert into a table that the schema does not have.
pub const NO_TABLE: u8 = 1;

/// An insert of values that do not fit the columns.
pub const MISFIT: u8 = 2;

/// An insert for which a `CHECK` is false.
pub const CHECK_FALSE: u8 = 3;

/// An insert that names a row that is not there.
pub const NO_TARGET: u8 = 4;

/// An insert for which a `MATCH` is false.
pub const MATCH_FALSE: u8 = 5;

/// A delete of a row that is not there, is deleted already, or is of a table that is not `DELETABLE`.
pub const NOT_DELETABLE: u8 = 6;

/// A delete of another author's row of a table that is `OWNED`.
pub const NOT_OWNER: u8 = 7;

/// A delete of a row that another row names by `RESTRICT`.
pub const RESTRICTED: u8 = 8;

/// A `UNIQUE` or an `ATMOST` that is broken in the tables of the ancestors and the update together.
pub const LIMIT_BROKEN: u8 = 9;
