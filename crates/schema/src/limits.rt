//! How much a schema may have.

/// The most tables of a schema.
pub const MAX_TABLES: usize = 16;

/// The most columns of a table.
pub const MAX_COLUMNS: usize = 16;

/// The most `CHECK` lines of a table.
pub const MAX_CHECKS: usize = 16;

/// The most `MATCH` lines of a table.
pub const MAX_MATCHES: usize = 16;
