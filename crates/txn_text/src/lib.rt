//! Transactions: the operations of an update, read from a text.
//!
//! A transaction has one operation on a line. [`read_txn`] reads it over a schema, and answers the operations, or the
//! first [`TextFault`] with its line and column.
//!
//! ```text
//! INSERT list "Home" 9
//! INSERT task "Buy" 3 NULL $1 NULL
//! DELETE 5c6f..:0
//! ```
//!
//! `INSERT` is followed by the name of a table and a value for each of its columns, `DELETE` by the name of a row. A
//! value is `NULL`, `TRUE`, `FALSE`, an integer, a text in double quotes, the name of a row, or `$k` for the row that
//! the k-th operation of this transaction inserts, which has to be an earlier one. Blank lines are passed over, and
//! counted. There are no comments.
//!
//! What a text says is a relation over its lines (`Reads` and `FirstFault` in specs/Transactions), which stands on what
//! the words of a line say (specs/Operations). Whether values fit their columns, and whether rows are there, is not
//! judged here (crate `validity`).
#![tactic(auto)]

mod fault;
mod heads;
mod keyword;
mod laws;
mod limits;
mod operations;
mod reading;
mod stop;
mod values;
mod verb;

pub use fault::{TextError, TextFault, TextKind};
pub use laws::{no_fault, one_fault, one_transaction};
pub use limits::MAX_TRANSACTION_BYTES;
pub use reading::read_txn;
