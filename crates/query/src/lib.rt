//! Queries: which columns of which rows of a table, in which order, and how many, read from a text.
//!
//! [`read_query`] reads a text over the tables of a schema, and answers the [`Query`], or the first [`QueryFault`] with
//! its line and column.
//!
//! ```text
//! SELECT title, prio, list.title FROM task
//! WHERE prio >= 3 AND NOT list IS NULL
//! ORDER BY prio DESC, title LIMIT 2
//! ```
//!
//! A column is one of the table, or `reference.column` for one of the row that a reference names. Among the columns of
//! the answer `ROW` is the name of the row, and `*` that and every column. A condition is an expression of the grammar
//! of `expression_text` over the columns that it names; a reference may stand before `IS NULL` alone. An LF counts as a
//! blank.
//!
//! What a text says is a relation (`Reads` and `FirstFault` in specs/Queries) over its words with their places
//! (specs/Pieces): what may follow what (specs/Grammar), where a condition is at fault (specs/Conditions), and which
//! columns there are (specs/Columns).
#![tactic(auto)]

mod condition;
mod fault;
mod item;
mod laws;
mod limits;
mod mark;
mod parts;
mod phase;
mod pieces;
mod query;
mod reading;
mod source;
mod stop;
mod turn;

pub use condition::Condition;
pub use fault::{QueryError, QueryFault, QueryKind};
pub use item::{Item, Key};
pub use laws::{no_fault, one_fault, one_query};
pub use limits::{MAX_CONDITION_COLUMNS, MAX_CONDITION_WORDS, MAX_QUERY_BYTES};
pub use query::Query;
pub use reading::read_query;
pub use source::{Slot, Source};
