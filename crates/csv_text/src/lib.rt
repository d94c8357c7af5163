//! Answers of queries as comma-separated values.
//!
//! [`csv`] answers the text: a header with the names of the columns, and a line for each row. A text stands in quotes,
//! and what is null is empty, so the two are told apart. In it each quote stands twice, and every other byte as it is:
//! what is written is read as that text ([`texts_are_read_again`]).
//!
//! ```text
//! let answer = answer(alloc, native, schema, &query, tables)?;
//! let text = csv(alloc, &answer)?;
//! // name,place
//! // "a ""red"" box",5c6f..:0
//! ```
#![tactic(auto)]

mod laws;
mod tables;
mod values;

pub use laws::texts_are_read_again;
pub use tables::csv;
