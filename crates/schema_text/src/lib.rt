//! Schemas as texts: the grammar of their lines, and what a text declares.
//!
//! A schema names a database, lists whose updates it takes, and declares tables: their columns, the references between
//! them, and what holds of each row. [`read_schema`] reads a text of one line for each of these, and answers the
//! [`Schema`](schema::Schema), or the first [`SchemaFault`] with its line.
//!
//! ```text
//! DATABASE club
//! TABLE member DELETABLE
//! COLUMN name TEXT 1 40
//! COLUMN born INT 1900 2100 NULL
//! CHECK born IS NULL OR born < 2020
//! SAMPLE "Ann" 1987
//! ```
//!
//! A table ends with a sample: a row that it may have, of which each CHECK and MATCH is tried.
//!
//! What a text declares is a relation over its lines (`Declares` in specs/Schemas): the form of a line, whose turn it
//! is, what it adds, and what each kind of fault asks of it, apart from the code that reads.
#![tactic(auto)]

mod adding;
mod draft;
mod draft_lists;
mod fault;
mod form;
mod forms;
mod keyword;
mod kinds;
mod laws;
mod least;
mod limits;
mod lookups;
mod names;
mod reading;
mod samples;
mod word_lists;
mod words;

pub use fault::{SchemaError, SchemaFault, SchemaKind};
pub use laws::{declared_is_sound, declared_samples_pass, no_fault, one_fault, one_schema};
pub use limits::{MAX_AUTHORS, MAX_ROWS, MAX_SCHEMA_BYTES, MAX_TOKENS};
pub use reading::read_schema;
