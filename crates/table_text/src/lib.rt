//! Printed texts of rows, operations, counterexamples and tables.
//!
//! Each text is a function of the definitions from what is printed to its bytes, and each call here adds exactly these
//! bytes at the end of a vector. A text ends where the bytes end: only whole lines have their LF.
//!
//! ```text
//! push_table(&mut out, schema.table(0), rows.as_slice())?;
//! // TABLE list
//! // 5c6f..:0 "Home" 9
//! ```
//!
//! A call that wants memory and gets none answers an error, and then a front of the text may have been added: what
//! stood before is kept.
#![tactic(auto)]

mod examples;
mod laws;
mod name_style;
mod names;
mod numbers;
mod operations;
mod tables;
mod values;

pub use examples::push_counterexample;
pub use laws::names_are_read_again;
pub use name_style::NameStyle;
pub use names::push_row_name;
pub use operations::push_operation;
pub use tables::{push_table, push_tables, push_void};
pub use values::push_value;
