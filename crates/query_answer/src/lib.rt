//! Answers of queries over the tables of a database, and their printed texts; and whole tables as JSON.
//!
//! [`answer_lists`] answers a query over rows that tables list, and [`answer`] over the tables of a set of updates. An
//! answer is what `IsAnswer` of the definitions says: the rows that the condition is true of, in the order of the keys
//! and then of their own names, no more than the limit, and of each the columns that are asked for. [`print_lines`]
//! prints a line for each row, and [`json_lines`] one JSON object. [`tables_json`] writes all that tables show as one
//! JSON object.
//!
//! ```text
//! let answer = answer(alloc, native, schema, &query, tables)?;
//! let text = print_lines(alloc, &answer)?;
//! ```
//!
//! It reads no text of queries: see the crate `query`.
#![tactic(auto)]

mod answer_value;
mod answering;
mod asking;
mod found;
mod front;
mod json_text;
mod laws;
mod line;
mod lines;
mod ordering;
mod picking;
mod rows;
mod shown;
mod tables_object;
mod values;

pub use answer_value::Answer;
pub use answering::answer_lists;
pub use json_text::json_lines;
pub use laws::{
    json_is_compact, one_answer, one_answer_over, tables_json_is_compact, values_are_seen,
};
pub use lines::print_lines;
pub use shown::{answer, shown_lists};
pub use tables_object::tables_json;
