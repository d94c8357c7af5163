//! What a refusal means and what to do, as it is said on standard error beside what the program prints.
//!
//! [`explain`] takes a line that the program printed, finds in [`REFUSALS`] what it means, and lays that out in rows,
//! with the line of the text that it is about, and with what people write there by habit. [`explain_run`] does so for
//! all that a run of the program printed, and [`tell_run`] writes that to a sink. [`Recording`] keeps what a source
//! gave, and [`Listening`] the lines of refusals that a sink took.
//!
//! ```text
//! let asked = Asked { command: "apply", directory: "club", other: "", status: 1, text: b"INSERT" };
//! let text = explain(alloc, b"! transaction 1:7: unknown word", &asked)?;   // bec: A word is missing or ..
//! ```
//!
//! It knows of a command only its words, and what it reads a text of.
#![tactic(auto)]

mod asked;
mod excerpts;
mod explaining;
mod fronts;
mod habits;
mod heard_lines;
mod laws;
mod listening;
mod looking_up;
mod marks;
mod matching;
mod numbers;
mod parts;
mod queries;
mod recording;
mod refusals;
mod rows;
mod runs;
mod shown_lines;
mod text_lines;
mod values;
mod words;

pub use asked::Asked;
pub use explaining::explain;
pub use laws::rows_are_short;
pub use listening::Listening;
pub use recording::Recording;
pub use refusals::REFUSALS;
pub use runs::{Run, explain_run, limit_for, tell_run};
