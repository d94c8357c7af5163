//! The verdict on the text of a schema: whether each invariant that it declares survives merging, or what is wrong
//! first, and how that is said.
//!
//! [`verdict`] reads the text from a source, and answers what is printed of it or a [`VerdictRefusal`]; [`check`]
//! writes that too, and answers an exit [`status`]; and [`run_check`] is a program of the one command `check`.
//!
//! What other commands share stands here for them: the exit statuses, [`read_text`] for a text that is read whole,
//! [`put`] and [`no_command`] for what is written with its status, [`schema_line`] and [`refused_lines`] for why a
//! schema is refused.
#![tactic(auto)]

mod checking;
mod judging;
mod laws;
mod lines;
mod refusal;
mod reply;
pub mod status;
mod text_input;

pub use checking::{check, run_check};
pub use judging::verdict;
pub use laws::one_verdict;
pub use lines::{refused_lines, schema_line};
pub use refusal::VerdictRefusal;
pub use reply::{no_command, put};
pub use text_input::read_text;
