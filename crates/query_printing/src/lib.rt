//! The words of a query as they are printed, so that `query` reads them again.
//!
//! [`print_words`] prints words on one line, with a blank between them. The text has exactly these words, so that where
//! they say a query (`Say`) the text is that query (`Reads`): a clause of the call, and a law of the definitions for
//! callers to cite ([`words_are_read_again`]).
//!
//! ```text
//! let text = print_words(alloc, words)?;
//! // SELECT title , prio FROM task WHERE prio >= 3 ORDER BY prio DESC LIMIT 2
//! ```
#![tactic(auto)]

mod laws;
mod printing;

pub use laws::words_are_read_again;
pub use printing::print_words;
