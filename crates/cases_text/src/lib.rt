//! The text of cases: what a file of cases says, and whether what a program prints is what a case expects.
//!
//! [`read_book`] reads the files into [`Case`]s, each a row of [`Step`]s. [`read_order`] reads the words of a command
//! line, [`filled`] puts what names stand for in their place, and [`fits`] compares an output with the lines that are
//! expected, by which names take what stands there.
//!
//! ```text
//! let book = read_book(alloc, text, &mut place)?;
//! for case in &book.cases {
//!     for step in &case.steps {
//!         let order = read_order(alloc, &names, step.text)?;
//!         let is_right = fits(alloc, &mut names, &step.wanted, output)?;
//!     }
//! }
//! ```
//!
//! It runs nothing. docs/CASES.md describes the format.
#![tactic(auto)]

mod case;
mod fault;
mod filling;
mod fitting;
mod marks;
mod names;
mod order;
mod pieces;
mod reading;
mod splitting;

pub use case::{Book, Case, Content, Given, Kind, Portion, Step, Wanted};
pub use fault::Fault;
pub use filling::{bytes_of, digits_of, filled};
pub use fitting::{fits, lines_of};
pub use names::Names;
pub use order::{Order, read_order};
pub use reading::{Place, read_book};
pub use splitting::{Word, split_words};
