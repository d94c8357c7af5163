//! The texts of a log of a hash graph.
//!
//! [`entries_of`] answers the updates of a graph with what is told of them, the newest first. [`log_text`] writes them,
//! [`show_text`] the one whose id begins so, and [`who_text`] the one that wrote a row, and [`diff_text`] those that
//! only one of two logs has: each with whole ids and keys, with cut ones, or as JSON ([`Style`]).
//!
//! ```text
//! let told = Told { heads, voids, notes };
//! let entries = entries_of(alloc, &graph, &told)?;
//! let text = log_text(alloc, Style::Short, false, &schema, &entries)?;
//! ```
//!
//! A log is a function of the set of updates, and not of their order of arrival: [`same_set_same_log`].
#![tactic(auto)]

mod differing;
mod digits;
mod entries;
mod entry;
mod finding;
mod json;
mod laws;
mod lines;
mod logs;
mod manner;
mod names;
mod style;

pub use differing::diff_text;
pub use entries::entries_of;
pub use entry::Entry;
pub use finding::{named_lines, show_text, who_text};
pub use laws::same_set_same_log;
pub use logs::log_text;
pub use style::Style;
