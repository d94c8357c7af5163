//! Tables: what a set of updates makes of the tables of a schema.
//!
//! The definitions are those of specs/: closed lists of updates (`Nodes`), which rows are visible after them
//! (`Visible`), why a row is not (`Counts`), the verdict on each update (`Verdicts`), what rows answer that are asked
//! for (`Answers`), the tables (`Tables`), and the invariants of a schema (`Invariants`).
//!
//! Each law about them is a function that does nothing: its contract is a theorem for callers to cite. What follows of
//! sets of updates, and which invariants survive merging, stands in the crate `confluence_laws`.
#![tactic(auto)]

mod counterexample;
mod invariant;
mod laws;
mod node_list;
pub mod reason;
mod shown_row;
mod shown_row_list;
mod sorting;
mod verdict;
mod void_line;
mod void_list;

pub use counterexample::Counterexample;
pub use invariant::{Invariant, InvariantKind};
pub use laws::{
    arrivals_are_closed, counted_rows_are_visible, effects_one_by_one, judged_one_by_one,
    one_of_equals_stands, plain_rows_show, steady_rows_last, unlimited_tables_hold,
    verdict_goes_by_operations, verdict_is_on_ancestors, visible_is_shown,
    visible_rows_are_determined,
};
pub use node_list::NodeList;
pub use shown_row::ShownRow;
pub use shown_row_list::ShownRowList;
pub use sorting::{sort_lines, sort_rows};
pub use verdict::Verdict;
pub use void_line::VoidLine;
pub use void_list::VoidList;
