//! Laws of a demonstration: what its schema declares, that what its authors do is valid, and which rows are left.
//!
//! Each law is a function that does nothing: its contract is a theorem for callers to cite.
#![tactic(auto)]

mod laws;

pub use laws::{heads_follow_all, planned_is_valid, planned_rows, text_declares_tables};
