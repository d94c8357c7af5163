//! The laws of tables over sets of updates, and of which invariants survive merging.
//!
//! Two replicas that cannot reach each other both take updates, and later merge. Verdicts, visible rows and tables are
//! functions of the set of updates, in whatever order these came. An invariant is confluent where it holds in the union
//! of any two closed lists in which it holds. The definitions are those of specs/: which invariants are confluent and
//! the rule that accepts them (`Confluence`), and the histories that show that one is not (`Examples`).
//!
//! Each law is a function that does nothing: its contract is a theorem for callers to cite. An invariant that the rule
//! accepts holds in every closed list and is confluent, and of the first that it refuses a history shows that it is
//! not.
#![tactic(auto)]

mod laws;

pub use laws::{
    accepted_holds, accepted_is_confluent, confirmed_refutes, first_refused_is_confirmed,
    invariants_are_of_the_set, judged_ancestors_are_ancestors, shown_rows_fit,
    tables_are_of_the_set, union_is_closed, union_is_of_both, verdicts_are_of_the_set,
    visible_rows_are_of_the_set,
};
