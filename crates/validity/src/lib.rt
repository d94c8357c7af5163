//! Whether an update is valid, judged on what its ancestors did.
//!
//! [`judge`] goes once over the operations of an update and answers the first reason for which one of them may not be
//! done: an insert of values that do not fit, for which a `CHECK` or a `MATCH` is false, or that names a row that is
//! not there, and a delete of a row that is not there, that may not go, or that another row holds on to. At the end it
//! asks whether each new row of a table that keeps the least row of each value has a value of its own. It asks for the
//! rows that are visible on the update's ancestors through [`RowsAt`](update_model::RowsAt), and keeps what earlier
//! operations of the same update did.
//!
//! It keeps no rows, and finds no ancestors.
#![tactic(auto)]

mod deleting;
mod inserting;
mod judging;
mod kept_values;
mod own_row;
mod referring;
mod unlimited;

pub use judging::judge;
pub use unlimited::is_unlimited;
