//! What tables hold after valid updates, kept as the updates arrive.
//!
//! [`Tables`] takes one update after another with its verdict. It keeps the rows that the valid ones inserted, the
//! names that they deleted, and a line for each update that does nothing, and it answers which rows are visible: now
//! ([`Tables::visible`], [`Tables::rows`], and [`Tables::lend`], which copies nothing), or after the ancestors of one
//! update ([`Tables::at`], by which the next verdict is found). The last updates can be taken back ([`Tables::cut`]).
//!
//! Where no table keeps the least row of each value (`UNIQUE` with `KEEP LEAST`), what is visible now was visible
//! before, so of a row that nobody hides no history is walked, and an update costs the rows that vanish for it. Where
//! one does, a row can come back, and which rows are visible is counted anew for each update, and once for all
//! questions of what was visible after the ancestors of one: table by table, each over its own rows and the links that
//! come of them.
//!
//! It judges nothing itself: whoever applies an update says its verdict, and a contract asks that it is the right one.
#![tactic(auto)]

mod at;
mod causes;
mod children;
mod cutting;
mod deleters;
mod dropped;
mod grounds;
mod groups;
mod inserted;
mod kept_value;
mod known;
mod laws;
mod lent;
mod links;
mod parents;
mod restricts;
mod settling;
mod shape;
mod shapes;
mod showing;
mod steps;
mod tables;
mod threads;
mod values;
mod voided;

pub use at::At;
pub use dropped::Dropped;
pub use inserted::Inserted;
pub use laws::{
    applied_is_next, lent_rows_are_listed, states_are_effects, visible_rows_were_visible,
};
pub use lent::Lent;
pub use tables::Tables;
pub use voided::Voided;
