//! Watching a store, as a command `watch` does it: what a stream of updates changes in the answer of a query, told
//! block by block while its records are taken into the store of a directory.
//!
//! [`watch`] opens the store, shows the answer of a query that is named, and then reads record after record. Each is
//! checked as `heads` checks a stream, under the rule of the store, and committed by itself; then the view of the query
//! is refreshed, and where its change has as many lines as the subscriber wants, a block is written. At the end of the
//! stream the view is flushed.
//!
//! ```text
//! + 5c05..:0  "Home"      the answer before the first record
//! = 0
//! - 5c05..:0  "Home"      lines that went with record 2 ..
//! + 77aa..:0  "Away"      .. and lines that came
//! = 2
//! ```
//!
//! A record that is refused, a store that is full and a disk or a stream that fails end it: the blocks so far stay, and
//! the line of the refusal stands behind them. The store keeps what was taken.
#![tactic(auto)]

mod blocks;
mod following;
mod records;
mod stop;
mod watching;

pub use stop::Stop;
pub use watching::{Watched, watch};
