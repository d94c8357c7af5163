//! Logs of updates: records on a disk, of which those that are acknowledged stay whatever a crash leaves.
//!
//! A log is records one behind another, each four bytes of length and an update's spelling. [`Log::open_log`] reads a
//! disk once from front to back, and takes the longest front of whole records whose updates are a closed list under a
//! rule; what stands behind them it cuts. [`Log::append`] writes a batch behind the acknowledged records and syncs.
//! After a call that failed, part of the batch may be there: the log is unsure until [`Log::repair`] has cut it.
//!
//! ```text
//! let (mut log, mut graph) = Log::open_log(verifier, alloc, disk, &rule)?;
//! let before = graph.len();
//! graph.add(update)?;
//! log.append(graph.tail(before))?;
//! ```
//!
//! The laws say what bytes stand for: [`one_logset`] that it is one list, [`logset_begins`] that it begins with each
//! list whose records the bytes begin with, and [`whole_logset`] that the records of a list stand for it.
//!
//! It keeps no updates: whoever appends holds the graph. Records are read and written in large pieces, for which room
//! is taken at the opening; appending and repairing take no memory.
#![tactic(auto)]

mod laws;
mod log;
mod opening;
mod part;
mod piece_reader;
mod writing;

pub use laws::{logset_begins, one_logset, whole_logset};
pub use log::{Log, LogFault};
