//! Laws of seals over everything that may happen on a shelf: no index of a key signs twice.
//!
//! A world is a shelf with the keys that are open over it. Keys of directories are taken, made, sign and are put back,
//! each of which is an act (`Acts`). A call is a run of acts, and may be cut short by a crash at any moment
//! (`Histories`). Over every list of calls, faults, stops and restarts each index of each directory's key signs at most
//! one message, and is used in whatever a crash leaves from then on. Each call of a two-level key is a run of acts
//! (`Calls`), so that this holds of the seals that `hss_directory` makes.
//!
//! Each law is a function that does nothing: its contract is a theorem for callers to cite.
#![tactic(auto)]

mod laws;

pub use laws::{calls_are_runs, no_index_signs_twice, seals_stay_used};
