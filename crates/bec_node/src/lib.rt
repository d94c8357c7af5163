//! What the program `bec` does: [`run`] takes the words of a command line, what stands [`Outside`] (a shelf of
//! directories, a generator of random words and a source), a net and a sink, and answers an exit status.
//!
//! The program itself makes the real objects and calls [`run`]; tests call it over objects in memory. What each command
//! does is told by the crates below, one for each family: `node_commands` has those over stores and keys,
//! `seal_commands` those over seals, `audit_commands` those that audit keys, `watch_command` the one that watches a
//! query, `world_commands` those over worlds in memory, and `net_commands` the two that use a net:
//!
//! ```text
//! bec sync DIR ADDR                  reconciles the store of a directory with the one that is served at an address
//! bec serve DIR ADDR --sessions N    waits at an address, and reconciles the store of a directory over N sessions
//! ```
//!
//! Only these two use the net and wait for others. [`run_beside`] does what words ask for without a net, of all other
//! families, and [`run_alone`] what they ask for of `node_commands`. Each command but these two has a function of its
//! own, for a caller that knows the first word.
#![tactic(auto)]

mod alone;
mod beside;
mod commands;
mod families;
mod program;
mod seals;

pub use alone::run_alone;
pub use beside::run_beside;
pub use commands::{
    command_apply, command_audit, command_check, command_confirm, command_demo, command_dump,
    command_export, command_heads, command_hsskey, command_init, command_join, command_keygen,
    command_merge, command_notes, command_query, command_seal, command_unseal, command_watch,
    command_world,
};
pub use outcomes::{Outside, Refusal, Reply, status};
pub use program::run;
