//! The program `bec` as it is called: [`run`] does what the words of a command line ask for.
//!
//! Words that `bec_node::run` knows are its own, and come to what it says. The front has further families of commands
//! beside it, over the same outside and net, each in a crate of its own: `look_commands` has those that look at a store
//! and change nothing, and `import_commands` those that bring updates into a directory. Words that none of them knows
//! are no command, as `bec_node::run` says it.
//!
//! Beside the text that a command prints there may be sentences for standard error ([`Ended`]). [`only_reads`] tells
//! which commands change no directory, so that whoever makes the shelf may have it open parts for reading alone.
#![tactic(auto)]

mod brought;
mod ended;
mod looked;
mod reading;
mod running;

pub use ended::Ended;
pub use reading::only_reads;
pub use running::run;
