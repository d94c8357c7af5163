//! The commands over worlds: [`tell_world`] reads a script, lets its events happen to a world of correct replicas,
//! crashes and liars in memory, and prints the report of what that comes to; [`tell_demo`] makes a large world from a
//! number alone.
//!
//! ```text
//! bec world [--audit] < script    the report of the world after the events of the script
//! bec demo NUMBER COUNT           what four replicas hold that make COUNT updates among themselves and meet
//! ```
//!
//! What may happen to a world is told by `world_rules`, and what always holds of it by its laws; the scripts are
//! `world_script`'s, and the lines of the report `world_report`'s. Neither command opens anything outside of the
//! process.
#![tactic(auto)]

mod answering;
mod demo;
mod laws;
mod refusal;
mod reporting;
mod running;
mod script;
mod world;

pub use answering::{tell_demo, tell_world};
pub use demo::run_demo;
pub use laws::reported_worlds_are_reached;
pub use refusal::WorldRefusal;
pub use world::run_world;
