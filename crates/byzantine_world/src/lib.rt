//! A world of correct replicas, crashes and liars, in memory: what may happen happens to it, one event after another.
//!
//! A [`World`] is made from the text of a schema ([`World::new`]). [`World::step`] takes an event, and does with the
//! real replicas and sessions what the relation of `world_rules` says; so the laws of every list of events hold of it.
//! What its replicas and sessions have come to can be reported ([`World::replicas`], [`World::sessions`]). Everything
//! is determined by the number that it begins with.
//!
//! [`audit_world`] answers which one-time keys signed two messages among what a replica holds, as `key_audit` does of
//! any list. That no key of a correct replica is among them is a law of every list of events, also of those in which
//! liars forge what they can; its premise is that they cannot forge what a correct replica's key signs.
//!
//! ```text
//! let mut world = World::new(alloc, text, 2, types, 1)?;
//! match world.step(&Event::Carry { session: 0, forward: true })? {
//!     Stepped::Done => ..,
//!     Stepped::NoSuch => ..,           // it named nothing that it could happen to
//!     Stepped::Refused(cause) => ..,
//! }
//! ```
#![tactic(auto)]

mod acting;
mod auditing;
mod beginning;
mod carrying;
mod feeding;
mod laws;
mod meeting;
mod reporting;
mod state;
mod talk;
mod world;
mod world_fault;

pub use auditing::audit_world;
pub use key_audit::Doubled;
pub use laws::no_correct_key_is_doubled;
pub use world::World;
pub use world_fault::WorldFault;
pub use world_rules::{Event, Stepped};
