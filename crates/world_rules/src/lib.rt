//! What a world is: correct replicas, the sessions that they hold among themselves and with liars, and what happens to
//! them; and a correct replica of a world.
//!
//! A [`Site`] is a replica with a store and a key on disks in memory, which stop and fail as they are told to. It is
//! created over empty disks ([`Site::create`]), makes updates ([`Site::make`]), begins sessions and takes their frames
//! ([`Site::start`], [`Site::take`]), and remembers heads of other replicas ([`Site::remember`]). Its disks fail from
//! some call on ([`Site::arm`]), it goes down ([`Site::sink`]), and it opens what a crash left of its disks
//! ([`Site::restart`]). Each call does what is said of the [`Event`].
#![tactic(auto)]

mod creating;
mod event;
mod fault;
mod heads;
mod laws;
mod restarting;
mod sessions;
mod site;

pub use event::{Event, Stepped};
pub use fault::SiteFault;
pub use laws::{
    correct_keys_are_never_doubled, each_replica_has_its_own_key, equal_heads_mean_equal_tables,
    invariants_always_hold, lists_only_grow, members_were_made, one_index_one_message,
    sessions_are_sound,
};
pub use site::Site;
