//! A demonstration: four replicas of one database that a number determines, which make updates, meet and end alike.
//!
//! [`demonstrate`] answers what they come to as five [`DemoCounts`], all of which are told by how many updates are
//! made.
#![tactic(auto)]

mod author;
mod counts;
mod meeting;
mod operations;
mod running;

pub use counts::DemoCounts;
pub use running::demonstrate;
