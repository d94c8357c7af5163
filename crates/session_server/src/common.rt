//! What the sessions of a node have in common.

use bec_disk::Disk;
use peer_memory::Peers;
use shared_replica::Shared;
use std::alloc::Global;
use update_model::DbRule;

/// What the sessions of a node have in common.
#[derive(Drop)]
pub struct Common<'a, D: Disk> {
    /// Where memory comes from.
    pub alloc: Global,
    /// The replica, at which they take turns.
    pub shared: &'a Shared<D>,
    /// The rule of the replica's schema.
    pub rule: &'a DbRule,
    /// The peers that are remembered.
    pub peers: &'a Peers,
}
