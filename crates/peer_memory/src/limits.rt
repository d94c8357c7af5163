//! What is remembered at most.

/// The most peers that are remembered.
pub const MAX_PEERS: u16 = 256;

/// The most ids that are remembered of a peer.
pub const MAX_HEADS: u16 = 4096;
