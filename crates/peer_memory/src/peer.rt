use update_model::IdList;

/// What is remembered of a peer.
#[derive(Drop)]
pub struct Peer {
    /// Its name, under which it is found again.
    pub name: [u8; 32],
    /// The least ids of the heads that both had when they last met, rising.
    pub heads: IdList,
}
