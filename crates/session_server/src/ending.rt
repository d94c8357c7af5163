use session_rules::PeerFault;

/// How a session over a link ended.
#[derive(Clone, Copy)]
pub enum Ending {
    /// Both ends have said that they hold all that the other held when the session began.
    Done,
    /// The peer broke the rules.
    Peer(PeerFault),
    /// The link ended before the session.
    Cut,
    /// The store is full, or what the peer sent at once passes a limit of the session.
    Full,
    /// A call of the link failed.
    Broken,
    /// A call of the store's disk failed.
    Store,
    /// Memory ran out.
    Memory,
}
