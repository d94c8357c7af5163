use crate::PeerFault;

/// How a session ended.
#[derive(Clone, Copy)]
pub enum End {
    /// Both ends have said that they hold all that the other held when the session began.
    Done,
    /// The peer broke the rules.
    Peer(PeerFault),
    /// A commit would pass a limit of the store, or what was gathered and waits a limit of the session.
    Full,
    /// A commit met a fault of the store's disk.
    Store,
}
