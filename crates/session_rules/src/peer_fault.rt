use update_model::UpdateId;

/// What a peer's frames show.
#[derive(Clone, Copy)]
pub enum PeerFault {
    /// Bytes that are no frame. They begin at this place of the stream, counted in bytes.
    BadFrame(u64),
    /// A Hello with another database id.
    WrongDatabase,
    /// An update that is refused. The number tells why: 1 spells no update, 2 another database, 3 an author who is not
    /// listed, 4 a bad signature. The numbers stand for the faults of the check of updates, which is a crate above.
    BadUpdate(u8),
    /// After this end asked, another update or a Turn where the update with this id had to come.
    Unanswered(UpdateId),
    /// The peer asks for an update that is not in the start set. It is the least such id.
    AskedUnknown(UpdateId),
    /// The peer asks for an update that it asked for before. It is the least such id.
    AskedAgain(UpdateId),
    /// A Turn, other than turn 1, that neither says that all is held nor asks for anything. Or one after whose commit
    /// this end lacks a head of the peer's and has nothing to ask for: updates that wait for each other in a ring.
    Stalled,
    /// A Turn that no longer says that all is held, after one that said so.
    TakenBack,
    /// A frame that the order of turns does not allow, needs in turn 1, or more than [`crate::MAX_ITEMS`] updates in
    /// one turn.
    OutOfTurn,
    /// A Hello of another version.
    Version,
}
