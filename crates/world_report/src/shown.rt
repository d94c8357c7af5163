/// A line of a script whose event changed nothing, or whose update was refused. Lines number from 1.
#[derive(Clone, Copy)]
pub enum Missed {
    /// The event names nothing that it could happen to.
    NoSuch { line: u32 },
    /// Nothing was made, for the cause with this number.
    Refused { line: u32, cause: u8 },
}

/// What a replica holds.
#[derive(Drop)]
pub struct Counts {
    /// Its updates.
    pub updates: u32,
    /// The updates that no other update comes after.
    pub heads: u32,
    /// The visible rows of each table, in the order of the schema.
    pub rows: Vec<u32>,
    /// The updates that count for nothing.
    pub voids: u32,
}

/// A replica at the end.
#[derive(Drop)]
pub enum ShownReplica {
    /// It runs, and holds so much.
    Up(Counts),
    /// It has stopped.
    Down,
}

/// The end of a session that a correct replica has.
#[derive(Clone, Copy)]
pub enum ShownEnd {
    /// The session is not over.
    Open,
    /// All was exchanged.
    Done,
    /// The other end broke the rules, by the fault with this number.
    Peer(u8),
    /// The store had no room for what came.
    Full,
    /// The store failed.
    Store,
    /// The session was cut.
    Cut,
}

/// A session at the end.
#[derive(Clone, Copy)]
pub struct ShownSession {
    /// Its number.
    pub number: u32,
    /// The end of the replica that began it.
    pub first: ShownEnd,
    /// The other end. There is none where a liar has it.
    pub second: Option<ShownEnd>,
}
