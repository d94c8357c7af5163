use update_model::{ByteList, OpList};

/// What happens to a world. Each event is one act of one replica, or one fault.
#[derive(Drop)]
pub enum Event {
    /// A replica makes an update of these operations.
    Make {
        replica: u32,
        ops: OpList,
    },
    /// A replica begins a session with another, or with a liar.
    Start {
        session: u32,
        first: u32,
        second: Option<u32>,
    },
    /// The next frame on the way is read: by the end that answers where it goes forward, and else by the one that
    /// began.
    Carry {
        session: u32,
        forward: bool,
    },
    /// A session is cut.
    Cut {
        session: u32,
    },
    /// The liar of a session sends bytes.
    Feed {
        session: u32,
        bytes: ByteList,
    },
    /// Each disk of a replica passes so many calls more, and then fails every call.
    Stop {
        replica: u32,
        calls: u32,
    },
    /// A replica stops, and opens what a crash left.
    Restart {
        replica: u32,
        choice: u64,
    },
}

/// What became of an event.
#[derive(Clone, Copy)]
pub enum Stepped {
    /// It happened.
    Done,
    /// It names nothing that it could happen to, and nothing changed.
    NoSuch,
    /// Nothing was made, for the cause with this number.
    Refused(u8),
}
