//! What updates and graphs of them have at most.

/// The most predecessors of an update.
pub const MAX_PREDS: u16 = 1024;

/// The most operations of an update, which has a note where it has more than [`MAX_PLAIN_OPS`].
pub const MAX_OPS: u16 = 256;

/// The most operations of an update without a note.
pub const MAX_PLAIN_OPS: u16 = 64;

/// The most bytes of an update's note.
pub const MAX_NOTE: u16 = 256;

/// The most operations of a node, which may be made of no update.
pub const MAX_NODE_OPS: u16 = 256;

/// The most values of an insert, which has at least one.
pub const MAX_VALUES: u8 = 16;

/// The most bytes of a text in a row.
pub const MAX_TEXT: u16 = 1024;

/// The most members of a graph.
pub const MAX_MEMBERS: u32 = 131_072;

/// The most bytes of all members of a graph together.
pub const MAX_BYTES: u64 = 268_435_456;
