//! What the turns of a session have at most.

/// The most updates that one turn sends.
pub const MAX_ITEMS: u32 = 131_072;

/// The most updates that one turn asks for.
pub const MAX_NEEDS: u32 = 4096;

/// A session has fewer turns than this.
pub const MAX_TURNS: u32 = 800_000;
