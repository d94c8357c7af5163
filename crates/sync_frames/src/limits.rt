//! What frames have at most.

/// The most bytes of a payload.
pub const PAYLOAD_LIMIT: u32 = 8_388_608;

/// The most heads that a Hello remembers of the other node.
pub const MAX_OLD: u16 = 4096;

/// The most ids that a Turn asks for.
pub const MAX_NEEDS: u16 = 4096;
