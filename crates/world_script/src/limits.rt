/// The most bytes of a script.
pub const MAX_SCRIPT_BYTES: usize = 16_777_216;

/// The most replicas of a world.
pub const MAX_REPLICAS: u32 = 16;

/// The most sessions of a world.
pub const MAX_SESSIONS: u32 = 256;
