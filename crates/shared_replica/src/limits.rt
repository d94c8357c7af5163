//! How much one act fetches at most.

/// So many updates make up a piece.
pub const PIECE_UPDATES: usize = 64;

/// So many bytes make up a piece.
pub const PIECE_BYTES: usize = 262_144;
