//! What the format allows.

/// The version of an update without a note, with which its spelling begins.
pub(crate) const PLAIN_VERSION: u8 = 1;

/// The version of an update with a note.
pub(crate) const NOTED_VERSION: u8 = 2;

/// The most bytes of an update's spelling.
pub const UPDATE_LIMIT: usize = 262_144;
