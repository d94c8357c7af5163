//! How much is drawn, and where.

/// How many updates are drawn at most.
pub const MAX_DRAWN: usize = 2000;

/// How many operations of an update are told.
pub(crate) const MAX_LINES: usize = 3;

/// How many characters of an operation are told.
pub(crate) const MAX_CHARACTERS: usize = 36;

/// How many digits of an id are told.
pub(crate) const ID_DIGITS: usize = 8;

/// Where the first column begins.
pub(crate) const LEFT: u64 = 40;

/// From a column to the next.
pub(crate) const RIGHT: u64 = 330;

/// Where the first row begins.
pub(crate) const TOP: u64 = 70;

/// From a row to the next.
pub(crate) const DOWN: u64 = 170;

/// Half as wide as a box.
pub(crate) const HALF_WIDTH: u64 = 148;

/// How high a box is.
pub(crate) const BOX_HEIGHT: u64 = 124;

/// How far a line goes straight at its ends.
pub(crate) const CURVE: u64 = 27;
