//! The exit statuses of the program.

/// Done.
pub const DONE: u8 = 0;
/// The input is refused: the text says what of it, and why.
pub const REFUSED: u8 = 1;
/// The words are no command.
pub const NO_COMMAND: u8 = 2;
/// A part of a store failed.
pub const STORE_FAULT: u8 = 3;
/// The source or the sink failed.
pub const STREAM_FAULT: u8 = 4;
/// Memory ran out.
pub const OUT_OF_MEMORY: u8 = 5;
/// The other end of a session broke its rules, or went away.
pub const PEER: u8 = 6;
/// A limit is met.
pub const FULL: u8 = 7;
/// A store or a key is missing, damaged, or there already.
pub const STORE: u8 = 8;
