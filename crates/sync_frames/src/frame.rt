use crate::{Hello, Turn};
use update_model::ByteList;

/// A frame, and what it says.
#[derive(Drop)]
pub enum Frame {
    /// How the other end greets this one.
    Hello(Hello),
    /// A Hello of another version than 2, which this is.
    OtherVersion(u8),
    /// The bytes of an update, which nothing here judges.
    Item(ByteList),
    /// The end of a turn.
    Turn(Turn),
}
