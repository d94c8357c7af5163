use sync_frames::{Hello, Turn};
use update_check::{CheckFault, Checked};

/// A frame of the peer, with what the check of updates said of it.
#[derive(Drop)]
pub enum CheckedFrame {
    /// How the peer greets.
    Hello(Hello),
    /// A Hello of this other version.
    OtherVersion(u8),
    /// An update under the holder's rule.
    Item(Checked),
    /// What is no update under the holder's rule, and why.
    BadItem(CheckFault),
    /// How the peer's turn ends.
    Turn(Turn),
    /// Bytes that are no frame. They begin at this place of the stream, counted in bytes.
    BadFrame(u64),
}
