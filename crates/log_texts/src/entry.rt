use graph_drawing::Placed;
use text_words::ByteString;

/// An update with what a log tells of it.
#[derive(Drop)]
pub struct Entry {
    /// The update, and how deep it lies.
    pub placed: Placed,
    /// Whether no other update names it.
    pub head: bool,
    /// Why it does nothing, if so.
    pub reason: Option<u8>,
    /// Its note, if it has one.
    pub note: Option<ByteString>,
}
