use text_words::ByteString;
use update_model::Node;

/// The box of an update.
#[derive(Drop)]
pub struct Spot {
    /// How deep the update lies, which is its row.
    pub depth: u32,
    /// How many boxes of its author stand in this row before it.
    pub lane: usize,
    /// The number of its column, from 0.
    pub column: u32,
    /// Whether no other update names it.
    pub head: bool,
    /// Why it does nothing, if so.
    pub reason: Option<u8>,
    /// Its note, if it has one.
    pub note: Option<ByteString>,
    /// The update.
    pub node: Node,
}
