use update_model::{AuthorKey, UpdateId};

/// A one-time key that signed two messages, and two updates that show it.
#[derive(Clone, Copy)]
pub struct Doubled {
    /// The author's key.
    pub key: AuthorKey,
    /// The index of the one-time key: the number of the leaf, counted from 0.
    pub index: u32,
    /// The least id of the updates by the key under the index.
    pub first: UpdateId,
    /// The least id of those whose message is not that of the first.
    pub second: UpdateId,
}
