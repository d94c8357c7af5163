use crate::names::Names;

/// How entries are written.
#[derive(Clone, Copy)]
pub enum Manner {
    /// In lines, with ids and keys so.
    Lines(Names),
    /// As one JSON object.
    Json,
}
