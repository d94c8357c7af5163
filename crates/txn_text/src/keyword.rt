/// The word that begins a line.
#[derive(Clone, Copy)]
pub(crate) enum Keyword {
    /// `INSERT`
    Insert,
    /// `DELETE`
    Delete,
}
