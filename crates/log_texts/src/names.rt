/// How the ids and keys of a log are written.
#[derive(Clone, Copy)]
pub enum Names {
    /// All their digits.
    Whole,
    /// The first digits of ids, so many, and the last eight of keys behind two dots.
    Cut(usize),
}
