/// What the words of a command line ask for that brings updates into a directory at once. A directory is the word that
/// names it.
#[derive(Clone, Copy, Drop)]
pub enum ImportRequest<'a> {
    /// `import`: takes the bundle that is read into the store of a directory, or makes one of it.
    Import { directory: &'a str },
    /// `clone` of the bundle that is read: makes a store of it.
    CloneBundle { directory: &'a str },
    /// `clone` of a store: makes another one that holds the same.
    CloneStore { from: &'a str, directory: &'a str },
}
