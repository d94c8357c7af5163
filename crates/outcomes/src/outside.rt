/// What stands outside of a run: the shelf of directories, the generator of random words, and the source.
#[derive(Drop)]
pub struct Outside<H, R, S> {
    /// The shelf of directories.
    pub shelf: H,
    /// The generator of random words.
    pub random: R,
    /// The source.
    pub input: S,
}
