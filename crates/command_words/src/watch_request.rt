/// What the words of a command line ask for of a query that is watched, by `watch`: the answer of this query over the
/// store in a directory, and its changes as updates are read, once they come to so many lines.
#[derive(Clone, Copy, Drop)]
pub struct WatchRequest<'a> {
    /// The word that names the directory.
    pub directory: &'a str,
    /// The text of the query.
    pub text: &'a str,
    /// How many lines a change has at least, from 1 to 4,096.
    pub every: u64,
}
