/// What the words of a command line ask for over a net. A directory and an address are the words that name them.
#[derive(Clone, Copy, Debug, Drop)]
pub enum NetRequest<'a> {
    /// `sync`: reconciles the store in a directory with the one that is served at an address.
    Sync {
        directory: &'a str,
        address: &'a str,
    },
    /// `serve`: waits at an address, and reconciles the store in a directory over this many sessions.
    Serve {
        directory: &'a str,
        address: &'a str,
        sessions: u32,
    },
}
