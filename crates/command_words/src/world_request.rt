/// What the words of a command line ask for of worlds.
#[derive(Clone, Copy, Drop)]
pub enum WorldRequest {
    /// `world`: the report of the world that the script which is read comes to.
    World {
        /// Whether it tells of each replica how many one-time keys signed twice.
        audit: bool,
    },
    /// `demo`: what the replicas of a demonstration come to.
    Demo {
        /// The number that keys and random words come from.
        number: u64,
        /// How many updates are made, from 4 to 4,000.
        count: u32,
    },
}
