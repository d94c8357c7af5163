/// How much there is of updates.
#[derive(Clone, Copy)]
pub struct Counts {
    /// How many updates.
    pub updates: u64,
    /// How many of them are heads.
    pub heads: u64,
    /// How many of them do nothing.
    pub voids: u64,
}
