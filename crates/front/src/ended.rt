/// How a run ended.
#[derive(Drop)]
pub struct Ended {
    /// The exit status.
    pub status: u8,
    /// Sentences for standard error, each on a line, or none.
    pub beside: Vec<u8>,
}
