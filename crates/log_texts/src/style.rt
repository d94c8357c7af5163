/// How a log is asked for.
#[derive(Clone, Copy)]
pub enum Style {
    /// With whole ids and keys.
    Whole,
    /// With ids cut to as many digits as tell those of the log apart, and with the ends of keys.
    Short,
    /// As one JSON object.
    Json,
}
