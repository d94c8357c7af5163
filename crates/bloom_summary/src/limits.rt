/// The most bytes of a summary: ten bits for each member that a graph may have.
pub const MAX_SUMMARY_BYTES: usize = 163_840;
