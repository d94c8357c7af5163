use crate::Refusal;

/// A member that a graph did not take, handed back, and why.
#[derive(Drop)]
pub struct Refused<M> {
    /// Why it was not taken.
    pub why: Refusal,
    /// The member, as it was passed.
    pub member: M,
}
