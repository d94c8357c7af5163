/// Which end of a session it is.
#[derive(Clone, Copy)]
pub enum Role {
    /// The end that began it, whose Hello is turn 0.
    Initiator,
    /// The other end.
    Responder,
}
