use thiserror::Error;
use update_model::UpdateId;

/// Why a graph does not take a member.
#[derive(Clone, Copy, Debug, Error)]
pub enum Refusal {
    /// This predecessor is not held; of several, the least.
    #[error("the predecessor {0:?} is not held")]
    Lacks(UpdateId),
    /// The graph would have more than [`MAX_MEMBERS`](update_model::MAX_MEMBERS) members, or more than
    /// [`MAX_BYTES`](update_model::MAX_BYTES) bytes.
    #[error("the graph is full")]
    Full,
    /// Memory ran out.
    #[error("out of memory")]
    Memory,
}
