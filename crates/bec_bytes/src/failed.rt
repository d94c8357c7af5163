use thiserror::Error;

/// A call failed. The object that it was made on has counted the fault.
#[derive(Clone, Copy, Debug, PartialEq, Eq, Error)]
#[error("a stream failed")]
pub struct Failed;
