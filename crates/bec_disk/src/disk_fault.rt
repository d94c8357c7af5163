use thiserror::Error;

/// A call of a disk or of a shelf failed. The object that it was made on has counted the fault.
#[derive(Clone, Copy, Debug, PartialEq, Eq, Error)]
#[error("a disk failed")]
pub struct DiskFault;
