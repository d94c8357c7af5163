use std::alloc::{AllocError, AllocFailed};

/// Why a case cannot be run as it stands.
#[derive(Drop)]
pub enum Fault {
    /// Memory ran out.
    Memory,
    /// A line is not as it has to be.
    Text(&'static str),
}

impl From<AllocError> for Fault {
    fn from(_error: AllocError) -> Fault {
        Fault::Memory
    }
}

impl<T: Drop> From<AllocFailed<T>> for Fault {
    fn from(_error: AllocFailed<T>) -> Fault {
        Fault::Memory
    }
}
