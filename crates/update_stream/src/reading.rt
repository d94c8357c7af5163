use crate::RecordFault;
use hash_graph::Graph;
use update_check::Checked;

/// What a stream holds.
#[derive(Drop)]
pub enum Reading {
    /// Every record is an update that was taken, up to the end of input. The graph has each update once.
    Whole(Graph<Checked>),
    /// A record is refused.
    Refused {
        /// The number of the record, counted from 1.
        number: u32,
        /// Why it is refused.
        fault: RecordFault,
    },
}
