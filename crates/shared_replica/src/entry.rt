//! The entries of the list.
use bec_disk::Part;
use schema::Schema;
use update_check::Checked;
use update_model::ByteList;

/// What one act added: so many updates, and a fault behind them where it met one. The updates themselves are the
/// replica's.
#[derive(Clone, Copy)]
pub struct Run {
    /// The number of the seat.
    pub seat: u64,
    /// The number of the act.
    pub act: u64,
    /// How many updates.
    pub count: u32,
    /// Whether the log's disk failed.
    pub fault: bool,
}

/// What a shared replica was at the start, as contracts see it. No value of it is made.
pub struct Opening {
    /// The id of its node.
    pub node: [u8; 32],
    /// Its schema.
    pub schema: Schema,
    /// The count of its log's faults.
    pub faults: u64,
    /// Whether its log's disk tells what it has.
    pub tells: bool,
    /// The directory and the part that its log's disk is of.
    pub place: Option<(ByteList, Part)>,
}

/// One entry of the list, as contracts see it. No value of it is made.
pub enum Entry {
    /// What the replica was at the start.
    First(Opening),
    /// An update that was there at the start.
    Opened(Checked),
    /// An update, and the seat and the act that added it.
    Added(Checked, u64, u64),
    /// A fault of the log's disk, and the seat and the act that met it.
    Fault(u64, u64),
}
