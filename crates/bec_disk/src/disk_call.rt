use update_model::ByteList;

/// A call in the record of a disk in memory. Places and lengths are in bytes.
#[derive(Drop)]
pub enum DiskCall {
    /// These bytes were written from this place on.
    Wrote(u64, ByteList),
    /// So many bytes were to be written from this place on, and that failed.
    WriteFailed(u64, u64),
    /// The disk was cut to this length.
    Cut(u64),
    /// The disk was to be cut to this length, and that failed.
    CutFailed(u64),
    /// What the disk read as was synced, or the disk was handed out.
    Settled,
}
