//! Disks and what a crash may leave of them.
//!
//! A [`Disk`] is a row of bytes that are read, written, cut and synced. Its contract says what each
//! call does to what a read gives, and which images a crash may leave at that moment and at each
//! one before; so a function over a disk can promise what stands there wherever the machine stops.
//! [`write_synced`] and [`cut_synced`] are the steps that such promises are made of.
//! [`write_gated`] replaces a payload so that a crash leaves the old one, the new one or none, and
//! [`read_gated`] reads it.
//!
//! ```text
//! write_gated(&mut disk, b"payload")?;
//! match read_gated(alloc, &mut disk)? {
//!     Gated::Whole(payload) => show(payload.as_slice()),
//!     Gated::Absent | Gated::Damaged => start_anew(),
//! }
//! ```
//!
//! A [`Shelf`] hands the parts of directories out as disks and takes them back. [`MemDisk`] and
//! [`MemShelf`] are both in memory, for tests: their calls fail where a test wants it, and a disk
//! or a whole shelf is restarted as a crash may leave it.
//!
//! It opens no file: the disks over real files stand in `bec_host`. A disk that lies about its
//! syncs is not covered.
#![tactic(auto)]

mod disk;
mod disk_call;
mod disk_error;
mod disk_fault;
mod disk_plan;
mod gated;
mod mem_disk;
mod mem_shelf;
mod part;
mod place;
mod replaying;
mod shelf;
mod shelved;
mod synced;

pub use disk::Disk;
pub use disk_error::DiskError;
pub use disk_fault::DiskFault;
pub use gated::{Gated, read_gated, write_gated};
pub use mem_disk::MemDisk;
pub use mem_shelf::MemShelf;
pub use part::Part;
pub use shelf::Shelf;
pub use synced::{cut_synced, write_synced};
