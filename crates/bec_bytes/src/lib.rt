//! The outside as the database sees it: where bytes come from and where they go.
//!
//! A [`Source`] gives bytes and a [`Sink`] takes them; each counts its own faults, and answers
//! [`Failed`] only where that count rose. What an object gives and takes is part of its contract, so
//! that a function over a source and a sink can say exactly what it reads and writes. An object that
//! stands for a real stream tells nothing of its bytes, and the same function runs over it.
//! [`read_full`] and [`write_all_of`] move a whole buffer, and [`read_framed`] reads a piece behind its length.
//! [`Cursor`] reads fields from a slice.
//!
//! ```
//! let mut source = MemSource::new(bytes, Vec::new(alloc));
//! let mut header = [0u8; 4];
//! if read_full(&mut source, &mut header)? == 4 {
//!     let mut cursor = Cursor::new(&header);
//!     let length = cursor.take_u32();
//! }
//! ```
//!
//! It opens nothing, buffers nothing and waits for nothing: the objects over real streams stand in
//! `bec_host`. It says nothing of time, so a source that never answers is not ruled out.
#![tactic(auto)]

mod counted;
mod cursor;
mod failed;
mod fault_plan;
mod framed;
mod laws;
mod mem_sink;
mod mem_source;
mod moving;
mod plain_sink;
mod plain_source;
mod read_error;
mod sink;
mod source;

pub use counted::Counted;
pub use cursor::Cursor;
pub use failed::Failed;
pub use fault_plan::FaultPlan;
pub use framed::{Framed, read_framed};
pub use laws::{framed_length, one_piece};
pub use mem_sink::MemSink;
pub use mem_source::MemSource;
pub use moving::{read_full, write_all_of};
pub use plain_sink::PlainSink;
pub use plain_source::PlainSource;
pub use read_error::ReadError;
pub use sink::Sink;
pub use source::Source;
