//! The edge of the program: real streams, connections and files as `bec_bytes`, `bec_links` and
//! `bec_disk` see them.
//!
//! [`words`] is the command line, [`HostSource`] reads a reader of std through a buffer, and [`HostSink`] writes to a
//! writer of std. [`TcpNet`] listens and dials, and hands each connection out as a [`TcpLink`] over a
//! [`PatientStream`], which waits only so long for its peer. [`FileShelf`] hands the files of directories out as
//! [`FileDisk`]s over [`PartFile`]s, for the [`Access`] that the environment asks for. Each counts the errors that it meets, retries a call that a signal interrupted, and fails at any
//! other error. [`hold_closed_streams`] keeps a file from getting the descriptor of a standard stream that is closed.
//!
//! ```
//! fn main(rt: HostRuntime) -> Result<ExitCode, AllocError> {
//!     let mut input = HostSource::new(rt.alloc(), rt.stdin())?;
//!     let mut output = HostSink::new(rt.stdout());
//!     Ok(ExitCode::from(run(&mut input, &mut output)))
//! }
//! ```
//!
//! No contract can say which bytes come from or reach the system. What is proved of an adapter is
//! that it passes on, unchanged and in order, the bytes that the reader gave or the writer took.
#![tactic(auto)]

mod accepting;
mod access;
mod arguments;
mod closed_streams;
mod file_disk;
mod file_shelf;
mod frame_ends;
mod hash_rng;
mod host_sink;
mod host_source;
mod key_file;
mod laws;
mod part_file;
mod patience;
mod patient_stream;
mod tcp_link;
mod tcp_net;
mod waiting;

pub use access::{Access, wanted_access};
pub use arguments::words;
pub use closed_streams::hold_closed_streams;
pub use file_disk::FileDisk;
pub use file_shelf::FileShelf;
pub use hash_rng::HashRng;
pub use host_sink::HostSink;
pub use host_source::HostSource;
pub use laws::blocks_follow_one_another;
pub use part_file::{PartFile, ShownFile, WrittenFile};
pub use patient_stream::PatientStream;
pub use tcp_link::TcpLink;
pub use tcp_net::TcpNet;
