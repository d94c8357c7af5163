//! The frames of a session between two nodes: reading them from a stream that comes in any pieces, and writing them.
//!
//! A frame is a kind, the length of its payload in four bytes, and the payload. A Hello (kind 1) tells the version, the
//! database, the node, the heads of what the node holds, the heads that it remembers of the other, and a summary of
//! what it has had since then. An Item (kind 2) is the bytes of an update. A Turn (kind 3) ends a turn: it says whether
//! all heads of the other's Hello are held, and else asks for ids.
//!
//! ```text
//! let mut frames = Frames::new(alloc);
//! loop {
//!     for frame in frames.feed(alloc, piece)? { .. }      // each frame once, as soon as it is whole
//! }
//! let bytes = write_turn(alloc, &Turn::all_held(alloc))?;
//! ```
//!
//! How a stream is cut into pieces makes no difference: see [`one_split`], [`pieces_join`] and [`faults_stay`]. A fault
//! is told at once where kind or length is wrong, and else when the frame is whole. What a writer wrote is read again.
//!
//! It judges no update (see `update_check`) and no order of frames: both are a session's.
#![tactic(auto)]

mod fault;
mod fields;
mod finding;
mod frame;
mod frames;
mod hello;
mod laws;
mod limits;
mod payloads;
mod turn;
mod writing;

pub use fault::{FeedError, FrameFault};
pub use frame::Frame;
pub use frames::Frames;
pub use hello::Hello;
pub use laws::{faults_stay, frames_are_read_again, one_split, pieces_join};
pub use limits::{MAX_NEEDS, MAX_OLD, PAYLOAD_LIMIT};
pub use turn::Turn;
pub use writing::{item_header, write_hello, write_turn};
