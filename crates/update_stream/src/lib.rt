//! Streams of updates: records read one by one into a graph, up to the first that is refused.
//!
//! A record is four bytes of length and an update's spelling. A stream is records to the end of input, of one
//! database, and at most 262,144 of them, each of which is signed by its author. A record whose id an earlier one has
//! is passed over. The first record that is refused ends the reading: nothing after it is read, and its number and
//! fault are the answer.
//!
//! ```text
//! match read_stream(alloc, &rule, &mut input)? {
//!     Reading::Whole(graph) => ..,                    // a closed graph of every update in the stream
//!     Reading::Refused { number, fault } => ..,       // the first record that is refused
//! }
//! ```
//!
//! It prints nothing and finds no heads: it says what a stream holds. A stream is read the same way whether it
//! is the input of a command, a part of a bundle or a log.
#![tactic(auto)]

mod laws;
mod reading;
mod record_fault;
mod stream;
mod take_record;

pub use laws::{one_graph, one_refusal, whole_has_members, whole_or_refused};
pub use reading::Reading;
pub use record_fault::RecordFault;
pub use stream::{MAX_RECORDS, read_stream};
