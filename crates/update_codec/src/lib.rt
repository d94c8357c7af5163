//! The one spelling of each update in bytes: encoding, decoding, and the id of an update.
//!
//! The format: version, database, author's key, predecessors, operations, in version 2 a note, and the author's
//! signature. An update without a note is spelled in version 1, and one with a note in version 2. [`encode`] gives the
//! spelling of an update and [`decode`] the update whose spelling bytes are; each answers exactly where there is one.
//! Other bytes have one first fault, with its kind and place. [`spelled`] checks bytes in the same way and keeps them,
//! as a member of a graph does.
//!
//! ```text
//! let bytes = encode(alloc, &update)?;
//! let update = decode(alloc, bytes.as_slice())?;
//! let record = spelled(alloc, bytes)?;
//! let name = record.id();                 // SHA-256 of the bytes
//! ```
//!
//! It verifies no signature, knows no tables, and does no input or output.
#![tactic(auto)]

mod codec_fault;
mod decode_error;
mod decoding;
mod digest;
mod encode_error;
mod encoding;
mod fields;
mod halt;
mod header;
mod laws;
mod limits;
mod operations;
mod predecessors;
mod spelled_update;
mod taking;
mod values;
mod writing_ops;

pub use codec_fault::{CodecFault, CodecKind};
pub use decode_error::DecodeError;
pub use decoding::decode;
pub use digest::id_of;
pub use encode_error::{EncodeError, TooLong};
pub use encoding::{encode, encode_body};
pub use laws::{
    fields_of_spelling, first_version_stays, no_fault, no_prefix, one_fault, one_spelling,
    one_update, some_fault, spells_its_parts,
};
pub use limits::UPDATE_LIMIT;
pub use spelled_update::Spelled;
pub use taking::spelled;
