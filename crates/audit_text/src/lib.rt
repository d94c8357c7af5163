//! Audits as texts and bytes: the lines of entries, and the certificates that two updates are.
//!
//! A certificate is the records of two updates, one behind the other and nothing else, that one key signed under one
//! index with different messages. [`certified`] tells which key and index it is of.
//!
//! ```text
//! let entries = find(alloc, &store)?;
//! let text = entries_text(alloc, &entries)?;          // KEY INDEX ID ID, one a line
//! if let Some((key, index)) = certified(alloc, &bytes)? {
//!     let line = doubled_line(alloc, &key, index)?;   // doubled KEY INDEX
//! }
//! ```
//!
//! It reads and writes no streams.
#![tactic(auto)]

mod certificate;
mod laws;
mod lines;
mod records;

pub use certificate::{MAX_CERTIFICATE_BYTES, certified};
pub use laws::{certificates_are_short, one_certificate};
pub use lines::{doubled_line, entries_text};
