//! Seals by a two-level key: HSS of RFC 8554, section 6, with two levels.
//!
//! The top key signs lower keys, and each lower key signs messages. A seal has the top signature of a lower key, that
//! key, and its signature of the message; whoever has the public key of the top can tell with [`verify_hss`] whether it
//! is one.
//!
//! ```text
//! assert!(verify_hss(&public, msg, &seal));
//! ```
#![tactic(auto)]

mod joining;
mod keys;
mod sealing;

pub use joining::{parts_make_a_seal, public_array, public_bytes, push_key, seal_bytes};
pub use keys::read_key;
pub use sealing::verify_hss;
