//! One-time signatures from hash chains: LM-OTS of RFC 8554, section 4, in its four types with
//! SHA-256, with the private values of Appendix A.
//!
//! A key is an identifier, a leaf's number and a seed. Its public value is one digest. A signature
//! gives away one value of each chain, and with the message leads to that digest again. Sign one
//! message at most with one identifier, number and seed: nothing here keeps count.
//!
//! ```rust
//! use lm_ots::{OtsType, candidate, public_of, sign};
//!
//! let mut sig = [0u8; 1124];
//! sign(OtsType::W8, &ident, 7, &seed, &c, b"abc", &mut sig);
//! let value = candidate(OtsType::W8, &ident, 7, b"abc", &sig);
//! assert_eq!(rt; value, Some(public_of(OtsType::W8, &ident, 7, &seed)));
//! ```
//!
//! It draws no random bytes, keeps no secret out of memory, and says nothing of how hard a
//! signature is to forge. No call takes memory from an allocator.
#![tactic(auto)]

mod chain_message;
mod digits;
mod laws;
mod one_time;
mod ots_type;

pub use laws::own_signature;
pub use one_time::{candidate, public_of, sign};
pub use ots_type::OtsType;
