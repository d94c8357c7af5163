//! Signatures by a tree of one-time keys: LMS of RFC 8554, section 5, with SHA-256 and trees of
//! height 5, 10 and 15.
//!
//! A secret key is a tree whose leaves are one-time keys of `lm_ots`, all from one identifier and one
//! seed (Appendix A). Its public key is the root. Each leaf signs once; which leaf is next is for the
//! caller to keep, across crashes too.
//!
//! ```rust
//! use lm_ots::OtsType;
//! use lms_tree::{KeySeed, LmsType, ManyThreads, make_secret, verify};
//!
//! let seed = KeySeed { lms: LmsType::H5, ots: OtsType::W8, ident, start };
//! let secret = make_secret(&ManyThreads::new(rt), rt.alloc(), &seed)?;
//! let mut sig = [0u8; 1292];
//! secret.sign_at(7, &c, b"abc", &mut sig);
//! assert!(rt; verify(&secret.public(), b"abc", &sig));
//! ```
//!
//! It has no two-level keys and none of the heights 20 and 25, and draws no random bytes. `verify` and
//! `sign_at` take no memory; `make_secret` keeps all nodes of the tree, 2 MiB at height 15. A [`LeafGenerator`]
//! says which threads compute the leaves, which takes nearly all of its time: [`OneThread`] starts none, and
//! [`ManyThreads`] starts one for each processor.
#![tactic(auto)]

mod laws;
mod leaves;
mod lms_type;
mod nodes;
mod secret;
mod seed;
mod tree;
mod verifying;

pub use laws::{made_is_signed, signed_has_length};
pub use leaves::{LeafGenerator, ManyThreads, OneThread};
pub use lms_type::LmsType;
pub use secret::{Secret, make_secret};
pub use seed::{KeySeed, KeyTypes};
pub use verifying::verify;
