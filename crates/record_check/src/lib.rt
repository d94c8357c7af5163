//! Checking many records at once, on the thread that asks or on as many as there are processors.
//!
//! A [`Verifier`] takes records and answers what `update_check::check` says of each, in order, whichever threads did
//! it; or the checked updates of those in front of the first that is refused. [`OneThread`] starts none, and
//! [`ManyThreads`] starts one for each processor.
//!
//! ```text
//! let front = ManyThreads::new(rt).check_front(alloc, &rule, records)?;
//! ```
#![tactic(auto)]

mod verifier;

pub use lms_tree::{ManyThreads, OneThread};
pub use verifier::{Answer, Verifier};
