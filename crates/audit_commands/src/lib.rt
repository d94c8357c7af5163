//! The commands that audit one-time keys, each as a function that answers the text it prints or a refusal.
//!
//! ```text
//! bec audit DIR             the one-time keys that signed two messages in the directory's store, a line for each
//! bec confirm < stream      whether the stream is two updates that show it, and of which key and index
//! ```
//!
//! What an entry is stands in `key_audit`, and how it is printed in `audit_text`. Neither command changes a store, and
//! `confirm` needs none.
#![tactic(auto)]

mod auditing;
mod confirming;
mod laws;

pub use auditing::audit;
pub use confirming::confirm;
pub use laws::one_answer_of_audits;
