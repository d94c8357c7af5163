//! What a command comes to, and how that is said, for every family of the program's commands.
//!
//! A command comes to an outcome: the text that it prints, or a [`Refusal`], which says why it is not done. [`finish`]
//! writes an outcome and answers its exit [`status`]; a command whose text has a status of its own comes to a
//! [`Reply`], and [`end`] writes that. Every line that begins with `! ` stands here.
//!
//! Beside these stands what the commands over directories share: lines whose memory is taken before anything changes
//! ([`room_for_id`], [`id_line`]); what stands outside of a run ([`Outside`]); and in specs/ what clauses see of that,
//! what a command leaves of it, and the general forms of answers.
#![tactic(auto)]

mod lines;
mod outside;
mod printed_lines;
mod refusal;
mod reply;

pub use lines::{peer_line, refuse};
pub use outside::Outside;
pub use printed_lines::{ID_LINE, id_line, room_for_id};
pub use refusal::{Refusal, made_refusal};
pub use reply::{Reply, end, finish};
pub use schema_verdict::{no_command, put, status};
