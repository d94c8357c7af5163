//! The commands over seals by a two-level key: what each comes to, by what stands outside.
//!
//! [`hsskey`] draws a two-level key, [`seal`] seals the input by one, and [`unseal`] tells whether a seal is one of the
//! input, by a public key. Each command answers the text that it prints, or a [`SealRefusal`].
#![tactic(auto)]

mod reading;
mod refusal;
mod sealing;
mod texts;
mod unsealing;

pub use reading::INPUT_LIMIT;
pub use refusal::SealRefusal;
pub use sealing::{hsskey, seal};
pub use unsealing::unseal;
