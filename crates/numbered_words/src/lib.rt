//! Words that a number determines: the same on every machine, for worlds and demonstrations that are to be run again.
//!
//! They are those of SplitMix64 (Steele, Lea and Flood), whose state begins with the number. Bytes are taken from words
//! with the high byte first. Of the first 2^64 words no two are the same ([`no_word_comes_twice`]), so what is drawn at one
//! place is drawn at no other ([`no_bytes_come_twice`]). **They are no secrets**: a key that is drawn from them is for demonstrations alone.
//!
//! ```text
//! let mut words = Words::new(7);
//! let die = words.word() % 6;
//! words.fill_bytes(&mut seed);
//! ```
#![tactic(auto)]

mod laws;
mod words;

pub use laws::{no_bytes_come_twice, no_word_comes_twice};
pub use words::Words;
