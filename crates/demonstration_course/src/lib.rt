//! The course of a demonstration: what each author's replica holds while four authors make updates by turns and meet.
//!
//! It has definitions and proofs alone, for the crate that runs a demonstration.
#![tactic(auto)]
