//! What programs share that explain themselves: what a refusal means and what to do, they say on standard error.
//!
//! A program has its run read from a [`Recording`] and write to a [`Listening`], and then calls [`tell`]. Nothing of
//! this changes what is printed, or the status.
//!
//! ```text
//! let mut input = Recording::new(rt.alloc(), input, kept_bytes(&rt, &words));
//! let mut output = Listening::new(rt.alloc(), HostSink::new(rt.stdout()));
//! let status = run(.., &mut input, &mut output);
//! tell(&rt, &mut HostSink::new(rt.stderr()), &words, status, &input, &output);
//! ```
//!
//! The environment may have `BEC_EXPLAIN=0`, and then nothing is said, and `BEC_DIRECTORY`, which is the directory that
//! is named then.
#![tactic(auto)]

use bec_bytes::Source;
use bec_host::HostSink;
pub use explanations::{Listening, Recording};
use explanations::{Run, limit_for, tell_run};
use std::env;
use std::io::Write;

/// How many bytes are to be kept of what a run of these words reads.
pub fn kept_bytes(rt: &(impl std::rt::Env + AllocGlobal), words: &[String]) -> usize {
    if is_silent(rt) { 0 } else { limit_for(words) }
}

/// Says what a run of these words means that ended with a status, as far as the sink takes it. Where nobody reads any
/// more what the run prints, nothing is said: who has enough needs no words.
pub fn tell<'a, E: Write, S: Source, W: Write>(
    rt: &(impl std::rt::Env + AllocGlobal),
    errors: &mut HostSink<E>,
    words: &'a [String],
    status: u8,
    input: &'a Recording<S>,
    output: &'a Listening<HostSink<W>>,
) {
    if is_silent(rt) || output.sink().has_no_reader() {
        return;
    }
    let named = env::var(rt, "BEC_DIRECTORY").ok();
    let directory = match &named {
        Some(directory) => directory.as_str(),
        None => "",
    };
    let run = Run {
        words,
        directory,
        status,
        read: input.kept(),
        heard: output.heard(),
    };
    let _ = tell_run(rt.alloc(), errors, &run);
}

/// Whether nothing is to be explained.
fn is_silent(rt: &(impl std::rt::Env + AllocGlobal)) -> bool {
    env::var(rt, "BEC_EXPLAIN").is_ok_and(|value| value.as_str() == "0")
}
