//! Holders in memory that are synced, for `bench/session` to time from outside.
//!
//! The words are the work, and how many updates the first holder has. The updates of the input, a stream of records,
//! are read first, each of the database whose id is 32 zero bytes, by any author: those of the first holder, and then
//! the rest.
//!
//! - `commit`: the rest is committed to that holder as one batch.
//! - `session`: the rest are the updates of a second holder, and the two have a session, which the first one begins.
//!
//! How many updates each holder has is printed before the work and after it, and between the two of a session how it
//! ended and its turns.
#![tactic(auto)]

mod holding;
mod working;

use crate::working::{commit_rest, hold_session};
use bec_host::{HostSink, HostSource, hold_closed_streams};
use std::alloc::AllocError;
use std::env;
use std::process::ExitCode;

fn main(rt: HostRuntime) -> anyhow::Result<ExitCode> {
    let _held = hold_closed_streams(&rt)?;
    let mut words = Vec::new(rt.alloc());
    for argument in env::args(&rt)?.skip(1) {
        words.push(argument).map_err(AllocError::from)?;
    }
    let [work, word] = words.as_slice() else {
        return Ok(ExitCode::from(2));
    };
    let count = word.as_str().parse::<u32>()?;
    let mut input = HostSource::new(rt.alloc(), rt.stdin())?;
    let mut output = HostSink::new(rt.stdout());
    match work.as_str() {
        "commit" => commit_rest(rt.alloc(), count, &mut input, &mut output)?,
        "session" => hold_session(rt.alloc(), count, &mut input, &mut output)?,
        _ => return Ok(ExitCode::from(2)),
    }
    Ok(ExitCode::from(0))
}
