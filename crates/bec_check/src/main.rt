//! The program `bec_check`: it answers `check` as the program `bec` does, and nothing else.
//!
//! It makes the real objects, calls [`schema_verdict::run_check`], and ends with its status. It stands on few crates,
//! so that it is built long before `bec` is: the launcher asks it meanwhile. What a refusal means and what to do it
//! says on standard error, as `bec` does.
#![tactic(auto)]

use bec_host::{HostSink, HostSource, hold_closed_streams, words};
use explained::{Listening, Recording, kept_bytes, tell};
use schema_verdict::run_check;
use schema_verdict::status::{OUT_OF_MEMORY, STREAM_FAULT};
use std::process::ExitCode;

fn main(rt: HostRuntime) -> ExitCode {
    let Ok(_held) = hold_closed_streams(&rt) else {
        return ExitCode::from(STREAM_FAULT);
    };
    let Ok(words) = words(&rt) else {
        return ExitCode::from(OUT_OF_MEMORY);
    };
    let Ok(input) = HostSource::new(rt.alloc(), rt.stdin()) else {
        return ExitCode::from(OUT_OF_MEMORY);
    };
    let mut input = Recording::new(rt.alloc(), input, kept_bytes(&rt, &words));
    let mut output = Listening::new(rt.alloc(), HostSink::new(rt.stdout()));
    let status = run_check(rt.alloc(), &words, &mut input, &mut output);
    let mut errors = HostSink::new(rt.stderr());
    tell(&rt, &mut errors, &words, status, &input, &output);
    ExitCode::from(status)
}
