//! Takes turns at a lock, for `bench/lock` to time.
//!
//! The words are how many threads, 1, 2, 4 or 8, and how many turns each takes. In its turn a thread adds one to a sum.
//! The turns begin once a line was read, and then the sum is printed.
#![tactic(auto)]

mod turns;

use crate::turns::{Sum, eight, four, take_turns, two};
use bec_host::hold_closed_streams;
use std::alloc::AllocError;
use std::env;
use std::process::ExitCode;
use turn_lock::TurnLock;

fn main(rt: HostRuntime) -> anyhow::Result<ExitCode> {
    let _held = hold_closed_streams(&rt)?;
    let alloc = rt.alloc();
    let mut words = Vec::new(alloc);
    for argument in env::args(&rt)?.skip(1) {
        words.push(argument).map_err(AllocError::from)?;
    }
    let [threads, word] = words.as_slice() else {
        return Ok(ExitCode::from(2));
    };
    let count = word.parse::<u32>()?;
    let made = TurnLock::new(alloc, Sum::new());
    let Ok((lock, seat)) = made else {
        return Ok(ExitCode::from(5));
    };
    rt.read_line(&mut String::new(alloc))?;
    let seat = match threads.as_str() {
        "1" => take_turns(&rt, &lock, seat, count),
        "2" => two(&rt, &lock, seat, count),
        "4" => four(&rt, &lock, seat, count),
        "8" => eight(&rt, &lock, seat, count),
        _ => return Ok(ExitCode::from(2)),
    };
    let sum = lock.end(&rt, seat).sum();
    println!(rt; "{sum}")?;
    Ok(ExitCode::from(0))
}
