//! Appends updates to a log, for `bench/log` to time and `bench/kill_log` to kill from outside.
//!
//! The words are a directory, and how many updates a batch has, at least one. The updates of the input, a stream of
//! records, are read first, each of the database whose id is 32 zero bytes, by any author; those that the log holds are
//! passed over. What is printed is how many updates the log holds, and how many it holds then after each batch, a line
//! each. With `open` in place of the number nothing is read, and only the first of these lines is printed.
#![tactic(auto)]

mod appending;

use crate::appending::run;
use bec_disk::{DiskFault, Part, Shelf};
use bec_host::{Access, FileDisk, FileShelf, HostSink, HostSource, PartFile, hold_closed_streams};
use record_check::ManyThreads;
use std::alloc::AllocError;
use std::env;
use std::fs::File;
use std::io::Write;
use std::process::ExitCode;
use std::rt::Files;
use std::time::Clock;

fn main(rt: HostRuntime) -> anyhow::Result<ExitCode> {
    let _held = hold_closed_streams(&rt)?;
    let mut words = Vec::new(rt.alloc());
    for argument in env::args(&rt)?.skip(1) {
        words.push(argument).map_err(AllocError::from)?;
    }
    let [directory, word] = words.as_slice() else {
        return Ok(ExitCode::from(2));
    };
    let batch = match word.as_str() {
        "open" => None,
        word => Some(word.parse::<u32>()?),
    };
    let files: Result<_, _> = rt.clone();
    let mut shelf = FileShelf::new(files?, Access::Writing { wait: 0 }, rt.stderr());
    let disk = part_of(&mut shelf, directory)?;
    let mut input = HostSource::new(rt.alloc(), rt.stdin())?;
    let mut output = HostSink::new(rt.stdout());
    run(
        &ManyThreads::new(&rt),
        rt.alloc(),
        disk,
        batch,
        &mut input,
        &mut output,
    )?;
    Ok(ExitCode::from(0))
}

/// The updates of a directory, which are made where there are none.
fn part_of<R: Files<File = File> + AllocGlobal + Clock + Clone, W: Write + Copy>(
    shelf: &mut FileShelf<R, W>,
    directory: &str,
) -> Result<FileDisk<PartFile<R, W>>, DiskFault> {
    match shelf.find(directory, Part::Updates)? {
        Some(disk) => Ok(disk),
        None => shelf.make(directory, Part::Updates),
    }
}
