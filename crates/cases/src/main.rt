//! Runs cases over directories, streams and nets in memory.
//!
//! It reads files of cases from standard input, each behind a line `== ` with its name, and plays each case that can be
//! played in memory. Of one that goes otherwise it prints where, what was expected and what came. The last line says how
//! many passed and failed, and the status is 0 only where none failed. docs/CASES.md describes the format.
#![tactic(auto)]

mod meeting;
mod playing;
mod running;
mod telling;

use crate::playing::{Script, played};
use cases_text::{Book, Case, Fault, Kind, Place, read_book};
use std::alloc::AllocError;
use std::io;
use std::process::ExitCode;
use std::sync::Wait;
use std::thread::Threads;

fn main(rt: HostRuntime) -> io::Result<ExitCode> {
    let text = io::read_to_string(rt.alloc(), rt.stdin())?;
    let mut place = Place { file: "", line: 0 };
    let book = match read_book(rt.alloc(), &text, &mut place) {
        Ok(book) => book,
        Err(Fault::Memory) => return Err(io::Error::from(AllocError)),
        Err(Fault::Text(what)) => {
            let (file, line) = (place.file, place.line);
            println!(rt; "{file}:{line}: {what}")?;
            return Ok(ExitCode::from(1));
        }
    };
    let Counts { passed, failed } = play_all(&rt, &book)?;
    println!(rt; "{passed} passed, {failed} failed")?;
    Ok(ExitCode::from(u8::from(failed > 0)))
}

/// How many cases went as they say, and how many otherwise.
#[derive(Drop)]
struct Counts {
    passed: u64,
    failed: u64,
}

/// Plays all cases but those that are for real directories alone.
fn play_all<R: Threads + Wait + Sync + AllocGlobal + Print>(
    rt: &R,
    book: &Book,
) -> io::Result<Counts> {
    let mut counts = Counts {
        passed: 0,
        failed: 0,
    };
    for case in &book.cases {
        if is_for_directories(case) {
            continue;
        }
        match played(rt, rt.alloc(), Script { book, case })? {
            Some(report) => {
                println!(rt; "{report}")?;
                counts.failed = counts.failed.saturating_add(1);
            }
            None => counts.passed = counts.passed.saturating_add(1),
        }
    }
    Ok(counts)
}

/// Whether a case says that it is for real directories alone.
fn is_for_directories(case: &Case) -> bool {
    case.steps
        .iter()
        .any(|step| step.kind == Kind::World && step.text == "real")
}
