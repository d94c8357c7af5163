//! One command over the world of a case.

use bec_bytes::{MemSink, MemSource};
use bec_node::{Outside, run};
use cases_world::{CaseNet, CaseShelf, Parts, Plan, Stage, Trouble, one_number};
use numbered_words::Words;
use std::alloc::{AllocError, Global};
use std::mem;
use std::sync::Wait;
use std::thread::Threads;

/// What a command came to.
#[derive(Drop)]
pub struct Said {
    /// Its status.
    pub status: u8,
    /// What it printed.
    pub text: Vec<u8>,
}

/// What a command reads and writes.
#[derive(Drop)]
struct Streams {
    input: MemSource,
    out: MemSink,
}

/// Runs the program over a stage and a net, with these words and this input. What was planned for it is not planned
/// for the next one.
pub fn run_command<R: Threads + Wait + Sync>(
    rt: &R,
    stage: &mut Stage,
    words: &[String],
    input: Vec<u8>,
    net: &mut CaseNet<'_, R>,
) -> Result<Said, AllocError> {
    let plan = mem::replace(&mut stage.plan, Plan::new());
    let streams = streams_of(stage.alloc, input, &plan)?;
    let trouble = Trouble::new(plan.disks);
    let said = run_on(rt, stage, &trouble, words, streams, net)?;
    if let Some(image) = trouble.crash() {
        stage.parts.crash(image)?;
    }
    Ok(said)
}

/// The streams of a command, of which the calls that are planned fail.
fn streams_of(alloc: Global, input: Vec<u8>, plan: &Plan) -> Result<Streams, AllocError> {
    let input = MemSource::new(input, one_number(alloc, plan.input)?);
    let out = MemSink::new(alloc, one_number(alloc, plan.output)?);
    Ok(Streams { input, out })
}

/// Runs the program over a stage on whose disks calls fail.
fn run_on<R: Threads + Wait + Sync>(
    rt: &R,
    stage: &mut Stage,
    trouble: &Trouble,
    words: &[String],
    streams: Streams,
    net: &mut CaseNet<'_, R>,
) -> Result<Said, AllocError> {
    let alloc = stage.alloc;
    let Streams { input, mut out } = streams;
    let parts = mem::replace(&mut stage.parts, Parts::new(alloc));
    let mut outside = Outside {
        shelf: CaseShelf::new(parts, trouble),
        random: mem::replace(&mut stage.random, Words::new(0)),
        input,
    };
    let status = run(rt, alloc, words, &mut outside, net, &mut out);
    let Outside { shelf, random, .. } = outside;
    stage.parts = shelf.into_parts();
    stage.random = random;
    let text = out.bytes().to_vec(alloc)?;
    Ok(Said { status, text })
}
