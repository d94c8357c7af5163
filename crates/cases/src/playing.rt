//! A case from its first step to its last, or to the first that goes otherwise.

use crate::meeting::met;
use crate::running::{Said, run_command};
use crate::telling::{told_fault, told_said};
use cases_text::{Book, Case, Fault, Kind, Order, Step, filled, fits, read_order};
use cases_world::{Caller, CaseNet, Peer, World, act};
use std::alloc::{AllocError, Global};
use std::sync::Wait;
use std::thread::Threads;

/// A case and the book that it stands in.
#[derive(Clone, Copy)]
pub struct Script<'b, 'a> {
    /// The book.
    pub book: &'b Book<'a>,
    /// The case.
    pub case: &'b Case<'a>,
}

/// What went otherwise in a case, if anything did.
pub fn played<'a, R: Threads + Wait + Sync>(
    rt: &R,
    alloc: Global,
    script: Script<'_, 'a>,
) -> Result<Option<String>, AllocError> {
    let mut world = World::new(alloc);
    let steps = script.case.steps.as_slice();
    let mut next = 0usize;
    for _ in 0..steps.len() {
        let Some((step, after)) = steps.get(next..).and_then(|rest| rest.split_first()) else {
            return Ok(None);
        };
        let inside = inside_of(step, after);
        let report = match inside {
            Some(inside) => met(rt, &mut world, script, step, inside)?,
            None => played_step(rt, &mut world, script, step, None)?,
        };
        if report.is_some() {
            return Ok(report);
        }
        let passed = inside.map_or(0, |inside| inside.len());
        next = next.saturating_add(1).saturating_add(passed);
    }
    Ok(None)
}

/// The steps that a command runs beside, and the last one of them, which waits for it, if it runs beside others.
fn inside_of<'s, 'a>(step: &Step<'a>, after: &'s [Step<'a>]) -> Option<&'s [Step<'a>]> {
    if step.kind != Kind::Command || !step.text.ends_with(" &") {
        return None;
    }
    let end = match after.iter().position(|step| step.text == "wait") {
        Some(place) => place.saturating_add(1),
        None => after.len(),
    };
    after.get(..end)
}

/// What went otherwise in a step, if anything did. The world may have a node that is called.
pub fn played_step<'a, R: Threads + Wait + Sync>(
    rt: &R,
    world: &mut World<'a>,
    script: Script<'_, 'a>,
    step: &Step<'a>,
    caller: Option<&Caller>,
) -> Result<Option<String>, AllocError> {
    let outcome = match step.kind {
        Kind::World => act(world, script.book, script.case, step.text),
        Kind::Command => {
            let outcome = commanded(rt, world, script, step, caller);
            return told_outcome(world.alloc, script.case, step, outcome);
        }
    };
    told_outcome(world.alloc, script.case, step, outcome.map(|()| None))
}

/// What is told of a step: what went otherwise, or that it cannot be done.
pub fn told_outcome(
    alloc: Global,
    case: &Case,
    step: &Step,
    outcome: Result<Option<String>, Fault>,
) -> Result<Option<String>, AllocError> {
    match outcome {
        Ok(report) => Ok(report),
        Err(Fault::Memory) => Err(AllocError),
        Err(Fault::Text(what)) => Ok(Some(told_fault(alloc, case, step, what)?)),
    }
}

/// Runs a command and compares what it comes to.
fn commanded<'a, R: Threads + Wait + Sync>(
    rt: &R,
    world: &mut World<'a>,
    script: Script<'_, 'a>,
    step: &Step<'a>,
    caller: Option<&Caller>,
) -> Result<Option<String>, Fault> {
    let order = read_order(world.alloc, &world.names, step.text)?;
    let input = input_of(world, script, step, &order)?;
    let peer = match caller {
        Some(caller) => Peer::Called(caller),
        None => Peer::Nobody,
    };
    let mut net = CaseNet::new(rt, world.alloc, peer, world.stage.plan.link);
    let said = run_command(rt, &mut world.stage, &order.words, input, &mut net)?;
    judged(world, script.case, step, order.keeps, said)
}

/// The standard input of a command.
pub fn input_of(
    world: &World,
    script: Script,
    step: &Step,
    order: &Order,
) -> Result<Vec<u8>, Fault> {
    if let Some(name) = &order.input {
        return world.file(script.book, script.case, name);
    }
    let mut input = Vec::new(world.alloc);
    for line in &step.input {
        let line = filled(world.alloc, &world.names, line)?;
        input.extend_from_slice(line.as_bytes())?;
        input.push(b'\n')?;
    }
    Ok(input)
}

/// Compares what a command came to with what is expected of it, or keeps what it printed.
pub fn judged<'a>(
    world: &mut World<'a>,
    case: &Case<'a>,
    step: &Step<'a>,
    keeps: Option<String>,
    said: Said,
) -> Result<Option<String>, Fault> {
    let alloc = world.alloc;
    let Some(name) = keeps else {
        let is_same = fits(alloc, &mut world.names, &step.wanted, &said.text)?;
        if is_same && said.status == step.status {
            return Ok(None);
        }
        return Ok(Some(told_said(alloc, case, step, &said)?));
    };
    if said.status != step.status {
        return Ok(Some(told_said(alloc, case, step, &said)?));
    }
    world.keep(name, said.text)?;
    Ok(None)
}
