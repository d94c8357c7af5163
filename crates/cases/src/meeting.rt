//! A command that runs beside others, which call it.

use crate::playing::{Script, input_of, judged, played_step, told_outcome};
use crate::running::{Said, run_command};
use cases_text::{Fault, Step, read_order};
use cases_world::{Caller, CaseNet, Peer, Plan, Socket, Stage, World};
use crossbeam_channel::{Receiver, unbounded};
use std::alloc::AllocError;
use std::sync::Wait;
use std::thread::Threads;
use std::{mem, thread};

/// A command that is to run beside others.
#[derive(Drop)]
struct Server {
    /// What it acts on: a directory of its own.
    stage: Stage,
    words: Vec<String>,
    input: Vec<u8>,
    /// Where those that call it come from.
    coming: Receiver<Socket>,
}

/// What went otherwise in a command and the steps that it runs beside, of which the last waits for it.
pub fn met<'a, R: Threads + Wait + Sync>(
    rt: &R,
    world: &mut World<'a>,
    script: Script<'_, 'a>,
    step: &Step<'a>,
    inside: &[Step<'a>],
) -> Result<Option<String>, AllocError> {
    let prepared = prepared(world, script, step);
    let (server, caller) = match prepared {
        Ok(pair) => pair,
        Err(fault) => return told_outcome(world.alloc, script.case, step, Err(fault)),
    };
    let Some((wait, inside)) = inside.split_last() else {
        let fault = Fault::Text("nothing waits for this command");
        return told_outcome(world.alloc, script.case, step, Err(fault));
    };
    let inner = &mut *world;
    let (served, report) = thread::join(
        rt,
        move || served(rt, server),
        move || played_inside(rt, inner, script, inside, caller),
    );
    let (stage, said) = served?;
    world.stage.parts.join(&stage.parts)?;
    match report? {
        Some(report) => Ok(Some(report)),
        None => {
            let outcome = judged(world, script.case, wait, None, said);
            told_outcome(world.alloc, script.case, wait, outcome)
        }
    }
}

/// Prepares a command that is to run beside others: what it needs, and how it is called.
fn prepared<'a>(
    world: &mut World<'a>,
    script: Script<'_, 'a>,
    step: &Step<'a>,
) -> Result<(Server, Caller), Fault> {
    let alloc = world.alloc;
    let order = read_order(alloc, &world.names, step.text)?;
    let input = input_of(world, script, step, &order)?;
    let parts = match order.words.get(1) {
        Some(dir) => world.stage.parts.take_directory(dir)?,
        None => return Err(Fault::Text("only serve may run beside others")),
    };
    let mut stage = Stage::new(alloc, parts);
    stage.plan = mem::replace(&mut world.stage.plan, Plan::new());
    let (going, coming) = unbounded(alloc)?;
    let caller = Caller::new(going, sessions_of(&order.words));
    let server = Server {
        stage,
        words: order.words,
        input,
        coming,
    };
    Ok((server, caller))
}

/// How many sessions words ask for.
fn sessions_of(words: &[String]) -> u64 {
    let number = match words {
        [.., name, number] if name.as_str() == "--sessions" => number.as_str(),
        [.., last] => last.strip_prefix("--sessions=").unwrap_or(""),
        [] => "",
    };
    number.parse().unwrap_or(0)
}

/// What a command that runs beside others came to, and what it leaves.
fn served<R: Threads + Wait + Sync>(rt: &R, server: Server) -> Result<(Stage, Said), AllocError> {
    let Server {
        mut stage,
        words,
        input,
        coming,
    } = server;
    let link = stage.plan.link;
    let mut net = CaseNet::new(rt, stage.alloc, Peer::Callers(coming), link);
    let said = run_command(rt, &mut stage, &words, input, &mut net)?;
    Ok((stage, said))
}

/// What went otherwise in the steps beside a command, which they may call.
fn played_inside<'a, R: Threads + Wait + Sync>(
    rt: &R,
    world: &mut World<'a>,
    script: Script<'_, 'a>,
    steps: &[Step<'a>],
    caller: Caller,
) -> Result<Option<String>, AllocError> {
    for step in steps {
        let report = played_step(rt, world, script, step, Some(&caller))?;
        if report.is_some() {
            return Ok(report);
        }
    }
    Ok(None)
}
