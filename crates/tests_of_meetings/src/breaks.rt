//! A link that breaks at each call of either end, between `sync` and `serve` over a pipe.

ghost use Rattle.bec_disk.specs.Shelved.{shelf_of};
ghost use Rattle.key_directory.specs.Parts.{IsHome};

use crate::nodes::Node;
use crate::pipes::pipe;
use crate::runs::begins;
use bec_disk::MemShelf;
use std::alloc::{AllocError, Global};
use std::sync::Wait;
use std::test::Fail;
use std::thread;
use std::thread::Threads;

/// What two nodes come to, of which one serves a session with its store in B, and the other calls it with its store in
/// C, over a pipe whose call of this number fails at the end of each. No call is numbered 0.
fn both_met<T: Threads + Wait + Sync>(
    rt: &T,
    alloc: Global,
    nodes: (Node, Node),
    failing: (u32, u32),
) -> Result<(Node, Node), AllocError> {
    let (here, there) = nodes;
    let (one, other) = pipe(alloc, failing)?;
    Ok(thread::join(
        rt,
        move || here.ran(rt, alloc, (Some(one), None), "serve B here --sessions 1"),
        move || there.ran(rt, alloc, (Some(other), None), "sync C here"),
    ))
}

/// The two nodes after they printed the updates that they hold, in the order in which they came.
fn both_told<T: Threads + Wait + Sync>(rt: &T, alloc: Global, nodes: (Node, Node)) -> (Node, Node) {
    let here = nodes.0.told(rt, alloc, "export B --updates");
    let there = nodes.1.told(rt, alloc, "export C --updates");
    (here, there)
}

/// Whether the last run of each was done, and printed something.
fn both_done(nodes: &(Node, Node)) -> bool {
    let (here, there) = nodes;
    here.status == 0 && there.status == 0 && !here.text.is_empty() && !there.text.is_empty()
}

/// Whether both print these updates before any other.
fn both_begin(nodes: &(Node, Node), held: &(Vec<u8>, Vec<u8>)) -> bool {
    nodes.0.text.starts_with(&held.0) && nodes.1.text.starts_with(&held.1)
}

/// How an end says that a session ended.
#[derive(Clone, Copy, PartialEq, Eq)]
enum Ending {
    /// It is done.
    Done,
    /// The link broke.
    Broken,
    /// The other end went away.
    Cut,
    /// In none of these ways.
    Other,
}

/// How a node says that its session ended, with the status that belongs to it.
fn ending_of(node: &Node, done: &[u8], broken: &[u8], cut: &[u8]) -> Ending {
    match node.status {
        0 if node.text.starts_with(done) => Ending::Done,
        4 if node.text.as_slice() == broken => Ending::Broken,
        6 if node.text.as_slice() == cut => Ending::Cut,
        _ => Ending::Other,
    }
}

/// How both say that their session ended.
fn endings(nodes: &(Node, Node)) -> (Ending, Ending) {
    let (here, there) = nodes;
    let here = ending_of(
        here,
        b"session 1 done gained 1 turns ",
        b"session 1 broken\n",
        b"session 1 cut\n",
    );
    let there = ending_of(there, b"gained 1\nturns ", b"! stream fault\n", b"! cut\n");
    (here, there)
}

/// Whether two nodes say the same once they have met over a whole link.
fn become_equal<T: Threads + Wait + Sync>(
    rt: &T,
    alloc: Global,
    nodes: (Node, Node),
) -> Result<bool, AllocError> {
    let nodes = both_met(rt, alloc, nodes, (0, 0))?;
    let was_done = both_done(&nodes);
    let here = nodes.0.told(rt, alloc, "dump B");
    let there = nodes.1.told(rt, alloc, "dump C");
    let is_told = here.status == 0 && there.status == 0 && !here.text.is_empty();
    Ok(was_done && is_told && here.text.as_slice() == there.text.as_slice())
}

/// How both ends say that a session ended whose link breaks at these calls of its ends, where each store prints what it
/// held before anything else then, and a session that follows over a whole link makes the stores equal. Else `None`.
fn crossed<T: Threads + Wait + Sync>(
    rt: &T,
    alloc: Global,
    shelf: &MemShelf,
    failing: (u32, u32),
) -> Result<Option<(Ending, Ending)>, AllocError>
    requires { IsHome (shelf_of shelf.now) }
{
    let nodes = (Node::new(alloc, shelf)?, Node::new(alloc, shelf)?);
    let nodes = both_told(rt, alloc, nodes);
    let was_told = both_done(&nodes);
    let held = (nodes.0.text.clone()?, nodes.1.text.clone()?);
    let nodes = both_met(rt, alloc, nodes, failing)?;
    let endings = endings(&nodes);
    let nodes = both_told(rt, alloc, nodes);
    let is_kept = was_told && both_begin(&nodes, &held);
    if !is_kept || !become_equal(rt, alloc, nodes)? {
        return Ok(None);
    }
    Ok(Some(endings))
}

/// At how many of its calls the link can break at one end. At each of them this end says that it broke, the other that
/// it was cut or is done, and what was held and will be is kept; at the call behind them nothing breaks. 0 if anything
/// else comes.
fn breaks<T: Threads + Wait + Sync>(
    rt: &T,
    alloc: Global,
    shelf: &MemShelf,
    at_server: bool,
) -> Result<u32, AllocError>
    requires { IsHome (shelf_of shelf.now) }
{
    for number in 1..100u32 {
        let failing = if at_server { (number, 0) } else { (0, number) };
        match (crossed(rt, alloc, shelf, failing)?, at_server) {
            (Some((Ending::Done, Ending::Done)), _) => return Ok(number - 1),
            (Some((Ending::Broken, Ending::Cut | Ending::Done)), true) => {}
            (Some((Ending::Cut | Ending::Done, Ending::Broken)), false) => {}
            _ => return Ok(0),
        }
    }
    Ok(0)
}

// At least a Hello each way, and behind it an update and a Turn each way.
#[test]
fn a_link_breaks_at_each_call(rt: HostRuntime) -> Result<(), Fail> {
    let mut shelf = MemShelf::new(rt.alloc());
    assert!(rt; begins(&rt, rt.alloc(), &mut shelf)?);
    assert!(rt; breaks(&rt, rt.alloc(), &shelf, true)? >= 4);
    assert!(rt; breaks(&rt, rt.alloc(), &shelf, false)? >= 4);
    Ok(())
}
