//! What `sync` and `serve` answer to one another, each in a thread of its own, over pipes.

ghost use Rattle.std.specs.Prelude.{◌≤◌, length};
ghost use Rattle.bec_disk.specs.Shelved.{shelf_of};
ghost use Rattle.key_directory.specs.Parts.{IsHome};

use crate::meetings::carried;
use crate::nodes::Node;
use crate::pipes::{Socket, pipe};
use crate::runs::begins;
use bec_disk::MemShelf;
use std::alloc::{AllocError, Global};
use std::sync::Wait;
use std::test::Fail;
use std::thread;
use std::thread::Threads;

/// How many bytes two heads are printed in.
const TWO_HEADS: usize = 130;

/// What three nodes come to, of which the first serves two sessions with its store in A, and the others call it at once
/// with theirs in B and C.
fn all_met<T: Threads + Wait + Sync>(
    rt: &T,
    alloc: Global,
    nodes: (Node, Node, Node),
) -> Result<(Node, Node, Node), AllocError> {
    let (here, one, other) = nodes;
    let (first, at_one) = pipe(alloc, (0, 0))?;
    let (second, at_other) = pipe(alloc, (0, 0))?;
    let ends = (Some(first), Some(second));
    let (here, (one, other)) = thread::join(
        rt,
        move || here.ran(rt, alloc, ends, "serve A here --sessions 2"),
        move || {
            thread::join(
                rt,
                move || one.ran(rt, alloc, (Some(at_one), None), "sync B here"),
                move || other.ran(rt, alloc, (Some(at_other), None), "sync C here"),
            )
        },
    );
    Ok((here, one, other))
}

/// Whether the last run of each was done.
fn all_done(nodes: &(Node, Node, Node)) -> bool {
    nodes.0.status == 0 && nodes.1.status == 0 && nodes.2.status == 0
}

/// The node that served after `heads`, and the others, where all were done and both updates are heads.
fn both_brought<T: Threads + Wait + Sync>(
    rt: &T,
    alloc: Global,
    nodes: (Node, Node, Node),
) -> Option<(Node, Node, Node)> {
    let was_done = all_done(&nodes);
    let (here, one, other) = nodes;
    let here = here.told(rt, alloc, "heads A");
    if !was_done || here.text.len() != TWO_HEADS {
        return None;
    }
    Some((here, one, other))
}

/// Whether the stores of three nodes print the same.
fn are_equal<T: Threads + Wait + Sync>(rt: &T, alloc: Global, nodes: (Node, Node, Node)) -> bool {
    let was_done = all_done(&nodes);
    let here = nodes.0.told(rt, alloc, "dump A");
    let one = nodes.1.told(rt, alloc, "dump B");
    let other = nodes.2.told(rt, alloc, "dump C");
    let is_one = one.status == 0 && one.text.as_slice() == here.text.as_slice();
    let is_other = other.status == 0 && other.text.as_slice() == here.text.as_slice();
    was_done && here.status == 0 && is_one && is_other
}

/// Whether two callers at once each bring their update, and the next time take that of the other.
fn is_shared<T: Threads + Wait + Sync>(
    rt: &T,
    alloc: Global,
    shelf: &MemShelf,
) -> Result<bool, AllocError>
    requires { IsHome (shelf_of shelf.now) }
{
    let (here, one) = (Node::new(alloc, shelf)?, Node::new(alloc, shelf)?);
    let nodes = (here, one, Node::new(alloc, shelf)?);
    let nodes = all_met(rt, alloc, nodes)?;
    let Some(nodes) = both_brought(rt, alloc, nodes) else {
        return Ok(false);
    };
    let nodes = all_met(rt, alloc, nodes)?;
    Ok(are_equal(rt, alloc, nodes))
}

#[test]
fn two_callers_at_once(rt: HostRuntime) -> Result<(), Fail> {
    let mut shelf = MemShelf::new(rt.alloc());
    assert!(rt; begins(&rt, rt.alloc(), &mut shelf)?);
    assert!(rt; is_shared(&rt, rt.alloc(), &shelf)?);
    Ok(())
}

/// How long the first frame of these bytes is: a byte for its kind, four of length, and so many.
fn first_frame(bytes: &[u8]) -> usize
    ensures { result ≤ length bytes.now }
{
    match bytes {
        [_kind, a, b, c, d, ..] => {
            let len = u32::from_be_bytes([*a, *b, *c, *d]) as usize;
            len.saturating_add(5).min(bytes.len())
        }
        _ => bytes.len(),
    }
}

/// Says a frame at one end, calls with the store in C over the other, and says the rest only then. It answers the node
/// that called, and whether all was said.
fn called_between<T: Threads + Wait + Sync>(
    rt: &T,
    alloc: Global,
    node: Node,
    ends: (Socket, Socket),
    said: (Vec<u8>, Vec<u8>),
) -> (Node, bool) {
    let (at_one, at_other) = ends;
    let begun = at_one.says(rt, said.0);
    let node = node.ran(rt, alloc, (Some(at_other), None), "sync C here");
    let ended = at_one.says(rt, said.1);
    (node, begun && ended)
}

/// The node that served two sessions with its store in A, of which the first goes on only once the second has ended,
/// and whether the second was done. What is said in the first is that of a session that was recorded before.
fn served_between<T: Threads + Wait + Sync>(
    rt: &T,
    alloc: Global,
    shelf: &MemShelf,
) -> Result<(Node, bool), AllocError>
    requires { IsHome (shelf_of shelf.now) }
{
    let (_, synced) = carried(rt, alloc, shelf, "sync B here", 3)?;
    let (first, rest) = synced.sent.split_at(first_frame(&synced.sent));
    let said = (
        Vec::from_slice(alloc, first)?,
        Vec::from_slice(alloc, rest)?,
    );
    let (here, there) = (Node::new(alloc, shelf)?, Node::new(alloc, shelf)?);
    let (one, at_one) = pipe(alloc, (0, 0))?;
    let (other, at_other) = pipe(alloc, (0, 0))?;
    let ends = (Some(one), Some(other));
    let (here, (there, all_said)) = thread::join(
        rt,
        move || here.ran(rt, alloc, ends, "serve A here --sessions 2"),
        move || called_between(rt, alloc, there, (at_one, at_other), said),
    );
    Ok((here, all_said && there.status == 0))
}

/// Whether both sessions were done, and the store has both updates.
fn are_done_at_once<T: Threads + Wait + Sync>(
    rt: &T,
    alloc: Global,
    shelf: &MemShelf,
) -> Result<bool, AllocError>
    requires { IsHome (shelf_of shelf.now) }
{
    let (here, was_done) = served_between(rt, alloc, shelf)?;
    let told = b"session 1 done gained 1 turns 4\nsession 2 done gained 1 turns 4\n";
    let is_told = here.status == 0 && here.text.as_slice() == told.as_slice();
    let here = here.told(rt, alloc, "heads A");
    Ok(was_done && is_told && here.text.len() == TWO_HEADS)
}

#[test]
fn a_session_waits_for_one_that_came_later(rt: HostRuntime) -> Result<(), Fail> {
    let mut shelf = MemShelf::new(rt.alloc());
    assert!(rt; begins(&rt, rt.alloc(), &mut shelf)?);
    assert!(rt; are_done_at_once(&rt, rt.alloc(), &shelf)?);
    Ok(())
}
