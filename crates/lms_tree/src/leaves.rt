// Computing the leaves of a tree, on the thread that asks or on as many as there are processors.

ghost use Rattle.std.specs.Prelude.{◌≡◌, ◌+◌, ◌≤◌, IfOk};
ghost use Rattle.lms_tree.specs.Leaves.{AreLeaves};
ghost use Rattle.lms_tree.specs.LmsKind.{leaf_count};

use crate::nodes::leaf_node;
use crate::seed::KeySeed;
use lm_ots::public_of;
use std::alloc::{AllocError, Global};
use std::thread::{Threads, available_parallelism, join};

/// Whoever computes the leaves of trees: which threads do it is its own affair.
pub trait LeafGenerator {
    /// The values of the nodes of all leaves of the tree that is made from this, in order. The error is want of memory.
    fn all_leaves(&self, alloc: Global, seed: &KeySeed) -> Result<Vec<[u8; 32]>, AllocError>
        ensures { IfOk result (λ values. AreLeaves seed.now 0 (leaf_count seed.now.lms) values.items) };
}

/// Does its work on the thread that asks.
#[derive(Clone, Copy)]
pub struct OneThread;

impl LeafGenerator for OneThread {
    fn all_leaves(&self, alloc: Global, seed: &KeySeed) -> Result<Vec<[u8; 32]>, AllocError> {
        leaves_here(alloc, seed, 0, seed.lms.leaf_count())
    }
}

/// Does its work on as many threads as there are processors. Where no thread can be started, the one that asks does
/// all.
#[derive(Drop)]
pub struct ManyThreads<'a, R: Threads> {
    rt: &'a R,
}

impl<'a, R: Threads> ManyThreads<'a, R> {
    /// Over the threads that a runtime starts.
    pub fn new(rt: &'a R) -> Self {
        ManyThreads { rt }
    }

    /// The runtime that starts the threads.
    pub fn runtime(&self) -> &'a R {
        self.rt
    }

    /// How many threads are worth starting, the one that asks among them.
    pub fn thread_count(&self) -> usize {
        match available_parallelism(self.rt) {
            Ok(count) => count.get(),
            Err(_) => 1,
        }
    }
}

impl<'a, R: Threads> LeafGenerator for ManyThreads<'a, R> {
    fn all_leaves(&self, alloc: Global, seed: &KeySeed) -> Result<Vec<[u8; 32]>, AllocError> {
        leaves_on(
            self.rt,
            alloc,
            self.thread_count(),
            seed,
            0,
            seed.lms.leaf_count(),
        )
    }
}

/// Fewer leaves than this are not worth a thread.
const LEAST: u32 = 16;

// So many leaves from one on, on so many threads, of which each has as many leaves.
#[cycle(parts)]
fn leaves_on<R: Threads>(
    rt: &R,
    alloc: Global,
    threads: usize,
    seed: &KeySeed,
    first: u32,
    count: u32,
) -> Result<Vec<[u8; 32]>, AllocError>
    requires { first + count ≤ leaf_count seed.now.lms }
    ensures { IfOk result (λ values. AreLeaves seed.now first count values.items) }
{
    if threads < 2 || count < LEAST {
        return leaves_here(alloc, seed, first, count);
    }
    let front = (u64::from(count) / threads as u64) as u32;
    let others = threads - 1;
    let (second, rest) = (first + front, count - front);
    let theirs = move || -> Result<Vec<[u8; 32]>, AllocError>
        requires { first + front ≤ leaf_count seed.now.lms }
        ensures { IfOk result (λ values. AreLeaves seed.entry.now first front values.items) }
    { leaves_here(alloc, seed, first, front) };
    let mine = move || -> Result<Vec<[u8; 32]>, AllocError>
        requires { second + rest ≤ leaf_count seed.now.lms }
        ensures { IfOk result (λ values. AreLeaves seed.entry.now second rest values.items) }
    { leaves_on(rt, alloc, others, seed, second, rest) };
    let (values, behind) = join(rt, theirs, mine);
    let mut values = values?;
    values.append(&mut behind?)?;
    Ok(values)
}

// So many leaves from one on, one after the other.
fn leaves_here(
    alloc: Global,
    seed: &KeySeed,
    first: u32,
    count: u32,
) -> Result<Vec<[u8; 32]>, AllocError>
    requires { first + count ≤ leaf_count seed.now.lms }
    ensures { IfOk result (λ values. AreLeaves seed.now first count values.items) }
{
    let leaves = seed.lms.leaf_count();
    let mut values = Vec::with_capacity(alloc, count as usize)?;
    for place in 0..count {
        let q = first + place;
        let value = public_of(seed.ots, &seed.ident, q, &seed.start);
        values.push(leaf_node(&seed.ident, leaves + q, &value))?;
    }
    Ok(values)
}
