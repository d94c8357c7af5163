//! Batches: a family of members in any order, one that is known, and a long chain from its end to its start.

use crate::ids::id;
use hash_graph::Graph;
use ready_batch::{AddFault, Candidate, add_ready};
use std::alloc::{AllocError, Global};
use update_model::{Member, UpdateId};

/// A member with at most one predecessor, and no bytes.
#[derive(Drop)]
struct Plain {
    id: UpdateId,
    pred: Option<UpdateId>,
}

impl Member for Plain {
    ghost use Rattle.std.specs.Prelude.{[], ◌∷◌};
    ghost use Rattle.std.specs.Option.{option_to_list};

    ghost entry = { λ m. record { id = m.id; preds = option_to_list m.pred; bytes = [] } };

    fn id(&self) -> UpdateId {
        self.id
    }

    fn preds(&self) -> &[UpdateId] {
        self.pred.as_slice()
    }

    fn bytes(&self) -> &[u8] {
        &[]
    }
}

// it remembers nothing, so each look at it begins with its first predecessor
impl Candidate for Plain {
    fn found(&self) -> usize {
        0
    }

    fn note(&mut self, _found: usize) {}
}

/// A member and its predecessor, by numbers; 0 is none.
fn member(number: u32, pred: u32) -> Plain {
    Plain {
        id: id(number),
        pred: if pred == 0 { None } else { Some(id(pred)) },
    }
}

/// These members and their predecessors.
fn batch_of(alloc: Global, members: &[(u32, u32)]) -> Result<Vec<Plain>, AllocError> {
    let mut batch = Vec::new(alloc);
    for (number, pred) in members {
        batch.push(member(*number, *pred))?;
    }
    Ok(batch)
}

/// Whether these members have these ids, in this order.
fn are(members: &[Plain], numbers: &[u32]) -> bool {
    members.len() == numbers.len()
        && members
            .iter()
            .zip(numbers)
            .all(|(member, number)| member.id == id(*number))
}

/// A batch, who is held then, and who waits.
type Step = (&'static [(u32, u32)], &'static [u32], &'static [u32]);

const STEPS: &[Step] = &[
    (&[(2, 1), (4, 3), (1, 0)], &[1, 2], &[4]),
    (&[(5, 4)], &[1, 2], &[5]),
    (
        &[(2, 1), (6, 7), (1, 9), (5, 4), (4, 3)],
        &[1, 2],
        &[6, 5, 4],
    ),
    (&[(5, 4), (4, 3), (6, 7), (3, 2)], &[1, 2, 3, 4, 5], &[6]),
    (&[], &[1, 2, 3, 4, 5], &[]),
];

/// Whether each step leaves who it says.
fn adds(alloc: Global, graph: &mut Graph<Plain>) -> Result<bool, AddFault> {
    for (members, held, waits) in STEPS {
        let waiting = add_ready(alloc, graph, batch_of(alloc, members)?)?;
        if !are(graph.tail(0), held) || !are(&waiting, waits) {
            return Ok(false);
        }
    }
    Ok(true)
}

#[test]
fn adds_what_can_be_added(rt: HostRuntime) {
    let mut graph = Graph::new(rt.alloc());
    assert!(rt; matches!(adds(rt.alloc(), &mut graph), Ok(true)));
}

/// A chain of 20,000 members, from its end to its start.
fn backwards(alloc: Global) -> Result<Vec<Plain>, AllocError> {
    let mut batch = Vec::new(alloc);
    for number in (1..20_001).rev() {
        batch.push(member(number, number - 1))?;
    }
    Ok(batch)
}

/// Whether all of a chain is added that comes from its end to its start.
fn adds_backwards(alloc: Global, graph: &mut Graph<Plain>) -> Result<bool, AddFault> {
    let waiting = add_ready(alloc, graph, backwards(alloc)?)?;
    Ok(graph.len() == 20_000 && waiting.is_empty())
}

// one pass over all that wait for each that is added would look at 200,000,000 members
#[test]
fn adds_a_long_chain_backwards(rt: HostRuntime) {
    let mut graph = Graph::new(rt.alloc());
    assert!(rt; matches!(adds_backwards(rt.alloc(), &mut graph), Ok(true)));
}
