//! Heads: a small graph, and one of as many members as may be.

use crate::ids::id;
use head_set::Heads;
use std::alloc::{AllocError, Global};
use update_model::{MAX_MEMBERS, UpdateId};

/// Who arrives, whom it names, and the heads then.
type Step = (u32, &'static [u32], &'static [u32]);

const STEPS: &[Step] = &[
    (7, &[], &[7]),
    (3, &[], &[3, 7]),
    (5, &[7], &[3, 5]),
    (9, &[3, 5], &[9]),
    (1, &[5], &[1, 9]),
];

/// The ids that end in these numbers.
fn ids(alloc: Global, numbers: &[u32]) -> Result<Vec<UpdateId>, AllocError> {
    let mut ids = Vec::new(alloc);
    for number in numbers {
        ids.push(id(*number))?;
    }
    Ok(ids)
}

/// Whether the heads have these numbers.
fn are(alloc: Global, heads: &Heads, numbers: &[u32]) -> Result<bool, AllocError> {
    Ok(heads.list(alloc)? == ids(alloc, numbers)?)
}

/// Adds a member of this number that was no head and names these, where one more may be. It answers whether it did.
fn adds(heads: &mut Heads, number: u32, preds: &[UpdateId]) -> Result<bool, AllocError> {
    let new = id(number);
    if heads.added() >= MAX_MEMBERS || heads.was_head(&new) {
        return Ok(false);
    }
    heads.add(new, preds)?;
    Ok(true)
}

/// Whether the heads are as each step says once it is taken.
fn goes_on(alloc: Global, heads: &mut Heads) -> Result<bool, AllocError> {
    for (number, preds, wanted) in STEPS {
        let preds = ids(alloc, preds)?;
        if !adds(heads, *number, &preds)? || !are(alloc, heads, wanted)? {
            return Ok(false);
        }
    }
    Ok(heads.contains(&id(9)) && !heads.contains(&id(5)) && heads.was_head(&id(5)))
}

/// Whether the heads are as each step said while they are cut back step by step.
fn goes_back(alloc: Global, heads: &mut Heads) -> Result<bool, AllocError> {
    for (number, _, wanted) in STEPS.iter().rev() {
        let added = heads.added();
        if added == 0 || !are(alloc, heads, wanted)? {
            return Ok(false);
        }
        heads.cut(added - 1);
        if heads.was_head(&id(*number)) {
            return Ok(false);
        }
    }
    Ok(heads.is_empty())
}

#[test]
fn follows_a_small_graph(rt: HostRuntime) {
    let mut heads = Heads::new(rt.alloc());
    assert!(rt; heads.is_empty());
    assert!(rt; matches!(goes_on(rt.alloc(), &mut heads), Ok(true)));
    assert!(rt; matches!(goes_back(rt.alloc(), &mut heads), Ok(true)));
}

/// Whether there are two heads after each member of two chains side by side, as long as may be, but the first.
fn counts(heads: &mut Heads) -> Result<bool, AllocError> {
    for number in 0..MAX_MEMBERS {
        let is_added = match number {
            0 | 1 => adds(heads, number, &[])?,
            _ => adds(heads, number, &[id(number - 2)])?,
        };
        if !is_added || heads.len() != number.min(1) + 1 {
            return Ok(false);
        }
    }
    Ok(true)
}

#[test]
fn counts_quickly(rt: HostRuntime) {
    let mut heads = Heads::new(rt.alloc());
    assert!(rt; matches!(counts(&mut heads), Ok(true)));
}
