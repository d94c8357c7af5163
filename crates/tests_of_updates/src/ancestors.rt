//! Ancestors: a small graph, more roots than chains, and graphs of as many members as may be.

use ancestry::Ancestry;
use std::alloc::{AllocError, Global};
use update_model::{Ancestors, MAX_MEMBERS};

/// Two roots, and a diamond over the first: 0, 1, then 2 and 3 above 0, and 4 above 2 and 3. Whom each names.
const DIAMOND: &[&[u32]] = &[&[], &[], &[0], &[0], &[2, 3]];

/// Two members, and whether the first is an ancestor of the second.
type Row = (u32, u32, bool);

/// What is asked of the diamond.
const ASKED: &[Row] = &[
    (0, 2, true),
    (0, 4, true),
    (2, 4, true),
    (3, 4, true),
    (1, 4, false),
    (2, 3, false),
    (4, 0, false),
    (4, 4, false),
    (0, 0, false),
    (0, 5, false),
    (5, 4, false),
    (7, 9, false),
];

/// Adds a member that names these, where they are there and one more may be. It answers whether it did.
fn adds(ancestry: &mut Ancestry, preds: &[u32]) -> Result<bool, AllocError> {
    let len = ancestry.len();
    if len >= MAX_MEMBERS || !preds.iter().all(|p| *p < len) {
        return Ok(false);
    }
    ancestry.add(preds)?;
    Ok(true)
}

/// Adds members that name these, one after another. It answers whether it did.
fn grows(ancestry: &mut Ancestry, members: &[&[u32]]) -> Result<bool, AllocError> {
    for preds in members {
        if !adds(ancestry, preds)? {
            return Ok(false);
        }
    }
    Ok(true)
}

/// Whether each row is answered so.
fn answers(alloc: Global, ancestry: &Ancestry, rows: &[Row]) -> Result<bool, AllocError> {
    for (a, b, wanted) in rows {
        if ancestry.is_ancestor(alloc, *a, *b)? != *wanted {
            return Ok(false);
        }
    }
    Ok(true)
}

/// Whether the ancestors in the diamond are known.
fn knows(alloc: Global, ancestry: &mut Ancestry) -> Result<bool, AllocError> {
    Ok(grows(ancestry, DIAMOND)? && ancestry.len() == 5 && answers(alloc, ancestry, ASKED)?)
}

#[test]
fn knows_ancestors(rt: HostRuntime) {
    let mut ancestry = Ancestry::new(rt.alloc());
    assert!(rt; matches!(knows(rt.alloc(), &mut ancestry), Ok(true)));
}

/// Whether a cut leaves the first three members of the diamond, and a copy all.
fn cuts(alloc: Global, ancestry: &mut Ancestry) -> Result<bool, AllocError> {
    let was_empty = ancestry.is_empty();
    let is_grown = grows(ancestry, DIAMOND)?;
    let copy = ancestry.copy(alloc)?;
    if ancestry.len() < 3 {
        return Ok(false);
    }
    ancestry.cut(3);
    let is_cut = answers(alloc, ancestry, &[(0, 2, true), (0, 4, false)])?;
    let is_copied = answers(alloc, &copy, &[(0, 4, true)])? && !copy.is_empty();
    Ok(was_empty && is_grown && is_cut && is_copied && (ancestry.len(), copy.len()) == (3, 5))
}

#[test]
fn cuts_and_copies(rt: HostRuntime) {
    let mut ancestry = Ancestry::new(rt.alloc());
    assert!(rt; matches!(cuts(rt.alloc(), &mut ancestry), Ok(true)));
}

/// Adds so many roots as there are numbers, and a member that names these. It answers whether it did.
fn grows_roots(ancestry: &mut Ancestry, roots: &[u32]) -> Result<bool, AllocError> {
    for _ in roots {
        if !adds(ancestry, &[])? {
            return Ok(false);
        }
    }
    adds(ancestry, roots)
}

/// Whether each of 66 roots, of which two are in no chain, is an ancestor of the member behind them that names them
/// all.
fn counts(alloc: Global, ancestry: &mut Ancestry) -> Result<bool, AllocError> {
    let roots: Vec<u32> = (0..66).collect(alloc)?;
    if !grows_roots(ancestry, &roots)? || ancestry.len() != 67 {
        return Ok(false);
    }
    for root in &roots {
        if !ancestry.is_ancestor(alloc, *root, 66)? {
            return Ok(false);
        }
    }
    let since = ancestry.since(alloc, 67, &[64])?;
    let is_since = since.len() == 66 && !since.as_slice().contains(&64);
    let is_counted = ancestry.clock(66).iter().all(|count| *count == 1);
    Ok(is_since && is_counted && answers(alloc, ancestry, &[(66, 0, false), (65, 64, false)])?)
}

#[test]
fn counts_roots(rt: HostRuntime) {
    let mut ancestry = Ancestry::new(rt.alloc());
    assert!(rt; matches!(counts(rt.alloc(), &mut ancestry), Ok(true)));
}

/// Adds two chains side by side, as long as may be. It answers whether it did.
fn grows_chains(ancestry: &mut Ancestry) -> Result<bool, AllocError> {
    let mut is_grown = grows(ancestry, &[&[], &[]])?;
    for position in 2..MAX_MEMBERS {
        is_grown = adds(ancestry, &[position - 2])? && is_grown;
    }
    Ok(is_grown)
}

/// Whether of two chains side by side the first members are told to be ancestors of those behind them in their chain.
fn compares(alloc: Global, ancestry: &Ancestry) -> Result<bool, AllocError> {
    for a in 0..64 {
        for b in 0..MAX_MEMBERS {
            if ancestry.is_ancestor(alloc, a, b)? != (a < b && (b - a) % 2 == 0) {
                return Ok(false);
            }
        }
    }
    Ok(true)
}

// walks would take some 270,000,000,000 steps
#[test]
fn compares_quickly(rt: HostRuntime) {
    let mut ancestry = Ancestry::new(rt.alloc());
    assert!(rt; matches!(grows_chains(&mut ancestry), Ok(true)));
    assert!(rt; matches!(compares(rt.alloc(), &ancestry), Ok(true)));
}
