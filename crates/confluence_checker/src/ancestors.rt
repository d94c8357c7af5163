//! The ancestors of a node, and what the valid ones did.

ghost use Rattle.std.specs.Prelude.{◌≡◌, ◌||◌, IfOk, OnOk, filter, if◌then◌else◌};
ghost use Rattle.update_model.specs.declared.update_id.UpdateId.{UpdateId};
ghost use Rattle.update_model.specs.Entry.{same_id};
ghost use Rattle.update_model.specs.Graph.{has};
ghost use Rattle.table_model.specs.Verdicts.{ancestor_of, effects, effects_of, is_valid, joined};
ghost use Rattle.confluence_checker.specs.Forms.{newest_first};

use crate::effects::effects_of;
use crate::ids::has;
use crate::judged_node::JudgedNode;
use crate::row_effects::RowEffects;
use std::alloc::{AllocError, Global};
use table_model::{Verdict, effects_one_by_one};
use update_model::{Node, UpdateId};

/// Puts an id at the end of a list, where it is missing.
fn add_one(ids: &mut Vec<UpdateId>, id: &UpdateId) -> Result<(), AllocError>
    ensures { OnOk result ((other : UpdateId)
        → has ids.new.items other ≡ (has ids.old.items other || same_id other id.now)) }
{
    if has(ids.as_slice(), id) {
        return Ok(());
    }
    ids.push(*id)?;
    Ok(())
}

/// Puts those of these ids that are missing at the end of a list.
fn add_missing(ids: &mut Vec<UpdateId>, more: &[UpdateId]) -> Result<(), AllocError>
    ensures { OnOk result ((id : UpdateId) → has ids.new.items id ≡ (has ids.old.items id || has more.now id)) }
{
    for id in more {
        add_one(ids, id)?;
    }
    Ok(())
}

/// The ids of a node's ancestors, which are among these nodes in the order of arrival: of its predecessors, and of
/// theirs.
pub(crate) fn ancestors_of(
    alloc: Global,
    js: &[JudgedNode],
    node: &Node,
) -> Result<Vec<UpdateId>, AllocError>
    ensures { IfOk result (λ ids. (id : UpdateId) → has ids.items id ≡ ancestor_of (newest_first js.now) node.now id) }
{
    let preds = node.preds.as_slice();
    let mut ids = Vec::from_slice(alloc, preds)?;
    for j in js {
        if has(preds, &j.node.id) {
            add_missing(&mut ids, j.ancestors.as_slice())?;
        }
    }
    Ok(ids)
}

/// Whether a verdict is that an update does what its operations say.
fn is_valid(verdict: &Verdict) -> bool
    ensures { result ≡ is_valid verdict.now }
{
    match verdict {
        Verdict::Valid => true,
        Verdict::Void { .. } => false,
    }
}

/// What older nodes did, and what this one did, where it is valid.
fn with_node(alloc: Global, j: &JudgedNode, older: RowEffects) -> Result<RowEffects, AllocError>
    ensures { IfOk result (λ did. did ≡ (if is_valid j.now.verdict then joined (effects_of j.now.node) older else
        older)) }
{
    if is_valid(&j.verdict) {
        effects_of(alloc, &j.node)?.joined(older)
    } else {
        Ok(older)
    }
}

/// What the valid ones of these nodes did.
pub(crate) fn effects(alloc: Global, js: &[JudgedNode]) -> Result<RowEffects, AllocError>
    ensures { IfOk result (λ did. did ≡ effects (newest_first js.now)) }
{
    effects_one_by_one();
    let mut did = RowEffects::nothing(alloc);
    for j in js {
        did = with_node(alloc, j, did)?;
    }
    Ok(did)
}

/// What the valid ones of those with these ids did.
pub(crate) fn effects_among(
    alloc: Global,
    js: &[JudgedNode],
    ids: &[UpdateId],
) -> Result<RowEffects, AllocError>
    ensures { IfOk result (λ did. did ≡ effects (filter (λ j. has ids.now j.node.id) (newest_first js.now))) }
{
    effects_one_by_one();
    let mut did = RowEffects::nothing(alloc);
    for j in js {
        if has(ids, &j.node.id) {
            did = with_node(alloc, j, did)?;
        }
    }
    Ok(did)
}
