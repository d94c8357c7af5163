//! Whether an update may be made, before anything is signed.

ghost use Rattle.std.specs.Prelude.{◌≡◌, ◌≤◌, All, IfOk, IfErr, List, length, map, true};
ghost use Rattle.update_model.specs.declared.limits.TheConstants.{MAX_NODE_OPS};
ghost use Rattle.update_model.specs.declared.op.Op.{Op as Operation};
ghost use Rattle.update_model.specs.Graph.{holds};
ghost use Rattle.update_codec.specs.Parts.{entry_of};
ghost use Rattle.replica.specs.Making.{IsJudged, IsPlanCause, MayMake, MaySign};

use crate::drafting::draft_of;
use crate::make_fault::MakeFault;
use bec_disk::Disk;
use history::History;
use key_index::KeyStore;
use row_check::{Checks, Relation};
use std::alloc::{AllocError, Global};
use table_model::Verdict;
use update_model::{AuthorKey, MAX_NODE_OPS, MAX_PREDS, OpList, UpdateId};

/// All heads, where the key may write, they can all be named, and an update of these operations after them is valid.
pub fn plan<D: Disk, L: Relation, C: Checks<L>>(
    alloc: Global,
    history: &History<L, C>,
    key: &KeyStore<D>,
    ops: &OpList,
) -> Result<Vec<UpdateId>, MakeFault>
    requires { length ops.now ≤ MAX_NODE_OPS }
    ensures planned { IfOk result (λ heads. MaySign L.answer history.now key.now.secret heads.items ops.now) }
    ensures refused { IfErr result (λ why. IsPlanCause L.answer history.now key.now.secret ops.now why) }
{
    let heads = heads_for(alloc, history, key)?;
    match judge_draft(alloc, history, key.public(), &heads, ops)? {
        Verdict::Valid => Ok(heads),
        Verdict::Void { reason, operation } => Err(MakeFault::Invalid { reason, operation }),
    }
}

/// All heads, where the key may write and they can all be named.
fn heads_for<D: Disk, L: Relation, C: Checks<L>>(
    alloc: Global,
    history: &History<L, C>,
    key: &KeyStore<D>,
) -> Result<Vec<UpdateId>, MakeFault>
    ensures heads { IfOk result (λ heads. MayMake history.now key.now.secret heads.items) }
    ensures refused { (ops : List Operation)
        → IfErr result (λ why. IsPlanCause L.answer history.now key.now.secret ops why) }
{
    if !history.schema().rule().lists(&key.public()) {
        return Err(MakeFault::NotListed);
    }
    let count = history.head_count();
    if count > u32::from(MAX_PREDS) {
        return Err(MakeFault::TooManyHeads(count));
    }
    Ok(history.heads(alloc)?)
}

/// The verdict on these operations by an author after these predecessors, before they are signed.
fn judge_draft<L: Relation, C: Checks<L>>(
    alloc: Global,
    history: &History<L, C>,
    author: AuthorKey,
    preds: &[UpdateId],
    ops: &OpList,
) -> Result<Verdict, AllocError>
    requires few { length ops.now ≤ MAX_NODE_OPS }
    requires held { All (λ id. holds (map entry_of history.now.members) id ≡ true) preds.now }
    ensures { IfOk result (λ verdict. IsJudged L.answer history.now author preds.now ops.now verdict) }
{
    let draft = draft_of(alloc, history, author, preds, ops)?;
    history.judge(alloc, &draft)
}
