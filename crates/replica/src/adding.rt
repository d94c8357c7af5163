//! Adding an update that is made behind all others.

ghost use Rattle.std.specs.Prelude.{◌≡◌, ◌≤◌, ◌++◌, ◌∷◌, ◌⊎◌, ◌↔◌, [], ℕ, None, All, Err, IsTrue, IfOk, IfErr, OnErr};
ghost use Rattle.std.specs.Prelude.{OnOk, length, map, true};
ghost use Rattle.bec_bytes.specs.Causes.{Rose};
ghost use Rattle.bec_bytes.specs.Framed.{stream_of};
ghost use Rattle.bec_disk.specs.Disk.{EveryImage, LeavesOnly};
ghost use Rattle.update_model.specs.Form.{AreRising, IsBody, IsNote, most_ops};
ghost use Rattle.update_model.specs.Graph.{holds};
ghost use Rattle.update_model.specs.Rows.{AreOps};
ghost use Rattle.update_model.specs.Rule.{IsListed};
ghost use Rattle.update_codec.specs.Parts.{entry_of};
ghost use Rattle.update_check.specs.Members.{AreMembers};
ghost use Rattle.update_check.specs.Signed.{node_of};
ghost use Rattle.table_model.specs.declared.verdict.Verdict.TheVariants.{Valid};
ghost use Rattle.history.specs.Histories.{verdict_after};
ghost use Rattle.update_log.specs.Log.{IsClean, IsLogOf};
ghost use Rattle.update_log.specs.Logset.{BeginsWith};
ghost use Rattle.key_index.specs.Used.{IsUsed};
ghost use Rattle.lms_tree.specs.SecretKey.{public_key};
ghost use Rattle.replica.specs.Faults.{adding_fault};
ghost use Rattle.replica.specs.Making.{AddsMade, IsAddCause, IsSignCause, body_with};
ghost use Rattle.replica.specs.Signing.{KeyAfter};
ghost use Rattle.replica.specs.declared.make_fault.Side.TheVariants.{Key as KeySide, Log as LogSide};
ghost use Rattle.replica.specs.declared.make_fault.MakeFault.TheVariants.{DiskFault as DiskFailed};

use crate::commit::write_tail;
use crate::contents::Contents;
use crate::make_fault::{MakeFault, Side};
use crate::signing::sign_update;
use bec_disk::{Disk, DiskError};
use history::History;
use key_index::KeyStore;
use row_check::{Checks, Relation};
use std::alloc::Global;
use table_model::Verdict;
use update_check::Checked;
use update_log::Log;
use update_model::{IdList, MAX_PREDS, Member, UpdateId};

/// Signs an update that says this after these predecessors, adds it behind all others, in memory and on the disk, and
/// answers its id. After an error the updates are as they were.
pub fn sign_and_add<D: Disk, L: Relation, C: Checks<L>>(
    alloc: Global,
    history: &mut History<L, C>,
    log: &mut Log<D>,
    key: &mut KeyStore<D>,
    c: &[u8; 32],
    preds: IdList,
    says: Contents,
    has_to_be_valid: bool,
) -> Result<UpdateId, MakeFault>
    requires few { length says.ops ≤ most_ops says.note }
    requires form { AreOps 0 says.ops }
    requires note { IsNote says.note }
    requires few_preds { length preds ≤ MAX_PREDS }
    requires rising { AreRising None preds }
    requires held { All (λ id. holds (map entry_of history.old.members) id ≡ true) preds }
    requires listed { IsListed history.old.schema.rule.authors (public_key key.old.secret) }
    requires members { AreMembers history.old.schema.rule history.old.members }
    requires log { IsLogOf history.old.members log.old }
    ensures added { IfOk result (λ id. AddsMade L.answer has_to_be_valid history.old key.old.secret key.old.taken preds
        says c.now id history.new) }
    ensures same { OnErr result (history.new ≡ history.old) }
    ensures schema { history.new.schema ≡ history.old.schema }
    ensures refused { IfErr result (λ why. IsSignCause history.old key.old.secret key.old.taken preds says c.now why
        ⊎ IsAddCause why) }
    ensures form { IsBody (body_with history.old (public_key key.old.secret) preds says) }
    ensures log { IsLogOf history.new.members log.new }
    ensures clean { IsTrue log.old.disk.tells → OnOk result (IsClean log.new.end log.new.disk) }
    ensures key { KeyAfter key.old result key.new }
    ensures any_moment { LeavesOnly log.old.disk log.new.disk (BeginsWith (stream_of history.old.members)) }
    ensures used { (index : ℕ) → (IsTrue key.old.parts.used.tells → EveryImage key.old.parts.used.now (IsUsed index))
        → LeavesOnly key.old.parts.used key.new.parts.used (IsUsed index) }
    ensures later { log.old.faults ≤ log.new.faults }
    ensures key_later { key.old.parts.used_faults ≤ key.new.parts.used_faults }
    ensures key_failed { result ≡ Err (DiskFailed KeySide) → Rose key.old.parts.used_faults key.new.parts.used_faults }
    ensures log_failed { result ≡ Err (DiskFailed LogSide) → Rose log.old.faults log.new.faults }
{
    log.is_unsure(); // what is acknowledged stands in front
    let update = sign_update(alloc, history, key, c, preds, says)?;
    let id = update.id();
    add_last(alloc, history, log, update, has_to_be_valid)?;
    Ok(id)
}

/// Adds a signed update behind all others, in memory and on the disk. Where it has to be valid and is not, it is not
/// added: that takes an update that names its own digest, since it was judged under another id before, and the answer
/// is as for want of memory. After an error the updates are as they were.
#[tactic(auto, using(crate::proofs::Mapped::add_cause, crate::proofs::Mapped::add_disk))]
fn add_last<D: Disk, L: Relation, C: Checks<L>>(
    alloc: Global,
    history: &mut History<L, C>,
    log: &mut Log<D>,
    update: Checked,
    has_to_be_valid: bool,
) -> Result<(), MakeFault>
    requires next { AreMembers history.old.schema.rule (history.old.members ++ update ∷ []) }
    requires log { IsLogOf history.old.members log.old }
    ensures added { OnOk result (history.new ≡ record {
      schema = history.old.schema;
      members = history.old.members ++ update ∷ [];
    }) }
    ensures valid { OnOk result (IsTrue has_to_be_valid → verdict_after L.answer history.old (node_of update) ≡ Valid) }
    ensures same { OnErr result (history.new ≡ history.old) }
    ensures schema { history.new.schema ≡ history.old.schema }
    ensures refused { IfErr result IsAddCause }
    ensures log { IsLogOf history.new.members log.new }
    ensures clean { IsTrue log.old.disk.tells → OnOk result (IsClean log.new.end log.new.disk) }
    ensures any_moment { LeavesOnly log.old.disk log.new.disk (BeginsWith (stream_of history.old.members)) }
    ensures later { log.old.faults ≤ log.new.faults }
    ensures failed { result ≡ Err (DiskFailed LogSide) → Rose log.old.faults log.new.faults }
{
    log.is_unsure(); // what is acknowledged stands in front
    let len = history.len();
    let verdict = history.push(alloc, update)?;
    if !may_stand(has_to_be_valid, verdict) {
        history.cut(len);
        return Err(MakeFault::Memory);
    }
    history.len(); // what was added is within the limits
    match write_tail(alloc, log, history, len) {
        Ok(_ids) => Ok(()),
        Err(error) => {
            history.cut(len);
            Err(adding_fault(error))
        }
    }
}

/// Whether an update with this verdict may be added.
fn may_stand(has_to_be_valid: bool, verdict: Verdict) -> bool
    ensures { IsTrue result ↔ (IsTrue has_to_be_valid → verdict ≡ Valid) }
{
    match verdict {
        Verdict::Valid => true,
        Verdict::Void { .. } => !has_to_be_valid,
    }
}

/// What an error over the log's disk is to an update that was signed.
fn adding_fault(error: DiskError) -> MakeFault
    ensures { result ≡ adding_fault error }
{
    match error {
        DiskError::DiskFault => MakeFault::DiskFault(Side::Log),
        DiskError::Memory => MakeFault::Memory,
    }
}
