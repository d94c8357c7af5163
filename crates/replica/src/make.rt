//! Making updates by a key.

ghost use Rattle.std.specs.Prelude.{◌≡◌, ◌≤◌, ℕ, Err, IsTrue, IfOk, IfErr, IfNone, IfSome, OnErr, OnOk, List};
ghost use Rattle.std.specs.Prelude.{length, map, take};
ghost use Rattle.bec_bytes.specs.Causes.{Rose};
ghost use Rattle.bec_bytes.specs.Framed.{stream_of};
ghost use Rattle.bec_disk.specs.Disk.{EveryImage, LeavesOnly};
ghost use Rattle.update_model.specs.declared.limits.TheConstants.{MAX_NOTE, MAX_OPS, MAX_PREDS};
ghost use Rattle.update_model.specs.declared.update_id.UpdateId.{UpdateId as Id};
ghost use Rattle.update_model.specs.Form.{IsNote, most_ops};
ghost use Rattle.update_model.specs.Graph.{AreHeads};
ghost use Rattle.update_codec.specs.Parts.{entry_of};
ghost use Rattle.update_model.specs.Rows.{AreOps};
ghost use Rattle.key_index.specs.Used.{IsUsed};
ghost use Rattle.update_log.specs.Log.{IsClean};
ghost use Rattle.update_log.specs.Logset.{BeginsWith};
ghost use Rattle.replica.specs.Making.{IsJoinCause, IsMakeCause, IsMakeCauseWith, JoinsTo, Makes, MakesWith, SignsBody};
ghost use Rattle.replica.specs.Making.{SignsBodyWith, saying};
ghost use Rattle.replica.specs.Replicas.{IsSameStore};
ghost use Rattle.replica.specs.Signing.{KeyAfter, KeyAfterJoin};
ghost use Rattle.replica.specs.declared.make_fault.Side.TheVariants.{Key as KeySide, Log as LogSide};
ghost use Rattle.replica.specs.declared.make_fault.MakeFault.TheVariants.{DiskFault as DiskFailed};

use crate::adding::sign_and_add;
use crate::contents::Contents;
use crate::make_fault::{MakeFault, Side};
use crate::planning::plan;
use crate::replica::Replica;
use bec_disk::Disk;
use history::History;
use key_index::KeyStore;
use row_check::{Checks, Relation};
use std::alloc::{AllocError, Global};
use update_model::{IdList, MAX_PLAIN_OPS, MAX_PREDS, OpList, TextValue, UpdateId};

impl<D: Disk, L: Relation, C: Checks<L>> Replica<D, L, C> {
    /// Makes an update of these operations by a key, after all heads, adds it behind all others, and answers its id. It
    /// is valid, and it is on the disk. `c` are the 32 random bytes that the signed message is digested behind.
    ///
    /// There are at most 256 operations, of which `update_model::check_ops` is true; where there are more than 64, the
    /// update has an empty note. After a refusal the updates are as they were. Where the id is taken, or the log's disk
    /// failed, an index of the key was used for one signature, which is given up; where the key's disk failed, the
    /// index that was tried is used and no signature was made.
    pub fn make(
        &mut self,
        alloc: Global,
        ops: OpList,
        key: &mut KeyStore<D>,
        c: &[u8; 32],
    ) -> Result<UpdateId, MakeFault>
        requires few { length ops ≤ MAX_OPS }
        requires form { AreOps 0 ops }
        ensures made { IfOk result (λ id. Makes L.answer self.old.history key.old.secret key.old.taken ops c.now id
            self.new.history) }
        ensures same { OnErr result (self.new.history ≡ self.old.history) }
        ensures store { IsSameStore self.old self.new }
        ensures refused { IfErr result (λ why. IsMakeCause L.answer self.old.history key.old.secret key.old.taken ops
            c.now why) }
        ensures clean { IsTrue self.old.log.disk.tells → OnOk result (IsClean self.new.log.end self.new.log.disk) }
        ensures key { KeyAfter key.old result key.new }
        ensures signs { SignsBody result self.old.history key.old.secret ops }

        // A crash at any moment of it leaves what was held in front, and each index used that was used.
        ensures any_moment { LeavesOnly self.old.log.disk self.new.log.disk
            (BeginsWith (stream_of self.old.history.members)) }
        ensures used { (index : ℕ)
            → (IsTrue key.old.parts.used.tells → EveryImage key.old.parts.used.now (IsUsed index))
            → LeavesOnly key.old.parts.used key.new.parts.used (IsUsed index) }
        ensures later { self.old.log.faults ≤ self.new.log.faults }
        ensures key_later { key.old.parts.used_faults ≤ key.new.parts.used_faults }
        ensures key_failed { result ≡ Err (DiskFailed KeySide)
            → Rose key.old.parts.used_faults key.new.parts.used_faults }
        ensures log_failed { result ≡ Err (DiskFailed LogSide) → Rose self.old.log.faults self.new.log.faults }
    {
        self.make_noted(alloc, ops, None, key, c)
    }

    /// Makes an update of these operations that has this note, of at most 256 bytes, or none. It is [`Replica::make`]
    /// otherwise.
    #[tactic(auto, using(crate::proofs::Declaring::still_taken))]
    pub fn make_noted(
        &mut self,
        alloc: Global,
        ops: OpList,
        note: Option<TextValue>,
        key: &mut KeyStore<D>,
        c: &[u8; 32],
    ) -> Result<UpdateId, MakeFault>
        requires few { length ops ≤ MAX_OPS }
        requires form { AreOps 0 ops }
        requires short { IfSome note (λ n. length n ≤ MAX_NOTE) }
        ensures made { IfOk result (λ id. MakesWith L.answer self.old.history key.old.secret key.old.taken
            (saying note ops) c.now id self.new.history) }
        ensures same { OnErr result (self.new.history ≡ self.old.history) }
        ensures store { IsSameStore self.old self.new }
        ensures refused { IfErr result (λ why. IsMakeCauseWith L.answer self.old.history key.old.secret key.old.taken
            (saying note ops) c.now why) }
        ensures clean { IsTrue self.old.log.disk.tells → OnOk result (IsClean self.new.log.end self.new.log.disk) }
        ensures key { KeyAfter key.old result key.new }
        ensures signs { SignsBodyWith result self.old.history key.old.secret (saying note ops) }

        // A crash at any moment of it leaves what was held in front, and each index used that was used.
        ensures any_moment { LeavesOnly self.old.log.disk self.new.log.disk
            (BeginsWith (stream_of self.old.history.members)) }
        ensures used { (index : ℕ)
            → (IsTrue key.old.parts.used.tells → EveryImage key.old.parts.used.now (IsUsed index))
            → LeavesOnly key.old.parts.used key.new.parts.used (IsUsed index) }
        ensures later { self.old.log.faults ≤ self.new.log.faults }
        ensures key_later { key.old.parts.used_faults ≤ key.new.parts.used_faults }
        ensures key_failed { result ≡ Err (DiskFailed KeySide)
            → Rose key.old.parts.used_faults key.new.parts.used_faults }
        ensures log_failed { result ≡ Err (DiskFailed LogSide) → Rose self.old.log.faults self.new.log.faults }
    {
        self.log.is_unsure(); // what is acknowledged stands in front
        let heads = plan(alloc, &self.history, key, &ops)?;
        self.history.len(); // what is held is in order
        let preds = IdList::from_vec(heads);
        let says = contents_of(alloc, ops, note);
        sign_and_add(
            alloc,
            &mut self.history,
            &mut self.log,
            key,
            c,
            preds,
            says,
            true,
        )
    }

    /// Joins the heads by an update without operations, which names the least 1,024 of them, and answers its id. Where
    /// there are fewer than two, nothing is made and the answer is `None`, before every refusal.
    ///
    /// Of the refusals only `NotListed`, `Full`, `Spent`, `Taken`, `DiskFault` and `Memory` come.
    #[tactic(auto, using(crate::proofs::Declaring::still_taken))]
    pub fn join(
        &mut self,
        alloc: Global,
        key: &mut KeyStore<D>,
        c: &[u8; 32],
    ) -> Result<Option<UpdateId>, MakeFault>
        ensures joined { IfOk result (λ id. JoinsTo self.old.history key.old.secret key.old.taken c.now id
            self.new.history) }
        ensures same { OnErr result (self.new.history ≡ self.old.history) }
        ensures store { IsSameStore self.old self.new }
        ensures refused { IfErr result (λ why. IsJoinCause self.old.history key.old.secret key.old.taken c.now why) }
        ensures clean { IsTrue self.old.log.disk.tells
            → IfOk result (λ id. IfSome id (λ _. IsClean self.new.log.end self.new.log.disk)) }
        ensures untouched { IfOk result (λ id. IfNone id (self.new ≡ self.old)) }
        ensures key { KeyAfterJoin key.old result key.new }

        // A crash at any moment of it leaves what was held in front, and each index used that was used.
        ensures any_moment { LeavesOnly self.old.log.disk self.new.log.disk
            (BeginsWith (stream_of self.old.history.members)) }
        ensures used { (index : ℕ)
            → (IsTrue key.old.parts.used.tells → EveryImage key.old.parts.used.now (IsUsed index))
            → LeavesOnly key.old.parts.used key.new.parts.used (IsUsed index) }
        ensures later { self.old.log.faults ≤ self.new.log.faults }
        ensures key_later { key.old.parts.used_faults ≤ key.new.parts.used_faults }
        ensures key_failed { result ≡ Err (DiskFailed KeySide)
            → Rose key.old.parts.used_faults key.new.parts.used_faults }
        ensures log_failed { result ≡ Err (DiskFailed LogSide) → Rose self.old.log.faults self.new.log.faults }
    {
        self.log.is_unsure(); // what is acknowledged stands in front
        if self.history.head_count() < 2 {
            return Ok(None);
        }
        if !self.history.schema().rule().lists(&key.public()) {
            return Err(MakeFault::NotListed);
        }
        let preds = least_heads(alloc, &self.history)?;
        self.history.len(); // what is held is in order
        let ops = OpList::from_vec(Vec::new(alloc));
        let none = Contents { ops, note: None };
        let id = sign_and_add(
            alloc,
            &mut self.history,
            &mut self.log,
            key,
            c,
            preds,
            none,
            false,
        )?;
        Ok(Some(id))
    }
}

/// What an update of these operations says, which are given this note, or none.
fn contents_of(alloc: Global, ops: OpList, note: Option<TextValue>) -> Contents
    requires few { length ops ≤ MAX_OPS }
    requires short { IfSome note (λ n. length n ≤ MAX_NOTE) }
    ensures value { result ≡ saying note ops }
    ensures few { length result.ops ≤ most_ops result.note }
    ensures note { IsNote result.note }
{
    if let Some(text) = note {
        text.as_slice(); // it is UTF-8
        return Contents {
            ops,
            note: Some(text),
        };
    }
    if ops.as_slice().len() <= usize::from(MAX_PLAIN_OPS) {
        return Contents { ops, note: None };
    }
    let empty = TextValue::from_vec(Vec::new(alloc));
    Contents {
        ops,
        note: Some(empty),
    }
}

/// The least heads, as many as an update may name.
fn least_heads<L: Relation, C: Checks<L>>(
    alloc: Global,
    history: &History<L, C>,
) -> Result<IdList, AllocError>
    ensures { IfOk result (λ preds. (heads : List Id) × AreHeads (map entry_of history.now.members) heads
        × (preds ≡ take MAX_PREDS heads)) }
{
    let mut heads = history.heads(alloc)?;
    heads.truncate(usize::from(MAX_PREDS));
    Ok(IdList::from_vec(heads))
}
