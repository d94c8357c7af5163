//! The acts of a shared replica.
ghost use Rattle.std.specs.Prelude.{◌≡◌, ◌<◌, ◌≤◌, ℕ, All, List, false, true, Err, IsTrue, IfOk, IfErr, OnErr, length};
ghost use Rattle.std.specs.Prelude.{map};
ghost use Rattle.std.specs.List.Sorted.{IsStrictlySortedBy};
ghost use Rattle.history.specs.Histories.{nodes_of};
ghost use Rattle.bec_bytes.specs.Causes.{Rose};
ghost use Rattle.bec_disk.specs.Disk.{EveryImage, LeavesOnly};
ghost use Rattle.key_index.specs.Used.{IsUsed};
ghost use Rattle.replica.specs.Making.{IsMakeCause, Makes};
ghost use Rattle.replica.specs.declared.make_fault.Side.TheVariants.{Key as KeySide};
ghost use Rattle.replica.specs.declared.make_fault.MakeFault.TheVariants.{DiskFault as DiskFailed};
ghost use Rattle.replica.specs.Replicas.{ReplicaState};
ghost use Rattle.replica.specs.Signing.{KeyAfter};
ghost use Rattle.shared_replica.specs.declared.entry.Entry.{Entry};
ghost use Rattle.shared_replica.specs.Acts.{IsAct, met_fault};
ghost use Rattle.shared_replica.specs.Entries.{updates_of};
ghost use Rattle.shared_replica.specs.Pieces.{IsPieceOf};
ghost use Rattle.shared_replica.specs.Sessions.{BelongsIn, IsUnder, met_store};
ghost use Rattle.session_rules.specs.declared.limits.TheConstants.{MAX_NEEDS};
ghost use Rattle.sync_session.specs.Kept.{updates_in, BelongsTo, GrowsBy, StepsTo};
ghost use Rattle.sync_session.specs.Starts.{StartsAs};
ghost use Rattle.row_check.specs.Checksum.{is_luhn};
ghost use Rattle.table_model.specs.Visible.{rules_with};
ghost use Rattle.tuple_state.specs.State.{IsStateOf};
ghost use Rattle.update_codec.specs.Parts.{entry_of};
ghost use Rattle.update_model.specs.declared.limits.TheConstants.{MAX_OPS};
ghost use Rattle.update_model.specs.Batch.{store_limits};
ghost use Rattle.update_model.specs.Entry.{id_cmp};
ghost use Rattle.update_model.specs.Graph.{AreHeads};
ghost use Rattle.update_model.specs.Rows.{AreOps};

use crate::shared::{Acted, Pass, Shared};
use crate::stored::Picture;
use bec_disk::Disk;
use key_index::KeyStore;
use replica::MakeFault;
use row_check::Luhn;
use session_rules::Role;
use std::alloc::{AllocError, Global};
use std::sync::Wait;
use sync_session::{CheckedFrame, Out, Session};
use update_model::{ByteList, IdList, OpList, UpdateId};

impl<D: Disk> Shared<D> {
    /// Makes an update of these operations by a key, after all heads, as `Replica::make` does, and answers its id.
    /// There are at most 64 operations, of which `update_model::check_ops` is true. The answer is [`MakeFault::Memory`]
    /// too where there is no room for an entry.
    pub fn make<R: Wait>(
        &self,
        rt: &R,
        alloc: Global,
        pass: Pass<D>,
        ops: OpList,
        key: &mut KeyStore<D>,
        c: &[u8; 32],
    ) -> Acted<D, Result<UpdateId, MakeFault>>
        requires lock { pass.lock ≡ self.now.lock }
        requires few { length ops ≤ MAX_OPS }
        requires form { AreOps 0 ops }
        ensures act { (P : List Entry) × (old : ReplicaState) × (new : ReplicaState)
            × IsAct pass result.pass P old new (met_fault result.answer)
            × IfOk result.answer (λ id. Makes is_luhn old.history key.old.secret key.old.taken ops c.now id new.history)
            × IfErr result.answer (λ why. IsMakeCause is_luhn old.history key.old.secret key.old.taken ops c.now why)
            × OnErr result.answer (new.history ≡ old.history) }
        ensures key { KeyAfter key.old result.answer key.new }

        // A crash at any moment of it leaves each index used that was used.
        ensures used { (index : ℕ)
            → (IsTrue key.old.parts.used.tells → EveryImage key.old.parts.used.now (IsUsed index))
            → LeavesOnly key.old.parts.used key.new.parts.used (IsUsed index) }
        ensures key_later { key.old.parts.used_faults ≤ key.new.parts.used_faults }
        ensures key_failed { result.answer ≡ Err (DiskFailed KeySide)
            → Rose key.old.parts.used_faults key.new.parts.used_faults }
    {
        let (held, mut stored) = self.lock.take(rt, pass);
        let answer = stored.make(alloc, ops, key, c, held.seat(), held.act());
        Acted {
            pass: self.lock.give(held, stored),
            answer,
        }
    }

    /// How many updates there are. The pass that comes back has seen them all.
    pub fn len<R: Wait>(&self, rt: &R, pass: Pass<D>) -> Acted<D, u32>
        requires { pass.lock ≡ self.now.lock }
        ensures act { (P : List Entry) × (store : ReplicaState) × IsAct pass result.pass P store store false }
        ensures value { result.answer ≡ length (updates_of result.pass.seen) }
    {
        let (held, stored) = self.lock.take(rt, pass);
        let answer = stored.len();
        Acted {
            pass: self.lock.give(held, stored),
            answer,
        }
    }

    /// The bytes of the updates at the first of these positions, in order, in one turn: of one at least where there is
    /// one. They end where the positions do, with [`PIECE_UPDATES`](crate::PIECE_UPDATES) updates, or once they have
    /// [`PIECE_BYTES`](crate::PIECE_BYTES) bytes, so they have fewer than 524,288. Each position is below the number of
    /// updates that the pass has seen. The error is want of memory.
    pub fn fetch_some<R: Wait>(
        &self,
        rt: &R,
        alloc: Global,
        pass: Pass<D>,
        positions: &[u32],
    ) -> Acted<D, Result<Vec<ByteList>, AllocError>>
        requires lock { pass.lock ≡ self.now.lock }
        requires seen { All (λ p. p < length (updates_of pass.seen)) positions.now }
        ensures { (P : List Entry) × (store : ReplicaState) × IsAct pass result.pass P store store false
            × IfOk result.answer (λ piece. IsPieceOf (updates_of P) positions.now piece.items) }
    {
        let (held, stored) = self.lock.take(rt, pass);
        let answer = stored.fetch_some(alloc, positions);
        Acted {
            pass: self.lock.give(held, stored),
            answer,
        }
    }

    /// The heads and the tables, on memory of their own. The error is want of memory.
    pub fn snapshot<R: Wait>(
        &self,
        rt: &R,
        alloc: Global,
        pass: Pass<D>,
    ) -> Acted<D, Result<Picture, AllocError>>
        requires { pass.lock ≡ self.now.lock }
        ensures { (P : List Entry) × (store : ReplicaState) × IsAct pass result.pass P store store false
            × IfOk result.answer (λ p. AreHeads (map entry_of (updates_of P)) p.heads)
            × IfOk result.answer (λ p. IsStateOf (rules_with is_luhn store.history.schema.tables)
            (nodes_of (updates_of P)) p.tables) }
    {
        let (held, stored) = self.lock.take(rt, pass);
        let answer = stored.snapshot(alloc);
        Acted {
            pass: self.lock.give(held, stored),
            answer,
        }
    }

    /// Begins a session over the updates of the list, of the replica's database and under its node id, as
    /// `Session::start` does. `recalled` are the ids that were remembered of the peer when they last met, which rise:
    /// none where they never did. The error is want of memory.
    pub fn session_start<R: Wait>(
        &self,
        rt: &R,
        alloc: Global,
        pass: Pass<D>,
        role: Role,
        recalled: IdList,
    ) -> Acted<D, Result<(Session, Out), AllocError>>
        requires lock { pass.lock ≡ self.now.lock }
        requires few { length recalled ≤ MAX_NEEDS }
        requires rising { IsStrictlySortedBy id_cmp recalled }
        ensures { (P : List Entry) × (store : ReplicaState) × IsAct pass result.pass P store store false
            × IfOk result.answer (λ p. StartsAs role store.history.schema.rule.database store.node recalled
            (updates_of P) p.0 p.1)
            × IfOk result.answer (λ p. BelongsTo store_limits store.history.schema.rule p.0 (updates_of P)) }
    {
        let (held, stored) = self.lock.take(rt, pass);
        let answer = stored.session_start(alloc, role, recalled);
        Acted {
            pass: self.lock.give(held, stored),
            answer,
        }
    }

    /// Takes the peer's next frame, and answers what is to be sent, as `Session::step` does. An update has to be under
    /// the rule of the schema with which the pass's list begins, and the session has to belong to what the pass has
    /// seen, as it does after [`Shared::session_start`] and after each call of this, however many acts the pass has
    /// made since.
    ///
    /// The act adds what the step added, and one fault exactly where the session ends by the store. The error is want
    /// of memory, also of room for an entry. The session is over then, and what was added stays.
    pub fn session_step<R: Wait>(
        &self,
        rt: &R,
        alloc: Global,
        pass: Pass<D>,
        session: &mut Session,
        frame: CheckedFrame,
    ) -> Acted<D, Result<Out, AllocError>>
        requires lock { pass.lock ≡ self.now.lock }
        requires belongs { BelongsIn pass.seen session.old }
        requires under { IsUnder pass.seen frame }
        ensures { (P : List Entry) × (old : ReplicaState) × (new : ReplicaState)
            × IsAct pass result.pass P old new (met_store result.answer)
            × IfOk result.answer (λ out. StepsTo store_limits session.old (updates_of P) frame session.new out
            (updates_of result.pass.seen))
            × BelongsTo store_limits old.history.schema.rule session.new (updates_of result.pass.seen)
            × OnErr result.answer (session.new.failed ≡ true)
            × GrowsBy (updates_in session.old) (updates_of P) (updates_of result.pass.seen)
            × IfOk result.answer (λ out. All (λ p. p < length (updates_of result.pass.seen)) out.send) }
    {
        let (held, mut stored) = self.lock.take(rt, pass);
        let answer = stored.session_step(alloc, session, frame, held.seat(), held.act());
        Acted {
            pass: self.lock.give(held, stored),
            answer,
        }
    }
}
