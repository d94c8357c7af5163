//! What an act does to the replica and its list.
ghost use Rattle.std.specs.Prelude.{◌≡◌, ◌<◌, ◌≤◌, ◌+◌, All, List, Some, ℕ, Err, IsTrue, IfOk, IfErr, OnErr, OnOk};
ghost use Rattle.std.specs.Prelude.{true, false, length, map, slice_get};
ghost use Rattle.std.specs.List.Sorted.{IsStrictlySortedBy};
ghost use Rattle.bec_bytes.specs.Causes.{Rose};
ghost use Rattle.bec_disk.specs.Disk.{EveryImage, LeavesOnly};
ghost use Rattle.key_index.specs.Used.{IsUsed};
ghost use Rattle.replica.specs.Making.{IsMakeCause, Makes};
ghost use Rattle.replica.specs.declared.make_fault.Side.TheVariants.{Key as KeySide};
ghost use Rattle.replica.specs.declared.make_fault.MakeFault.TheVariants.{DiskFault as DiskFailed};
ghost use Rattle.replica.specs.Signing.{KeyAfter};
ghost use Rattle.shared_replica.specs.Acts.{Grows, met_fault};
ghost use Rattle.shared_replica.specs.Entries.{IsStoreOf, updates_of};
ghost use Rattle.shared_replica.specs.Pieces.{IsPieceOf, is_full as makes_piece};
ghost use Rattle.shared_replica.specs.Sessions.{BelongsIn, IsUnder, met_store};
ghost use Rattle.session_rules.specs.declared.limits.TheConstants.{MAX_NEEDS};
ghost use Rattle.sync_session.specs.Kept.{updates_in, BelongsTo, GrowsBy, StepsTo};
ghost use Rattle.sync_session.specs.Starts.{StartsAs};
ghost use Rattle.row_check.specs.Checksum.{is_luhn};
ghost use Rattle.table_model.specs.Visible.{rules_with};
ghost use Rattle.tuple_state.specs.State.{IsStateOf};
ghost use Rattle.history.specs.Histories.{nodes_of};
ghost use Rattle.update_codec.specs.Parts.{entry_of};
ghost use Rattle.update_codec.specs.declared.limits.TheConstants.{UPDATE_LIMIT};
ghost use Rattle.update_model.specs.declared.limits.TheConstants.{MAX_OPS};
ghost use Rattle.update_model.specs.Batch.{store_limits};
ghost use Rattle.update_model.specs.Entry.{id_cmp};
ghost use Rattle.update_model.specs.Graph.{AreHeads};
ghost use Rattle.update_model.specs.Rows.{AreOps};

use crate::entry::Run;
use crate::limits::{PIECE_BYTES, PIECE_UPDATES};
use crate::stored::{Picture, Stored};
use bec_disk::Disk;
use key_index::KeyStore;
use replica::{MakeFault, Side};
use row_check::Luhn;
use session_rules::{End, Role};
use std::alloc::{AllocError, Global};
use sync_session::{CheckedFrame, Out, Session};
use update_model::{ByteList, IdList, OpList, UpdateId};

impl<D: Disk> Stored<D> {
    /// Makes an update, as an act of this seat. The room for what it may add is taken first.
    pub fn make(
        &mut self,
        alloc: Global,
        ops: OpList,
        key: &mut KeyStore<D>,
        c: &[u8; 32],
        seat: u64,
        act: u64,
    ) -> Result<UpdateId, MakeFault>
        requires few { length ops ≤ MAX_OPS }
        requires form { AreOps 0 ops }
        ensures grows { Grows self.old self.new seat act (met_fault result) }
        ensures made { IfOk result (λ id. Makes is_luhn self.old.store.history key.old.secret key.old.taken ops c.now id
            self.new.store.history) }
        ensures same { OnErr result (self.new.store.history ≡ self.old.store.history) }
        ensures refused { IfErr result (λ why. IsMakeCause is_luhn self.old.store.history key.old.secret key.old.taken
            ops c.now why) }
        ensures key { KeyAfter key.old result key.new }

        // A crash at any moment of it leaves each index used that was used.
        ensures used { (index : ℕ)
            → (IsTrue key.old.parts.used.tells → EveryImage key.old.parts.used.now (IsUsed index))
            → LeavesOnly key.old.parts.used key.new.parts.used (IsUsed index) }
        ensures key_later { key.old.parts.used_faults ≤ key.new.parts.used_faults }
        ensures key_failed { result ≡ Err (DiskFailed KeySide)
            → Rose key.old.parts.used_faults key.new.parts.used_faults }
    {
        self.runs.reserve(1)?;
        let made = self.replica.make(alloc, ops, key, c);
        self.replica.len(); // what is held is on the disk
        match made {
            Ok(_) => self.runs.push_reserved(Run {
                seat,
                act,
                count: 1,
                fault: false,
            }),
            Err(why) => {
                if why == MakeFault::DiskFault(Side::Log) {
                    self.runs.push_reserved(Run {
                        seat,
                        act,
                        count: 0,
                        fault: true,
                    });
                    self.runs.len(); // there are no more faults than acts
                    self.faults += 1;
                }
            }
        }
        made
    }

    /// How many updates the list has.
    pub fn len(&self) -> u32
        ensures value { result ≡ length (updates_of self.now.entries) }
        ensures list { IsStoreOf self.now.entries self.now.store }
    {
        self.replica.len()
    }

    /// The bytes of the updates at the first of these positions, counted over the updates of the list: of so many as
    /// make up a piece.
    pub fn fetch_some(&self, alloc: Global, positions: &[u32]) -> Result<Vec<ByteList>, AllocError>
        requires { All (λ p. p < length (updates_of self.now.entries)) positions.now }
        ensures piece { IfOk result (λ piece. IsPieceOf (updates_of self.now.entries) positions.now piece.items) }
        ensures list { IsStoreOf self.now.entries self.now.store }
    {
        self.len(); // the replica is as the list says
        let mut piece = Vec::new(alloc);
        let mut size = 0;
        'positions: for position in positions {
            let update = self.fetch(alloc, *position)?;
            size += update.as_slice().len();
            piece.push(update)?;
            if is_full(piece.len(), size) {
                return Ok(piece);
            }
        }
        Ok(piece)
    }

    /// The bytes of the update at a position, counted over the updates of the list.
    fn fetch(&self, alloc: Global, position: u32) -> Result<ByteList, AllocError>
        requires { position < length (updates_of self.now.entries) }
        ensures bytes { IfOk result (λ bytes. slice_get (updates_of self.now.entries) position ≡ Some bytes) }
        ensures short { IfOk result (λ bytes. length bytes ≤ UPDATE_LIMIT) }
    {
        let copy = self.replica.update_at(position).copy(alloc)?;
        Ok(ByteList::from_vec(copy.into_bytes()))
    }

    /// The heads and the tables of the updates of the list.
    pub fn snapshot(&self, alloc: Global) -> Result<Picture, AllocError>
        ensures heads { IfOk result (λ p. AreHeads (map entry_of (updates_of self.now.entries)) p.heads) }
        ensures tables { IfOk result (λ p. IsStateOf (rules_with is_luhn self.now.store.history.schema.tables)
            (nodes_of (updates_of self.now.entries)) p.tables) }
        ensures list { IsStoreOf self.now.entries self.now.store }
    {
        let heads = IdList::from_vec(self.replica.heads(alloc)?);
        let tables = self.replica.tables().copy(alloc)?;
        Ok(Picture { heads, tables })
    }

    /// Begins a session over the updates of the list, of the replica's database and under its node id.
    pub fn session_start(
        &self,
        alloc: Global,
        role: Role,
        recalled: IdList,
    ) -> Result<(Session, Out), AllocError>
        requires few { length recalled ≤ MAX_NEEDS }
        requires rising { IsStrictlySortedBy id_cmp recalled }
        ensures starts { IfOk result (λ p. StartsAs role self.now.store.history.schema.rule.database self.now.store.node
            recalled (updates_of self.now.entries) p.0 p.1) }
        ensures belongs { IfOk result (λ p. BelongsTo store_limits self.now.store.history.schema.rule p.0
            (updates_of self.now.entries)) }
        ensures list { IsStoreOf self.now.entries self.now.store }
    {
        let database = self.replica.schema().rule().database;
        let node = self.replica.node();
        Session::start(alloc, &self.replica, role, database, node, recalled)
    }

    /// One frame to a session, as an act of this seat. The room for what it may add is taken first; where there is
    /// none, the session is over.
    pub fn session_step(
        &mut self,
        alloc: Global,
        session: &mut Session,
        frame: CheckedFrame,
        seat: u64,
        act: u64,
    ) -> Result<Out, AllocError>
        requires belongs { BelongsIn self.old.entries session.old }
        requires under { IsUnder self.old.entries frame }
        ensures grows { Grows self.old self.new seat act (met_store result) }
        ensures steps { IfOk result (λ out. StepsTo store_limits session.old (updates_of self.old.entries) frame
            session.new out (updates_of self.new.entries)) }
        ensures belongs { BelongsTo store_limits self.old.store.history.schema.rule session.new
            (updates_of self.new.entries) }
        ensures within { IfOk result (λ out. All (λ p. p < length self.new.store.history.members) out.send) }
        ensures failed { OnErr result (session.new.failed ≡ true) }
        ensures gains { GrowsBy (updates_in session.old) (updates_of self.old.entries) (updates_of self.new.entries) }
    {
        if let Err(fault) = self.runs.reserve(1) {
            session.give_up();
            return Err(fault);
        }
        let before = self.replica.len();
        let answer = session.step(alloc, &mut self.replica, frame);
        let count = self.replica.len() - before; // what is held is on the disk
        if ended_by_store(&answer) {
            self.runs.push_reserved(Run {
                seat,
                act,
                count,
                fault: true,
            });
            self.runs.len(); // there are no more faults than acts
            self.faults += 1;
        } else if count > 0 {
            self.runs.push_reserved(Run {
                seat,
                act,
                count,
                fault: false,
            });
        }
        answer
    }
}

/// Whether so many updates, of so many bytes, make up a piece.
fn is_full(count: usize, size: usize) -> bool
    ensures { result ≡ makes_piece count size }
{
    count >= PIECE_UPDATES || size >= PIECE_BYTES
}

/// Whether the log's disk failed in a step of a session.
fn ended_by_store(answer: &Result<Out, AllocError>) -> bool
    ensures { result ≡ met_store answer.now }
{
    match answer {
        Ok(
            Out {
                end: Some(End::Store),
                ..
            },
        ) => true,
        _ => false,
    }
}
