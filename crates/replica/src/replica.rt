ghost use Rattle.std.specs.Prelude.{◌≡◌, ◌≤◌, ◌<◌, ℕ, List, All, Some, IsTrue, IfOk, IfErr, OnOk, OnErr, IsErrOf};
ghost use Rattle.std.specs.Prelude.{length, map, slice_get};
ghost use Rattle.bec_bytes.specs.Causes.{Rose};
ghost use Rattle.bec_bytes.specs.Framed.{stream_of};
ghost use Rattle.bec_disk.specs.Disk.{EveryImage, LeavesOnly};
ghost use Rattle.update_model.specs.Batch.{store_limits};
ghost use Rattle.update_model.specs.Graph.{AreHeads};
ghost use Rattle.update_model.specs.Rows.{AreOps};
ghost use Rattle.update_model.specs.declared.limits.TheConstants.{MAX_OPS};
ghost use Rattle.update_codec.specs.Parts.{entry_of};
ghost use Rattle.update_check.specs.Holding.{Commits};
ghost use Rattle.update_check.specs.Signed.{IsChecked};
ghost use Rattle.table_model.specs.Visible.{rules_with};
ghost use Rattle.tuple_state.specs.State.{IsStateOf};
ghost use Rattle.confluence_test.specs.Taking.{TakesSchema};
ghost use Rattle.history.specs.Histories.{IsHistory, nodes_of};
ghost use Rattle.key_index.specs.Used.{IsUsed};
ghost use Rattle.update_log.specs.Log.{IsLogOf};
ghost use Rattle.update_log.specs.Logset.{BeginsWith};
ghost use Rattle.replica.specs.Making.{IsJoinCause, IsMakeCause, JoinsTo, Makes};
ghost use Rattle.replica.specs.Replicas.{IsSameStore};
ghost use Rattle.replica.specs.Signing.{KeyAfter};
ghost use Rattle.replica.specs.declared.make_fault.Side.TheVariants.{Key as KeySide, Log as LogSide};

use crate::make_fault::{MakeFault, Side};
use bec_disk::{Disk, MemDisk};
use hash_graph::Graph;
use history::History;
use key_index::KeyStore;
use row_check::{Checks, Native, Relation};
use schema::Schema;
use std::alloc::{AllocError, Global};
use std::marker::Model;
use tuple_state::Tables;
use update_check::{Checked, CommitFault, Committed};
use update_log::Log;
use update_model::{OpList, UpdateId};

/// A store that is open: a node's id, the history of its updates, and the log that they stand in.
///
/// Its type keeps that each invariant of the schema survives merging, that the updates are a closed list under the
/// schema's rule, that heads, ancestors and tables are those of this list, and that a crash at this moment leaves a log
/// that begins with it.
#[derive(Drop)]
pub struct Replica<D: Disk, L: Relation, C: Checks<L>> {
    pub(crate) node: [u8; 32],
    pub(crate) history: History<L, C>,
    pub(crate) log: Log<D>,
}

impl<D: Disk, L: Relation, C: Checks<L>> Model for Replica<D, L, C> {
    ghost use Rattle.schema.specs.Checks.{coded_tree};
    ghost use Rattle.std.specs.Coded.{codes};
    ghost use Rattle.replica.specs.Replicas.{IsReplica, ReplicaState};

    ghost Value = { ReplicaState };

    ghost coded = { Prim.hlevel (codes, coded_tree) };

    ghost view = { λ r. record { node = r.node; history = r.history; log = r.log } };

    ghost invariant = { λ r. IsReplica L.answer (record { node = r.node; history = r.history; log = r.log }) };
}

impl<D: Disk, L: Relation, C: Checks<L>> Replica<D, L, C> {
    /// The id of its node.
    pub fn node(&self) -> [u8; 32]
        ensures { result ≡ self.now.node }
    {
        self.node
    }

    /// How many updates it holds, and what holds of every replica.
    pub fn len(&self) -> u32
        ensures value { result ≡ length self.now.history.members }
        ensures taken { TakesSchema L.answer self.now.history.schema.text self.now.history.schema }
        ensures history { IsHistory self.now.history }
        ensures log { IsLogOf self.now.history.members self.now.log }
        ensures on_disk { IsTrue self.now.log.disk.tells
            → EveryImage self.now.log.disk.now (BeginsWith (stream_of self.now.history.members)) }
    {
        self.log.is_unsure(); // what is acknowledged stands in front
        self.history.len()
    }

    /// Whether it holds no update.
    pub fn is_empty(&self) -> bool
        ensures { IsTrue result → length self.now.history.members ≡ 0 }
    {
        self.history.len() == 0
    }

    /// The ids of the heads, rising.
    pub fn heads(&self, alloc: Global) -> Result<Vec<UpdateId>, AllocError>
        ensures { IfOk result (λ heads. AreHeads (map entry_of self.now.history.members) heads.items) }
    {
        self.history.heads(alloc)
    }

    /// The schema.
    pub fn schema(&self) -> &Schema
        ensures { result.now ≡ self.now.history.schema }
    {
        self.history.schema()
    }

    /// The tables of the updates.
    pub fn tables(&self) -> &Tables
        ensures { IsStateOf (rules_with L.answer self.now.history.schema.tables) (nodes_of self.now.history.members)
            result.now }
    {
        self.history.tables()
    }

    /// The updates as a graph.
    pub fn graph(&self) -> &Graph<Checked>
        ensures { result.now ≡ self.now.history.members }
    {
        self.history.graph()
    }

    /// The update at a position, counted from 0 in the order of arrival.
    pub fn update_at(&self, position: u32) -> &Checked
        requires { position < length self.now.history.members }
        ensures { slice_get self.now.history.members position ≡ Some result.now }
    {
        self.history.at(position)
    }

    /// Gives the disk of the log and the native checks back.
    pub fn into_parts(self) -> (D, Native<L, C>)
        ensures state { D.state result.0 ≡ self.log.disk }
        ensures faults { D.faults result.0 ≡ self.log.faults }
    {
        let Replica { log, history, .. } = self;
        (log.into_disk(), history.into_native())
    }
}

impl<L: Relation, C: Checks<L>> Replica<MemDisk, L, C> {
    /// Lets the log's disk pass so many calls more and then fail every call.
    pub fn arm(&mut self, calls: u32)
        ensures { self.new ≡ self.old }
    {
        self.log.arm(calls);
    }

    /// Whether a call of the log's disk failed for want of memory.
    pub fn starved(&self) -> bool {
        self.log.starved()
    }
}
