ghost use Rattle.std.specs.Prelude.{◌≡◌, ◌<◌, ◌≤◌, ◌++◌, ◌∷◌, [], All, List, Some, Err, ◌↔◌, IfOk, IsTrue, OnErr, OnOk};
ghost use Rattle.std.specs.Prelude.{drop, length, map, slice_get, take};
ghost use Rattle.update_model.specs.declared.update_id.UpdateId.{UpdateId as Id};
ghost use Rattle.update_model.specs.Batch.{IsTooMuch, store_limits};
ghost use Rattle.update_model.specs.Graph.{AreHeads, byte_count, position_of};
ghost use Rattle.update_codec.specs.Parts.{entry_of};
ghost use Rattle.update_check.specs.Holding.{ArePositionsSince};
ghost use Rattle.update_check.specs.Members.{AreMembers};
ghost use Rattle.update_check.specs.Signed.{IsChecked, node_of};
ghost use Rattle.std.specs.List.{list_all};
ghost use Rattle.table_model.specs.Nodes.{IsNext};
ghost use Rattle.table_model.specs.Verdicts.{is_unlimited};
ghost use Rattle.table_model.specs.Visible.{rules_with};
ghost use Rattle.tuple_state.specs.State.{IsStateOf};
ghost use Rattle.ready_batch.specs.Ready.{AddsReady};
ghost use Rattle.history.specs.Histories.{IsHistory, nodes_of, verdict_after};

use crate::NoHistory;
use crate::draft::judge_draft;
use crate::growing::{grow, grow_by_one};
use crate::since::positions_since;
use crate::views::Views;
use hash_graph::Graph;
use ready_batch::AddFault;
use row_check::{Checks, Native, Relation};
use schema::Schema;
use std::alloc::{AllocError, Global};
use std::marker::Model;
use table_model::Verdict;
use tuple_state::Tables;
use update_check::Checked;
use update_model::{Node, UpdateId};

/// A closed list of updates under a schema without `ATMOST` and whose `UNIQUE` lines are with `KEEP LEAST`, and what is
/// kept of it: heads, ancestors and tables. It is in memory alone. A contract sees the schema and the updates in the
/// order of arrival.
#[derive(Drop)]
pub struct History<L: Relation, C: Checks<L>> {
    schema: Schema,
    native: Native<L, C>,
    graph: Graph<Checked>,
    views: Views,
}

impl<L: Relation, C: Checks<L>> Model for History<L, C> {
    ghost use Rattle.schema.specs.Checks.{coded_tree};
    ghost use Rattle.std.specs.Coded.{codes};
    ghost use Rattle.history.specs.Histories.{HistoryData};
    ghost use Rattle.history.specs.Kept.{IsKept};

    ghost Value = { HistoryData };

    ghost coded = { Prim.hlevel (codes, coded_tree) };

    ghost view = { λ history. record { schema = history.schema; members = history.graph } };

    ghost invariant = { λ history. IsKept L.answer history.schema history.graph history.views };
}

impl<L: Relation, C: Checks<L>> History<L, C> {
    /// The history of a graph under a schema without `ATMOST` and whose `UNIQUE` lines are with `KEEP LEAST`, as
    /// [`validity::is_unlimited`] tells: each of its updates is judged once. Where memory runs out, the native checks
    /// come back.
    pub fn over(
        alloc: Global,
        schema: Schema,
        native: Native<L, C>,
        graph: Graph<Checked>,
    ) -> Result<History<L, C>, NoHistory<L, C>>
        requires unlimited { IsTrue (list_all is_unlimited schema.tables) }
        requires members { AreMembers schema.rule graph }
        ensures { IfOk result (λ history. history ≡ record { schema = schema; members = graph }) }
    {
        match Views::over(alloc, &schema, &native, &graph) {
            Ok(views) => Ok(History {
                schema,
                native,
                graph,
                views,
            }),
            Err(_) => Err(NoHistory { native }),
        }
    }

    /// How many updates there are, and what holds of every history.
    pub fn len(&self) -> u32
        ensures value { result ≡ length self.now.members }
        ensures kept { IsHistory self.now }
    {
        self.graph.len()
    }

    /// Whether there is no update.
    pub fn is_empty(&self) -> bool
        ensures { IsTrue result ↔ (length self.now.members ≡ 0) }
    {
        self.graph.is_empty()
    }

    /// The position of the update with this id, or `None` where none has it.
    pub fn position(&self, id: &UpdateId) -> Option<u32>
        ensures { result ≡ position_of (map entry_of self.now.members) id.now }
    {
        self.graph.position(id)
    }

    /// The update at a position, counted from 0 in the order of arrival.
    pub fn at(&self, position: u32) -> &Checked
        requires { position < length self.now.members }
        ensures { slice_get self.now.members position ≡ Some result.now }
    {
        self.graph.at(position)
    }

    /// The updates from a position on, in the order of arrival.
    pub fn tail(&self, from: u32) -> &[Checked]
        requires { from ≤ length self.now.members }
        ensures { result.now ≡ drop from self.now.members }
    {
        self.graph.tail(from)
    }

    /// The updates as a graph.
    pub fn graph(&self) -> &Graph<Checked>
        ensures { result.now ≡ self.now.members }
    {
        &self.graph
    }

    /// How many bytes the updates have together.
    pub fn byte_len(&self) -> u64
        ensures { result ≡ byte_count (map entry_of self.now.members) }
    {
        self.graph.byte_len()
    }

    /// The schema.
    pub fn schema(&self) -> &Schema
        ensures { result.now ≡ self.now.schema }
    {
        &self.schema
    }

    /// How many updates no update names.
    pub fn head_count(&self) -> u32
        ensures { (heads : List Id) × AreHeads (map entry_of self.now.members) heads × (result ≡ length heads) }
    {
        self.views.heads.len()
    }

    /// The ids of the updates that no update names, rising.
    pub fn heads(&self, alloc: Global) -> Result<Vec<UpdateId>, AllocError>
        ensures { IfOk result (λ heads. AreHeads (map entry_of self.now.members) heads.items) }
    {
        let heads = self.views.heads.list(alloc)?;
        Ok(heads)
    }

    /// What the valid updates did.
    pub fn tables(&self) -> &Tables
        ensures { IsStateOf (rules_with L.answer self.now.schema.tables) (nodes_of self.now.members) result.now }
    {
        &self.views.tables
    }

    /// Of the first `below` updates the positions of those that are neither among these ids nor ancestors of one,
    /// rising. Ids that none of them has are passed over.
    pub fn since(&self, alloc: Global, below: u32, old: &[UpdateId]) -> Result<Vec<u32>, AllocError>
        requires { below ≤ length self.now.members }
        ensures { IfOk result (λ positions. ArePositionsSince self.now.members below old.now positions.items) }
    {
        positions_since(alloc, &self.graph, &self.views.ancestry, below, old)
    }

    /// The verdict on a draft, which is no member: its id is not held and each of its predecessors is. It adds nothing,
    /// so it needs no room.
    pub fn judge(&self, alloc: Global, draft: &Node) -> Result<Verdict, AllocError>
        requires { IsNext (nodes_of self.now.members) draft.now }
        ensures { IfOk result (λ verdict. verdict ≡ verdict_after L.answer self.now draft.now) }
    {
        judge_draft(
            alloc,
            &self.schema,
            &self.native,
            &self.graph,
            &self.views,
            draft,
        )
    }

    /// Adds each update of a batch that can be added in some order, and hands the rest back in the batch's order.
    ///
    /// [`AddFault::Full`] comes only where all of the batch that can be added would pass a limit of a store, and
    /// [`AddFault::Memory`] where memory runs out. After an error nothing has changed, and the batch is given up.
    pub fn add_batch(
        &mut self,
        alloc: Global,
        batch: Vec<Checked>,
    ) -> Result<Vec<Checked>, AddFault>
        requires { All (IsChecked self.old.schema.rule) batch.items }
        ensures schema { self.new.schema ≡ self.old.schema }
        ensures added { IfOk result (λ waiting. AddsReady entry_of self.old.members batch.items self.new.members
            waiting.items) }
        ensures full { result ≡ Err AddFault.Full → IsTooMuch store_limits (map entry_of self.old.members)
            (map entry_of batch.items) }
        ensures same { OnErr result (self.new ≡ self.old) }
    {
        grow(
            alloc,
            &self.schema,
            &self.native,
            &mut self.graph,
            &mut self.views,
            batch,
        )
    }

    /// Adds one update behind all others, and answers the verdict on it: its id is not held, its predecessors are, and
    /// it fits. After want of memory nothing has changed.
    pub fn push(&mut self, alloc: Global, update: Checked) -> Result<Verdict, AllocError>
        requires { AreMembers self.old.schema.rule (self.old.members ++ update ∷ []) }
        ensures pushed { OnOk result (self.new ≡ record {
          schema = self.old.schema;
          members = self.old.members ++ update ∷ [];
        }) }
        ensures verdict { IfOk result (λ verdict. verdict ≡ verdict_after L.answer self.old (node_of update)) }
        ensures same { OnErr result (self.new ≡ self.old) }
    {
        grow_by_one(
            alloc,
            &self.schema,
            &self.native,
            &mut self.graph,
            &mut self.views,
            update,
        )
    }

    /// Leaves the first `len` updates. It takes no memory.
    pub fn cut(&mut self, len: u32)
        requires { len ≤ length self.old.members }
        ensures { self.new ≡ record { schema = self.old.schema; members = take len self.old.members } }
    {
        self.graph.len(); // it is closed
        self.views.cut(len);
        self.graph.cut(len);
    }

    /// Gives the native checks back.
    pub fn into_native(self) -> Native<L, C> {
        let History {
            schema: _,
            native,
            graph: _,
            views: _,
        } = self;
        native
    }
}
