ghost use Rattle.std.specs.Prelude.{◌≡◌, ◌+◌, ◌<◌, ◌≤◌, ℕ, List, length, IfOk, IsTrue, OnErr, OnOk};
ghost use Rattle.std.specs.List.{list_all};
ghost use Rattle.schema.specs.Data.{Meaning};
ghost use Rattle.table_model.specs.Verdicts.{is_unlimited};
ghost use Rattle.table_model.specs.Visible.{rules_with};
ghost use Rattle.history.specs.Arrivals.{IsVerdictAt};
ghost use Rattle.history.specs.Kept.{AreViewsOf, IsCut};

use crate::replaying::take_next;
use ancestry::Ancestry;
use hash_graph::Graph;
use head_set::Heads;
use row_check::{Checks, Native, Relation};
use schema::Schema;
use std::alloc::{AllocError, Global};
use table_model::Verdict;
use tuple_state::Tables;
use update_check::Checked;
use update_model::Member;

/// What is kept of the first members of a graph.
#[derive(Drop)]
pub struct Views {
    /// The heads after each of them.
    pub heads: Heads,
    /// The positions of each one's predecessors.
    pub ancestry: Ancestry,
    /// What the valid ones did.
    pub tables: Tables,
}

impl Views {
    /// Those of no member.
    pub fn new(alloc: Global, schema: &Schema) -> Result<Views, AllocError>
        ensures { IfOk result (λ views. (ask : Meaning) (members : List (List ℕ))
            → AreViewsOf ask schema.now members 0 views) }
    {
        let heads = Heads::new(alloc);
        let ancestry = Ancestry::new(alloc);
        let tables = Tables::new(alloc, schema)?;
        Ok(Views {
            heads,
            ancestry,
            tables,
        })
    }

    /// Those of all members of a graph, of which each is judged once.
    pub fn over<L: Relation, C: Checks<L>>(
        alloc: Global,
        schema: &Schema,
        native: &Native<L, C>,
        graph: &Graph<Checked>,
    ) -> Result<Views, AllocError>
        requires { IsTrue (list_all is_unlimited schema.now.tables) }
        ensures { IfOk result (AreViewsOf L.answer schema.now graph.now (length graph.now)) }
    {
        let mut views = Views::new(alloc, schema)?;
        views.take_from(alloc, schema, native, graph, 0)?;
        Ok(views)
    }

    /// Takes the members from a position on, where those before it are taken. After want of memory no others are.
    pub fn take_from<L: Relation, C: Checks<L>>(
        &mut self,
        alloc: Global,
        schema: &Schema,
        native: &Native<L, C>,
        graph: &Graph<Checked>,
        from: u32,
    ) -> Result<(), AllocError>
        requires unlimited { IsTrue (list_all is_unlimited schema.now.tables) }
        requires low { from ≤ length graph.now }
        requires views { AreViewsOf L.answer schema.now graph.now from self.old }
        ensures all { OnOk result (AreViewsOf L.answer schema.now graph.now (length graph.now) self.new) }
        ensures none { OnErr result (AreViewsOf L.answer schema.now graph.now from self.new) }
    {
        for position in from..graph.len() {
            if let Err(full) = self.take(alloc, schema, native, graph, position) {
                self.cut(from);
                return Err(full);
            }
        }
        Ok(())
    }

    /// Takes the member at a position, where those before it are taken, and answers the verdict on it. After want of
    /// memory nothing has changed.
    pub fn take<L: Relation, C: Checks<L>>(
        &mut self,
        alloc: Global,
        schema: &Schema,
        native: &Native<L, C>,
        graph: &Graph<Checked>,
        position: u32,
    ) -> Result<Verdict, AllocError>
        requires unlimited { IsTrue (list_all is_unlimited schema.now.tables) }
        requires low { position < length graph.now }
        requires views { AreViewsOf L.answer schema.now graph.now position self.old }
        ensures views { OnOk result (AreViewsOf L.answer schema.now graph.now (position + 1) self.new) }
        ensures verdict { IfOk result (IsVerdictAt (rules_with L.answer schema.now.tables) graph.now position) }
        ensures same { OnErr result (self.new ≡ self.old) }
    {
        graph.len(); // it is closed
        let update = graph.at(position);
        self.heads.add(update.id(), update.preds())?;
        match take_next(
            alloc,
            schema,
            native,
            graph,
            position,
            &mut self.tables,
            &mut self.ancestry,
        ) {
            Ok(verdict) => Ok(verdict),
            Err(full) => {
                self.heads.cut(position);
                Err(full)
            }
        }
    }

    /// Leaves those of the first so many members. It takes no memory.
    pub fn cut(&mut self, len: u32)
        requires held { IsCut self.old len }
        ensures { (cut : IsCut self.old len) → AreViewsOf cut.ask cut.schema cut.members len self.new }
    {
        self.heads.cut(len);
        self.ancestry.cut(len);
        self.tables.cut(len);
    }
}
