//! How a graph and its views grow together. Whatever is answered, the views are those of the graph.

ghost use Rattle.std.specs.Prelude.{◌≡◌, ◌++◌, ◌∷◌, [], length, map, true, Err, IfOk, IsTrue, OnErr, OnOk};
ghost use Rattle.std.specs.List.{list_all};
ghost use Rattle.update_model.specs.Batch.{IsTooMuch, store_limits};
ghost use Rattle.update_model.specs.Graph.{IsClosed, is_within};
ghost use Rattle.update_codec.specs.Parts.{entry_of};
ghost use Rattle.table_model.specs.Verdicts.{is_unlimited};
ghost use Rattle.table_model.specs.Visible.{rules_with};
ghost use Rattle.ready_batch.specs.Ready.{AddsReady, IsBehind};
ghost use Rattle.history.specs.Arrivals.{IsVerdictAt};
ghost use Rattle.history.specs.Grown.{IsGrown};
ghost use Rattle.history.specs.Kept.{AreViewsOf};

use crate::views::Views;
use hash_graph::{Added, Graph};
use ready_batch::{AddFault, add_ready};
use row_check::{Checks, Native, Relation};
use schema::Schema;
use std::alloc::{AllocError, Global};
use table_model::Verdict;
use update_check::Checked;

/// Adds each update of a batch that can be added in some order, and hands the rest back in the batch's order. After an
/// error the graph is as it was.
pub fn grow<L: Relation, C: Checks<L>>(
    alloc: Global,
    schema: &Schema,
    native: &Native<L, C>,
    graph: &mut Graph<Checked>,
    views: &mut Views,
    batch: Vec<Checked>,
) -> Result<Vec<Checked>, AddFault>
    requires unlimited { IsTrue (list_all is_unlimited schema.now.tables) }
    requires views { AreViewsOf L.answer schema.now graph.old (length graph.old) views.old }
    ensures added { IfOk result (λ waiting. AddsReady entry_of graph.old batch.items graph.new waiting.items) }
    ensures full { result ≡ Err AddFault.Full → IsTooMuch store_limits (map entry_of graph.old)
        (map entry_of batch.items) }
    ensures grown { IsGrown graph.old batch.items graph.new }
    ensures same { OnErr result (graph.new ≡ graph.old) }
    ensures views { AreViewsOf L.answer schema.now graph.new (length graph.new) views.new }
    ensures closed { IsClosed (map entry_of graph.new) }
    ensures within { is_within (map entry_of graph.new) ≡ true }
{
    let len = graph.len();
    match add_and_take(alloc, schema, native, graph, views, batch) {
        Ok(waiting) => {
            graph.len(); // what was added is within the limits
            Ok(waiting)
        }
        Err(fault) => {
            graph.cut(len);
            graph.len(); // what is left is closed
            Err(fault)
        }
    }
}

/// Adds to the graph, and takes what was added. After an error the views are those of what was held.
fn add_and_take<L: Relation, C: Checks<L>>(
    alloc: Global,
    schema: &Schema,
    native: &Native<L, C>,
    graph: &mut Graph<Checked>,
    views: &mut Views,
    batch: Vec<Checked>,
) -> Result<Vec<Checked>, AddFault>
    requires unlimited { IsTrue (list_all is_unlimited schema.now.tables) }
    requires views { AreViewsOf L.answer schema.now graph.old (length graph.old) views.old }
    ensures added { IfOk result (λ waiting. AddsReady entry_of graph.old batch.items graph.new waiting.items) }
    ensures full { result ≡ Err AddFault.Full → IsTooMuch store_limits (map entry_of graph.old)
        (map entry_of batch.items) }
    ensures behind { IsBehind graph.old graph.new }
    ensures all { OnOk result (AreViewsOf L.answer schema.now graph.new (length graph.new) views.new) }
    ensures none { OnErr result (AreViewsOf L.answer schema.now graph.new (length graph.old) views.new) }
{
    let len = graph.len();
    let answer = add_ready(alloc, graph, batch);
    graph.len(); // what was added is within the limits
    match answer {
        Ok(waiting) => match views.take_from(alloc, schema, native, graph, len) {
            Ok(()) => Ok(waiting),
            Err(_) => Err(AddFault::Memory),
        },
        Err(fault) => Err(fault),
    }
}

/// Adds one update behind all others, and answers the verdict on it. After want of memory, or where it may not stand
/// next, the graph is as it was.
pub fn grow_by_one<L: Relation, C: Checks<L>>(
    alloc: Global,
    schema: &Schema,
    native: &Native<L, C>,
    graph: &mut Graph<Checked>,
    views: &mut Views,
    update: Checked,
) -> Result<Verdict, AllocError>
    requires unlimited { IsTrue (list_all is_unlimited schema.now.tables) }
    requires views { AreViewsOf L.answer schema.now graph.old (length graph.old) views.old }
    ensures pushed { OnOk result (graph.new ≡ graph.old ++ update ∷ []) }
    ensures verdict { IfOk result (IsVerdictAt (rules_with L.answer schema.now.tables) graph.new (length graph.old)) }
    ensures same { OnErr result (graph.new ≡ graph.old) }
    ensures views { AreViewsOf L.answer schema.now graph.new (length graph.new) views.new }
{
    let len = graph.len();
    add_last(graph, update)?;
    graph.len(); // what was added is within the limits
    match views.take(alloc, schema, native, graph, len) {
        Ok(verdict) => Ok(verdict),
        Err(full) => {
            graph.cut(len);
            Err(full)
        }
    }
}

/// Adds an update behind all others. After want of memory, or where it may not stand next, nothing has changed.
fn add_last(graph: &mut Graph<Checked>, update: Checked) -> Result<(), AllocError>
    ensures added { OnOk result (graph.new ≡ graph.old ++ update ∷ []) }
    ensures same { OnErr result (graph.new ≡ graph.old) }
{
    match graph.add(update) {
        Ok(Added::New(_)) => return Ok(()),
        Ok(Added::Known(_)) => return Err(AllocError),
        Err(_) => {}
    }
    Err(AllocError)
}
