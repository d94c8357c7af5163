//! Judging the updates of a graph in the order of arrival, one by one.

ghost use Rattle.std.specs.Prelude.{◌≡◌, ◌+◌, ◌<◌, length, map, option_map, reverse, slice_get, Some, IsTrue, IfOk};
ghost use Rattle.std.specs.Prelude.{OnErr, OnOk};
ghost use Rattle.std.specs.List.{filter_map, list_all};
ghost use Rattle.update_check.specs.Signed.{node_of};
ghost use Rattle.table_model.specs.Verdicts.{is_unlimited, judge_next, judged};
ghost use Rattle.table_model.specs.Visible.{rules_with};
ghost use Rattle.tuple_state.specs.State.{IsStateOf};
ghost use Rattle.history.specs.Arrivals.{IsVerdictAt, nodes_before, place_in, places_before};

use ancestry::Ancestry;
use hash_graph::Graph;
use row_check::{Checks, Native, Relation};
use schema::Schema;
use std::alloc::{AllocError, Global};
use table_model::{Verdict, arrivals_are_closed, verdict_is_on_ancestors};
use tuple_state::{Tables, applied_is_next};
use update_check::Checked;
use update_model::{Member, Node, UpdateId};
use validity::judge;

/// Judges each update of a graph in order of arrival on its ancestors, and keeps what the valid ones did.
///
/// What these tables show is a function of the set of updates, whatever the order of arrival (the law
/// `tables_are_of_the_set` of the crate `confluence_laws`). It gives up where memory runs out.
pub fn replay<L: Relation, C: Checks<L>>(
    alloc: Global,
    schema: &Schema,
    native: &Native<L, C>,
    graph: &Graph<Checked>,
) -> Result<Tables, AllocError>
    requires { IsTrue (list_all is_unlimited schema.now.tables) }
    ensures { IfOk result (λ tables. IsStateOf (rules_with L.answer schema.now.tables) (reverse (map node_of graph.now))
        tables) }
{
    let mut tables = Tables::new(alloc, schema)?;
    let mut ancestry = Ancestry::new(alloc);
    for position in 0..graph.len() {
        take_next(
            alloc,
            schema,
            native,
            graph,
            position,
            &mut tables,
            &mut ancestry,
        )?;
    }
    Ok(tables)
}

/// Takes the member at this position, where those before it are taken, and answers the verdict on it. After want of
/// memory nothing has changed.
pub fn take_next<L: Relation, C: Checks<L>>(
    alloc: Global,
    schema: &Schema,
    native: &Native<L, C>,
    graph: &Graph<Checked>,
    position: u32,
    tables: &mut Tables,
    ancestry: &mut Ancestry,
) -> Result<Verdict, AllocError>
    requires unlimited { IsTrue (list_all is_unlimited schema.now.tables) }
    requires low { position < length graph.now }
    requires state { IsStateOf (rules_with L.answer schema.now.tables) (nodes_before graph.now position) tables.old }
    requires places { ancestry.old ≡ places_before graph.now position }
    ensures state { OnOk result (IsStateOf (rules_with L.answer schema.now.tables)
        (nodes_before graph.now (position + 1)) tables.new) }
    ensures places { OnOk result (ancestry.new ≡ places_before graph.now (position + 1)) }
    ensures verdict { IfOk result (IsVerdictAt (rules_with L.answer schema.now.tables) graph.now position) }
    ensures same_state { OnErr result (tables.new ≡ tables.old) }
    ensures same_places { OnErr result (ancestry.new ≡ ancestry.old) }
{
    take_places(alloc, graph, position, ancestry)?;
    match take_verdict(alloc, schema, native, graph, position, tables, ancestry) {
        Ok(verdict) => Ok(verdict),
        Err(full) => {
            ancestry.cut(position);
            Err(full)
        }
    }
}

/// Judges the member at this position, whose predecessors' positions are taken, and applies it to the tables.
fn take_verdict<L: Relation, C: Checks<L>>(
    alloc: Global,
    schema: &Schema,
    native: &Native<L, C>,
    graph: &Graph<Checked>,
    position: u32,
    tables: &mut Tables,
    ancestry: &Ancestry,
) -> Result<Verdict, AllocError>
    requires unlimited { IsTrue (list_all is_unlimited schema.now.tables) }
    requires low { position < length graph.now }
    requires state { IsStateOf (rules_with L.answer schema.now.tables) (nodes_before graph.now position) tables.old }
    requires places { ancestry.now ≡ places_before graph.now (position + 1) }
    ensures state { OnOk result (IsStateOf (rules_with L.answer schema.now.tables)
        (nodes_before graph.now (position + 1)) tables.new) }
    ensures verdict { IfOk result (IsVerdictAt (rules_with L.answer schema.now.tables) graph.now position) }
    ensures same { OnErr result (tables.new ≡ tables.old) }
{
    let node = graph.at(position).node(alloc)?;
    let verdict = judge_next(
        alloc, schema, native, graph, position, &node, tables, ancestry,
    )?;
    // for their clauses: the front is a closed list, with one more update it is the next, and updates are few
    arrivals_are_closed();
    applied_is_next();
    graph.len(); // it is closed
    match tables.apply(node, verdict) {
        Ok(()) => Ok(verdict),
        Err(full) => Err(full),
    }
}

/// Takes the positions of the predecessors of the member at this position.
fn take_places(
    alloc: Global,
    graph: &Graph<Checked>,
    position: u32,
    ancestry: &mut Ancestry,
) -> Result<(), AllocError>
    requires low { position < length graph.now }
    requires places { ancestry.old ≡ places_before graph.now position }
    ensures places { OnOk result (ancestry.new ≡ places_before graph.now (position + 1)) }
    ensures same { OnErr result (ancestry.new ≡ ancestry.old) }
{
    // for their clauses: predecessors stand earlier, and updates are few
    arrivals_are_closed();
    graph.len(); // it is closed
    let places = places_of(alloc, graph, graph.at(position).preds())?;
    ancestry.add(places.as_slice())?;
    Ok(())
}

/// The positions of the members with these ids.
fn places_of(
    alloc: Global,
    graph: &Graph<Checked>,
    ids: &[UpdateId],
) -> Result<Vec<u32>, AllocError>
    ensures { IfOk result (λ places. places.items ≡ filter_map (place_in graph.now) ids.now) }
{
    ids.iter()
        .filter_map(|id| graph.position(id))
        .collect(alloc)
}

/// The verdict on the member at this position, where the tables hold what those before it do.
fn judge_next<L: Relation, C: Checks<L>>(
    alloc: Global,
    schema: &Schema,
    native: &Native<L, C>,
    graph: &Graph<Checked>,
    position: u32,
    node: &Node,
    tables: &Tables,
    ancestry: &Ancestry,
) -> Result<Verdict, AllocError>
    requires unlimited { IsTrue (list_all is_unlimited schema.now.tables) }
    requires here { option_map node_of (slice_get graph.now position) ≡ Some node.now }
    requires state { IsStateOf (rules_with L.answer schema.now.tables) (nodes_before graph.now position) tables.now }
    requires places { ancestry.now ≡ places_before graph.now (position + 1) }
    ensures { IfOk result (λ verdict.
        verdict ≡ (judge_next (rules_with L.answer schema.now.tables) (judged (rules_with L.answer schema.now.tables)
        (nodes_before graph.now position)) node.now).verdict) }
{
    // for their clauses: the front is a closed list, the verdict is on ancestors alone, and updates are few and name
    // earlier ones
    arrivals_are_closed();
    verdict_is_on_ancestors();
    graph.len(); // it is closed
    ancestry.len(); // predecessors stand earlier
    let rows = tables.at(alloc, ancestry, position)?;
    judge(alloc, schema, native, node, &rows)
}
