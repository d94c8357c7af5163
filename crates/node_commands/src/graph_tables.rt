ghost use Rattle.std.specs.Prelude.{◌≡◌, [], List, IfOk, IsTrue};
ghost use Rattle.confluence_laws.specs.Confluence.{are_accepted};
ghost use Rattle.table_model.specs.Invariants.{invariants_of};
ghost use Rattle.schema.specs.Sound.{AreTables};
ghost use Rattle.update_model.specs.Node.{NodeData};
ghost use Rattle.tuple_state.specs.State.{IsStateOf};
ghost use Rattle.update_check.specs.Members.{AreMembers};
ghost use Rattle.node_commands.specs.Bundle.{PrintsTables, ShowsState, dump_text};
ghost use Rattle.outcomes.specs.Rules.{nodes_of, rules_of};

use bec_disk::Disk;
use confluence_laws::{accepted_holds, shown_rows_fit, tables_are_of_the_set};
use confluence_test::accepted_is_unlimited;
use hash_graph::Graph;
use head_set::equal_heads_mean_equal_sets;
use history::replay;
use query_answer::{shown_lists, tables_json};
use replica::Replica;
use row_check::{Luhn, Native};
use schema::Schema;
use schema_text::declared_is_sound;
use std::alloc::{AllocError, Global};
use store_directory::each_stands;
use table_model::{ShownRowList, VoidLine, arrivals_are_closed};
use table_text::push_tables;
use tuple_state::Tables;
use update_check::Checked;

/// The printed tables of a graph of updates, by a schema whose invariants are accepted.
pub fn printed_tables(
    alloc: Global,
    schema: &Schema,
    native: &Native<Luhn, Luhn>,
    graph: &Graph<Checked>,
    json: bool,
) -> Result<Vec<u8>, AllocError>
    requires sound { AreTables [] schema.now.tables }
    requires accepted { IsTrue (are_accepted (rules_of schema.now) (invariants_of (rules_of schema.now))) }
    ensures { IfOk result (λ text. AreMembers schema.now.rule graph.now
        → PrintsTables json schema.now graph.now text.items) }
{
    accepted_holds();
    arrivals_are_closed();
    equal_heads_mean_equal_sets();
    shown_rows_fit();
    tables_are_of_the_set();
    let text = graph_text(alloc, schema, native, graph, json)?;
    Ok(text)
}

/// The printed tables of a store.
pub fn replica_tables<D: Disk>(
    alloc: Global,
    replica: &Replica<D, Luhn, Luhn>,
    json: bool,
) -> Result<Vec<u8>, AllocError>
    ensures { IfOk result (λ text. PrintsTables json replica.now.history.schema replica.now.history.members text.items) }
{
    accepted_holds();
    arrivals_are_closed();
    declared_is_sound();
    equal_heads_mean_equal_sets();
    shown_rows_fit();
    tables_are_of_the_set();
    each_stands(replica);
    let text = state_text(alloc, replica.schema(), replica.tables(), json)?;
    Ok(text)
}

/// The printed tables of a graph, without the laws of tables.
fn graph_text(
    alloc: Global,
    schema: &Schema,
    native: &Native<Luhn, Luhn>,
    graph: &Graph<Checked>,
    json: bool,
) -> Result<Vec<u8>, AllocError>
    requires { IsTrue (are_accepted (rules_of schema.now) (invariants_of (rules_of schema.now))) }
    ensures { IfOk result (λ text. ShowsState json schema.now (nodes_of graph.now) text.items) }
{
    accepted_is_unlimited();
    let tables = replay(alloc, schema, native, graph)?;
    let text = state_text(alloc, schema, &tables, json)?;
    Ok(text)
}

/// What tables show, as it is printed.
fn state_text(
    alloc: Global,
    schema: &Schema,
    tables: &Tables,
    json: bool,
) -> Result<Vec<u8>, AllocError>
    ensures { IfOk result (λ text. (nodes : List NodeData) → IsStateOf (rules_of schema.now) nodes tables.now
        → ShowsState json schema.now nodes text.items) }
{
    let lists = shown_lists(alloc, schema, tables)?;
    let voids = tables.voids(alloc)?;
    let text = dump_text(alloc, schema, lists.as_slice(), voids.as_slice(), json)?;
    Ok(text)
}

/// The text of these lists of rows and of the updates that do nothing: JSON, or a line for each.
fn dump_text(
    alloc: Global,
    schema: &Schema,
    lists: &[ShownRowList],
    voids: &[VoidLine],
    json: bool,
) -> Result<Vec<u8>, AllocError>
    ensures { IfOk result (λ text. text.items ≡ dump_text json schema.now lists.now voids.now) }
{
    if json {
        return tables_json(alloc, schema, lists, voids);
    }
    let mut text = Vec::new(alloc);
    push_tables(&mut text, schema, lists, voids)?;
    Ok(text)
}
