//! The tables of a set of updates.

ghost use Rattle.std.specs.Prelude.{◌≡◌, IfOk, length, reverse, map, filter};
ghost use Rattle.table_model.specs.Nodes.{IsClosed};
ghost use Rattle.table_model.specs.Tables.{AreTablesOf, AreVoidsIn, listed, void_line, void_lines};
ghost use Rattle.table_model.specs.Verdicts.{in_table};
ghost use Rattle.confluence_checker.specs.Forms.{newest_first};
ghost use Rattle.table_model.specs.Visible.{rules_with};
ghost use Rattle.table_model.specs.Tables.{HasDistinctRows};
ghost use Rattle.confluence_checker.specs.Sorting.{AreLists, line_of};

use crate::ancestors::effects;
use crate::inserted_row::InsertedRow;
use crate::judged_node::JudgedNode;
use crate::judging::judged;
use crate::visibility::shown_rows;
use crate::{RowLists, TableList};
use row_check::{Checks, Native, Relation};
use schema::Schema;
use std::alloc::{AllocError, Global};
use table_model::{ShownRow, ShownRowList, Verdict, VoidLine, VoidList, sort_lines, sort_rows};
use update_model::Node;

/// A row as a table lists it.
fn listed(alloc: Global, row: &InsertedRow) -> Result<ShownRow, AllocError>
    ensures { IfOk result (λ shown. shown ≡ listed row.now) }
{
    Ok(ShownRow {
        name: row.name,
        values: row.values.copy(alloc)?,
    })
}

/// The rows of the table with this number.
fn listed_in(alloc: Global, rows: &[InsertedRow], table: u8) -> Result<Vec<ShownRow>, AllocError>
    ensures { IfOk result (λ shown. shown.items ≡ map listed (filter (in_table table) rows.now)) }
{
    let mut shown = Vec::new(alloc);
    for row in rows {
        if row.table == table {
            shown.push(listed(alloc, row)?)?;
        }
    }
    Ok(shown)
}

/// The line of an update that does nothing.
fn void_line(j: &JudgedNode) -> Option<VoidLine>
    ensures { line_of result ≡ void_line j.now.node.id j.now.verdict }
{
    match j.verdict {
        Verdict::Valid => None,
        Verdict::Void { reason, operation } => Some(VoidLine {
            id: j.node.id,
            reason,
            operation,
        }),
    }
}

/// The lines of those of these nodes that do nothing, in the order of arrival.
fn void_lines(alloc: Global, js: &[JudgedNode]) -> Result<Vec<VoidLine>, AllocError>
    ensures { IfOk result (λ lines. reverse lines.items ≡ void_lines (newest_first js.now)) }
{
    let mut lines = Vec::new(alloc);
    for j in js {
        if let Some(line) = void_line(j) {
            lines.push(line)?;
        }
    }
    Ok(lines)
}

/// The rows of each table.
fn lists_of(alloc: Global, schema: &Schema, rows: &[InsertedRow]) -> Result<RowLists, AllocError>
    requires { HasDistinctRows rows.now }
    ensures { IfOk result (λ lists. AreLists (length schema.now.tables) rows.now lists) }
{
    let mut lists = Vec::new(alloc);
    for number in 0..schema.tables() {
        let shown = listed_in(alloc, rows, number)?;
        lists.push(ShownRowList::from_vec(sort_rows(shown)))?;
    }
    Ok(RowLists::from_vec(lists))
}

/// The tables of a closed list of updates in the order of arrival, and the updates that do nothing.
///
/// The list has to be closed ([`crate::is_closed`]). It gives up where memory runs out.
pub fn tables_of<L: Relation, C: Checks<L>>(
    alloc: Global,
    schema: &Schema,
    native: &Native<L, C>,
    nodes: &[Node],
) -> Result<TableList, AllocError>
    requires { IsClosed (reverse nodes.now) }
    ensures { IfOk result (λ list. AreTablesOf (rules_with L.answer schema.now.tables) (reverse nodes.now) list.tables
        list.voids) }
{
    let js = judged(alloc, schema, native, nodes)?;
    let did = effects(alloc, js.as_slice())?;
    let rows = shown_rows(alloc, schema, &did)?;
    let tables = lists_of(alloc, schema, rows.as_slice())?;
    let lines = void_lines(alloc, js.as_slice())?;
    let voids = VoidList::from_vec(sort_lines(lines));
    Ok(TableList { tables, voids })
}
