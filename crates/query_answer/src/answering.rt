//! Answering queries.

ghost use Rattle.std.specs.Prelude.{◌≡◌, ◌++◌, ℕ, List, Option, IfOk, OnOk, filter, map};
ghost use Rattle.query.specs.Outcome.{data_of as query_data};
ghost use Rattle.table_model.specs.declared.shown_row.ShownRow.{ShownRow as Shown};
ghost use Rattle.query_answer.specs.Answers.{IsAnswer, LineData, data_of, line_data};
ghost use Rattle.query_answer.specs.Fronts.{AreApart, Holds, asked_lines, first_lines};
ghost use Rattle.query_answer.specs.Rows.{AreListsOf, row_at, rows_of};
ghost use Rattle.query_answer.specs.Values.{AreRising, is_asked};

use crate::Answer;
use crate::asking::is_asked;
use crate::front::Front;
use crate::line::Line;
use crate::picking::{keys_of, names_of, picked_rows};
use crate::rows::Rows;
use query::Query;
use row_check::{Checks, Native, Relation};
use std::alloc::{AllocError, Global};
use table_model::ShownRowList;

/// The answer of a query over tables, each of which lists its rows in rising order of names.
///
/// A row is judged before anything of it is kept: of a row that is asked for the values of its keys, which are found
/// once and not copied, and of those within the limit the columns that are asked for. Under a limit no more than twice
/// as many rows are kept. It takes the time of a sort of the rows that are kept, and gives up where memory runs out.
pub fn answer_lists<L: Relation, C: Checks<L>>(
    alloc: Global,
    native: &Native<L, C>,
    query: &Query,
    tables: &[ShownRowList],
) -> Result<Answer, AllocError>
    ensures { IfOk result (λ answer. AreRising tables.now → IsAnswer L.answer tables.now (query_data query.now)
        (data_of answer)) }
{
    let answer = answer_rows(alloc, native, query, Rows::Listed(tables))?;
    Ok(answer)
}

/// The same over the rows of lists, or those that tables lend.
pub(crate) fn answer_rows<L: Relation, C: Checks<L>>(
    alloc: Global,
    native: &Native<L, C>,
    query: &Query,
    rows: Rows,
) -> Result<Answer, AllocError>
    ensures { IfOk result (λ answer. (lists : List (List Shown)) → AreListsOf rows.entry lists
        → IsAnswer L.answer lists (query_data query.now) (data_of answer)) }
{
    let lines = lines_of(alloc, native, query, rows)?;
    let items = query.columns.as_slice();
    let values = picked_rows(alloc, rows, items, lines.as_slice())?;
    let columns = names_of(alloc, items)?;
    Ok(Answer {
        columns,
        rows: values,
    })
}

/// The first in order of the rows that are asked for, no more than the limit, each with the values of its keys.
fn lines_of<'a, L: Relation, C: Checks<L>>(
    alloc: Global,
    native: &Native<L, C>,
    query: &Query,
    rows: Rows<'a>,
) -> Result<Vec<Line<'a>>, AllocError>
    ensures { IfOk result (λ lines. (lists : List (List Shown)) → AreListsOf rows.entry lists
        → map line_data lines.items
        ≡ first_lines lists query.now.keys.items query.now.limit (filter (is_asked L.answer lists query.now.condition)
        (rows_of rows.entry query.now.table))) }
{
    let mut front = Front::new(alloc, query.limit);
    for place in 0..rows.places(query.table) {
        add_row(alloc, native, query, rows, place, &mut front)?;
    }
    Ok(front.into_first(query.keys.as_slice()))
}

/// Adds the row at a place, where one stands there that is asked for.
fn add_row<'a, L: Relation, C: Checks<L>>(
    alloc: Global,
    native: &Native<L, C>,
    query: &Query,
    rows: Rows<'a>,
    place: usize,
    front: &mut Front<'a>,
) -> Result<(), AllocError>
    ensures { OnOk result ((lists : List (List Shown)) (limit : Option ℕ) (all : List LineData)
        → AreListsOf rows.entry lists
        → AreApart query.now.keys.items (all ++ asked_lines lists query.now.keys.items
        (is_asked L.answer lists query.now.condition) (row_at rows.entry query.now.table place))
        → Holds query.now.keys.items limit front.old all
        → Holds query.now.keys.items limit front.new (all ++ asked_lines lists query.now.keys.items
        (is_asked L.answer lists query.now.condition) (row_at rows.entry query.now.table place))) }
{
    match rows.row(query.table, place) {
        Some(row) => {
            if is_asked(alloc, native, rows, &query.condition, &row)? {
                let keys = query.keys.as_slice();
                let values = keys_of(alloc, rows, keys, &row)?;
                front.add(keys, Line { row, keys: values })?;
            }
            Ok(())
        }
        None => Ok(()),
    }
}
