//! Answering queries over the tables of a set of updates.

ghost use Rattle.std.specs.Prelude.{◌≡◌, ℕ, Bool, List, IfOk, length};
ghost use Rattle.update_model.specs.declared.value.Value.{Value};
ghost use Rattle.update_model.specs.Node.{NodeData};
ghost use Rattle.table_model.specs.Visible.{rules_with};
ghost use Rattle.tuple_state.specs.State.{IsStateOf};
ghost use Rattle.query.specs.Outcome.{data_of as query_data};
ghost use Rattle.query_answer.specs.Answers.{AreShown, IsAnswerOver, data_of};

use crate::Answer;
use crate::answering::answer_rows;
use crate::rows::Rows;
use query::Query;
use row_check::{Checks, Native, Relation};
use schema::Schema;
use std::alloc::{AllocError, Global};
use table_model::ShownRowList;
use tuple_state::Tables;

/// The answer of a query over the rows that the tables of a set of updates show.
///
/// It goes over the rows of one table as the tables lend them, and looks the rows of others up by their names. It gives
/// up where memory runs out.
pub fn answer<L: Relation, C: Checks<L>>(
    alloc: Global,
    native: &Native<L, C>,
    schema: &Schema,
    query: &Query,
    tables: &Tables,
) -> Result<Answer, AllocError>
    ensures { IfOk result (λ answer. (nodes : List NodeData) → IsStateOf (rules_with L.answer schema.now.tables) nodes
        tables.now
        → IsAnswerOver (rules_with L.answer schema.now.tables) nodes (query_data query.now) (data_of answer)) }
{
    let rows = Rows::Lent(tables, schema.tables());
    let answer = answer_rows(alloc, native, query, rows)?;
    Ok(answer)
}

/// The rows that each table of the schema shows, a list for each table in the order of the schema. It takes the time
/// and the memory of a copy of what the tables show, and gives up where memory runs out.
pub fn shown_lists(
    alloc: Global,
    schema: &Schema,
    tables: &Tables,
) -> Result<Vec<ShownRowList>, AllocError>
    ensures { IfOk result (λ lists. (ask : ℕ → List Value → Bool) (nodes : List NodeData)
        → IsStateOf (rules_with ask schema.now.tables) nodes tables.now
        → AreShown (rules_with ask schema.now.tables) nodes (length schema.now.tables) lists.items) }
{
    let mut lists = Vec::new(alloc);
    for number in 0..schema.tables() {
        lists.push(tables.rows(alloc, number)?)?;
    }
    Ok(lists)
}
