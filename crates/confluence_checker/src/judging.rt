//! The verdicts on the nodes of a closed list.

ghost use Rattle.std.specs.Prelude.{◌≡◌, IfOk, reverse};
ghost use Rattle.table_model.specs.Verdicts.{judge_next, judged};
ghost use Rattle.confluence_checker.specs.Forms.{as_judged, newest_first};
ghost use Rattle.table_model.specs.Visible.{rules_with};

use crate::ancestors::{ancestors_of, effects_among};
use crate::judged_node::JudgedNode;
use crate::verdicts::verdict_on;
use row_check::{Checks, Native, Relation};
use schema::Schema;
use std::alloc::{AllocError, Global};
use table_model::{judged_one_by_one, verdict_is_on_ancestors};
use update_model::Node;

/// Judges a node on its ancestors, which are among these nodes in the order of arrival.
fn judge_next<L: Relation, C: Checks<L>>(
    alloc: Global,
    schema: &Schema,
    native: &Native<L, C>,
    js: &[JudgedNode],
    node: &Node,
) -> Result<JudgedNode, AllocError>
    ensures { IfOk result (λ j. as_judged j ≡ judge_next (rules_with L.answer schema.now.tables) (newest_first js.now)
        node.now) }
{
    let ancestors = ancestors_of(alloc, js, node)?;
    let past = effects_among(alloc, js, ancestors.as_slice())?;
    let verdict = verdict_on(alloc, schema, native, &past, node)?;
    Ok(JudgedNode {
        node: node.copy(alloc)?,
        ancestors,
        verdict,
    })
}

/// The nodes of a list in the order of arrival, each with its verdict.
pub(crate) fn judged<L: Relation, C: Checks<L>>(
    alloc: Global,
    schema: &Schema,
    native: &Native<L, C>,
    nodes: &[Node],
) -> Result<Vec<JudgedNode>, AllocError>
    ensures { IfOk result (λ js. newest_first js.items ≡ judged (rules_with L.answer schema.now.tables)
        (reverse nodes.now)) }
{
    judged_one_by_one();
    let mut js = Vec::with_capacity(alloc, nodes.len())?;
    for node in nodes {
        let next = judge_next(alloc, schema, native, js.as_slice(), node)?;
        js.push(next)?;
    }
    Ok(js)
}
