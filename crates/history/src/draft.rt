//! The verdict on a draft, which is no member.

ghost use Rattle.std.specs.Prelude.{◌≡◌, ◌++◌, ◌∷◌, [], length, IfOk, IsTrue};
ghost use Rattle.std.specs.List.{list_all};
ghost use Rattle.ancestry.specs.Since.{is_behind};
ghost use Rattle.ancestry.specs.Walks.{AreLower, is_ancestor};
ghost use Rattle.table_model.specs.Nodes.{IsNext};
ghost use Rattle.table_model.specs.Verdicts.{is_unlimited};
ghost use Rattle.history.specs.Histories.{nodes_of, verdict_after};
ghost use Rattle.history.specs.Kept.{AreViewsOf};

use crate::since::places_below;
use crate::views::Views;
use ancestry::Ancestry;
use hash_graph::Graph;
use row_check::{Checks, Native, Relation};
use schema::Schema;
use std::alloc::{AllocError, Global};
use table_model::{Verdict, verdict_is_on_ancestors};
use update_check::Checked;
use update_model::{Ancestors, Node};
use validity::judge;

/// The ancestors of members, and those of a draft, which would stand behind them and names these positions.
#[derive(Drop)]
struct DraftAncestors<'a> {
    ancestry: &'a Ancestry,
    preds: &'a [u32],
    ghost lower: { AreLower (ancestry.now ++ preds.now ∷ []) },
}

impl<'a> DraftAncestors<'a> {
    /// Whether the draft names the member at this position, or one whose ancestor it is.
    fn is_named(&self, alloc: Global, a: u32) -> Result<bool, AllocError>
        ensures { IfOk result (λ answer. answer ≡ is_behind self.now.ancestry.now self.now.preds.now a) }
    {
        for pred in self.preds {
            if *pred == a || self.ancestry.is_ancestor(alloc, a, *pred)? {
                return Ok(true);
            }
        }
        Ok(false)
    }
}

impl<'a> Ancestors for DraftAncestors<'a> {
    ghost ancestor = { λ draft. is_ancestor (draft.ancestry.now ++ draft.preds.now ∷ []) };

    /// The draft has the first position that no member has. It asks the ancestry once for each predecessor.
    fn is_ancestor(&self, alloc: Global, a: u32, b: u32) -> Result<bool, AllocError> {
        let draft = self.ancestry.len();
        if b == draft {
            self.is_named(alloc, a)
        } else {
            self.ancestry.is_ancestor(alloc, a, b)
        }
    }
}

/// Judges a draft, whose id no member has, on its ancestors among the members.
pub fn judge_draft<L: Relation, C: Checks<L>>(
    alloc: Global,
    schema: &Schema,
    native: &Native<L, C>,
    graph: &Graph<Checked>,
    views: &Views,
    draft: &Node,
) -> Result<Verdict, AllocError>
    requires unlimited { IsTrue (list_all is_unlimited schema.now.tables) }
    requires views { AreViewsOf L.answer schema.now graph.now (length graph.now) views.now }
    requires next { IsNext (nodes_of graph.now) draft.now }
    ensures { IfOk result (λ verdict. verdict ≡ verdict_after L.answer
        (record { schema = schema.now; members = graph.now }) draft.now) }
{
    verdict_is_on_ancestors();
    let len = graph.len();
    let ancestry = &views.ancestry;
    ancestry.len(); // predecessors stand earlier
    let places = places_below(alloc, graph, len, draft.preds.as_slice())?;
    let preds = places.as_slice();
    let ancestors = DraftAncestors { ancestry, preds };
    let rows = views.tables.at(alloc, &ancestors, len)?;
    judge(alloc, schema, native, draft, &rows)
}
