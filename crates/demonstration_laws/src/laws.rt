//! Laws of the definitions. Each function does no work: its contract is a theorem for callers to cite. Lists of nodes
//! stand newest first.

ghost use Rattle.std.specs.Prelude.{◌≡◌, ◌<◌, ◌*◌, ◌^◌, ℕ, List, [], length, reverse, slice_index_or};
ghost use Rattle.update_model.specs.Entry.{Entry};
ghost use Rattle.update_model.specs.Graph.{AreHeads, Follows};
ghost use Rattle.update_model.specs.Node.{NodeData};
ghost use Rattle.row_check.specs.Checksum.{is_luhn};
ghost use Rattle.schema.specs.Data.{SchemaData};
ghost use Rattle.schema_text.specs.Schemas.{Declares};
ghost use Rattle.table_model.specs.declared.shown_row.ShownRow.{ShownRow};
ghost use Rattle.table_model.specs.declared.verdict.Verdict.TheVariants.{Valid};
ghost use Rattle.table_model.specs.Nodes.{AreNodesOf, IsClosed};
ghost use Rattle.table_model.specs.Tables.{AreRowsIn};
ghost use Rattle.table_model.specs.Verdicts.{effects_in, judge_next, judged, verdict_on};
ghost use Rattle.table_model.specs.Visible.{Rules, rules_with};
ghost use Rattle.demonstration_laws.specs.Chains.{ArePlanned, AreValid, all_lists_left, last_id};
ghost use Rattle.demonstration_laws.specs.Plans.{AreOpsOf};
ghost use Rattle.demonstration_laws.specs.Tables.{demo_tables, demo_text};

use expression_text::one_expression;

/// A schema that the text of a demonstration declares has these tables, and takes the updates of every author.
pub fn text_declares_tables()
    ensures tables { (schema : SchemaData) → Declares is_luhn demo_text schema → schema.tables ≡ demo_tables }
    ensures authors { (schema : SchemaData) → Declares is_luhn demo_text schema → schema.rule.authors ≡ [] }
{
    one_expression();
}

/// A node that names all heads of a closed list is judged on what the valid ones of the whole list did.
pub fn heads_follow_all()
    ensures { (rules : Rules) (graph : List Entry) (nodes : List NodeData) (draft : NodeData) → AreNodesOf graph nodes
        → Follows [] graph → AreHeads graph draft.preds
        → (judge_next rules (judged rules (reverse nodes)) draft).verdict ≡ verdict_on rules
        (effects_in rules (reverse nodes)) draft }
{}

/// What one of four authors makes by plan, after all that they made, is valid, where all of that is.
pub fn planned_is_valid()
    ensures { (nodes : List NodeData) (chains : List (List NodeData)) (author : ℕ) (draft : NodeData)
        → ArePlanned chains nodes → IsClosed nodes
        → AreValid (rules_with is_luhn demo_tables) nodes → author < 4 → length (slice_index_or chains author []) < 2 ^
        31
        → AreOpsOf author (length (slice_index_or chains author [])) (last_id (slice_index_or chains author []))
        draft.ops
        → verdict_on (rules_with is_luhn demo_tables) (effects_in (rules_with is_luhn demo_tables) nodes) draft ≡ Valid }
{}

/// Where the updates of a closed list are those of four authors by plan, and each of them is valid, so many lists are
/// visible as the authors leave, and twice as many tasks.
pub fn planned_rows()
    ensures lists { (nodes : List NodeData) (chains : List (List NodeData)) (rows : List ShownRow)
        → ArePlanned chains nodes → IsClosed nodes → AreValid (rules_with is_luhn demo_tables) nodes
        → AreRowsIn (rules_with is_luhn demo_tables) nodes 0 rows → length rows ≡ all_lists_left chains }
    ensures tasks { (nodes : List NodeData) (chains : List (List NodeData)) (rows : List ShownRow)
        → ArePlanned chains nodes → IsClosed nodes → AreValid (rules_with is_luhn demo_tables) nodes
        → AreRowsIn (rules_with is_luhn demo_tables) nodes 1 rows → length rows ≡ 2 * all_lists_left chains }
{}
