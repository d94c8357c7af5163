//! Laws of tables. Each function does nothing: its contract is a theorem for callers to cite. Lists of nodes stand
//! newest first.

ghost use Rattle.std.specs.Prelude.{◌≡◌, ℕ, List, [], ◌∷◌, ◌&&◌, Bool, None, Some, not, Contains, reverse, IsTrue};
ghost use Rattle.std.specs.Prelude.{filter, if◌then◌else◌};
ghost use Rattle.std.specs.List.{list_all, list_any};
ghost use Rattle.update_model.specs.declared.row_name.RowName.{RowName};
ghost use Rattle.update_model.specs.Entry.{Entry};
ghost use Rattle.update_model.specs.Graph.{Follows};
ghost use Rattle.update_model.specs.Node.{NodeData};
ghost use Rattle.update_model.specs.declared.value.Value.{Value};
ghost use Rattle.row_check.specs.declared.cmp.Cmp.TheVariants.{Eq};
ghost use Rattle.row_check.specs.Comparisons.{compares};
ghost use Rattle.row_check.specs.Meaning.{value_at};
ghost use Rattle.schema.specs.Least.{is_steady};
ghost use Rattle.schema.specs.Sound.{AreTables};
ghost use Rattle.table_model.specs.Counts.{AreCounted, is_counted};
ghost use Rattle.table_model.specs.Nodes.{AreNodesOf, IsClosed};
ghost use Rattle.table_model.specs.Verdicts.{Judged, ancestor_of, effects, effects_in, effects_of, in_table};
ghost use Rattle.table_model.specs.Verdicts.{is_unlimited, is_valid, joined, judge_next, judged, limits_hold, nothing};
ghost use Rattle.table_model.specs.Verdicts.{verdict_after, verdict_on};
ghost use Rattle.table_model.specs.Visible.{DoesLess, Effects, Rules, TableRow, cascade_refs, is_candidate, is_deleted};
ghost use Rattle.table_model.specs.Visible.{is_visible, kept_of, same_row, shows, visible_rows};

/// A list that is closed in the order of arrival is closed newest first.
pub fn arrivals_are_closed()
    ensures { (graph : List Entry) (nodes : List NodeData) → AreNodesOf graph nodes → Follows [] graph
        → IsClosed (reverse nodes) }
{}

/// In a closed list a row is visible exactly where a valid member inserted it, none deletes it, each row that it names
/// by CASCADE is visible, and, where its table keeps the least row of a column, no other such row of the table has an
/// equal value there and a lesser name.
pub fn visible_is_shown()
    ensures { (rules : Rules) (nodes : List NodeData) (name : RowName) → AreTables [] rules.tables → IsClosed nodes
        → is_visible rules (effects_in rules nodes) name ≡ shows rules (effects_in rules nodes)
        (is_visible rules (effects_in rules nodes)) name }
{}

/// Whatever is so of each name as a row is shown is which rows are visible: there is one such answer.
pub fn visible_rows_are_determined()
    ensures { (rules : Rules) (nodes : List NodeData) (seen : RowName → Bool) (name : RowName)
        → AreTables [] rules.tables → IsClosed nodes
        → ((other : RowName) → seen other ≡ shows rules (effects_in rules nodes) seen other)
        → seen name ≡ is_visible rules (effects_in rules nodes) name }
{}

/// Where no table keeps the least row, a row is visible exactly where a valid member inserted it, none deletes it, and
/// each row that it names by CASCADE is visible: a schema without KEEP LEAST means what it says of deletions and
/// references.
pub fn plain_rows_show()
    ensures { (rules : Rules) (did : Effects) (seen : RowName → Bool) (name : RowName)
        → ((number : ℕ) → kept_of rules number ≡ None)
        → shows rules did seen name ≡ (list_any (λ row. same_row row.name name && list_all (λ r. seen r.name)
        (cascade_refs rules row)) did.inserted && not (is_deleted did name)) }
{}

/// Where a number is kept for each row, and it is that of its causes to be absent, as those rows are seen whose number
/// is 0, then these are the visible ones, in whatever order the numbers came to be so.
pub fn counted_rows_are_visible()
    ensures { (rules : Rules) (nodes : List NodeData) (count : RowName → ℕ) (name : RowName) → AreTables [] rules.tables
        → IsClosed nodes
        → AreCounted rules (effects_in rules nodes) count → is_counted (effects_in rules nodes) count name ≡ is_visible
        rules (effects_in rules nodes) name }
{}

/// A row that is visible after a closed list, in a table whose rows are hidden for no lesser one, is visible after each
/// closed list with less, as long as it has the row.
pub fn steady_rows_last()
    ensures { (rules : Rules) (nodes earlier : List NodeData) (row : TableRow) → AreTables [] rules.tables
        → IsClosed nodes → IsClosed earlier
        → DoesLess (effects_in rules earlier) (effects_in rules nodes)
        → Contains (effects_in rules earlier).inserted row → IsTrue (is_steady rules.tables row.table)
        → IsTrue (is_visible rules (effects_in rules nodes) row.name)
        → IsTrue (is_visible rules (effects_in rules earlier) row.name) }
{}

/// Where a candidate of a table that keeps the least row of a column has a value there, a visible row has it.
pub fn one_of_equals_stands()
    ensures { (rules : Rules) (nodes : List NodeData) (table column : ℕ) (value : Value) → AreTables [] rules.tables
        → IsClosed nodes → kept_of rules table ≡ Some column
        → IsTrue (list_any (λ row. (in_table table row && compares Eq value (value_at row.values column))
        && is_candidate rules (effects_in rules nodes) (is_visible rules (effects_in rules nodes)) row)
        (effects_in rules nodes).inserted)
        → IsTrue (list_any (λ row. in_table table row && compares Eq value (value_at row.values column))
        (visible_rows rules (effects_in rules nodes))) }
{}

/// Where no table has a UNIQUE without KEEP LEAST or an ATMOST, no limit is broken.
pub fn unlimited_tables_hold()
    ensures { (rules : Rules) (rows : List TableRow) → IsTrue (list_all is_unlimited rules.tables)
        → IsTrue (limits_hold rows 0 rules.tables) }
{}

/// The nodes of a list are judged one by one, from the oldest on.
pub fn judged_one_by_one()
    ensures { (rules : Rules) (older : List NodeData) (node : NodeData)
        → judged rules (node ∷ older) ≡ judge_next rules (judged rules older) node ∷ judged rules older }
{}

/// A verdict is what is found on what the valid ones of a node's ancestors did.
pub fn verdict_is_on_ancestors()
    ensures { (rules : Rules) (js : List Judged) (node : NodeData)
        → (judge_next rules js node).verdict ≡ verdict_on rules
        (effects (filter (λ j. ancestor_of js node j.node.id) js)) node }
{}

/// What the valid ones did is what the newest one did, where it is valid, and what those behind it did.
pub fn effects_one_by_one()
    ensures { (j : Judged) (js : List Judged)
        → effects (j ∷ js) ≡ (if is_valid j.verdict then joined (effects_of j.node) (effects js) else effects js) }
{}

/// The verdict after what the ancestors did goes operation by operation.
pub fn verdict_goes_by_operations()
    ensures { (rules : Rules) (past : Effects) (node : NodeData)
        → verdict_on rules past node ≡ verdict_after rules past (visible_rows rules past) node 0 nothing node.ops }
{}
