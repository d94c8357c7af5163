//! Laws of tables. Each function does nothing: its contract is a theorem for callers to cite. Lists of nodes stand
//! newest first.

ghost use Rattle.std.specs.Prelude.{◌≡◌, ℕ, true, Contains, List, [], ◌∷◌, map, reverse};
ghost use Rattle.schema.specs.Least.{is_steady};
ghost use Rattle.schema.specs.Sound.{AreTables};
ghost use Rattle.update_model.specs.Node.{NodeData};
ghost use Rattle.table_model.specs.declared.verdict.Verdict.{Verdict};
ghost use Rattle.table_model.specs.Nodes.{IsClosed, IsNext};
ghost use Rattle.std.specs.List.Sorted.{IsPermutation, IsStrictlySortedBy};
ghost use Rattle.table_model.specs.declared.shown_row.ShownRow.{ShownRow};
ghost use Rattle.table_model.specs.Tables.{AreRowsIn, HasDistinctNames, name_cmp, void_lines};
ghost use Rattle.table_model.specs.Verdicts.{effects_in, judge_next, judged};
ghost use Rattle.table_model.specs.Visible.{Rules, TableRow, is_visible};
ghost use Rattle.tuple_state.specs.Past.{effects_before};
ghost use Rattle.tuple_state.specs.Arrived.{arrived};
ghost use Rattle.tuple_state.specs.State.{IsStateOf, State, after, done_in};

/// Tables that hold what nodes do hold, after one more node is applied with its verdict, what all of them do.
pub fn applied_is_next()
    ensures { (rules : Rules) (nodes : List NodeData) (state : State) (node : NodeData) (verdict : Verdict)
        → IsStateOf rules nodes state → IsNext nodes node
        → verdict ≡ (judge_next rules (judged rules nodes) node).verdict
        → IsStateOf rules (node ∷ nodes) (after state node verdict) }
{}

/// What is visible now was visible before, in a table whose rows are hidden for no lesser one. A row of it that is
/// visible after the updates of a closed list is visible after the ancestors of any update, where one of them inserted
/// it: nobody has hidden it by then.
pub fn visible_rows_were_visible()
    ensures { (rules : Rules) (nodes : List NodeData) (node : NodeData) → AreTables [] rules.tables → IsClosed nodes
        → (row : TableRow)
        → Contains (effects_before rules nodes node).inserted row → is_steady rules.tables row.table ≡ true
        → is_visible rules (effects_in rules nodes) row.name ≡ true → is_visible rules (effects_before rules nodes node)
        row.name ≡ true }
{}

/// Tables that hold what nodes do have their effects and their void lines.
pub fn states_are_effects()
    ensures did { (rules : Rules) (nodes : List NodeData) (state : State) → IsStateOf rules nodes state
        → done_in state ≡ effects_in rules nodes }
    ensures voids { (rules : Rules) (nodes : List NodeData) (state : State) → IsStateOf rules nodes state
        → reverse (map (λ it. it.line) state.voids) ≡ void_lines (judged rules nodes) }
{}

/// The rows that tables lend, which hold what nodes do, have names of their own, and in rising order of these they are
/// the rows that the nodes show.
pub fn lent_rows_are_listed()
    ensures distinct { (rules : Rules) (nodes : List NodeData) (state : State) (table : ℕ) → IsStateOf rules nodes state
        → HasDistinctNames (arrived state table) }
    ensures shown { (rules : Rules) (nodes : List NodeData) (state : State) (table : ℕ) (rows : List ShownRow)
        → IsStateOf rules nodes state
        → IsStrictlySortedBy name_cmp (map (λ row. row.name) rows) → IsPermutation rows (arrived state table)
        → AreRowsIn rules nodes table rows }
{}
