//! Laws of sets of updates and of invariants. Each function does nothing: its contract is a theorem for callers to
//! cite. Lists of nodes stand newest first, and `ask` is whatever native checks mean.

ghost use Rattle.std.specs.Prelude.{◌≡◌, ◌↔◌, List, [], ◌∷◌, ◌++◌, Contains, reverse, IsTrue, false};
ghost use Rattle.std.specs.List.{list_all};
ghost use Rattle.std.specs.List.Sorted.{IsPermutation};
ghost use Rattle.update_model.specs.declared.row_name.RowName.{RowName};
ghost use Rattle.update_model.specs.Entry.{Entry};
ghost use Rattle.update_model.specs.Graph.{Follows, IsAncestor};
ghost use Rattle.update_model.specs.Node.{NodeData};
ghost use Rattle.schema.specs.Columns.{all_fit};
ghost use Rattle.schema.specs.Samples.{SamplesPass};
ghost use Rattle.schema.specs.Sound.{AreTables};
ghost use Rattle.table_model.specs.declared.counterexample.Counterexample.{Counterexample};
ghost use Rattle.table_model.specs.declared.shown_row.ShownRow.{ShownRow};
ghost use Rattle.table_model.specs.declared.void_line.VoidLine.{VoidLine};
ghost use Rattle.table_model.specs.Invariants.{Claim, Declared, claim_holds, claims_of, invariants_of, shown_in};
ghost use Rattle.table_model.specs.Nodes.{Agree, AreNodesOf, IsClosed, IsSameSet, union};
ghost use Rattle.table_model.specs.Tables.{AreTablesOf};
ghost use Rattle.table_model.specs.Verdicts.{Judged, effects_in, judged};
ghost use Rattle.table_model.specs.Visible.{Rules, is_visible, table_of};
ghost use Rattle.confluence_laws.specs.Confluence.{IsConfluent, accepts, are_accepted, confirms};
ghost use Rattle.confluence_laws.specs.Examples.{example_of};

/// Verdicts are a function of the set of nodes: two closed lists of one set have the same nodes with the same ancestors
/// and verdicts, in whatever order.
pub fn verdicts_are_of_the_set()
    ensures { (rules : Rules) (xs ys : List NodeData) → IsClosed xs → IsClosed ys → IsSameSet xs ys
        → IsPermutation (judged rules xs) (judged rules ys) }
{}

/// Which rows are visible is a function of the set of nodes.
pub fn visible_rows_are_of_the_set()
    ensures { (rules : Rules) (xs ys : List NodeData) (name : RowName) → IsClosed xs → IsClosed ys → IsSameSet xs ys
        → is_visible rules (effects_in rules xs) name ≡ is_visible rules (effects_in rules ys) name }
{}

/// Tables, and the lines of updates that do nothing, are a function of the set of nodes.
pub fn tables_are_of_the_set()
    ensures { (rules : Rules) (xs ys : List NodeData) (tables others : List (List ShownRow)) (voids lines :
        List VoidLine)
        → IsClosed xs → IsClosed ys → IsSameSet xs ys → AreTablesOf rules xs tables voids
        → AreTablesOf rules ys others lines
        → (tables ≡ others) × (voids ≡ lines) }
{}

/// The union of two closed lists is closed.
pub fn union_is_closed()
    ensures { (xs ys : List NodeData) → IsClosed xs → IsClosed ys → IsClosed (union xs ys) }
{}

/// The union of two lists in which equal ids mean equal nodes is one set, whichever comes first.
pub fn union_is_of_both()
    ensures { (xs ys : List NodeData) → Agree xs ys → IsSameSet (union xs ys) (union ys xs) }
{}

/// Whatever holds in the tables is a function of the set of nodes.
pub fn invariants_are_of_the_set()
    ensures { (rules : Rules) (xs ys : List NodeData) (claim : Claim) → IsClosed xs → IsClosed ys → IsSameSet xs ys
        → claim_holds rules (shown_in rules xs) claim ≡ claim_holds rules (shown_in rules ys) claim }
{}

/// An invariant that the rule accepts holds in the tables of every closed list.
pub fn accepted_holds()
    ensures { (rules : Rules) (nodes : List NodeData) (declared : Declared) → AreTables [] rules.tables → IsClosed nodes
        → Contains (invariants_of rules) declared → IsTrue (accepts rules declared.claim)
        → IsTrue (claim_holds rules (shown_in rules nodes) declared.claim) }
{}

/// An invariant that the rule accepts is confluent.
pub fn accepted_is_confluent()
    ensures { (rules : Rules) (earlier : List Claim) (declared : Declared) → AreTables [] rules.tables
        → Contains (invariants_of rules) declared → IsTrue (accepts rules declared.claim)
        → IsConfluent rules earlier declared.claim }
{}

/// An invariant with a counterexample that confirms is not confluent.
pub fn confirmed_refutes()
    ensures { (rules : Rules) (earlier : List Claim) (claim : Claim) (example : Counterexample)
        → IsTrue (confirms rules earlier claim example) → IsConfluent rules earlier claim → ⊥ }
{}

/// Of the first invariant that the rule refuses the counterexample confirms, whatever native checks mean, as long as
/// the samples pass.
pub fn first_refused_is_confirmed()
    ensures { (rules : Rules) (earlier later : List Declared) (declared : Declared) → AreTables [] rules.tables
        → SamplesPass rules.ask rules.tables
        → invariants_of rules ≡ earlier ++ declared ∷ later → IsTrue (are_accepted rules earlier)
        → accepts rules declared.claim ≡ false
        → IsTrue (confirms rules (claims_of earlier) declared.claim (example_of rules declared.claim)) }
{}

/// Every row that a closed list shows fits the columns of its table.
pub fn shown_rows_fit()
    ensures { (rules : Rules) (nodes : List NodeData) → AreTables [] rules.tables → IsClosed nodes
        → IsTrue (list_all (λ row. all_fit (table_of rules row.table).columns row.values) (shown_in rules nodes)) }
{}

/// In a closed list the ancestors on which an update is judged are its ancestors in the graph.
pub fn judged_ancestors_are_ancestors()
    ensures { (rules : Rules) (graph : List Entry) (nodes : List NodeData) (a e : Entry) (j : Judged)
        → AreNodesOf graph nodes → Follows [] graph
        → Contains graph a → Contains graph e → Contains (judged rules (reverse nodes)) j → e.id ≡ j.node.id
        → IsTrue (j.is_ancestor a.id) ↔ IsAncestor graph a e }
{}
