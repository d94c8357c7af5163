//! What holds of expressions. Each function does nothing: its contract is a theorem for callers to cite.

ghost use Rattle.std.specs.Prelude.{◌≡◌, ℕ, List, Bool};
ghost use Rattle.update_model.specs.declared.value.Value.{Value};
ghost use Rattle.row_check.specs.declared.expr.Expr.{Expr};
ghost use Rattle.row_check.specs.declared.kind.Kind.{Kind};
ghost use Rattle.row_check.specs.Kinds.{FitsKinds, HasKinds};
ghost use Rattle.row_check.specs.Meaning.{FitsRow, holds};
ghost use Rattle.row_check.specs.Trees.{holds_tree, tree_of};

/// An expression that fits the kinds of columns fits each row of them, so that it may be asked of it.
pub fn kinds_fit_rows()
    ensures { (kinds : List Kind) (row : List Value) (expr : Expr) → HasKinds kinds (tree_of expr) → FitsKinds kinds row
        → FitsRow row expr }
{}

/// What an expression says of a row is what its tree says.
pub fn trees_hold()
    ensures { (relation : ℕ → List Value → Bool) (row : List Value) (expr : Expr)
        → holds relation row expr ≡ holds_tree relation row (tree_of expr) }
{}
