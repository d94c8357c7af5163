//! What holds of the texts of expressions.

ghost use Rattle.std.specs.Prelude.{◌≡◌, ℕ, List};
ghost use Rattle.row_check.specs.Trees.{Tree};
ghost use Rattle.expression_text.specs.declared.token.Token.{Token};
ghost use Rattle.expression_text.specs.Grammar.{Parses, Disjunction, IsExpression};

/// Tokens are at most one expression.
pub fn one_expression()
    ensures { (column_of : List ℕ → ℕ) (tokens : List Token) (a b : Tree) → Parses column_of Disjunction tokens a
        → Parses column_of Disjunction tokens b → a ≡ b }
{}

/// What is an expression over some columns is one whatever the columns are.
pub fn any_columns()
    ensures { (column_of : List ℕ → ℕ) (tokens : List Token) (tree : Tree) → Parses column_of Disjunction tokens tree
        → IsExpression tokens }
{}
