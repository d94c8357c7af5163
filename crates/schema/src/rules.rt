use row_check::{Cmp, Expr};
use std::marker::Model;

/// A `CHECK`: an expression that is true of each row of the table. A contract sees the tree of the expression, and not
/// where its parts lie in memory.
#[derive(Drop)]
pub struct CheckRule {
    /// The expression, over the numbers of the table's columns.
    pub expr: Expr,
    /// The line that declares it, from 1.
    pub line: u32,
}

impl Model for CheckRule {
    ghost use Rattle.schema.specs.Checks.{CheckData, coded_check};
    ghost use Rattle.row_check.specs.Trees.{tree_of};

    ghost Value = { CheckData };

    ghost coded = { coded_check };

    ghost view = { λ check. record { tree = tree_of check.expr; line = check.line } };
}

/// A `MATCH`: a comparison of a row's value with one of the row that it refers to. It is asked where the reference
/// is not null.
#[derive(Clone, Copy)]
pub struct MatchRule {
    /// The number of the column that is the left side.
    pub column: u8,
    /// What is asked of the two values.
    pub cmp: Cmp,
    /// The number of the column that refers to the other row.
    pub reference: u8,
    /// The number of the other table's column that is the right side.
    pub target_column: u8,
    /// The line that declares it, from 1.
    pub line: u32,
}

/// A `UNIQUE`: no two rows of the table have the same value in this column.
#[derive(Clone, Copy)]
pub struct UniqueRule {
    /// The number of the column.
    pub column: u8,
    /// The line that declares it, from 1.
    pub line: u32,
}
