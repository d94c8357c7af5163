//! Asking the `CHECK` lines of a table about a row.

ghost use Rattle.std.specs.Prelude.{◌≡◌, IfOk};
ghost use Rattle.std.specs.List.{AllByRecursion};
ghost use Rattle.row_check.specs.Kinds.{FitsKinds};
ghost use Rattle.row_check.specs.Trees.{holds_tree};
ghost use Rattle.schema.specs.Checks.{checks_hold};
ghost use Rattle.schema.specs.Columns.{kinds_of};
ghost use Rattle.schema.specs.Sound.{IsSoundCheck};

use crate::{CheckRule, Column};
use row_check::{Checks, Native, Relation, eval, kinds_fit_rows, trees_hold};
use std::alloc::{AllocError, Global};
use update_model::Value;

/// Whether a `CHECK` of a table with these columns is true of a row that has values of their kinds, as a row that fits
/// them has ([`crate::all_fit`]). Only a native check takes memory.
pub fn check_holds<L: Relation, C: Checks<L>>(
    alloc: Global,
    native: &Native<L, C>,
    columns: &[Column],
    check: &CheckRule,
    row: &[Value],
) -> Result<bool, AllocError>
    requires sound { IsSoundCheck columns.now check.now }
    requires kinds { FitsKinds (kinds_of columns.now) row.now }
    ensures { IfOk result (λ answer. answer ≡ holds_tree L.answer row.now check.now.tree) }
{
    kinds_fit_rows();
    trees_hold();
    eval(alloc, &check.expr, row, native)
}

/// Whether each of them is.
pub fn checks_hold<L: Relation, C: Checks<L>>(
    alloc: Global,
    native: &Native<L, C>,
    columns: &[Column],
    checks: &[CheckRule],
    row: &[Value],
) -> Result<bool, AllocError>
    requires sound { AllByRecursion (IsSoundCheck columns.now) checks.now }
    requires kinds { FitsKinds (kinds_of columns.now) row.now }
    ensures { IfOk result (λ answer. answer ≡ checks_hold L.answer row.now checks.now) }
{
    for check in checks {
        if !check_holds(alloc, native, columns, check, row)? {
            return Ok(false);
        }
    }
    Ok(true)
}
