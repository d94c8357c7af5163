//! Whether what an invariant says is true of shown rows.

ghost use Rattle.std.specs.Prelude.{◌≡◌, ◌==◌, ◌||◌, not, IfOk, IsTrue};
ghost use Rattle.row_check.specs.Meaning.{value_at};
ghost use Rattle.row_check.specs.Trees.{holds_tree};
ghost use Rattle.table_model.specs.Invariants.{each_row, names_shown};
ghost use Rattle.schema.specs.Sound.{IsSoundCheck};
ghost use Rattle.table_model.specs.Verdicts.{in_table, matches_among};
ghost use Rattle.schema.specs.Columns.{all_fit};
ghost use Rattle.table_model.specs.Visible.{table_of, bare_rules};
ghost use Rattle.confluence_checker.specs.Forms.{AllFit};

use crate::checker::Checker;
use crate::inserted_row::InsertedRow;
use crate::reasons::has_match;
use crate::references::has_row;
use row_check::{Checks, Native, Relation};
use schema::{CheckRule, Column, MatchRule};
use std::alloc::{AllocError, Global};
use update_model::Value;

/// Whether a reference is null or names a row of the target table among these.
fn names_shown(rows: &[InsertedRow], target: u8, values: &[Value], column: usize) -> bool
    ensures { result ≡ names_shown rows.now target (value_at values.now column) }
{
    match values.get(column) {
        Some(Value::Row(name)) => has_row(rows, name, target),
        _ => true,
    }
}

/// Whether each reference of a table in this column does.
pub(crate) fn refers_holds(rows: &[InsertedRow], table: u8, column: usize, target: u8) -> bool
    ensures { result ≡ each_row rows.now table (λ row. names_shown rows.now target (value_at row.values column)) }
{
    rows.iter().all(|row| row.table != table
        || names_shown(rows, target, row.values.as_slice(), column))
}

/// Whether a `MATCH` is true of a row beside these.
fn match_holds(rows: &[InsertedRow], values: &[Value], rule: &MatchRule) -> bool
    ensures { result ≡ matches_among rows.now values.now rule.now (value_at values.now rule.now.reference) }
{
    match values.get(usize::from(rule.reference)) {
        Some(Value::Row(name)) => has_match(rows, values, rule, name),
        _ => true,
    }
}

/// Whether a `MATCH` is true of each row of a table.
pub(crate) fn matches_hold(rows: &[InsertedRow], table: u8, rule: &MatchRule) -> bool
    ensures { result ≡ each_row rows.now table (λ row. matches_among rows.now row.values rule.now
        (value_at row.values rule.now.reference)) }
{
    rows.iter().all(|row| row.table != table || match_holds(rows, row.values.as_slice(), rule))
}

/// Whether a `CHECK` is true of a row that fits.
fn check_is_true<L: Relation, C: Checks<L>>(
    alloc: Global,
    native: &Native<L, C>,
    columns: &[Column],
    check: &CheckRule,
    values: &[Value],
) -> Result<bool, AllocError>
    requires sound { IsSoundCheck columns.now check.now }
    requires fits { IsTrue (all_fit columns.now values.now) }
    ensures { IfOk result (λ answer. answer ≡ holds_tree L.answer values.now check.now.tree) }
{
    schema::check_holds(alloc, native, columns, check, values)
}

/// Whether a `CHECK` is true of a row, which fits, where it is of the table with this number.
fn check_holds_at<L: Relation, C: Checks<L>>(
    checker: &Checker<'_, L, C>,
    row: &InsertedRow,
    table: u8,
    columns: &[Column],
    check: &CheckRule,
) -> Result<bool, AllocError>
    requires fits { IsTrue (all_fit (table_of (bare_rules checker.now.schema.now.tables) row.now.table).columns
        row.now.values) }
    requires columns { columns.now ≡ (table_of (bare_rules checker.now.schema.now.tables) table).columns }
    requires sound { IsSoundCheck columns.now check.now }
    ensures { IfOk result (λ answer. answer ≡ (not (in_table table row.now) || holds_tree L.answer row.now.values
        check.now.tree)) }
{
    if row.table != table {
        return Ok(true);
    }
    check_is_true(
        checker.alloc,
        checker.native,
        columns,
        check,
        row.values.as_slice(),
    )
}

/// Whether a `CHECK` is true of each row of a table. All rows fit.
pub(crate) fn check_holds<L: Relation, C: Checks<L>>(
    checker: &Checker<'_, L, C>,
    rows: &[InsertedRow],
    table: u8,
    columns: &[Column],
    check: &CheckRule,
) -> Result<bool, AllocError>
    requires fits { AllFit checker.now.schema.now.tables rows.now }
    requires columns { columns.now ≡ (table_of (bare_rules checker.now.schema.now.tables) table).columns }
    requires sound { IsSoundCheck columns.now check.now }
    ensures { IfOk result (λ answer. answer ≡ each_row rows.now table (λ row. holds_tree L.answer row.values
        check.now.tree)) }
{
    match rows {
        [] => Ok(true),
        [row, rows @ ..] => {
            if !check_holds_at(checker, row, table, columns, check)? {
                return Ok(false);
            }
            check_holds(checker, rows, table, columns, check)
        }
    }
}
