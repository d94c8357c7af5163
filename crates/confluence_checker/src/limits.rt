//! Whether a `UNIQUE` and an `ATMOST` hold of rows.

ghost use Rattle.std.specs.Prelude.{◌≡◌, ◌&&◌, ◌||◌, count_by};
ghost use Rattle.std.specs.List.{list_all};
ghost use Rattle.row_check.specs.declared.cmp.Cmp.TheVariants as cmp;
ghost use Rattle.row_check.specs.Comparisons.{compares};
ghost use Rattle.row_check.specs.Meaning.{value_at};
ghost use Rattle.table_model.specs.Verdicts.{at_most_holds, in_table, keeps_least, limits_hold, unique_holds};

use crate::inserted_row::InsertedRow;
use crate::values::compare_at;
use row_check::Cmp;
use schema::{Schema, TableDef, UniqueRule};

/// How many rows of a table are equal to this one in a column.
fn equal_count(rows: &[InsertedRow], table: u8, column: u8, row: &InsertedRow) -> usize
    ensures { result ≡ count_by (λ b. in_table table b && compares cmp.Eq (value_at row.now.values column)
        (value_at b.values column)) rows.now }
{
    rows.iter()
        .filter(|other| {
            other.table == table
                && compare_at(
                    Cmp::Eq,
                    row.values.as_slice(),
                    column,
                    other.values.as_slice(),
                    column,
                )
        })
        .count()
}

/// Whether no two rows of a table are equal in a column.
pub(crate) fn unique_holds(rows: &[InsertedRow], table: u8, column: u8) -> bool
    ensures { result ≡ unique_holds rows.now table column }
{
    rows.iter().all(|row| row.table != table || equal_count(rows, table, column, row) <= 1)
}

/// Whether a table has at most so many rows, where 0 is no limit.
pub(crate) fn at_most_holds(rows: &[InsertedRow], table: u8, count: u8) -> bool
    ensures { result ≡ at_most_holds rows.now table count }
{
    count == 0 || row_count(rows, table) <= usize::from(count)
}

/// How many rows a table has.
fn row_count(rows: &[InsertedRow], table: u8) -> usize
    ensures { result ≡ count_by (in_table table) rows.now }
{
    rows.iter().filter(|row| row.table == table).count()
}

/// Whether a `UNIQUE` of a column is the one with `KEEP LEAST`, if any.
pub(crate) fn keeps_least(kept: Option<u8>, column: u8) -> bool
    ensures { result ≡ keeps_least kept column }
{
    match kept {
        None => false,
        Some(kept) => kept == column,
    }
}

/// Whether each `UNIQUE` of a table holds, but for the one with `KEEP LEAST`, if any.
fn uniques_hold(rows: &[InsertedRow], table: u8, kept: Option<u8>, uniques: &[UniqueRule]) -> bool
    ensures { result ≡ list_all (λ rule. keeps_least kept rule.column || unique_holds rows.now table rule.column)
        uniques.now }
{
    uniques.iter().all(|rule| {
        keeps_least(kept, rule.column) || unique_holds(rows, table, rule.column)
    })
}

/// Whether every `UNIQUE` without `KEEP LEAST` and the `ATMOST` of a table holds.
fn limits_of(rows: &[InsertedRow], number: u8, table: &TableDef) -> bool
    ensures { result ≡ (list_all (λ rule. keeps_least table.now.kept rule.column || unique_holds rows.now number
        rule.column) table.now.uniques && at_most_holds rows.now number table.now.at_most) }
{
    uniques_hold(rows, number, table.kept, table.uniques.as_slice())
        && at_most_holds(rows, number, table.at_most)
}

/// Whether every `UNIQUE` without `KEEP LEAST` and every `ATMOST` of a schema holds.
pub(crate) fn limits_hold(schema: &Schema, rows: &[InsertedRow]) -> bool
    ensures { result ≡ limits_hold rows.now 0 schema.now.tables }
{
    for number in 0..schema.tables() {
        if !limits_of(rows, number, schema.table(number)) {
            return false;
        }
    }
    true
}
