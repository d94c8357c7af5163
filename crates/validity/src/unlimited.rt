//! Schemas without limits that concurrent updates could break together.

ghost use Rattle.std.specs.Prelude.{◌≡◌};
ghost use Rattle.std.specs.List.{list_all};
ghost use Rattle.table_model.specs.Verdicts.{is_unlimited, keeps_least};

use schema::{Schema, TableDef, UniqueRule};

/// Whether no table of a schema has an `ATMOST`, or a `UNIQUE` without `KEEP LEAST`, as [`judge`](crate::judge) asks.
/// Every schema of which each invariant survives merging is one of these.
pub fn is_unlimited(schema: &Schema) -> bool
    ensures { result ≡ list_all is_unlimited schema.now.tables }
{
    for number in 0..schema.tables() {
        if !is_unlimited_table(schema.table(number)) {
            return false;
        }
    }
    true
}

fn is_unlimited_table(table: &TableDef) -> bool
    ensures { result ≡ is_unlimited table.now }
{
    keep_least(table.kept, table.uniques.as_slice()) && table.at_most == 0
}

/// Whether none of these `UNIQUE` lines is without `KEEP LEAST`.
fn keep_least(kept: Option<u8>, rules: &[UniqueRule]) -> bool
    ensures { result ≡ list_all (λ rule. keeps_least kept rule.column) rules.now }
{
    rules.iter().all(|rule| keeps_least(kept, rule))
}

/// Whether a `UNIQUE` line is the one with `KEEP LEAST`.
fn keeps_least(kept: Option<u8>, rule: &UniqueRule) -> bool
    ensures { result ≡ keeps_least kept rule.now.column }
{
    match kept {
        Some(column) => column == rule.column,
        None => false,
    }
}
