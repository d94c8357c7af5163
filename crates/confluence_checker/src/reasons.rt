//! Why an operation may not be done.

ghost use Rattle.std.specs.Prelude.{◌≡◌, IfOk, ◌&&◌, not, ◌++◌, IsTrue};
ghost use Rattle.std.specs.List.{list_all, list_any, AllByRecursion};
ghost use Rattle.row_check.specs.Comparisons.{compares};
ghost use Rattle.row_check.specs.Meaning.{value_at};
ghost use Rattle.row_check.specs.Trees.{holds_tree};
ghost use Rattle.schema.specs.Sound.{IsSoundCheck};
ghost use Rattle.table_model.specs.Verdicts.{delete_reason, insert_reason, matches_among, matches_hold, same_author};
ghost use Rattle.schema.specs.Checks.{checks_hold};
ghost use Rattle.table_model.specs.Visible.{refs, same_row, table_of, rules_with, bare_rules};
ghost use Rattle.schema.specs.Columns.{is_restrict, all_fit, fits};

use crate::ids::{is_among, same_row};
use crate::inserted_row::InsertedRow;
use crate::references::{references_stand, restricts};
use crate::values::{columns_of, compare_at, is_deletable, is_owned};
use row_check::{Checks, Native, Relation};
use schema::{MatchRule, Schema, all_fit, checks_hold};
use std::alloc::{AllocError, Global};
use table_model::reason;
use update_model::{AuthorKey, RowName, Value};

/// Whether a row with this name among these compares as a `MATCH` says.
pub(crate) fn has_match(
    rows: &[InsertedRow],
    values: &[Value],
    rule: &MatchRule,
    name: &RowName,
) -> bool
    ensures { result ≡ list_any (λ target. same_row target.name name.now && compares rule.now.cmp
        (value_at values.now rule.now.column) (value_at target.values rule.now.target_column)) rows.now }
{
    rows.iter().any(|target| {
        same_row(&target.name, name)
            && compare_at(
                rule.cmp,
                values,
                rule.column,
                target.values.as_slice(),
                rule.target_column,
            )
    })
}

/// The same among newer and older ones.
#[tactic(auto, using(crate::proofs::Either::rows_either))]
fn has_match_in(
    newer: &[InsertedRow],
    older: &[InsertedRow],
    values: &[Value],
    rule: &MatchRule,
    name: &RowName,
) -> bool
    ensures { result ≡ list_any (λ target. same_row target.name name.now && compares rule.now.cmp
        (value_at values.now rule.now.column) (value_at target.values rule.now.target_column)) (newer.now ++ older.now) }
{
    has_match(newer, values, rule, name) || has_match(older, values, rule, name)
}

/// Whether a `MATCH` is true of a row beside these, which are newer and older ones.
fn match_holds(
    newer: &[InsertedRow],
    older: &[InsertedRow],
    values: &[Value],
    rule: &MatchRule,
) -> bool
    ensures { result ≡ matches_among (newer.now ++ older.now) values.now rule.now
        (value_at values.now rule.now.reference) }
{
    match values.get(usize::from(rule.reference)) {
        Some(Value::Row(name)) => has_match_in(newer, older, values, rule, name),
        _ => true,
    }
}

/// Whether every `MATCH` is.
fn matches_hold(
    newer: &[InsertedRow],
    older: &[InsertedRow],
    values: &[Value],
    rules: &[MatchRule],
) -> bool
    ensures { result ≡ matches_hold (newer.now ++ older.now) values.now rules.now }
{
    rules
        .iter()
        .all(|rule| match_holds(newer, older, values, rule))
}

/// Why a row may not be inserted beside these, which are those that earlier operations of the update inserted, and
/// those that are visible on the ancestors.
pub(crate) fn insert_reason<L: Relation, C: Checks<L>>(
    alloc: Global,
    schema: &Schema,
    native: &Native<L, C>,
    newer: &[InsertedRow],
    older: &[InsertedRow],
    row: &InsertedRow,
) -> Result<Option<u8>, AllocError>
    ensures { IfOk result (λ reason. reason ≡ insert_reason (rules_with L.answer schema.now.tables)
        (newer.now ++ older.now) row.now) }
{
    if row.table >= schema.tables() {
        return Ok(Some(reason::NO_TABLE));
    }
    let table = schema.table(row.table);
    let columns = table.columns.as_slice();
    let values = row.values.as_slice();
    if !all_fit(columns, values) {
        return Ok(Some(reason::MISFIT));
    }
    if !checks_hold(alloc, native, columns, table.checks.as_slice(), values)? {
        return Ok(Some(reason::CHECK_FALSE));
    }
    if !references_stand(columns, values, newer, older) {
        return Ok(Some(reason::NO_TARGET));
    }
    if !matches_hold(newer, older, values, table.matches.as_slice()) {
        return Ok(Some(reason::MATCH_FALSE));
    }
    Ok(None)
}

/// Whether two keys are one.
fn same_author(a: &AuthorKey, b: &AuthorKey) -> bool
    ensures { result ≡ same_author a.now b.now }
{
    a.lms == b.lms
        && a.ots == b.ots
        && a.ident.as_slice() == b.ident.as_slice()
        && a.root.as_slice() == b.root.as_slice()
}

/// Whether a row with this name stands among these, in a table whose rows may be deleted.
fn may_go(schema: &Schema, rows: &[InsertedRow], name: &RowName) -> bool
    ensures { result ≡ list_any (λ row. same_row row.name name.now && (table_of (bare_rules schema.now.tables)
        row.table).deletable) rows.now }
{
    rows.iter().any(|row| same_row(&row.name, name) && is_deletable(schema, row.table))
}

/// Whether a row with this name is another author's, in a table whose rows only their authors may delete.
fn is_anothers(schema: &Schema, rows: &[InsertedRow], author: &AuthorKey, name: &RowName) -> bool
    ensures { result ≡ list_any (λ row. same_row row.name name.now && (table_of (bare_rules schema.now.tables)
        row.table).owned && not (same_author row.author author.now)) rows.now }
{
    rows.iter().any(|row| {
        same_row(&row.name, name)
            && is_owned(schema, row.table)
            && !same_author(&row.author, author)
    })
}

/// Whether a row names this one by `RESTRICT`.
fn is_restricted(schema: &Schema, rows: &[InsertedRow], name: &RowName) -> bool
    ensures { result ≡ list_any (λ row. list_any (λ r. is_restrict r.action && same_row r.name name.now)
        (refs (bare_rules schema.now.tables) row)) rows.now }
{
    rows.iter().any(|row| { restricts(columns_of(schema, row.table), row.values.as_slice(), name) })
}

/// Why this author may not delete a name, where these rows are visible on the ancestors and the update has deleted
/// these names already.
pub(crate) fn delete_reason(
    schema: &Schema,
    rows: &[InsertedRow],
    dropped: &[RowName],
    author: &AuthorKey,
    name: &RowName,
) -> Option<u8>
    ensures { result ≡ delete_reason (bare_rules schema.now.tables) rows.now dropped.now author.now name.now }
{
    if !may_go(schema, rows, name) || is_among(dropped, name) {
        return Some(reason::NOT_DELETABLE);
    }
    if is_anothers(schema, rows, author, name) {
        return Some(reason::NOT_OWNER);
    }
    if is_restricted(schema, rows, name) {
        return Some(reason::RESTRICTED);
    }
    None
}
