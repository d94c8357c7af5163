//! The rows that a new row refers to.

ghost use Rattle.std.specs.Prelude.{◌≡◌, ◌==◌, ◌&&◌, IfOk};
ghost use Rattle.std.specs.List.{list_all, list_any};
ghost use Rattle.row_check.specs.Meaning.{value_at};
ghost use Rattle.table_model.specs.Visible.{ref_in, refs_in, same_row};
ghost use Rattle.validity.specs.Asked.{is_in, is_match, is_matched, match_asked, stands_asked};

use crate::own_row::OwnRow;
use row_check::compare;
use schema::{Column, ColumnKind, MatchRule};
use std::alloc::{AllocError, Global};
use update_model::{RowName, RowsAt, Value};

/// Whether each row that is named in these columns is there, in the table that the reference is to.
pub(crate) fn references_stand<Q: RowsAt>(
    alloc: Global,
    columns: &[Column],
    values: &[Value],
    own: &[OwnRow],
    rows: &Q,
) -> Result<bool, AllocError>
    ensures { IfOk result (λ answer. answer ≡ list_all (λ r. stands_asked own.now (Q.RowsAt.row rows.now) r.name
        r.target) (refs_in columns.now values.now)) }
{
    match columns {
        [] => Ok(true),
        [column, columns @ ..] => match values {
            [] => Ok(true),
            [value, values @ ..] => Ok(
                reference_stands(alloc, &column.kind, value, own, rows)?
                    && references_stand(alloc, columns, values, own, rows)?,
            ),
        },
    }
}

/// Whether the row that is named in a column of this kind, if any, is there.
fn reference_stands<Q: RowsAt>(
    alloc: Global,
    kind: &ColumnKind,
    value: &Value,
    own: &[OwnRow],
    rows: &Q,
) -> Result<bool, AllocError>
    ensures { IfOk result (λ answer. answer ≡ list_all (λ r. stands_asked own.now (Q.RowsAt.row rows.now) r.name
        r.target) (ref_in kind.now value.now)) }
{
    match (kind, value) {
        (ColumnKind::Reference { target, .. }, Value::Row(name)) => {
            stands(alloc, name, *target, own, rows)
        }
        _ => Ok(true),
    }
}

/// Whether the row with a name stands in a table, among the update's own or the visible ones.
fn stands<Q: RowsAt>(
    alloc: Global,
    name: &RowName,
    target: u8,
    own: &[OwnRow],
    rows: &Q,
) -> Result<bool, AllocError>
    ensures { IfOk result (λ answer. answer ≡ stands_asked own.now (Q.RowsAt.row rows.now) name.now target) }
{
    Ok(stands_own(name, target, own) || stands_visible(alloc, name, target, rows)?)
}

/// Whether the row with a name stands in a table, among the update's own.
fn stands_own(name: &RowName, target: u8, own: &[OwnRow]) -> bool
    ensures { result ≡ list_any (λ o. same_row o.name name.now && (o.entry.table == target)) own.now }
{
    own.iter()
        .any(|row| is_row(&row.name, name) && row.entry.table == target)
}

/// The same among the visible ones.
fn stands_visible<Q: RowsAt>(
    alloc: Global,
    name: &RowName,
    target: u8,
    rows: &Q,
) -> Result<bool, AllocError>
    ensures { IfOk result (λ answer. answer ≡ is_in target (Q.RowsAt.row rows.now name.now)) }
{
    match rows.row_at(alloc, name)? {
        Some(entry) => Ok(entry.table == target),
        None => Ok(false),
    }
}

/// Whether each MATCH is true of a new row with these values.
pub(crate) fn matches_hold<Q: RowsAt>(
    alloc: Global,
    rules: &[MatchRule],
    values: &[Value],
    own: &[OwnRow],
    rows: &Q,
) -> Result<bool, AllocError>
    ensures { IfOk result (λ answer. answer ≡ list_all (λ rule. match_asked own.now (Q.RowsAt.row rows.now) values.now
        rule (value_at values.now rule.reference)) rules.now) }
{
    for rule in rules {
        let holds = match_holds(alloc, rule, values, own, rows)?;
        if !holds {
            return Ok(false);
        }
    }
    Ok(true)
}

/// Whether a MATCH is true of a new row with these values. It is, where the reference is null.
fn match_holds<Q: RowsAt>(
    alloc: Global,
    rule: &MatchRule,
    values: &[Value],
    own: &[OwnRow],
    rows: &Q,
) -> Result<bool, AllocError>
    ensures { IfOk result (λ answer. answer ≡ match_asked own.now (Q.RowsAt.row rows.now) values.now rule.now
        (value_at values.now rule.now.reference)) }
{
    match values.get(usize::from(rule.reference)) {
        Some(Value::Row(name)) => is_matched(alloc, name, rule, values, own, rows),
        _ => Ok(true),
    }
}

/// Whether a MATCH is true of a new row with these values and the row with this name.
fn is_matched<Q: RowsAt>(
    alloc: Global,
    name: &RowName,
    rule: &MatchRule,
    values: &[Value],
    own: &[OwnRow],
    rows: &Q,
) -> Result<bool, AllocError>
    ensures { IfOk result (λ answer. answer ≡ match_asked own.now (Q.RowsAt.row rows.now) values.now rule.now
        (Value.Row name.now)) }
{
    Ok(
        is_matched_own(name, rule, values, own)
            || is_matched_visible(alloc, name, rule, values, rows)?,
    )
}

/// Whether one of the update's own rows has this name, and a MATCH is true of it.
fn is_matched_own(name: &RowName, rule: &MatchRule, values: &[Value], own: &[OwnRow]) -> bool
    ensures { result ≡ list_any (λ o. same_row o.name name.now && is_match values.now rule.now o.entry.values) own.now }
{
    own.iter().any(|row| is_row(&row.name, name)
        && is_match(values, rule, row.entry.values.as_slice()))
}

/// Whether a visible row has this name, and a MATCH is true of it.
fn is_matched_visible<Q: RowsAt>(
    alloc: Global,
    name: &RowName,
    rule: &MatchRule,
    values: &[Value],
    rows: &Q,
) -> Result<bool, AllocError>
    ensures { IfOk result (λ answer. answer ≡ is_matched values.now rule.now (Q.RowsAt.row rows.now name.now)) }
{
    match rows.row_at(alloc, name)? {
        Some(entry) => Ok(is_match(values, rule, entry.values.as_slice())),
        None => Ok(false),
    }
}

/// Whether a MATCH is true of these two rows.
fn is_match(values: &[Value], rule: &MatchRule, target: &[Value]) -> bool
    ensures { result ≡ is_match values.now rule.now target.now }
{
    match (
        values.get(usize::from(rule.column)),
        target.get(usize::from(rule.target_column)),
    ) {
        (Some(left), Some(right)) => compare(rule.cmp, left, right),
        _ => false,
    }
}

/// Whether two names are one.
pub(crate) fn is_row(a: &RowName, b: &RowName) -> bool
    ensures { result ≡ same_row a.now b.now }
{
    a == b
}
