//! Targets, kinds and bounds.

ghost use Rattle.std.specs.Prelude.{◌≡◌, ◌↔◌, ◌≤◌, length, IsTrue, IfOk, All, option_copied, not};
ghost use Rattle.update_model.specs.Form.{IsKnownKey};
ghost use Rattle.expression_text.specs.Columns.{IsKnown, HasRowText};
ghost use Rattle.expression_text.specs.Grammar.{IsExpression};
ghost use Rattle.schema.specs.Columns.{is_set_null, is_restrict, is_reference, is_comparable, are_comparable};
ghost use Rattle.schema.specs.Columns.{kind_seen, kinds_of, names_of};
ghost use Rattle.schema_text.specs.Faults.{HasTarget, HasGoodTarget, IsReference, MayKeep, targets_with, IsTyped};
ghost use Rattle.schema_text.specs.Faults.{AreBounds, IsTypedCheck, IsTypedMatch, IsTypedUnique, IsMatchable, MayMatch};
ghost use Rattle.schema_text.specs.Kept.{CanBuild};
ghost use Rattle.schema.specs.Least.{holds_steady, steady_tables};

use crate::MAX_TOKENS;
use crate::draft::Draft;
use crate::form::{Form, PlainKind};
use crate::least::{holds_steady, leaves_itself, steady_tables, targets_of};
use crate::lookups::{column_named, columns_at, reference_named, table_named};
use crate::names::expression_of;
use expression_text::{Token, has_kinds, one_expression};
use row_check::Kind;
use schema::{Action, Column, ColumnKind, MAX_COLUMNS};
use std::alloc::{AllocError, Global};
use update_model::{AuthorKey, MAX_TEXT};

/// Whether a reference is to an earlier table, or to its own with NULL, SETNULL has NULL, and no line brings in a
/// `RESTRICT` reference to rows that may be hidden for a lesser one, or a table that keeps the least row and refers to
/// itself by `CASCADE`.
pub(crate) fn has_target(alloc: Global, draft: &Draft, form: &Form) -> Result<bool, AllocError>
    ensures { IfOk result (λ answer. IsTrue answer ↔ HasTarget draft.now form.now) }
{
    match form {
        Form::Ref {
            table,
            action,
            null,
            ..
        } => is_good_reference(alloc, draft, table.as_slice(), *action, *null),
        Form::Unique { keeps: true, .. } => may_keep(alloc, draft),
        _ => Ok(true),
    }
}

/// What the columns of the table that has begun refer to, with one more reference.
fn targets_with(
    alloc: Global,
    draft: &Draft,
    table: &[u8],
    action: Action,
) -> Result<Vec<Option<(usize, Action)>>, AllocError>
    ensures { IfOk result (λ targets. targets.items ≡ targets_with draft.now table.now action) }
{
    let mut targets = targets_of(alloc, draft.table.columns.as_slice())?;
    targets.push(Some((table_named(draft, table).unwrap_or(0), action)))?;
    Ok(targets)
}

/// Whether with one more reference no `RESTRICT` reference is to a table whose rows may be hidden for a lesser one.
fn holds_steady_with(
    alloc: Global,
    draft: &Draft,
    table: &[u8],
    action: Action,
) -> Result<bool, AllocError>
    ensures { IfOk result (λ answer. answer ≡ holds_steady (steady_tables draft.now.tables) draft.now.table.kept
        (targets_with draft.now table.now action)) }
{
    let known = steady_tables(alloc, draft.tables.as_slice())?;
    let targets = targets_with(alloc, draft, table, action)?;
    holds_steady(known, draft.table.kept, targets.as_slice())
}

/// Whether a reference is to such a table, and with it no `RESTRICT` reference is to a table whose rows may be hidden
/// for a lesser one.
fn is_good_reference(
    alloc: Global,
    draft: &Draft,
    table: &[u8],
    action: Action,
    null: bool,
) -> Result<bool, AllocError>
    ensures { IfOk result (λ answer. IsTrue answer ↔ IsReference draft.now table.now action null) }
{
    if !has_good_target(draft, table, action, null) {
        return Ok(false);
    }
    holds_steady_with(alloc, draft, table, action)
}

/// Whether the table that has begun holds on to no row of its own by `RESTRICT`, and does not refer to itself by
/// `CASCADE`.
fn may_keep(alloc: Global, draft: &Draft) -> Result<bool, AllocError>
    ensures { IfOk result (λ answer. IsTrue answer ↔ MayKeep draft.now) }
{
    let known = steady_tables(alloc, draft.tables.as_slice())?;
    let targets = targets_of(alloc, draft.table.columns.as_slice())?;
    let number = draft.tables.as_slice().len();
    Ok(
        holds_steady(known, Some(0), targets.as_slice())?
            && leaves_itself(number, Some(0), targets.as_slice()),
    )
}

fn has_good_target(draft: &Draft, table: &[u8], action: Action, null: bool) -> bool
    ensures { IsTrue result ↔ HasGoodTarget draft.now table.now action null }
{
    match table_named(draft, table) {
        None => false,
        Some(number) => {
            (null || number < draft.tables.as_slice().len()) && (null || !is_set_null(action))
        }
    }
}

fn is_set_null(action: Action) -> bool
    ensures { result ≡ is_set_null action }
{
    matches!(action, Action::SetNull)
}

fn is_restrict(action: Action) -> bool
    ensures { result ≡ is_restrict action }
{
    matches!(action, Action::Restrict)
}

/// Whether kinds and bounds go together.
pub(crate) fn is_typed(alloc: Global, draft: &Draft, form: &Form) -> Result<bool, AllocError>
    requires { CanBuild draft.now form.now }
    ensures { IfOk result (λ answer. IsTrue answer ↔ IsTyped draft.now form.now) }
{
    let columns = draft.table.columns.as_slice();
    Ok(match form {
        Form::Author { key } => is_known(key),
        Form::Column { kind, .. } => are_bounds(kind),
        Form::Check { tokens } => is_typed_check(alloc, columns, tokens.as_slice())?,
        Form::Match {
            column,
            reference,
            target_column,
            ..
        } => is_typed_match(
            draft,
            column.as_slice(),
            reference.as_slice(),
            target_column.as_slice(),
        ),
        Form::Unique { column, .. } => is_typed_unique(columns, column.as_slice()),
        Form::Database { .. } => true,
        Form::Table { .. } => true,
        Form::Ref { .. } => true,
        Form::AtMost { .. } => true,
        Form::Sample { .. } => true,
    })
}

fn is_known(key: &AuthorKey) -> bool
    ensures { IsTrue result ↔ IsKnownKey key.now }
{
    5 <= key.lms && key.lms <= 7 && 1 <= key.ots && key.ots <= 4
}

fn are_bounds(kind: &PlainKind) -> bool
    ensures { IsTrue result ↔ AreBounds kind.now }
{
    match kind {
        PlainKind::Int { lo, hi } => *lo <= *hi,
        PlainKind::Text { lo, hi } => 0 <= *lo && *lo <= *hi && *hi <= i64::from(MAX_TEXT),
        PlainKind::Flag => true,
    }
}

/// Whether an expression reads plain columns and compares values of one kind.
fn is_typed_check(alloc: Global, columns: &[Column], tokens: &[Token]) -> Result<bool, AllocError>
    requires few { length columns.now ≤ MAX_COLUMNS }
    requires short { length tokens.now ≤ MAX_TOKENS }
    requires expression { IsExpression tokens.now }
    requires known { All (IsKnown (names_of columns.now)) tokens.now }
    requires texts { All HasRowText tokens.now }
    ensures { IfOk result (λ answer. IsTrue answer ↔ IsTypedCheck columns.now tokens.now) }
{
    let kinds = kinds_of(alloc, columns)?;
    let expr = expression_of(alloc, columns, tokens)?;
    one_expression();
    Ok(has_kinds(&expr, kinds.as_slice()))
}

/// The kinds of columns.
fn kinds_of(alloc: Global, columns: &[Column]) -> Result<Vec<Kind>, AllocError>
    ensures { IfOk result (λ kinds. kinds.items ≡ kinds_of columns.now) }
{
    let mut kinds = Vec::with_capacity(alloc, columns.len())?;
    for column in columns {
        kinds.push(kind_seen(&column.kind))?;
    }
    Ok(kinds)
}

/// The kind that an expression sees.
fn kind_seen(kind: &ColumnKind) -> Kind
    ensures { result ≡ kind_seen kind.now }
{
    match kind {
        ColumnKind::Int { .. } => Kind::Int,
        ColumnKind::Text { .. } => Kind::Text,
        ColumnKind::Flag => Kind::Flag,
        ColumnKind::Reference { .. } => Kind::Reference,
    }
}

/// Whether the column of a MATCH can be compared with the one of the target, and the reference is one.
fn is_typed_match(draft: &Draft, column: &[u8], reference: &[u8], target_column: &[u8]) -> bool
    ensures { IsTrue result ↔ IsTypedMatch draft.now column.now reference.now target_column.now }
{
    let columns = draft.table.columns.as_slice();
    match reference_named(columns, reference) {
        None => false,
        Some((number, _)) => are_comparable(
            column_named(columns, column),
            column_named(columns_at(draft, number), target_column),
        ),
    }
}

fn are_comparable(left: Option<&Column>, right: Option<&Column>) -> bool
    ensures { result ≡ are_comparable (option_copied left.entry) (option_copied right.entry) }
{
    match (left, right) {
        (Some(left), Some(right)) => is_comparable(kind_seen(&left.kind), kind_seen(&right.kind)),
        _ => false,
    }
}

fn is_comparable(left: Kind, right: Kind) -> bool
    ensures { result ≡ is_comparable left right }
{
    matches!(
        (left, right),
        (Kind::Int, Kind::Int) | (Kind::Text, Kind::Text) | (Kind::Flag, Kind::Flag)
    )
}

/// Whether a UNIQUE is of a plain column without NULL.
fn is_typed_unique(columns: &[Column], column: &[u8]) -> bool
    ensures { IsTrue result ↔ IsTypedUnique columns.now column.now }
{
    match column_named(columns, column) {
        None => false,
        Some(column) => !is_reference(&column.kind) && !column.null,
    }
}

/// Whether a column refers to rows.
pub(crate) fn is_reference(kind: &ColumnKind) -> bool
    ensures { result ≡ is_reference kind.now }
{
    matches!(kind, ColumnKind::Reference { .. })
}

/// Whether a MATCH is not along a RESTRICT reference.
pub(crate) fn is_matchable(draft: &Draft, form: &Form) -> bool
    ensures { IsTrue result ↔ IsMatchable draft.now form.now }
{
    match form {
        Form::Match { reference, .. } => may_match(draft, reference.as_slice()),
        _ => true,
    }
}

fn may_match(draft: &Draft, reference: &[u8]) -> bool
    ensures { IsTrue result ↔ MayMatch draft.now reference.now }
{
    match reference_named(draft.table.columns.as_slice(), reference) {
        None => true,
        Some((_, action)) => !is_restrict(action),
    }
}
