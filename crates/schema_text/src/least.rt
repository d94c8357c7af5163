//! Tables that keep the least row of each value, and those whose rows can be hidden for it.

ghost use Rattle.std.specs.Prelude.{◌≡◌, IfOk, false, slice_index_or};
ghost use Rattle.schema.specs.Columns.{is_cascade, target_of};
ghost use Rattle.std.specs.List.{list_all};
ghost use Rattle.schema.specs.Least.{holds_steady, is_held_steady, is_led_away, is_led_steady, is_steady_behind};
ghost use Rattle.schema.specs.Least.{leaves_itself, steady_tables, targets_of};

use crate::lookups::target_of;
use schema::{Action, Column, ColumnKind, TableDef};
use std::alloc::{AllocError, Global};

fn is_cascade(action: Action) -> bool
    ensures { result ≡ is_cascade action }
{
    matches!(action, Action::Cascade)
}

/// What a column refers to, if it does.
fn target_at(kind: &ColumnKind) -> Option<(usize, Action)>
    ensures { result ≡ target_of kind.now }
{
    match target_of(kind) {
        Some((target, action)) => Some((usize::from(target), action)),
        None => None,
    }
}

/// What columns refer to, each by its own.
pub(crate) fn targets_of(
    alloc: Global,
    columns: &[Column],
) -> Result<Vec<Option<(usize, Action)>>, AllocError>
    ensures { IfOk result (λ targets. targets.items ≡ targets_of columns.now) }
{
    columns
        .iter()
        .map(|column| target_at(&column.kind))
        .collect(alloc)
}

/// Whether a reference is not by `CASCADE`, or is to its own table, which is the one behind these, or to a steady one.
fn is_led_steady(known: &[bool], target: Option<(usize, Action)>) -> bool
    ensures { result ≡ is_led_steady known.now target }
{
    match target {
        None => true,
        Some((number, action)) => {
            !is_cascade(action) || number == known.len() || is_known(known, number)
        }
    }
}

/// Whether a table is known to be steady.
fn is_known(known: &[bool], number: usize) -> bool
    ensures { result ≡ slice_index_or known.now number false }
{
    match known.get(number) {
        Some(steady) => *steady,
        None => false,
    }
}

/// Whether none of these references, of a table behind these, is by `CASCADE` to another one that is not steady.
fn are_led_steady(known: &[bool], targets: &[Option<(usize, Action)>]) -> bool
    ensures { result ≡ list_all (is_led_steady known.now) targets.now }
{
    targets.iter().all(|target| is_led_steady(known, *target))
}

/// Whether a table behind these is steady.
fn is_steady_behind(known: &[bool], kept: Option<u8>, targets: &[Option<(usize, Action)>]) -> bool
    ensures { result ≡ is_steady_behind known.now kept targets.now }
{
    kept.is_none() && are_led_steady(known, targets)
}

/// Whether a table behind these is steady.
fn is_next_steady(alloc: Global, known: &[bool], table: &TableDef) -> Result<bool, AllocError>
    ensures { IfOk result (λ answer. answer ≡ is_steady_behind known.now table.now.kept (targets_of table.now.columns)) }
{
    let targets = targets_of(alloc, table.columns.as_slice())?;
    Ok(is_steady_behind(known, table.kept, targets.as_slice()))
}

/// Which of these tables are steady.
pub(crate) fn steady_tables(alloc: Global, tables: &[TableDef]) -> Result<Vec<bool>, AllocError>
    ensures { IfOk result (λ known. known.items ≡ steady_tables tables.now) }
{
    let mut known = Vec::new(alloc);
    for number in 0..tables.len() {
        let steady = is_next_steady(alloc, known.as_slice(), &tables[number])?;
        known.push(steady)?;
    }
    Ok(known)
}

/// Whether a reference is not `RESTRICT`, or is to a table that is steady.
fn is_held_steady(steady: &[bool], target: Option<(usize, Action)>) -> bool
    ensures { result ≡ is_held_steady steady.now target }
{
    match target {
        None => true,
        Some((number, action)) => !matches!(action, Action::Restrict) || is_known(steady, number),
    }
}

/// Whether none of these references is `RESTRICT` to a table that is not steady.
fn are_held_steady(steady: &[bool], targets: &[Option<(usize, Action)>]) -> bool
    ensures { result ≡ list_all (is_held_steady steady.now) targets.now }
{
    targets.iter().all(|target| is_held_steady(steady, *target))
}

/// Whether each `RESTRICT` reference of a table behind these is to a steady one, itself included.
pub(crate) fn holds_steady(
    known: Vec<bool>,
    kept: Option<u8>,
    targets: &[Option<(usize, Action)>],
) -> Result<bool, AllocError>
    ensures { IfOk result (λ answer. answer ≡ holds_steady known.items kept targets.now) }
{
    let own = is_steady_behind(known.as_slice(), kept, targets);
    let mut steady = known;
    steady.push(own)?;
    Ok(are_held_steady(steady.as_slice(), targets))
}

/// Whether a reference is not one by `CASCADE` to the table with this number.
fn is_led_away(number: usize, target: Option<(usize, Action)>) -> bool
    ensures { result ≡ is_led_away number target }
{
    match target {
        None => true,
        Some((target, action)) => !is_cascade(action) || target != number,
    }
}

/// Whether none of these references is one by `CASCADE` to the table with this number.
fn are_led_away(number: usize, targets: &[Option<(usize, Action)>]) -> bool
    ensures { result ≡ list_all (is_led_away number) targets.now }
{
    targets.iter().all(|target| is_led_away(number, *target))
}

/// Whether a table keeps no least row, or does not refer to itself by `CASCADE`.
pub(crate) fn leaves_itself(
    number: usize,
    kept: Option<u8>,
    targets: &[Option<(usize, Action)>],
) -> bool
    ensures { result ≡ leaves_itself number kept targets.now }
{
    kept.is_none() || are_led_away(number, targets)
}
