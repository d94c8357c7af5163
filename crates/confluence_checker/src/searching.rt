//! The invariants of a schema in order, until a wanted one.

ghost use Rattle.std.specs.Prelude.{◌≡◌, IfOk};
ghost use Rattle.std.specs.List.{AllByRecursion};
ghost use Rattle.schema.specs.Columns.{target_of};
ghost use Rattle.table_model.specs.Invariants.{at_most_declared, check_declared, each_from, invariants_of};
ghost use Rattle.table_model.specs.Invariants.{match_declared, reference_declared, table_declared, unique_declared};
ghost use Rattle.schema.specs.Sound.{IsSoundCheck};
ghost use Rattle.table_model.specs.Visible.{Rules, table_of, rules_with, bare_rules};
ghost use Rattle.confluence_checker.specs.Forms.{AllFit, found_among, is_same, kind_number, start, unique_kind};

use crate::checker::Checker;
use crate::claims::{check_holds, matches_hold, refers_holds};
use crate::found::FoundInvariant;
use crate::inserted_row::InsertedRow;
use crate::limits::{at_most_holds, keeps_least, unique_holds};
use crate::values::target_of;
use row_check::{Checks, Native, Relation};
use schema::{CheckRule, Column, MatchRule, Schema, TableDef, UniqueRule};
use std::alloc::{AllocError, Global};
use table_model::{Invariant, InvariantKind};

/// A search for an invariant of a schema.
#[derive(Drop)]
struct Search<'a, L: Relation, C> {
    /// What it checks by.
    checker: Checker<'a, L, C>,
    /// The rows that are shown.
    rows: &'a [InsertedRow],
    /// The invariant that is wanted.
    which: &'a Invariant,
}

/// The number of a kind.
fn kind_number(kind: InvariantKind) -> u8
    ensures { result ≡ kind_number kind }
{
    match kind {
        InvariantKind::Unique => 0,
        InvariantKind::UniqueKept => 1,
        InvariantKind::AtMost => 2,
        InvariantKind::Reference => 3,
        InvariantKind::Check => 4,
        InvariantKind::Match => 5,
    }
}

/// Whether a wanted invariant is the one at this place.
fn is_at(which: &Invariant, kind: InvariantKind, table: u8, place: usize, line: u32) -> bool
    ensures { result ≡ is_same (record { kind = kind; table = table; place = place; line = line }) which.now }
{
    kind_number(kind) == kind_number(which.kind)
        && table == which.table
        && place == usize::from(which.place)
        && line == which.line
}

/// The kind of a `UNIQUE` of a column.
fn unique_kind(kept: Option<u8>, column: u8) -> InvariantKind
    ensures { result ≡ unique_kind kept column }
{
    if keeps_least(kept, column) {
        InvariantKind::UniqueKept
    } else {
        InvariantKind::Unique
    }
}

/// Goes through the `UNIQUE` lines of a table.
fn among_uniques(
    rows: &[InsertedRow],
    which: &Invariant,
    number: u8,
    kept: Option<u8>,
    uniques: &[UniqueRule],
    before: FoundInvariant,
) -> FoundInvariant
    ensures { (rules : Rules) → result ≡ found_among rules rows.now which.now (each_from (unique_declared kept number) 0
        uniques.now) before }
{
    let mut found = before;
    for (place, rule) in uniques.iter().enumerate() {
        let kind = unique_kind(kept, rule.column);
        let wanted = is_at(which, kind, number, place, rule.line);
        found = found.seen(wanted, unique_holds(rows, number, rule.column));
    }
    found
}

/// Goes through the `ATMOST` of a table, if it has one.
fn among_at_most(
    rows: &[InsertedRow],
    which: &Invariant,
    number: u8,
    table: &TableDef,
    before: FoundInvariant,
) -> FoundInvariant
    ensures { (rules : Rules) → result ≡ found_among rules rows.now which.now (at_most_declared number table.now) before }
{
    if table.at_most == 0 {
        return before;
    }
    let wanted = is_at(which, InvariantKind::AtMost, number, 0, table.at_most_line);
    before.seen(wanted, at_most_holds(rows, number, table.at_most))
}

/// Looks at a column of a table, which may be a reference.
fn at_column(
    rows: &[InsertedRow],
    which: &Invariant,
    number: u8,
    place: usize,
    column: &Column,
    before: FoundInvariant,
) -> FoundInvariant
    ensures { (rules : Rules)
        → result ≡ found_among rules rows.now which.now (reference_declared number place column.now) before }
{
    match target_of(&column.kind) {
        None => before,
        Some((target, _)) => {
            let wanted = is_at(which, InvariantKind::Reference, number, place, column.line);
            before.seen(wanted, refers_holds(rows, number, place, target))
        }
    }
}

/// Goes through the references of a table.
fn among_references(
    rows: &[InsertedRow],
    which: &Invariant,
    number: u8,
    columns: &[Column],
    before: FoundInvariant,
) -> FoundInvariant
    ensures { (rules : Rules) → result ≡ found_among rules rows.now which.now (each_from (reference_declared number) 0
        columns.now) before }
{
    let mut found = before;
    for (place, column) in columns.iter().enumerate() {
        found = at_column(rows, which, number, place, column, found);
    }
    found
}

/// Looks at a `CHECK` of a table.
fn at_check<L: Relation, C: Checks<L>>(
    search: &Search<'_, L, C>,
    number: u8,
    place: usize,
    columns: &[Column],
    check: &CheckRule,
    before: FoundInvariant,
) -> Result<FoundInvariant, AllocError>
    requires fits { AllFit search.now.checker.schema.now.tables search.now.rows.now }
    requires columns { columns.now ≡ (table_of (bare_rules search.now.checker.schema.now.tables) number).columns }
    requires sound { IsSoundCheck columns.now check.now }
    ensures { IfOk result (λ found. found ≡ found_among (rules_with L.answer search.now.checker.schema.now.tables)
        search.now.rows.now search.now.which.now (check_declared number place check.now) before) }
{
    let holds = check_holds(&search.checker, search.rows, number, columns, check)?;
    let wanted = is_at(
        search.which,
        InvariantKind::Check,
        number,
        place,
        check.line,
    );
    Ok(before.seen(wanted, holds))
}

/// Goes through the `CHECK` lines of a table.
fn among_checks<L: Relation, C: Checks<L>>(
    search: &Search<'_, L, C>,
    number: u8,
    table: &TableDef,
    before: FoundInvariant,
) -> Result<FoundInvariant, AllocError>
    requires fits { AllFit search.now.checker.schema.now.tables search.now.rows.now }
    requires table { table.now ≡ table_of (bare_rules search.now.checker.schema.now.tables) number }
    requires sound { AllByRecursion (IsSoundCheck table.now.columns) table.now.checks }
    ensures { IfOk result (λ found. found ≡ found_among (rules_with L.answer search.now.checker.schema.now.tables)
        search.now.rows.now search.now.which.now (each_from (check_declared number) 0 table.now.checks) before) }
{
    let columns = table.columns.as_slice();
    let checks = table.checks.as_slice();
    let mut found = before;
    for (place, check) in checks.iter().enumerate() {
        found = at_check(search, number, place, columns, check, found)?;
    }
    Ok(found)
}

/// Looks at a `MATCH` of a table.
fn at_match(
    rows: &[InsertedRow],
    which: &Invariant,
    number: u8,
    place: usize,
    rule: &MatchRule,
    before: FoundInvariant,
) -> FoundInvariant
    ensures { (rules : Rules) → result ≡ found_among rules rows.now which.now (match_declared number place rule.now)
        before }
{
    let wanted = is_at(which, InvariantKind::Match, number, place, rule.line);
    before.seen(wanted, matches_hold(rows, number, rule))
}

/// Goes through the `MATCH` lines of a table.
fn among_matches(
    rows: &[InsertedRow],
    which: &Invariant,
    number: u8,
    matches: &[MatchRule],
    before: FoundInvariant,
) -> FoundInvariant
    ensures { (rules : Rules) → result ≡ found_among rules rows.now which.now (each_from (match_declared number) 0
        matches.now) before }
{
    let mut found = before;
    for (place, rule) in matches.iter().enumerate() {
        found = at_match(rows, which, number, place, rule, found);
    }
    found
}

/// Goes through the invariants of a table.
fn in_table<L: Relation, C: Checks<L>>(
    search: &Search<'_, L, C>,
    number: u8,
    table: &TableDef,
    before: FoundInvariant,
) -> Result<FoundInvariant, AllocError>
    requires fits { AllFit search.now.checker.schema.now.tables search.now.rows.now }
    requires table { table.now ≡ table_of (bare_rules search.now.checker.schema.now.tables) number }
    requires sound { AllByRecursion (IsSoundCheck table.now.columns) table.now.checks }
    ensures { IfOk result (λ found. found ≡ found_among (rules_with L.answer search.now.checker.schema.now.tables)
        search.now.rows.now search.now.which.now (table_declared number table.now) before) }
{
    let (rows, which) = (search.rows, search.which);
    let lines = table.uniques.as_slice();
    let uniques = among_uniques(rows, which, number, table.kept, lines, before);
    let most = among_at_most(rows, which, number, table, uniques);
    let columns = among_references(rows, which, number, table.columns.as_slice(), most);
    let checks = among_checks(search, number, table, columns)?;
    let matches = among_matches(rows, which, number, table.matches.as_slice(), checks);
    Ok(matches)
}

/// Whether the invariants of a schema before a wanted one hold of shown rows, and whether that one does. All rows fit.
pub(crate) fn found<L: Relation, C: Checks<L>>(
    alloc: Global,
    schema: &Schema,
    native: &Native<L, C>,
    rows: &[InsertedRow],
    which: &Invariant,
) -> Result<FoundInvariant, AllocError>
    requires { AllFit schema.now.tables rows.now }
    ensures { IfOk result (λ found. found ≡ found_among (rules_with L.answer schema.now.tables) rows.now which.now
        (invariants_of (rules_with L.answer schema.now.tables)) start) }
{
    let search = Search {
        checker: Checker {
            alloc,
            schema,
            native,
        },
        rows,
        which,
    };
    let mut found = FoundInvariant::start();
    for number in 0..schema.tables() {
        let table = schema.table(number);
        found = in_table(&search, number, table, found)?;
    }
    Ok(found)
}
