//! The first invariant that is refused.

ghost use Rattle.std.specs.Prelude.{◌≡◌, ◌<◌, ◌≤◌, length, option_map, slice_get, IfSome};
ghost use Rattle.std.specs.List.{AllByRecursion};
ghost use Rattle.schema.specs.Columns.{target_of};
ghost use Rattle.table_model.specs.Invariants.{invariants_of, each_from, at_most_declared, reference_declared};
ghost use Rattle.table_model.specs.Invariants.{table_declared};
ghost use Rattle.schema.specs.Least.{IsKeptAlone};
ghost use Rattle.schema.specs.Sound.{IsSoundColumn};
ghost use Rattle.confluence_test.specs.Findings.{declared_of, first_refused, refused_by, unique_refused, dangling};
ghost use Rattle.confluence_test.specs.Findings.{IsFlawOf, IsFlaw};
ghost use Rattle.confluence_test.specs.Plans.{SaysPermanent};
ghost use Rattle.table_model.specs.Visible.{bare_rules};

use crate::columns::{table_of, target_of};
use crate::finding::{Finding, Flaw};
use crate::permanence::permanent_at;
use schema::{Action, Column, Schema, TableDef};
use table_model::{Invariant, InvariantKind};

/// The first invariant of a schema that is refused.
pub(crate) fn first_refused(schema: &Schema, permanence: &[bool]) -> Option<Finding>
    requires { SaysPermanent (bare_rules schema.now.tables) permanence.now }
    ensures first { option_map declared_of result ≡ first_refused (bare_rules schema.now.tables)
        (invariants_of (bare_rules schema.now.tables)) }
    ensures flaw { IfSome result (λ finding. IsFlaw (length schema.now.tables) finding.flaw) }
{
    for number in 0..schema.tables() {
        if let Some(finding) = refused_in(permanence, number, table_of(schema, number)) {
            return Some(finding);
        }
    }
    None
}

/// The first invariant of a table that is refused. A `CHECK` and a `MATCH` never are.
fn refused_in(permanence: &[bool], number: u8, table: &TableDef) -> Option<Finding>
    requires columns { AllByRecursion (IsSoundColumn number) table.now.columns }
    requires few_columns { length table.now.columns ≤ 16 }
    requires few_rows { table.now.at_most ≤ 64 }
    requires kept { IsKeptAlone table.now.uniques table.now.at_most table.now.kept }
    ensures first { option_map declared_of result ≡ refused_by permanence.now (table_declared number table.now) }
    ensures flaw { IfSome result (λ finding. IsFlawOf number finding.flaw) }
{
    let unique = refused_unique(number, table);
    let at_most = refused_at_most(number, table);
    let reference = refused_reference(permanence, number, table.columns.as_slice());
    unique.or(at_most).or(reference)
}

/// The first `UNIQUE` of a table, which is refused, unless the table keeps the least row: then it has no other
/// `UNIQUE`.
fn refused_unique(number: u8, table: &TableDef) -> Option<Finding>
    ensures first { option_map declared_of result ≡ unique_refused number table.now }
    ensures flaw { IfSome result (λ finding. IsFlawOf number finding.flaw) }
{
    if table.kept.is_some() {
        return None;
    }
    let rule = table.uniques.as_slice().first()?;
    Some(Finding {
        which: Invariant {
            kind: InvariantKind::Unique,
            table: number,
            place: 0,
            line: rule.line,
        },
        flaw: Flaw::Doubles {
            table: number,
            column: rule.column,
        },
    })
}

/// The `ATMOST` of a table, which is refused.
fn refused_at_most(number: u8, table: &TableDef) -> Option<Finding>
    requires { table.now.at_most ≤ 64 }
    ensures first { option_map declared_of result ≡ slice_get (at_most_declared number table.now) 0 }
    ensures flaw { IfSome result (λ finding. IsFlawOf number finding.flaw) }
{
    if table.at_most == 0 {
        return None;
    }
    Some(Finding {
        which: Invariant {
            kind: InvariantKind::AtMost,
            table: number,
            place: 0,
            line: table.at_most_line,
        },
        flaw: Flaw::TooMany {
            table: number,
            count: table.at_most,
        },
    })
}

/// The first reference of a table that is refused.
fn refused_reference(permanence: &[bool], number: u8, columns: &[Column]) -> Option<Finding>
    requires columns { AllByRecursion (IsSoundColumn number) columns.now }
    requires few { length columns.now ≤ 16 }
    ensures first { option_map declared_of result ≡ refused_by permanence.now (each_from (reference_declared number) 0
        columns.now) }
    ensures flaw { IfSome result (λ finding. IsFlawOf number finding.flaw) }
{
    for (place, column) in columns.iter().enumerate() {
        if let Some(target) = dangles(permanence, column) {
            return Some(Finding {
                which: Invariant {
                    kind: InvariantKind::Reference,
                    table: number,
                    place: place as u8,
                    line: column.line,
                },
                flaw: Flaw::Dangles {
                    table: number,
                    column: place as u8,
                    target,
                },
            });
        }
    }
    None
}

/// The table that a column refers to, where that is by `RESTRICT` and the table is not permanent.
fn dangles(permanence: &[bool], column: &Column) -> Option<u8>
    ensures { result ≡ dangling permanence.now (target_of column.now.kind) }
{
    match target_of(column) {
        Some((target, Action::Restrict)) if !permanent_at(permanence, target) => Some(target),
        _ => None,
    }
}
