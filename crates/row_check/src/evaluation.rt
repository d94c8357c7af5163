ghost use Rattle.std.specs.Prelude.{◌≡◌, ◌<◌, length, map, All, IfOk, OnErr};
ghost use Rattle.row_check.specs.Comparisons.{compares};
ghost use Rattle.row_check.specs.Meaning.{holds, term_value, value_at, is_null, FitsRow, FitsTerm, HasNative};

use crate::side::side_of;
use crate::{Checks, Cmp, Expr, Native, Relation, Term, compare};
use std::alloc::{AllocError, Global};
use update_model::Value;

/// Answers an expression about a row.
///
/// The expression has to fit the row, which [`crate::fits`] tells: the row has each column that it names, LEN is of
/// a text or of null, and where neither side of a comparison is null, both are integers, both texts or both flags.
/// Memory is taken for the arguments of native checks alone, so that only an expression that has one can fail.
pub fn eval<L: Relation, C: Checks<L>>(
    alloc: Global,
    expr: &Expr,
    row: &[Value],
    native: &Native<L, C>,
) -> Result<bool, AllocError>
    requires { FitsRow row.now expr.now }
    ensures value { IfOk result (λ answer. answer ≡ holds L.answer row.now expr.now) }
    // memory is taken for the arguments of native checks alone
    ensures memory { OnErr result (HasNative expr.now) }
{
    match expr {
        Expr::And(a, b) => match eval(alloc, a, row, native) {
            Ok(true) => eval(alloc, b, row, native),
            other => other,
        },
        Expr::Or(a, b) => match eval(alloc, a, row, native) {
            Ok(false) => eval(alloc, b, row, native),
            other => other,
        },
        Expr::Not(a) => Ok(!eval(alloc, a, row, native)?),
        Expr::Compare { left, cmp, right } => Ok(compare_terms(*cmp, left, right, row)),
        Expr::IsNull { column } => Ok(is_null(&row[usize::from(*column)])),
        Expr::Native { number, columns } => ask(alloc, *number, columns.as_slice(), row, native),
    }
}

/// Asks a native check about the values in these columns.
fn ask<L: Relation, C: Checks<L>>(
    alloc: Global,
    number: u16,
    columns: &[u8],
    row: &[Value],
    native: &Native<L, C>,
) -> Result<bool, AllocError>
    requires { All (λ column. column < length row.now) columns.now }
    ensures { IfOk result (λ answer. answer ≡ L.answer number (map (value_at row.now) columns.now)) }
{
    let args = arguments(alloc, columns, row)?;
    Ok(native.ask(number, args.as_slice()))
}

fn is_null(value: &Value) -> bool
    ensures { result ≡ is_null value.now }
{
    matches!(value, Value::Null)
}

fn compare_terms(cmp: Cmp, left: &Term, right: &Term, row: &[Value]) -> bool
    requires left { FitsTerm row.now left.now }
    requires right { FitsTerm row.now right.now }
    ensures { result ≡ compares cmp (term_value row.now left.now) (term_value row.now right.now) }
{
    compare(cmp, side_of(left, row).value(), side_of(right, row).value())
}

/// The values in these columns.
fn arguments(alloc: Global, columns: &[u8], row: &[Value]) -> Result<Vec<Value>, AllocError>
    requires { All (λ column. column < length row.now) columns.now }
    ensures { IfOk result (λ args. args.items ≡ map (value_at row.now) columns.now) }
{
    let mut args = Vec::with_capacity(alloc, columns.len())?;
    for column in columns {
        args.push(row[usize::from(*column)].copy(alloc)?)?;
    }
    Ok(args)
}
