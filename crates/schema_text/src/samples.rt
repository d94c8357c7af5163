//! Samples: the rows that they are, and whether they hold.

ghost use Rattle.std.specs.Prelude.{◌≡◌, ◌↔◌, ◌≤◌, length, IsTrue, IfOk, All};
ghost use Rattle.schema_text.specs.Faults.{HasSample, IsSample, matches_target, passes_matches};
ghost use Rattle.schema_text.specs.Written.{sample_row, value_written, value_at_column, values_after, plain_count};
ghost use Rattle.schema.specs.Rows.{fits_sample, fits_sample_at};
ghost use Rattle.schema_text.specs.Kept.{IsDraft, IsRowValue, HasRowValues};

use crate::draft::Draft;
use crate::form::{Form, SampleValue};
use crate::kinds::is_reference;
use crate::lookups::{reference_at, table_at};
use row_check::{Checks, Native, Relation, compare};
use schema::{Action, Column, MatchRule, checks_hold, fits_column};
use std::alloc::{AllocError, Global};
use text_words::Literal;
use update_model::{TextValue, Value};

/// Whether a sample has a value for each column that is no reference, and is a row that the table may have.
pub(crate) fn has_sample<L: Relation, C: Checks<L>>(
    alloc: Global,
    native: &Native<L, C>,
    draft: &Draft,
    form: &Form,
) -> Result<bool, AllocError>
    requires draft { IsDraft draft.now }
    requires values { HasRowValues form.now }
    ensures { IfOk result (λ answer. IsTrue answer ↔ HasSample L.answer draft.now form.now) }
{
    match form {
        Form::Sample { values } => {
            let values = values.as_slice();
            let columns = draft.table.columns.as_slice();
            let row = sample_row(alloc, columns, values)?;
            Ok(
                values.len() == plain_count(columns)
                    && is_sample(alloc, native, draft, row.as_slice())?,
            )
        }
        _ => Ok(true),
    }
}

/// The row that a sample's values are: null in each reference, and a value for each other column in order.
pub(crate) fn sample_row(
    alloc: Global,
    columns: &[Column],
    values: &[SampleValue],
) -> Result<Vec<Value>, AllocError>
    requires { All IsRowValue values.now }
    ensures { IfOk result (λ row. row.items ≡ sample_row columns.now values.now) }
{
    let mut row = Vec::with_capacity(alloc, columns.len())?;
    let mut rest = values;
    for column in columns {
        let (value, after) = next_value(alloc, column, rest)?;
        row.push(value)?;
        rest = after;
    }
    Ok(row)
}

/// What a column gets of the values that are left.
fn next_value<'a>(
    alloc: Global,
    column: &Column,
    values: &'a [SampleValue],
) -> Result<(Value, &'a [SampleValue]), AllocError>
    requires { All IsRowValue values.now }
    ensures value { IfOk result (λ read. read.0 ≡ value_at_column column.now values.now) }
    ensures rest { IfOk result (λ read. read.1.now ≡ values_after column.now values.now) }
    ensures texts { IfOk result (λ read. All IsRowValue read.1.now) }
{
    if is_reference(&column.kind) {
        return Ok((Value::Null, values));
    }
    match values {
        [] => Ok((Value::Null, values)),
        [first, rest @ ..] => Ok((value_written(alloc, first)?, rest)),
    }
}

/// The value that a word writes.
fn value_written(alloc: Global, written: &SampleValue) -> Result<Value, AllocError>
    requires { IsRowValue written.now }
    ensures { IfOk result (λ value. value ≡ value_written written.now) }
{
    Ok(match written {
        SampleValue::Literal(Literal::Null) => Value::Null,
        SampleValue::Literal(Literal::Integer(n)) => Value::Int(*n),
        SampleValue::Literal(Literal::Text(text)) => {
            Value::Text(TextValue::from_vec(Vec::from_slice(alloc, text.as_slice())?))
        }
        SampleValue::Literal(Literal::Flag(flag)) => Value::Flag(*flag),
        SampleValue::Row(name) => Value::Row(*name),
    })
}

/// How many columns are no references.
fn plain_count(columns: &[Column]) -> usize
    ensures value { result ≡ plain_count columns.now }
    ensures few { result ≤ length columns.now }
{
    match columns {
        [] => 0,
        [first, rest @ ..] => {
            let count = plain_count(rest);
            if is_reference(&first.kind) {
                count
            } else {
                count + 1
            }
        }
    }
}

/// Whether a row fits, and each CHECK and MATCH is true of it.
fn is_sample<L: Relation, C: Checks<L>>(
    alloc: Global,
    native: &Native<L, C>,
    draft: &Draft,
    row: &[Value],
) -> Result<bool, AllocError>
    requires { IsDraft draft.now }
    ensures { IfOk result (λ answer. IsTrue answer ↔ IsSample L.answer draft.now row.now) }
{
    let columns = draft.table.columns.as_slice();
    Ok(
        fits_sample(columns, row)
            && checks_hold(alloc, native, columns, draft.table.checks.as_slice(), row)?
            && passes_matches(draft, row),
    )
}

/// Whether a row has what fits in each column of a sample.
fn fits_sample(columns: &[Column], row: &[Value]) -> bool
    ensures { result ≡ fits_sample columns.now row.now }
{
    match columns {
        [] => row.is_empty(),
        [column, columns @ ..] => match row {
            [] => false,
            [value, row @ ..] => fits_sample_at(column, value) && fits_sample(columns, row),
        },
    }
}

fn fits_sample_at(column: &Column, value: &Value) -> bool
    ensures { result ≡ fits_sample_at column.now value.now }
{
    if is_reference(&column.kind) {
        matches!(value, Value::Null)
    } else {
        fits_column(column, value)
    }
}

/// Whether every MATCH is true of a row beside the samples of its targets.
fn passes_matches(draft: &Draft, row: &[Value]) -> bool
    ensures { result ≡ passes_matches draft.now row.now }
{
    let columns = draft.table.columns.as_slice();
    draft.table.matches.as_slice().iter().all(|rule| matches_target(
        draft,
        row,
        rule,
        reference_at(columns, rule.reference),
    ))
}

/// Whether a MATCH is true of a row beside the sample of this target. Of the table itself it is not asked.
fn matches_target(
    draft: &Draft,
    row: &[Value],
    rule: &MatchRule,
    target: Option<(u8, Action)>,
) -> bool
    ensures { result ≡ matches_target draft.now row.now rule.now target }
{
    let Some((number, _)) = target else {
        return false;
    };
    if usize::from(number) == draft.tables.as_slice().len() {
        return true;
    }
    let sample = table_at(draft, number).sample.as_slice();
    match (
        row.get(usize::from(rule.column)),
        sample.get(usize::from(rule.target_column)),
    ) {
        (Some(left), Some(right)) => compare(rule.cmp, left, right),
        _ => false,
    }
}
