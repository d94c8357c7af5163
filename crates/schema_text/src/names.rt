ghost use Rattle.std.specs.Prelude.{◌≡◌, ◌↔◌, ◌≤◌, IsTrue, IfOk, All, bytes_eq, length};
ghost use Rattle.std.specs.List.{list_any};
ghost use Rattle.expression_text.specs.Columns.{IsKnown, HasRowText};
ghost use Rattle.expression_text.specs.Grammar.{IsExpression, IsReading};
ghost use Rattle.schema.specs.Columns.{names_of};
ghost use Rattle.schema_text.specs.Faults.{IsNamed, IsNewTable, IsNewColumn, IsColumn, HasTargetColumn};

use crate::MAX_TOKENS;
use crate::draft::Draft;
use crate::form::Form;
use crate::lookups::{column_named, columns_at, reference_named};
use expression_text::{Token, are_known, build};
use row_check::Expr;
use schema::{Column, MAX_COLUMNS, TableDef};
use std::alloc::{AllocError, Global};
use text_words::is_name;
use update_model::TextValue;

/// Whether new names are names that are not taken, and the others are those of columns.
pub(crate) fn is_named(alloc: Global, draft: &Draft, form: &Form) -> Result<bool, AllocError>
    ensures { IfOk result (λ answer. IsTrue answer ↔ IsNamed draft.now form.now) }
{
    let columns = draft.table.columns.as_slice();
    Ok(match form {
        Form::Database { name } => is_name(name.as_slice()),
        Form::Table { name, .. } => { is_new_table(draft.tables.as_slice(), name.as_slice()) }
        Form::Column { name, .. } => is_new_column(columns, name.as_slice()),
        Form::Ref { name, .. } => is_new_column(columns, name.as_slice()),
        Form::Check { tokens } => has_known_names(alloc, columns, tokens.as_slice())?,
        Form::Match {
            column,
            reference,
            target_column,
            ..
        } => {
            is_column(columns, column.as_slice())
                && is_column(columns, reference.as_slice())
                && has_target_column(draft, reference.as_slice(), target_column.as_slice())
        }
        Form::Unique { column, .. } => is_column(columns, column.as_slice()),
        Form::Author { .. } => true,
        Form::AtMost { .. } => true,
        Form::Sample { .. } => true,
    })
}

/// Whether each word that stands for a column is the name of one of these.
fn has_known_names(alloc: Global, columns: &[Column], tokens: &[Token]) -> Result<bool, AllocError>
    ensures { IfOk result (λ answer. IsTrue answer ↔ All (IsKnown (names_of columns.now)) tokens.now) }
{
    let names = names_of(alloc, columns)?;
    Ok(are_known(tokens, names.as_slice()))
}

/// The names of columns.
pub(crate) fn names_of(alloc: Global, columns: &[Column]) -> Result<Vec<TextValue>, AllocError>
    ensures { IfOk result (λ names. names.items ≡ names_of columns.now) }
{
    let mut names = Vec::with_capacity(alloc, columns.len())?;
    for column in columns {
        names.push(column.name.copy(alloc)?)?;
    }
    Ok(names)
}

/// The expression that tokens are, over these columns.
pub(crate) fn expression_of(
    alloc: Global,
    columns: &[Column],
    tokens: &[Token],
) -> Result<Expr, AllocError>
    requires few { length columns.now ≤ MAX_COLUMNS }
    requires short { length tokens.now ≤ MAX_TOKENS }
    requires expression { IsExpression tokens.now }
    requires known { All (IsKnown (names_of columns.now)) tokens.now }
    requires texts { All HasRowText tokens.now }
    ensures { IfOk result (λ expr. IsReading (names_of columns.now) tokens.now expr) }
{
    let names = names_of(alloc, columns)?;
    build(alloc, tokens, names.as_slice())
}

/// Whether bytes are a name that no table has.
fn is_new_table(tables: &[TableDef], name: &[u8]) -> bool
    ensures { IsTrue result ↔ IsNewTable tables.now name.now }
{
    is_name(name) && !has_table(tables, name)
}

fn has_table(tables: &[TableDef], name: &[u8]) -> bool
    ensures { result ≡ list_any (λ table. bytes_eq table.name name.now) tables.now }
{
    tables.iter().any(|table| table.name.as_slice() == name)
}

fn has_column(columns: &[Column], name: &[u8]) -> bool
    ensures { result ≡ list_any (λ column. bytes_eq column.name name.now) columns.now }
{
    columns.iter().any(|column| column.name.as_slice() == name)
}

/// Whether bytes are a name that no column has.
fn is_new_column(columns: &[Column], name: &[u8]) -> bool
    ensures { IsTrue result ↔ IsNewColumn columns.now name.now }
{
    is_name(name) && !has_column(columns, name)
}

fn is_column(columns: &[Column], name: &[u8]) -> bool
    ensures { IsTrue result ↔ IsColumn columns.now name.now }
{
    column_named(columns, name).is_some()
}

/// Whether the target of a reference has such a column. Where the column is no reference, none is asked for.
fn has_target_column(draft: &Draft, reference: &[u8], target_column: &[u8]) -> bool
    ensures { IsTrue result ↔ HasTargetColumn draft.now reference.now target_column.now }
{
    match reference_named(draft.table.columns.as_slice(), reference) {
        Some((number, _)) => is_column(columns_at(draft, number), target_column),
        None => true,
    }
}
