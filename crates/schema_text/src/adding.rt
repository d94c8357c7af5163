//! What a line adds to a draft.

ghost use Rattle.std.specs.Prelude.{◌≡◌, ◌≤◌, ℕ, IsTrue, All, length, IfOk, OnOk};
ghost use Rattle.expression_text.specs.Columns.{IsKnown, HasRowText};
ghost use Rattle.expression_text.specs.Grammar.{IsExpression};
ghost use Rattle.schema.specs.Columns.{names_of};
ghost use Rattle.text_words.specs.Names.{is_a_name};
ghost use Rattle.schema_text.specs.Drafts.{kind_declared, with_column};
ghost use Rattle.schema_text.specs.Faults.{AreBounds};
ghost use Rattle.schema_text.specs.Kept.{IsDraft, CanAdd, IsRowValue};
ghost use Rattle.schema_text.specs.Steps.{IsAfter, IsCheckAdded, kept_after, number_of, target_number, match_rule};
ghost use Rattle.schema_text.specs.Steps.{with_match, with_unique, with_sample, with_table};

use crate::MAX_TOKENS;
use crate::draft::{Draft, Phase, no_table};
use crate::form::{Form, PlainKind, SampleValue};
use crate::lookups::{columns_at, number_named, reference_named, table_named};
use crate::names::expression_of;
use crate::samples::sample_row;
use expression_text::Token;
use row_check::Cmp;
use schema::{CheckRule, Column, ColumnKind, MAX_COLUMNS, MatchRule, UniqueRule};
use std::alloc::{AllocError, Global};
use std::mem;
use update_model::{TextValue, ValueList};

impl Draft {
    /// Adds what the line with this number says, in which nothing is wrong.
    pub(crate) fn add(&mut self, alloc: Global, line: u32, form: &Form) -> Result<(), AllocError>
        requires draft { IsDraft self.old }
        requires form { CanAdd self.old form.now }
        ensures { OnOk result (IsAfter line self.old form.now self.new) }
    {
        match form {
            Form::Database { .. } => {
                self.phase = Phase::Authors;
                Ok(())
            }
            Form::Author { key } => self.authors.push(*key),
            Form::Table {
                name,
                deletable,
                owned,
            } => self.begin_table(alloc, name.as_slice(), *deletable, *owned),
            Form::Column { name, kind, null } => {
                self.add_column(alloc, name.as_slice(), kind_declared(kind), *null, line)
            }
            Form::Ref {
                name,
                table,
                action,
                null,
            } => {
                let target = table_named(self, table.as_slice()).unwrap_or(0) as u8;
                let action = *action;
                let kind = ColumnKind::Reference { target, action };
                self.add_column(alloc, name.as_slice(), kind, *null, line)
            }
            Form::Check { tokens } => self.add_check(alloc, line, tokens.as_slice()),
            Form::Match {
                column,
                cmp,
                reference,
                target_column,
            } => self.add_match(
                line,
                column.as_slice(),
                *cmp,
                reference.as_slice(),
                target_column.as_slice(),
            ),
            Form::Unique { column, keeps } => self.add_unique(line, column.as_slice(), *keeps),
            Form::AtMost { count } => {
                self.phase = Phase::Rules;
                self.table.at_most = count.unsigned_abs() as u8;
                self.table.at_most_line = line;
                Ok(())
            }
            Form::Sample { values } => self.end_table(alloc, values.as_slice()),
        }
    }

    fn begin_table(
        &mut self,
        alloc: Global,
        name: &[u8],
        deletable: bool,
        owned: bool,
    ) -> Result<(), AllocError>
        requires { IsTrue (is_a_name name.now) }
        ensures { OnOk result (self.new ≡ with_table self.old name.now deletable owned) }
    {
        let name = text_of(alloc, name)?;
        self.phase = Phase::Columns;
        self.table = no_table(alloc);
        self.table.name = name;
        self.table.deletable = deletable;
        self.table.owned = owned;
        Ok(())
    }

    fn add_column(
        &mut self,
        alloc: Global,
        name: &[u8],
        kind: ColumnKind,
        null: bool,
        line: u32,
    ) -> Result<(), AllocError>
        requires { IsTrue (is_a_name name.now) }
        ensures { OnOk result (self.new ≡ with_column self.old (record {
          name = name.now;
          kind = kind;
          null = null;
          line = line;
        })) }
    {
        let name = text_of(alloc, name)?;
        self.table.columns.push(Column {
            name,
            kind,
            null,
            line,
        })
    }

    fn add_check(&mut self, alloc: Global, line: u32, tokens: &[Token]) -> Result<(), AllocError>
        requires few { length self.old.table.columns ≤ MAX_COLUMNS }
        requires short { length tokens.now ≤ MAX_TOKENS }
        requires expression { IsExpression tokens.now }
        requires known { All (IsKnown (names_of self.old.table.columns)) tokens.now }
        requires texts { All HasRowText tokens.now }
        ensures { OnOk result (IsCheckAdded line self.old tokens.now self.new) }
    {
        let expr = expression_of(alloc, self.table.columns.as_slice(), tokens)?;
        self.phase = Phase::Rules;
        self.table.checks.push(CheckRule { expr, line })
    }

    fn add_match(
        &mut self,
        line: u32,
        column: &[u8],
        cmp: Cmp,
        reference: &[u8],
        target_column: &[u8],
    ) -> Result<(), AllocError>
        requires { IsDraft self.old }
        ensures { OnOk result (self.new ≡ with_match line self.old column.now cmp reference.now target_column.now) }
    {
        let rule = self.match_rule(line, column, cmp, reference, target_column);
        self.phase = Phase::Rules;
        self.table.matches.push(rule)
    }

    /// A MATCH by the numbers of its columns.
    fn match_rule(
        &self,
        line: u32,
        column: &[u8],
        cmp: Cmp,
        reference: &[u8],
        target_column: &[u8],
    ) -> MatchRule
        requires { IsDraft self.now }
        ensures { result ≡ match_rule line self.now column.now cmp reference.now target_column.now }
    {
        let columns = self.table.columns.as_slice();
        MatchRule {
            column: number_of(columns, column),
            cmp,
            reference: number_of(columns, reference),
            target_column: self.target_number(reference, target_column),
            line,
        }
    }

    /// The number of a column of the table that a reference names.
    fn target_number(&self, reference: &[u8], target_column: &[u8]) -> u8
        requires { IsDraft self.now }
        ensures { result ≡ target_number self.now reference.now target_column.now }
    {
        match reference_named(self.table.columns.as_slice(), reference) {
            Some((table, _)) => number_of(columns_at(self, table), target_column),
            None => 0,
        }
    }

    fn add_unique(&mut self, line: u32, column: &[u8], keeps: bool) -> Result<(), AllocError>
        requires { length self.old.table.columns ≤ MAX_COLUMNS }
        ensures { OnOk result (self.new ≡ with_unique line self.old column.now keeps) }
    {
        let column = number_of(self.table.columns.as_slice(), column);
        self.phase = Phase::Rules;
        self.table.kept = kept_after(self.table.kept, keeps, column);
        self.table.uniques.push(UniqueRule { column, line })
    }

    /// Ends the table that has begun with this sample.
    fn end_table(&mut self, alloc: Global, values: &[SampleValue]) -> Result<(), AllocError>
        requires { All IsRowValue values.now }
        ensures { OnOk result (self.new ≡ with_sample self.old values.now) }
    {
        let row = sample_row(alloc, self.table.columns.as_slice(), values)?;
        let mut table = mem::replace(&mut self.table, no_table(alloc));
        table.sample = ValueList::from_vec(row);
        self.phase = Phase::Between;
        self.tables.push(table)
    }
}

/// The column of the `UNIQUE` with `KEEP LEAST` after one more line.
fn kept_after(before: Option<u8>, keeps: bool, column: u8) -> Option<u8>
    ensures { result ≡ kept_after before keeps column }
{
    if keeps { Some(column) } else { before }
}

/// A name as a text.
fn text_of(alloc: Global, name: &[u8]) -> Result<TextValue, AllocError>
    requires { IsTrue (is_a_name name.now) }
    ensures { IfOk result (λ text. text ≡ name.now) }
{
    let bytes = Vec::from_slice(alloc, name)?;
    Ok(TextValue::from_vec(bytes))
}

/// The number of the column with this name, which is there.
fn number_of(columns: &[Column], name: &[u8]) -> u8
    requires { length columns.now ≤ MAX_COLUMNS }
    ensures { result ≡ number_of columns.now name.now }
{
    number_named(columns, name).unwrap_or(0) as u8
}

/// The kind of a column of values.
fn kind_declared(kind: &PlainKind) -> ColumnKind
    requires { AreBounds kind.now }
    ensures { result ≡ kind_declared kind.now }
{
    match kind {
        PlainKind::Int { lo, hi } => ColumnKind::Int { lo: *lo, hi: *hi },
        PlainKind::Text { lo, hi } => ColumnKind::Text {
            lo: lo.unsigned_abs() as u16,
            hi: hi.unsigned_abs() as u16,
        },
        PlainKind::Flag => ColumnKind::Flag,
    }
}
