ghost use Rattle.std.specs.Prelude.{◌≡◌};
ghost use Rattle.schema.specs.Numbers.{no_table};
ghost use Rattle.schema_text.specs.Drafts.{start, is_turn, is_between, has_columns};

use crate::draft_lists::AuthorList;
use crate::form::Form;
use schema::{CheckList, ColumnList, MatchList, TableDef, TableList, UniqueList};
use std::alloc::Global;
use update_model::{TextValue, ValueList};

/// How far the lines of a schema have come.
#[derive(Clone, Copy)]
pub(crate) enum Phase {
    /// No line has said anything.
    Start,
    /// The database is named, and no table has begun.
    Authors,
    /// A table has begun, and what it has are columns.
    Columns,
    /// A table has rules too.
    Rules,
    /// A table has ended.
    Between,
}

/// What the lines of a schema so far declare.
#[derive(Drop)]
pub(crate) struct Draft {
    /// How far they have come.
    pub(crate) phase: Phase,
    /// The authors.
    pub(crate) authors: AuthorList,
    /// The tables that have ended.
    pub(crate) tables: TableList,
    /// The table that has begun, or an empty one.
    pub(crate) table: TableDef,
}

impl Draft {
    /// What no line declares.
    pub(crate) fn new(alloc: Global) -> Draft
        ensures { result ≡ start }
    {
        Draft {
            phase: Phase::Start,
            authors: AuthorList::from_vec(Vec::new(alloc)),
            tables: TableList::from_vec(Vec::new(alloc)),
            table: no_table(alloc),
        }
    }

    /// Whether it is the turn of a line of this form.
    pub(crate) fn is_turn(&self, form: &Form) -> bool
        ensures { result ≡ is_turn self.now form.now }
    {
        match form {
            Form::Database { .. } => matches!(self.phase, Phase::Start),
            Form::Author { .. } => matches!(self.phase, Phase::Authors),
            Form::Table { .. } => matches!(self.phase, Phase::Authors | Phase::Between),
            Form::Column { .. } => matches!(self.phase, Phase::Columns),
            Form::Ref { .. } => matches!(self.phase, Phase::Columns),
            Form::Check { .. } => self.has_columns(),
            Form::Match { .. } => self.has_columns(),
            Form::Unique { .. } => self.has_columns(),
            Form::AtMost { .. } => self.has_columns(),
            Form::Sample { .. } => self.has_columns(),
        }
    }

    /// Whether a table has ended, and no other has begun.
    pub(crate) fn is_complete(&self) -> bool
        ensures { result ≡ is_between self.now.phase }
    {
        matches!(self.phase, Phase::Between)
    }

    /// Whether a table has begun, and has a column.
    fn has_columns(&self) -> bool
        ensures { result ≡ has_columns self.now }
    {
        matches!(self.phase, Phase::Columns | Phase::Rules)
            && !self.table.columns.as_slice().is_empty()
    }
}

/// A table of nothing.
pub(crate) fn no_table(alloc: Global) -> TableDef
    ensures { result ≡ no_table }
{
    TableDef {
        name: TextValue::from_vec(Vec::new(alloc)),
        columns: ColumnList::from_vec(Vec::new(alloc)),
        checks: CheckList::from_vec(Vec::new(alloc)),
        matches: MatchList::from_vec(Vec::new(alloc)),
        uniques: UniqueList::from_vec(Vec::new(alloc)),
        kept: None,
        at_most: 0,
        at_most_line: 0,
        deletable: false,
        owned: false,
        sample: ValueList::from_vec(Vec::new(alloc)),
    }
}
