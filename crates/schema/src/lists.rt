//! Lists that a schema and its tables have.

ghost use Rattle.std.specs.Prelude.{◌≡◌, [], ◌∷◌, ◌++◌, OnOk};

use crate::{CheckRule, Column, MatchRule, TableDef, UniqueRule};
use std::alloc::AllocError;
use std::marker::Model;

/// A list of columns, which number from 0. A contract sees the list of its items.
#[derive(Drop)]
pub struct ColumnList {
    columns: Vec<Column>,
}

impl Model for ColumnList {
    ghost use Rattle.std.specs.Prelude.{List};
    ghost use Rattle.schema.specs.declared.column.Column.{Column};

    ghost Value = { List Column };

    ghost view = { λ list. list.columns.items };
}

impl ColumnList {
    /// Takes over a vector.
    pub fn from_vec(columns: Vec<Column>) -> Self
        ensures { result ≡ columns.items }
    {
        ColumnList { columns }
    }

    /// Lends the items.
    pub fn as_slice(&self) -> &[Column]
        ensures { result.now ≡ self.now }
    {
        self.columns.as_slice()
    }

    /// Gives the vector back.
    pub fn into_vec(self) -> Vec<Column>
        ensures { result.items ≡ self }
    {
        let ColumnList { columns } = self;
        columns
    }

    /// Puts one more at the end.
    pub fn push(&mut self, column: Column) -> Result<(), AllocError>
        ensures { OnOk result (self.new ≡ self.old ++ column ∷ []) }
    {
        self.columns.push(column)?;
        Ok(())
    }
}

/// A list of `CHECK` lines. A contract sees the list of its items.
#[derive(Drop)]
pub struct CheckList {
    checks: Vec<CheckRule>,
}

impl Model for CheckList {
    ghost use Rattle.std.specs.Prelude.{List};
    ghost use Rattle.schema.specs.Checks.{CheckData};

    ghost Value = { List CheckData };

    ghost use Rattle.schema.specs.Checks.{coded_tree};
    ghost use Rattle.std.specs.Coded.{codes};

    ghost coded = { Prim.hlevel (codes, coded_tree) };

    ghost view = { λ list. list.checks.items };
}

impl CheckList {
    /// Takes over a vector.
    pub fn from_vec(checks: Vec<CheckRule>) -> Self
        ensures { result ≡ checks.items }
    {
        CheckList { checks }
    }

    /// Lends the items.
    pub fn as_slice(&self) -> &[CheckRule]
        ensures { result.now ≡ self.now }
    {
        self.checks.as_slice()
    }

    /// Gives the vector back.
    pub fn into_vec(self) -> Vec<CheckRule>
        ensures { result.items ≡ self }
    {
        let CheckList { checks } = self;
        checks
    }

    /// Puts one more at the end.
    pub fn push(&mut self, check: CheckRule) -> Result<(), AllocError>
        ensures { OnOk result (self.new ≡ self.old ++ check ∷ []) }
    {
        self.checks.push(check)?;
        Ok(())
    }
}

/// A list of `MATCH` lines. A contract sees the list of its items.
#[derive(Drop)]
pub struct MatchList {
    matches: Vec<MatchRule>,
}

impl Model for MatchList {
    ghost use Rattle.std.specs.Prelude.{List};
    ghost use Rattle.schema.specs.declared.rules.MatchRule.{MatchRule};

    ghost Value = { List MatchRule };

    ghost view = { λ list. list.matches.items };
}

impl MatchList {
    /// Takes over a vector.
    pub fn from_vec(matches: Vec<MatchRule>) -> Self
        ensures { result ≡ matches.items }
    {
        MatchList { matches }
    }

    /// Lends the items.
    pub fn as_slice(&self) -> &[MatchRule]
        ensures { result.now ≡ self.now }
    {
        self.matches.as_slice()
    }

    /// Gives the vector back.
    pub fn into_vec(self) -> Vec<MatchRule>
        ensures { result.items ≡ self }
    {
        let MatchList { matches } = self;
        matches
    }

    /// Puts one more at the end.
    pub fn push(&mut self, rule: MatchRule) -> Result<(), AllocError>
        ensures { OnOk result (self.new ≡ self.old ++ rule ∷ []) }
    {
        self.matches.push(rule)?;
        Ok(())
    }
}

/// A list of `UNIQUE` lines. A contract sees the list of its items.
#[derive(Drop)]
pub struct UniqueList {
    uniques: Vec<UniqueRule>,
}

impl Model for UniqueList {
    ghost use Rattle.std.specs.Prelude.{List};
    ghost use Rattle.schema.specs.declared.rules.UniqueRule.{UniqueRule};

    ghost Value = { List UniqueRule };

    ghost view = { λ list. list.uniques.items };
}

impl UniqueList {
    /// Takes over a vector.
    pub fn from_vec(uniques: Vec<UniqueRule>) -> Self
        ensures { result ≡ uniques.items }
    {
        UniqueList { uniques }
    }

    /// Lends the items.
    pub fn as_slice(&self) -> &[UniqueRule]
        ensures { result.now ≡ self.now }
    {
        self.uniques.as_slice()
    }

    /// Gives the vector back.
    pub fn into_vec(self) -> Vec<UniqueRule>
        ensures { result.items ≡ self }
    {
        let UniqueList { uniques } = self;
        uniques
    }

    /// Puts one more at the end.
    pub fn push(&mut self, rule: UniqueRule) -> Result<(), AllocError>
        ensures { OnOk result (self.new ≡ self.old ++ rule ∷ []) }
    {
        self.uniques.push(rule)?;
        Ok(())
    }
}

/// A list of tables, which number from 0. A contract sees the list of its items.
#[derive(Drop)]
pub struct TableList {
    tables: Vec<TableDef>,
}

impl Model for TableList {
    ghost use Rattle.std.specs.Prelude.{List};
    ghost use Rattle.schema.specs.declared.table_def.TableDef.{TableDef};

    ghost Value = { List TableDef };

    ghost use Rattle.schema.specs.Checks.{coded_tree};
    ghost use Rattle.std.specs.Coded.{codes};

    ghost coded = { Prim.hlevel (codes, coded_tree) };

    ghost view = { λ list. list.tables.items };
}

impl TableList {
    /// Takes over a vector.
    pub fn from_vec(tables: Vec<TableDef>) -> Self
        ensures { result ≡ tables.items }
    {
        TableList { tables }
    }

    /// Lends the items.
    pub fn as_slice(&self) -> &[TableDef]
        ensures { result.now ≡ self.now }
    {
        self.tables.as_slice()
    }

    /// Puts one more at the end.
    pub fn push(&mut self, table: TableDef) -> Result<(), AllocError>
        ensures { OnOk result (self.new ≡ self.old ++ table ∷ []) }
    {
        self.tables.push(table)?;
        Ok(())
    }
}
