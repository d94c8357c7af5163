//! Rows to be inserted one after the other.

ghost use Rattle.std.specs.Prelude.{◌≡◌, ◌<◌, List, [], ◌∷◌, ◌++◌, IfOk, OnOk, length, reverse};
ghost use Rattle.confluence_laws.specs.Examples.{chain, has_table, name_in};

use crate::nodes::{chain_of, row_numbered};
use std::alloc::{AllocError, Global};
use std::marker::Model;
use table_model::NodeList;
use update_model::{RowName, ValueList};

/// A row to be inserted.
#[derive(Drop)]
pub(crate) struct PlannedRow {
    /// The number of its table.
    pub(crate) table: u8,
    /// A value for each column, in order.
    pub(crate) values: ValueList,
}

impl Model for PlannedRow {
    ghost use Rattle.confluence_laws.specs.Examples.{Item};

    ghost Value = { Item };

    ghost view = { λ row. record { table = row.table; values = row.values } };
}

impl PlannedRow {
    /// An equal row on memory of its own.
    pub(crate) fn copy(&self, alloc: Global) -> Result<PlannedRow, AllocError>
        ensures { IfOk result (λ row. row ≡ self.now) }
    {
        Ok(PlannedRow {
            table: self.table,
            values: self.values.copy(alloc)?,
        })
    }
}

/// Rows to be inserted one after the other, each by an update of its own. A contract sees them newest first.
#[derive(Drop)]
pub(crate) struct Chain {
    rows: Vec<PlannedRow>,
}

impl Model for Chain {
    ghost use Rattle.std.specs.Prelude.{List, reverse};
    ghost use Rattle.confluence_laws.specs.Examples.{Item};

    ghost Value = { List Item };

    ghost view = { λ chain. reverse chain.rows.items };
}

impl Chain {
    /// No rows.
    pub(crate) fn new(alloc: Global) -> Chain
        ensures { result ≡ [] }
    {
        Chain {
            rows: Vec::new(alloc),
        }
    }

    /// How many rows there are.
    pub(crate) fn len(&self) -> usize
        ensures { result ≡ length self.now }
    {
        self.rows.len()
    }

    /// Puts one more at the end.
    pub(crate) fn push(&mut self, row: PlannedRow) -> Result<(), AllocError>
        ensures { OnOk result (self.new ≡ row ∷ self.old) }
    {
        self.rows.push(row)?;
        Ok(())
    }

    /// Whether there is a row of this table.
    #[tactic(auto, using(crate::proofs::Chains::has_reverse))]
    pub(crate) fn has_table(&self, table: u8) -> bool
        ensures { result ≡ has_table self.now table }
    {
        is_among(self.rows.as_slice(), table)
    }

    /// The name of the newest row of this table.
    pub(crate) fn name_in(&self, table: u8) -> RowName
        requires { length self.now < 256 }
        ensures { result ≡ name_in self.now table }
    {
        name_among(self.rows.as_slice(), table)
    }

    /// The updates that insert the rows, in the order of arrival.
    pub(crate) fn nodes(&self, alloc: Global) -> Result<NodeList, AllocError>
        requires { length self.now < 256 }
        ensures { IfOk result (λ nodes. nodes ≡ reverse (chain self.now)) }
    {
        Ok(NodeList::from_vec(chain_of(alloc, self.rows.as_slice())?))
    }
}

/// Whether there is a row of this table.
fn is_among(rows: &[PlannedRow], table: u8) -> bool
    ensures { result ≡ has_table rows.now table }
{
    rows.iter().any(|row| row.table == table)
}

/// The name of the last row of this table.
#[tactic(auto, using(crate::proofs::Chains::name_here, crate::proofs::Chains::name_there))]
fn name_among(rows: &[PlannedRow], table: u8) -> RowName
    requires { length rows.now < 256 }
    ensures { result ≡ name_in (reverse rows.now) table }
{
    let mut name = row_numbered(0);
    for (older, row) in rows.iter().enumerate() {
        if row.table == table {
            name = row_numbered(older + 1);
        }
    }
    name
}
