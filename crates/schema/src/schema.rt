ghost use Rattle.std.specs.Prelude.{◌≡◌, ◌<◌, length, bytes_eq, position, slice_get, Some};
ghost use Rattle.schema.specs.Sound.{IsSchema};

use crate::lookups::table_number;
use crate::{TableDef, TableList};
use std::marker::Model;
use update_model::{ByteList, DbRule};

/// A schema: tables, and which updates the database takes.
///
/// Every schema has one to sixteen tables with one to sixteen columns each, and its numbers name what is there: see
/// `IsSchema` of the definitions.
#[derive(Drop)]
pub struct Schema {
    rule: DbRule,
    tables: TableList,
    text: ByteList,
}

impl Model for Schema {
    ghost use Rattle.schema.specs.Data.{SchemaData};

    ghost Value = { SchemaData };

    ghost use Rattle.schema.specs.Checks.{coded_tree};
    ghost use Rattle.std.specs.Coded.{codes};

    ghost coded = { Prim.hlevel (codes, coded_tree) };

    ghost use Rattle.schema.specs.Sound.{IsSchema};

    ghost view = { λ schema. record { tables = schema.tables; rule = schema.rule; text = schema.text } };

    ghost invariant = { λ schema. IsSchema (record { tables = schema.tables; rule = schema.rule; text = schema.text }) };
}

impl Schema {
    /// Puts a schema together, of tables that keep what a schema promises. The crate `schema_text` does so with what a
    /// text declares, whose digest is the id of the database.
    pub fn new(rule: DbRule, tables: TableList, text: ByteList) -> Schema
        requires { IsSchema (record { tables = tables; rule = rule; text = text }) }
        ensures { result ≡ record { tables = tables; rule = rule; text = text } }
    {
        Schema { rule, tables, text }
    }

    /// Which updates the database takes. Its id is the SHA-256 digest of the text (FIPS 180-4).
    pub fn rule(&self) -> &DbRule
        ensures { result.now ≡ self.now.rule }
    {
        &self.rule
    }

    /// How many tables there are.
    pub fn tables(&self) -> u8
        ensures number { result ≡ length self.now.tables }
        ensures kept { IsSchema self.now }
    {
        self.tables.as_slice().len() as u8
    }

    /// The number of the table with this name.
    pub fn table_named(&self, name: &str) -> Option<u8>
        ensures { result ≡ position (λ table. bytes_eq table.name name.now) self.now.tables }
    {
        let place = table_number(self.tables.as_slice(), name.as_bytes())?;
        Some(place as u8)
    }

    /// The table with this number, which has to be below [`Schema::tables`].
    pub fn table(&self, number: u8) -> &TableDef
        requires { number < length self.now.tables }
        ensures { slice_get self.now.tables number ≡ Some result.now }
    {
        &self.tables.as_slice()[usize::from(number)]
    }

    /// The text that declares the schema.
    pub fn text(&self) -> &[u8]
        ensures { result.now ≡ self.now.text }
    {
        self.text.as_slice()
    }
}
