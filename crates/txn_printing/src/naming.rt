//! Tables that are found by their names.

ghost use Rattle.std.specs.Prelude.{◌≡◌, ◌↔◌, ◌<◌, length, IsTrue};
ghost use Rattle.txn_text.specs.Operations.{table_named};
ghost use Rattle.txn_printing.specs.Printing.{is_found, AreNamed};

use schema::Schema;
use std::str;
use text_words::is_name;

/// Whether each table of a schema is found by its name, as those of every schema that a text declares are.
pub fn are_tables_named(schema: &Schema) -> bool
    ensures { IsTrue result ↔ AreNamed schema.now.tables }
{
    for number in 0..schema.tables() {
        if !is_found(schema, schema.table(number).name.as_slice(), number) {
            return false;
        }
    }
    true
}

/// Whether the table with this number is found by this name.
fn is_found(schema: &Schema, name: &[u8], number: u8) -> bool
    ensures { result ≡ is_found schema.now.tables number name.now }
{
    match table_named(schema, name) {
        Some(first) if is_name(name) => first == number,
        _ => false,
    }
}

/// The number of the table with this name.
fn table_named(schema: &Schema, name: &[u8]) -> Option<u8>
    ensures { result ≡ table_named schema.now.tables name.now }
{
    match str::from_utf8(name) {
        Ok(name) => schema.table_named(name),
        Err(_) => None,
    }
}
