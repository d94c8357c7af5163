ghost use Rattle.std.specs.Prelude.{◌≡◌, bytes_eq, position};

use crate::TableDef;

/// The number of the table with this name among these.
pub fn table_number(tables: &[TableDef], name: &[u8]) -> Option<usize>
    ensures { result ≡ position (λ table. bytes_eq table.name name.now) tables.now }
{
    tables
        .iter()
        .position(|table| table.name.as_slice() == name)
}
