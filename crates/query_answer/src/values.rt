//! The values that rows show to a query.

ghost use Rattle.std.specs.Prelude.{◌≡◌, List, option_copied, option_map, unwrap_or};
ghost use Rattle.update_model.specs.declared.value.Value.TheVariants.{Null};
ghost use Rattle.table_model.specs.declared.shown_row.ShownRow.{ShownRow as Shown};
ghost use Rattle.table_model.specs.Tables.{name_cmp};
ghost use Rattle.query_answer.specs.Rows.{AreListsOf, shown_row, told};
ghost use Rattle.query_answer.specs.Values.{IsRising, row_named, rows_in, value_in, value_of, value_through};

use crate::found::FoundValue;
use crate::rows::{Row, Rows};
use query::Source;
use std::cmp::Ordering;
use table_model::{ShownRow, ShownRowList};
use update_model::{RowName, Value};

/// The rows of the table with this number.
pub(crate) fn rows_in(tables: &[ShownRowList], number: u8) -> &[ShownRow]
    ensures { result.now ≡ rows_in tables.now number }
{
    match tables.get(usize::from(number)) {
        Some(rows) => rows.as_slice(),
        None => &[],
    }
}

/// The order of two names.
pub(crate) fn name_cmp(a: &RowName, b: &RowName) -> Ordering
    ensures { result ≡ name_cmp a.now b.now }
{
    let order = a.update.cmp(&b.update);
    order.then(a.index.cmp(&b.index))
}

/// The row with this name.
pub(crate) fn row_named<'a>(rows: &'a [ShownRow], name: &RowName) -> Option<&'a ShownRow>
    ensures { IsRising rows.now → option_copied result ≡ row_named rows.now name.now }
{
    match rows.binary_search_by(|row| name_cmp(&row.name, name)) {
        Ok(place) => Some(&rows[place]),
        Err(_) => None,
    }
}

/// The value in a column of a row, and null where there is no row.
fn value_in<'a>(row: Option<Row<'a>>, column: usize) -> FoundValue<'a>
    ensures { told result ≡ value_in (option_map shown_row row.entry) column }
{
    match row {
        Some(row) => FoundValue::new(row.value(column)),
        None => FoundValue::Made(Value::Null),
    }
}

/// The value in a column of the row that a reference names.
fn value_through<'a>(
    rows: Rows<'a>,
    table: u8,
    column: usize,
    reference: Option<&Value>,
) -> FoundValue<'a>
    ensures { (lists : List (List Shown)) → AreListsOf rows.entry lists
        → told result ≡ value_through (rows_in lists table) column (unwrap_or (option_copied reference.entry) Null) }
{
    match reference {
        Some(Value::Row(name)) => value_in(rows.named(table, name), column),
        _ => FoundValue::Made(Value::Null),
    }
}

/// The value that a row has there. Row by row it takes time that is logarithmic in the rows of a referenced table, and
/// no memory.
pub(crate) fn value_of<'a>(rows: Rows<'a>, row: &Row<'a>, source: Source) -> FoundValue<'a>
    ensures { (lists : List (List Shown)) → AreListsOf rows.entry lists
        → told result ≡ value_of lists (shown_row row.now) source }
{
    match source {
        Source::Name => FoundValue::Made(Value::Row(*row.name())),
        Source::Own(column) => FoundValue::new(row.value(column)),
        Source::Through {
            reference,
            target,
            column,
        } => value_through(rows, target, column, row.value(reference)),
    }
}
