//! Which queries answer with rising names.

ghost use Rattle.std.specs.Prelude.{◌≡◌, ◌↔◌, IsTrue};
ghost use Rattle.query.specs.Outcome.{data_of};
ghost use Rattle.live_view.specs.Named.{IsNamed};
ghost use Rattle.table_model.specs.Tables.{name_cmp};

use query::{Query, Source};
use std::cmp::Ordering;
use update_model::RowName;

/// Whether the first column of an answer is the name of the row, and there are neither keys nor a limit.
pub fn is_named(query: &Query) -> bool
    ensures { IsTrue result ↔ IsNamed (data_of query.now) }
{
    match query.columns.as_slice() {
        [] => false,
        [item, ..] => is_name(&item.source) && query.keys.is_empty() && query.limit.is_none(),
    }
}

/// Whether a value is found in the name of the row.
fn is_name(source: &Source) -> bool
    ensures { IsTrue result ↔ (source.now ≡ Source.Name) }
{
    match source {
        Source::Name => true,
        _ => false,
    }
}

/// The order of two names.
pub fn name_cmp(a: &RowName, b: &RowName) -> Ordering
    ensures { result ≡ name_cmp a.now b.now }
{
    let order = a.update.cmp(&b.update);
    order.then(a.index.cmp(&b.index))
}
