//! Threads that lead from each row of a table to the next one, so that a table's rows are met with no other row
//! between.

ghost use Rattle.std.specs.Prelude.{◌≡◌, ℕ, ◌<◌, length, slice_index_or};
ghost use Rattle.tuple_state.specs.Threads.{AreThreads, IsThread};

use crate::Inserted;

/// How many tables can have rows, whose numbers are bytes.
pub(crate) const TABLES: usize = 256;

/// The rows of one table in order of arrival.
#[derive(Drop)]
pub(crate) struct Members<'a> {
    /// The rows of all tables.
    pub(crate) rows: &'a [Inserted],
    /// The table's number.
    pub(crate) table: usize,
    /// The place of the table's first row. Where it has none, this is behind all rows.
    pub(crate) first: usize,
    /// Of each of its rows the place of the next one. That of the last one is behind all rows.
    pub(crate) nexts: &'a [usize],
}

/// Finds the first row of each table, and of each row the next one of its table.
pub(crate) fn thread(firsts: &mut [usize; TABLES], nexts: &mut [usize], rows: &[Inserted])
    requires room { length nexts.old ≡ length rows.now }
    requires none { (table : ℕ) → table < 256 → slice_index_or firsts.old table 0 ≡ length rows.now }
    ensures { AreThreads rows.now firsts.new nexts.new 0 }
{
    let mut place = rows.len();
    while place > 0 {
        place -= 1;
        let table = usize::from(rows[place].entry.table);
        nexts[place] = firsts[table];
        firsts[table] = place;
    }
}

/// The rows of the table with this number.
pub(crate) fn members_of<'a>(
    rows: &'a [Inserted],
    firsts: &[usize; TABLES],
    nexts: &'a [usize],
    table: usize,
) -> Members<'a>
    requires { AreThreads rows.now firsts.now nexts.now 0 }
    ensures rows { result.rows.now ≡ rows.now }
    ensures table { result.table ≡ table }
    ensures nexts { result.nexts.now ≡ nexts.now }
    ensures threaded { IsThread rows.now nexts.now table 0 result.first }
{
    let first = match firsts.get(table) {
        Some(first) => *first,
        None => rows.len(),
    };
    Members {
        rows,
        table,
        first,
        nexts,
    }
}
