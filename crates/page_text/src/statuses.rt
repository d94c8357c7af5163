//! How much there is in a store.

ghost use Rattle.std.specs.Prelude.{◌≡◌, ◌++◌, ◌<◌, IfOk, OnOk, length, slice_get};
ghost use Rattle.page_text.specs.Parts.{each_listed, listed};
ghost use Rattle.page_text.specs.Statuses.{count_line, counts_text, rows_line, status_text};

use crate::counts::Counts;
use crate::numbers::push_number;
use schema::{Schema, TableDef};
use std::alloc::{AllocError, Global};
use table_model::{ShownRow, ShownRowList};

/// How much there is, a line for each count: how many updates, how many of them are heads, how many do nothing, and how
/// many rows each table of the schema shows, by the list that has its number. It gives up where memory runs out.
#[tactic(auto, unfolding(crate::specs::Statuses::status_text))]
pub fn status(
    alloc: Global,
    counts: &Counts,
    schema: &Schema,
    lists: &[ShownRowList],
) -> Result<Vec<u8>, AllocError>
    ensures { IfOk result (λ text. text.items ≡ status_text counts.now schema.now.tables lists.now) }
{
    let mut out = Vec::new(alloc);
    push_counts(&mut out, counts)?;
    push_tables(&mut out, schema, lists)?;
    Ok(out)
}

/// Adds the counts of updates.
#[tactic(auto, unfolding(crate::specs::Statuses::counts_text))]
fn push_counts(out: &mut Vec<u8>, counts: &Counts) -> Result<(), AllocError>
    ensures { OnOk result (out.new.items ≡ out.old.items ++ counts_text counts.now) }
{
    push_count(out, b"updates", counts.updates)?;
    push_count(out, b"heads", counts.heads)?;
    push_count(out, b"void", counts.voids)
}

/// Adds words, and a count behind them.
#[tactic(auto, unfolding(crate::specs::Statuses::count_line))]
fn push_count(out: &mut Vec<u8>, words: &[u8], count: u64) -> Result<(), AllocError>
    ensures { OnOk result (out.new.items ≡ out.old.items ++ count_line words.now count) }
{
    out.extend_from_slice(words)?;
    out.push(b' ')?;
    push_number(out, count)?;
    out.extend_from_slice(b"\n")
}

/// Adds for each table how many rows it shows.
fn push_tables(out: &mut Vec<u8>, schema: &Schema, lists: &[ShownRowList]) -> Result<(), AllocError>
    ensures { OnOk result (out.new.items ≡ out.old.items ++ each_listed rows_line schema.now.tables lists.now) }
{
    for number in 0..schema.tables() {
        push_numbered(out, schema, number, lists)?;
    }
    Ok(())
}

/// Adds how many rows the table with this number shows, if it has a list.
fn push_numbered(
    out: &mut Vec<u8>,
    schema: &Schema,
    number: u8,
    lists: &[ShownRowList],
) -> Result<(), AllocError>
    requires { number < length schema.now.tables }
    ensures { OnOk result (out.new.items ≡ out.old.items ++ listed rows_line (slice_get schema.now.tables number)
        (slice_get lists.now number)) }
{
    match lists.get(usize::from(number)) {
        Some(rows) => push_rows(out, schema.table(number), rows.as_slice()),
        None => Ok(()),
    }
}

/// Adds how many rows a table shows.
#[tactic(auto, unfolding(crate::specs::Statuses::rows_line))]
fn push_rows(out: &mut Vec<u8>, table: &TableDef, rows: &[ShownRow]) -> Result<(), AllocError>
    ensures { OnOk result (out.new.items ≡ out.old.items ++ rows_line table.now rows.now) }
{
    out.extend_from_slice(b"rows of ")?;
    push_count(out, table.name.as_slice(), rows.len() as u64)
}
