//! How much of what tables keep is of the first updates.

ghost use Rattle.std.specs.Prelude.{◌≡◌, IfOk, count_by, map, nat_lt};

use crate::links::Link;
use crate::{Dropped, Inserted, Voided};
use std::alloc::{AllocError, Global};
use table_model::VoidLine;

/// How many rows the first updates inserted.
pub(crate) fn rows_before(rows: &[Inserted], len: u32) -> usize
    ensures { result ≡ count_by (λ row. nat_lt row.position len) rows.now }
{
    rows.iter().filter(|row| row.position < len).count()
}

/// How many names the first updates deleted.
pub(crate) fn names_before(dropped: &[Dropped], len: u32) -> usize
    ensures { result ≡ count_by (λ drop. nat_lt drop.position len) dropped.now }
{
    dropped.iter().filter(|drop| drop.position < len).count()
}

/// How many links have a number below this one.
pub(crate) fn numbers_before(links: &[Link], number: usize) -> usize
    ensures { result ≡ count_by (λ link. nat_lt link.number number) links.now }
{
    links
        .iter()
        .filter(|link| (link.number as usize) < number)
        .count()
}

/// How many of the first updates do nothing.
pub(crate) fn voids_before(voids: &[Voided], len: u32) -> usize
    ensures { result ≡ count_by (λ it. nat_lt it.position len) voids.now }
{
    voids.iter().filter(|it| it.position < len).count()
}

/// The lines of updates that do nothing.
pub(crate) fn lines_of(alloc: Global, voids: &[Voided]) -> Result<Vec<VoidLine>, AllocError>
    ensures { IfOk result (λ lines. lines.items ≡ map (λ it. it.line) voids.now) }
{
    voids.iter().map(|it| it.line).collect(alloc)
}
