//! Columns by their names.

ghost use Rattle.std.specs.Prelude.{◌≡◌, option_map, position};
ghost use Rattle.query.specs.Columns.{columns_of, own_slot, target_in, target_named, far_slot, through_slot, is_dot};
ghost use Rattle.query.specs.Columns.{split_dot, slot_in, slot_of};
ghost use Rattle.schema.specs.Columns.{kind_seen as kind_for, number_named};

use crate::pieces::is_text;
use row_check::Kind;
use schema::{Column, ColumnKind, Schema};

/// Where a value of an answer is found.
#[derive(Clone, Copy)]
pub enum Source {
    /// It is the name of the row.
    Name,
    /// In the column with this number.
    Own(usize),
    /// In a column of the row that a reference names, and null where it names none.
    Through {
        /// The number of the reference.
        reference: usize,
        /// The number of the table that it refers to.
        target: u8,
        /// The number of the column there.
        column: usize,
    },
}

/// A column that a word names.
#[derive(Clone, Copy)]
pub struct Slot {
    /// Where its value is found.
    pub source: Source,
    /// What its values are.
    pub kind: Kind,
}

/// The columns of the table with this number.
pub(crate) fn columns_of(schema: &Schema, table: u8) -> &[Column]
    ensures { result.now ≡ columns_of schema.now.tables table }
{
    if table < schema.tables() {
        schema.table(table).columns.as_slice()
    } else {
        &[]
    }
}

/// The column that a word names, of the table with this number or of a row that one of its references names.
pub(crate) fn slot_of(schema: &Schema, table: u8, name: &[u8]) -> Option<Slot>
    ensures { result ≡ slot_of schema.now.tables table name.now }
{
    if !is_text(name) {
        return None;
    }
    slot_in(schema, columns_of(schema, table), name)
}

fn slot_in(schema: &Schema, columns: &[Column], name: &[u8]) -> Option<Slot>
    ensures { result ≡ slot_in schema.now.tables columns.now name.now (split_dot name.now) }
{
    match split_dot(name) {
        None => own_slot(columns, name),
        Some((reference, column)) => through_slot(schema, columns, reference, column),
    }
}

/// What stands before the first dot, and behind it.
fn split_dot(name: &[u8]) -> Option<(&[u8], &[u8])>
    ensures { option_map (λ parts. (parts.0.now, parts.1.now)) result ≡ split_dot name.now }
{
    let dot = place_of_dot(name)?;
    Some((&name[..dot], &name[dot + 1..]))
}

fn place_of_dot(name: &[u8]) -> Option<usize>
    ensures { result ≡ position is_dot name.now }
{
    name.iter().position(|byte| *byte == b'.')
}

/// The number of the column with this name.
fn number_of(columns: &[Column], name: &[u8]) -> Option<usize>
    ensures { result ≡ number_named columns.now name.now }
{
    columns
        .iter()
        .position(|column| column.name.as_slice() == name)
}

/// A column of the table itself.
fn own_slot(columns: &[Column], name: &[u8]) -> Option<Slot>
    ensures { result ≡ own_slot columns.now name.now }
{
    let n = number_of(columns, name)?;
    let column = columns.get(n)?;
    Some(Slot {
        source: Source::Own(n),
        kind: kind_seen(&column.kind),
    })
}

/// A column of the row that a reference names.
fn through_slot(schema: &Schema, columns: &[Column], reference: &[u8], name: &[u8]) -> Option<Slot>
    ensures { result ≡ through_slot schema.now.tables columns.now reference.now name.now }
{
    let (number, target) = target_named(columns, reference)?;
    far_slot(number, target, columns_of(schema, target), name)
}

fn far_slot(reference: usize, target: u8, columns: &[Column], name: &[u8]) -> Option<Slot>
    ensures { result ≡ far_slot reference target columns.now name.now }
{
    let n = number_of(columns, name)?;
    let column = columns.get(n)?;
    Some(Slot {
        source: Source::Through {
            reference,
            target,
            column: n,
        },
        kind: kind_seen(&column.kind),
    })
}

/// The reference with this name, and the table that it refers to.
fn target_named(columns: &[Column], name: &[u8]) -> Option<(usize, u8)>
    ensures { result ≡ target_named columns.now name.now }
{
    let n = number_of(columns, name)?;
    let column = columns.get(n)?;
    let target = target_in(&column.kind)?;
    Some((n, target))
}

fn target_in(kind: &ColumnKind) -> Option<u8>
    ensures { result ≡ target_in kind.now }
{
    match kind {
        ColumnKind::Reference { target, action: _ } => Some(*target),
        ColumnKind::Int { .. } | ColumnKind::Text { .. } | ColumnKind::Flag => None,
    }
}

fn kind_seen(kind: &ColumnKind) -> Kind
    ensures { result ≡ kind_for kind.now }
{
    match kind {
        ColumnKind::Int { .. } => Kind::Int,
        ColumnKind::Text { .. } => Kind::Text,
        ColumnKind::Flag => Kind::Flag,
        ColumnKind::Reference { .. } => Kind::Reference,
    }
}
