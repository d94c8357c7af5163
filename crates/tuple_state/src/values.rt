//! Values of which tables keep the least row, and the first row that has each.

ghost use Rattle.std.specs.Prelude.{◌≡◌, ℕ, None, is_none, ◌&&◌, ◌++◌, ◌∷◌, IfOk, OnErr, Some, if◌then◌else◌};
ghost use Rattle.std.specs.Prelude.{List, [], length};
ghost use Rattle.std.specs.List.{position_from};
ghost use Rattle.std.specs.Ordering.{is_eq};
ghost use Rattle.table_model.specs.Visible.{kept_of};
ghost use Rattle.tuple_state.specs.State.{rules_over};
ghost use Rattle.tuple_state.specs.Values.{AreFirsts, IsKeyIn, IsKeyOf, below, first_alike, first_of, has_at, kept_cmp};
ghost use Rattle.tuple_state.specs.declared.inserted.Inserted.{Inserted as Row};
ghost use Rattle.tuple_state.specs.declared.kept_value.KeptValue.{KeptValue as Key};
ghost use Rattle.tuple_state.specs.declared.shape.Shape.{Shape as Form};

use crate::Inserted;
use crate::kept_value::{Content, KeptValue};
use crate::shape::Shape;
use crate::shapes::kept_in;
use std::alloc::{AllocError, Global};
use std::collections::BTreeMap;
use update_model::Value;

/// The place of the first row that has each value, in tables that keep the least row of each. An ordered map, since
/// strangers choose the values.
#[derive(Drop)]
pub(crate) struct Values {
    firsts: BTreeMap<KeptValue, usize>,
}

impl Values {
    /// No values.
    pub(crate) fn new(alloc: Global) -> Values
        ensures { (key : Key) → first_of result key ≡ None }
    {
        Values {
            firsts: BTreeMap::new(alloc),
        }
    }

    /// The place of the first row that has a value.
    fn first(&self, value: &KeptValue) -> Option<usize>
        ensures { result ≡ first_of self.now value.now }
    {
        self.firsts.get(value).copied()
    }

    /// The place of the first row that has this value, where the table keeps the least row of each in some column.
    pub(crate) fn find(
        &self,
        alloc: Global,
        table: u8,
        value: &Value,
    ) -> Result<Option<usize>, AllocError>
        ensures { IfOk result (λ found. (shapes : List Form) (rows : List Row) (column : ℕ)
            → AreFirsts shapes rows self.now → kept_of (rules_over shapes) table ≡ Some column
            → found ≡ position_from (has_at table column value.now) 0 rows) }
    {
        match key_of(alloc, table, value)? {
            Some(key) => Ok(self.first(&key)),
            None => Ok(None),
        }
    }

    /// Adds a row at the place behind others, and answers the place of the first of those that has its value. After an
    /// error the same is known.
    pub(crate) fn add(
        &mut self,
        alloc: Global,
        shapes: &[Shape],
        row: &Inserted,
        place: usize,
    ) -> Result<Option<usize>, AllocError>
        ensures first { IfOk result (λ first. (rows : List Row) → AreFirsts shapes.now rows self.old
            → first ≡ first_alike shapes.now rows row.now) }
        ensures known { IfOk result (λ first. (rows : List Row) → length rows ≡ place
            → AreFirsts shapes.now rows self.old → AreFirsts shapes.now (rows ++ row.now ∷ []) self.new) }
        ensures same { OnErr result ((key : Key) → first_of self.new key ≡ first_of self.old key) }
    {
        match key_in(alloc, shapes, row)? {
            Some(key) => self.add_value(key, place),
            None => Ok(None),
        }
    }

    /// Adds a value that a row at this place has, unless it is known already, and answers the place that is known. After
    /// an error the same is known.
    fn add_value(&mut self, value: KeptValue, place: usize) -> Result<Option<usize>, AllocError>
        ensures first { IfOk result (λ first. first ≡ first_of self.old value) }
        ensures known { IfOk result (λ first. (key : Key) → first_of self.new key
            ≡ (if is_none (first_of self.old value) && is_eq (kept_cmp value key) then Some place else first_of self.old
            key)) }
        ensures same { OnErr result ((key : Key) → first_of self.new key ≡ first_of self.old key) }
    {
        if let Some(first) = self.first(&value) {
            return Ok(Some(first));
        }
        self.firsts.insert(value, place)?;
        Ok(None)
    }

    /// Leaves the values of the first so many rows. It takes no memory, and goes over all values.
    pub(crate) fn cut(&mut self, rows: usize)
        ensures { (key : Key) → first_of self.new key ≡ below rows (first_of self.old key) }
    {
        self.firsts.retain(|_, place| *place < rows);
    }
}

/// By what a value is looked for among those of a table, if by anything.
fn key_of(alloc: Global, table: u8, value: &Value) -> Result<Option<KeptValue>, AllocError>
    ensures { IfOk result (λ key. IsKeyOf table value.now key) }
{
    let content = match value {
        Value::Int(n) => Content::Int(*n),
        Value::Text(text) => Content::Text(Vec::from_slice(alloc, text.as_slice())?),
        Value::Flag(flag) => Content::Flag(*flag),
        Value::Null | Value::Row(_) | Value::Own(_) => return Ok(None),
    };
    Ok(Some(KeptValue { table, content }))
}

/// By what a row is looked for, if its table keeps the least row of each value.
fn key_in(alloc: Global, shapes: &[Shape], row: &Inserted) -> Result<Option<KeptValue>, AllocError>
    ensures { IfOk result (λ key. IsKeyIn row.now (kept_of (rules_over shapes.now) row.now.entry.table) key) }
{
    match kept_in(shapes, row.entry.table) {
        Some(column) => match row.entry.values.as_slice().get(usize::from(column)) {
            Some(value) => key_of(alloc, row.entry.table, value),
            None => Ok(None),
        },
        None => Ok(None),
    }
}
