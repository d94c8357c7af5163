//! The rows of tables that keep the least row of each value, in groups of one value.

ghost use Rattle.std.specs.Prelude.{◌≡◌, ◌+◌, ◌<◌, ◌≤◌, ◌^◌, ◌++◌, [], List, length, take, IfSome, MatchResult, OnOk};
ghost use Rattle.std.specs.Vec.{vec_capacity};
ghost use Rattle.tuple_state.specs.Grouped.{AreGroupsOf, group_at};
ghost use Rattle.tuple_state.specs.declared.inserted.Inserted.{Inserted as Row};
ghost use Rattle.tuple_state.specs.declared.shape.Shape.{Shape as Form};

use crate::Inserted;
use crate::shape::Shape;
use crate::shapes::keep_any;
use crate::values::Values;
use std::alloc::{AllocError, Global};

/// Groups of rows. Where no table keeps the least row of each value they are not kept, and take no memory.
#[derive(Drop)]
pub(crate) struct Groups {
    /// The first row of each value.
    pub(crate) values: Values,
    /// Of each row the group, which is the place of the first row of its table with its value, or its own place.
    pub(crate) numbers: Vec<usize>,
    /// Room for the least row of each group.
    pub(crate) least: Vec<Option<usize>>,
    /// Room for the place of the next row of its table, of each row.
    pub(crate) nexts: Vec<usize>,
}

impl Groups {
    /// No groups.
    pub(crate) fn new(alloc: Global) -> Groups
        ensures { (shapes : List Form) → AreGroupsOf shapes [] result }
    {
        Groups {
            values: Values::new(alloc),
            numbers: Vec::new(alloc),
            least: Vec::new(alloc),
            nexts: Vec::new(alloc),
        }
    }

    /// Takes memory for so many more rows.
    fn reserve(&mut self, more: usize) -> Result<(), AllocError>
        ensures values { self.new.values ≡ self.old.values }
        ensures numbers { self.new.numbers.items ≡ self.old.numbers.items }
        ensures least { self.new.least.items ≡ self.old.least.items }
        ensures nexts { self.new.nexts.items ≡ self.old.nexts.items }
        ensures room { OnOk result (length self.old.numbers.items + more ≤ vec_capacity self.new.numbers) }
        ensures space { OnOk result (length self.old.least.items + more ≤ vec_capacity self.new.least) }
        ensures way { OnOk result (length self.old.nexts.items + more ≤ vec_capacity self.new.nexts) }
    {
        self.numbers.reserve(more)?;
        self.least.reserve(more)?;
        self.nexts.reserve(more)
    }

    /// Finds the groups of rows that come behind others. After an error the groups are those of the others.
    pub(crate) fn grow(
        &mut self,
        alloc: Global,
        shapes: &[Shape],
        rows: &[Inserted],
        inserted: &[Inserted],
    ) -> Result<(), AllocError>
        requires groups { AreGroupsOf shapes.now rows.now self.old }
        requires few { length rows.now + length inserted.now < 2 ^ 63 }
        ensures { MatchResult result (λ _. AreGroupsOf shapes.now (rows.now ++ inserted.now) self.new)
            (λ _. AreGroupsOf shapes.now rows.now self.new) }
    {
        if !keep_any(shapes) {
            return Ok(());
        }
        let len = rows.len();
        let more = inserted.len();
        self.reserve(more)?;
        for number in 0..more {
            let place = len + number;
            match self.values.add(alloc, shapes, &inserted[number], place) {
                Ok(first) => {
                    let group = group_at(self.numbers.as_slice(), first, place);
                    self.numbers.push_reserved(group);
                    self.least.push_reserved(None);
                    self.nexts.push_reserved(0);
                }
                Err(error) => {
                    self.cut(len);
                    return Err(error);
                }
            }
        }
        Ok(())
    }

    /// Leaves the groups of the first so many rows. It takes no memory.
    pub(crate) fn cut(&mut self, len: usize)
        ensures { (shapes : List Form) (rows : List Row) → AreGroupsOf shapes rows self.old
            → AreGroupsOf shapes (take len rows) self.new }
    {
        self.values.cut(len);
        self.numbers.truncate(len);
        self.least.truncate(len);
        self.nexts.truncate(len);
    }
}

/// The group of the row at a place: that of the first row with its value, if there is one, or else one of its own.
fn group_at(groups: &[usize], first: Option<usize>, place: usize) -> usize
    requires { IfSome first (λ k. k < length groups.now) }
    ensures { result ≡ group_at groups.now first place }
{
    match first {
        Some(first) => groups[first],
        None => place,
    }
}
