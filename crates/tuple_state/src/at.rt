ghost use Rattle.std.specs.Prelude.{◌≡◌, ◌<◌, true, false, ◌&&◌, IfOk, Some, length, slice_get};
ghost use Rattle.table_model.specs.Visible.{kept_of, refs, same_row};
ghost use Rattle.row_check.specs.declared.cmp.Cmp.TheVariants.{Eq};
ghost use Rattle.row_check.specs.Comparisons.{compares};
ghost use Rattle.row_check.specs.Meaning.{value_at};
ghost use Rattle.schema.specs.Columns.{is_restrict};
ghost use Rattle.table_model.specs.Verdicts.{in_table};
ghost use Rattle.std.specs.List.{list_any};
ghost use Rattle.tuple_state.specs.declared.inserted.Inserted.{Inserted as Row};
ghost use Rattle.tuple_state.specs.Kept.{are_grounded, are_layered, are_referred};
ghost use Rattle.tuple_state.specs.Past.{AreKnownThen, Lasts, StandsAt, child_then, count_then, done_then, equal_then};
ghost use Rattle.tuple_state.specs.Past.{row_then, visible_at};
ghost use Rattle.tuple_state.specs.State.{done_in, keep_any, row_of, rules_of_state};

use crate::Tables;
use crate::known::Known;
use std::alloc::{AllocError, Global};
use std::collections::BTreeSet;
use update_model::{Ancestors, RowEntry, RowName, RowsAt, Value};

/// The rows that are visible after the ancestors of one update, which [`Tables::at`] lends. Where a table keeps the
/// least row of each value, it is counted once which rows these are, and each question is answered of that.
#[derive(Drop)]
pub struct At<'a, A: Ancestors> {
    tables: &'a Tables,
    ancestors: &'a A,
    position: u32,
    /// What is known of the rows, where a table keeps the least row of each value, and else nothing.
    known: Known,
    ghost founded: { are_layered (rules_of_state tables.now) (done_in tables.now).inserted ≡ true },
    ghost referred: { are_referred (rules_of_state tables.now) (done_in tables.now).inserted ≡ true },
    ghost lasting: { Lasts (A.ancestor ancestors.now) tables.now position },
    ghost layered: { are_layered (rules_of_state tables.now)
        (done_then tables.now (λ p. A.ancestor ancestors.now p position)).inserted ≡ true },
    ghost grounded: { are_grounded (rules_of_state tables.now)
        (done_then tables.now (λ p. A.ancestor ancestors.now p position)).inserted ≡ true },
    ghost counted: { AreKnownThen (A.ancestor ancestors.now) tables.now position known },
}

/// What is known of the rows after the ancestors of the update at this position, where a table keeps the least row of
/// each value, and else nothing.
fn known_then<A: Ancestors>(
    alloc: Global,
    tables: &Tables,
    ancestors: &A,
    position: u32,
) -> Result<Known, AllocError>
    requires past { StandsAt tables.now (λ p. A.ancestor ancestors.now p position) }
    ensures { IfOk result (λ known. AreKnownThen (A.ancestor ancestors.now) tables.now position known) }
{
    if tables.keeps() {
        tables.known_then(alloc, ancestors, position)
    } else {
        Ok(Known::nothing(alloc))
    }
}

impl<'a, A: Ancestors> At<'a, A> {
    /// The rows of these tables that are visible after the ancestors of the update at this position. Where a table
    /// keeps the least row of each value it goes over all rows.
    pub(crate) fn new(
        alloc: Global,
        tables: &'a Tables,
        ancestors: &'a A,
        position: u32,
    ) -> Result<At<'a, A>, AllocError>
        requires past { StandsAt tables.now (λ p. A.ancestor ancestors.now p position) }
        ensures tables { IfOk result (λ at. at.tables.now ≡ tables.now) }
        ensures ancestors { IfOk result (λ at. at.ancestors.now ≡ ancestors.now) }
        ensures position { IfOk result (λ at. at.position ≡ position) }
    {
        let known = known_then(alloc, tables, ancestors, position)?;
        Ok(At {
            tables,
            ancestors,
            position,
            known,
        })
    }

    /// Whether there is a row with this name, and a column that refers to its table by `RESTRICT`. Else no row names it
    /// so, since a reference names a row of the table that it is to.
    fn may_be_held(&self, name: &RowName) -> bool
        ensures { result ≡ false
            → child_then self.now.tables.now (λ p. A.ancestor self.now.ancestors.now p self.now.position)
            name.now ≡ false }
    {
        match self.tables.place(name) {
            Some(place) => self.tables.is_held(self.tables.row(place).entry.table),
            None => false,
        }
    }

    /// Whether the row at a place is visible then and names this one by `RESTRICT`.
    fn restricts(&self, alloc: Global, place: usize, name: &RowName) -> Result<bool, AllocError>
        requires { place < length self.now.tables.now.inserted }
        ensures { IfOk result (λ answer. (it : Row) → slice_get self.now.tables.now.inserted place ≡ Some it
            → answer ≡ (visible_at (A.ancestor self.now.ancestors.now) self.now.tables.now self.now.position it.name
            && list_any (λ r. is_restrict r.action && same_row r.name name.now)
            (refs (rules_of_state self.now.tables.now) (row_of it)))) }
    {
        if self.tables.restricts(place, name) {
            self.stands(alloc, place)
        } else {
            Ok(false)
        }
    }

    /// Whether the row at a place is visible then and of this table.
    fn stands_in(&self, alloc: Global, place: usize, table: u8) -> Result<bool, AllocError>
        requires { place < length self.now.tables.now.inserted }
        ensures { IfOk result (λ answer. (it : Row) → slice_get self.now.tables.now.inserted place ≡ Some it
            → answer ≡ (visible_at (A.ancestor self.now.ancestors.now) self.now.tables.now self.now.position it.name
            && in_table table (row_of it))) }
    {
        if self.tables.is_in(place, table) {
            self.stands(alloc, place)
        } else {
            Ok(false)
        }
    }

    /// Whether the row at a place is visible then, of this table, and has this value in this column.
    fn equals_in(
        &self,
        alloc: Global,
        place: usize,
        table: u8,
        column: u8,
        value: &Value,
    ) -> Result<bool, AllocError>
        requires { place < length self.now.tables.now.inserted }
        ensures { IfOk result (λ answer. (it : Row) → slice_get self.now.tables.now.inserted place ≡ Some it
            → answer ≡ (visible_at (A.ancestor self.now.ancestors.now) self.now.tables.now self.now.position it.name
            && (in_table table (row_of it) && compares Eq (value_at it.entry.values column) value.now))) }
    {
        if self.tables.equals_at(place, table, column, value) {
            self.stands(alloc, place)
        } else {
            Ok(false)
        }
    }

    /// How many rows of the table are visible then and have this value in the column, of which the table keeps the least
    /// row of each.
    fn shown_with(
        &self,
        alloc: Global,
        table: u8,
        column: u8,
        value: &Value,
    ) -> Result<u32, AllocError>
        requires { kept_of (rules_of_state self.now.tables.now) table ≡ Some column }
        ensures { IfOk result (λ count. count ≡ equal_then self.now.tables.now
            (λ p. A.ancestor self.now.ancestors.now p self.now.position) table column value.now) }
    {
        match self.tables.first_with(alloc, table, value)? {
            Some(place) => Ok(self.known.shown[place]),
            None => Ok(0),
        }
    }

    /// How many rows of the table are visible then and have this value in this column. It goes over all rows.
    fn count_equal(
        &self,
        alloc: Global,
        table: u8,
        column: u8,
        value: &Value,
    ) -> Result<u32, AllocError>
        ensures { IfOk result (λ count. count ≡ equal_then self.now.tables.now
            (λ p. A.ancestor self.now.ancestors.now p self.now.position) table column value.now) }
    {
        let mut count = 0;
        for place in 0..self.tables.row_len() {
            if self.equals_in(alloc, place, table, column, value)? {
                count += 1;
            }
        }
        Ok(count)
    }

    /// Whether the row at a place is visible then.
    fn stands(&self, alloc: Global, place: usize) -> Result<bool, AllocError>
        requires { place < length self.now.tables.now.inserted }
        ensures { IfOk result (λ answer. (it : Row) → slice_get self.now.tables.now.inserted place ≡ Some it
            → answer ≡ visible_at (A.ancestor self.now.ancestors.now) self.now.tables.now self.now.position it.name) }
    {
        if self.tables.keeps() {
            Ok(self.known.causes[place] == 0)
        } else {
            self.climbs(alloc, place)
        }
    }

    /// Whether the row at a place is visible then, where no table keeps the least row of each value. A row that is
    /// visible now is, where its update is an ancestor. Of others it looks at the rows to which `CASCADE` references
    /// lead, which ancestors inserted too, each once, the newest first: a row names only rows before it.
    fn climbs(&self, alloc: Global, place: usize) -> Result<bool, AllocError>
        requires plain { keep_any self.now.tables.now.shapes ≡ false }
        requires inside { place < length self.now.tables.now.inserted }
        ensures { IfOk result (λ answer. (it : Row) → slice_get self.now.tables.now.inserted place ≡ Some it
            → answer ≡ visible_at (A.ancestor self.now.ancestors.now) self.now.tables.now self.now.position it.name) }
    {
        let inserted = self.tables.row(place).position;
        if !self.ancestors.is_ancestor(alloc, inserted, self.position)? {
            return Ok(false);
        }
        let mut pending = BTreeSet::new(alloc);
        let mut next = Some(place);
        while let Some(place) = next {
            if self
                .tables
                .is_deleted_at(alloc, place, self.ancestors, self.position)?
            {
                return Ok(false);
            }
            next = self.tables.climb(place, &mut pending)?;
        }
        Ok(true)
    }
}

impl<'a, A: Ancestors> RowsAt for At<'a, A> {
    ghost row = { λ at. row_then at.tables.now (λ p. A.ancestor at.ancestors.now p at.position) };

    ghost has_child = { λ at. child_then at.tables.now (λ p. A.ancestor at.ancestors.now p at.position) };

    ghost equal_count = { λ at. equal_then at.tables.now (λ p. A.ancestor at.ancestors.now p at.position) };

    ghost count = { λ at. count_then at.tables.now (λ p. A.ancestor at.ancestors.now p at.position) };

    /// The row with this name, where it is visible then. It takes the time of a walk over the rows to which `CASCADE`
    /// references lead from it, and over what deletes them, or, where a table keeps the least row of each value, of a
    /// look at what is counted already.
    fn row_at(&self, alloc: Global, name: &RowName) -> Result<Option<&RowEntry>, AllocError> {
        match self.tables.place(name) {
            Some(place) => {
                if self.stands(alloc, place)? {
                    Ok(Some(&self.tables.row(place).entry))
                } else {
                    Ok(None)
                }
            }
            None => Ok(None),
        }
    }

    /// Whether a row that is visible then names this one by `RESTRICT`. It goes over all rows only where a column
    /// refers to the row's table by `RESTRICT`. In no schema that is accepted may rows of such a table be deleted.
    fn restrict_child(&self, alloc: Global, name: &RowName) -> Result<bool, AllocError> {
        if !self.may_be_held(name) {
            return Ok(false);
        }
        for place in 0..self.tables.row_len() {
            if self.restricts(alloc, place, name)? {
                return Ok(true);
            }
        }
        Ok(false)
    }

    /// How many rows of the table that are visible then have this value in this column, as `UNIQUE` compares them. It
    /// takes logarithmic time where the table keeps the least row of each value of the column. Else it goes over all
    /// rows, which no schema that is accepted asks for.
    fn equal_rows(
        &self,
        alloc: Global,
        table: u8,
        column: u8,
        value: &Value,
    ) -> Result<u32, AllocError> {
        if self.tables.keeps_in(table, column) {
            self.shown_with(alloc, table, column, value)
        } else {
            self.count_equal(alloc, table, column, value)
        }
    }

    /// How many rows of the table are visible then. It goes over all rows, since no schema that is accepted has an
    /// `ATMOST`.
    fn row_count(&self, alloc: Global, table: u8) -> Result<u32, AllocError> {
        let mut count = 0;
        for place in 0..self.tables.row_len() {
            if self.stands_in(alloc, place, table)? {
                count += 1;
            }
        }
        Ok(count)
    }
}
