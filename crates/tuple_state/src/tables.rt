ghost use Rattle.std.specs.Prelude.{◌≡◌, ℕ, ◌+◌, ◌*◌, ◌<◌, ◌≤◌, Bool, List, [], ◌∷◌, ◌++◌, IfOk, IfNone, IfSome, OnOk};
ghost use Rattle.std.specs.Prelude.{MatchResult, length, map, nat_lt, option_to_list, slice_get, take, Contains, Some};
ghost use Rattle.std.specs.Prelude.{true, not, ◌&&◌, ◌||◌, ◌⊎◌};
ghost use Rattle.std.specs.List.{list_all, list_any, position_from};
ghost use Rattle.std.specs.Vec.{vec_capacity};
ghost use Rattle.table_model.specs.declared.verdict.Verdict.TheVariants.{Valid};
ghost use Rattle.update_model.specs.declared.value.Value.{Value as Cell};
ghost use Rattle.row_check.specs.declared.cmp.Cmp.TheVariants.{Eq};
ghost use Rattle.row_check.specs.Comparisons.{compares};
ghost use Rattle.row_check.specs.Meaning.{value_at};
ghost use Rattle.std.specs.BTreeMap.{get};
ghost use Rattle.update_model.specs.declared.row_name.RowName.{RowName as Name};
ghost use Rattle.update_model.specs.Node.{NodeData};
ghost use Rattle.table_model.specs.Tables.{AreRowsIn, AreVoidsIn, name_cmp};
ghost use Rattle.table_model.specs.Verdicts.{effects_in, in_table};
ghost use Rattle.table_model.specs.Visible.{Rules, TableRow, cascade_refs, is_deleted, is_visible, refs, rules_with};
ghost use Rattle.table_model.specs.Visible.{kept_of, same_row};
ghost use Rattle.schema.specs.Columns.{is_restrict};
ghost use Rattle.table_model.specs.Answers.{AreAnswers};
ghost use Rattle.tuple_state.specs.Past.{AreCausesThen, IsKnownThen, IsNextVerdict, IsPastOf, StandsAt, done_then};
ghost use Rattle.tuple_state.specs.Past.{effects_before};
ghost use Rattle.tuple_state.specs.Absence.{causes_of};
ghost use Rattle.tuple_state.specs.Causes.{parents_from};
ghost use Rattle.tuple_state.specs.Changes.{AreNextChanges, AreWithParents};
ghost use Rattle.tuple_state.specs.Kept.{are_grounded, are_layered, deletes_at, is_named, pairs_of, place_of};
ghost use Rattle.tuple_state.specs.Parents.{columns_at, is_held, passes_place};
ghost use Rattle.tuple_state.specs.State.{IsCut, IsHeld, IsStateOf, after, done_in, dropped_at, keep_any, row_of};
ghost use Rattle.tuple_state.specs.State.{rules_of_state, voided_at};
ghost use Rattle.tuple_state.specs.Values.{has_at};
ghost use Rattle.tuple_state.specs.declared.inserted.Inserted.{Inserted as Row};

use crate::causes::{add_causes, clear, count_numbers, count_places, room_for};
use crate::children::{Parents, parents_of};
use crate::cutting::{lines_of, names_before, numbers_before, rows_before, voids_before};
use crate::deleters::grow_links;
use crate::grounds::Grounds;
use crate::groups::Groups;
use crate::known::{Known, count_shown};
use crate::links::{Link, Links};
use crate::parents::{add_parents, comes_last, enter, remove_places, take_last};
use crate::restricts::{is_held, restricts};
use crate::settling::{own_causes, recount, spread_causes};
use crate::shape::Shape;
use crate::shapes::{copy_shapes, keep_any, kept_in, shapes_of};
use crate::showing::{copy_rows, listed_rows};
use crate::steps::{dropped_by, inserted_by};
use crate::{At, Dropped, Inserted, Voided};
use row_check::{Cmp, compare};
use schema::{Column, Schema};
use std::alloc::{AllocError, Global};
use std::collections::{BTreeMap, BTreeSet};
use std::marker::Model;
use table_model::{ShownRowList, Verdict, VoidLine, VoidList, sort_lines};
use update_model::{Ancestors, MAX_MEMBERS, Node, RowName, RowsAt, Value};

/// What valid updates did, and which rows are visible for it. A contract sees the [state](mod@crate) of the
/// definitions.
#[derive(Drop)]
pub struct Tables {
    /// Where memory comes from.
    alloc: Global,
    /// What tells of each table which of its rows are visible.
    shapes: Vec<Shape>,
    /// How many updates were applied.
    count: u32,
    /// The rows in order of arrival.
    rows: Vec<Inserted>,
    /// Each row's place among these by its name. An ordered map, since strangers choose the names, and since tables
    /// list rows in rising order of names.
    places: BTreeMap<RowName, usize>,
    /// Of each row the number of its causes of absence: the updates that delete it, its `CASCADE` columns that name an
    /// absent row, and 1 where its table keeps the least row of each value and a lesser candidate has its value. A row
    /// is visible where it is 0.
    causes: Vec<u32>,
    /// The deleted names in order of arrival.
    dropped: Vec<Dropped>,
    /// To the place of each row the places of the rows that name it by `CASCADE`, once for each column. They come row
    /// by row of those that name.
    children: Links,
    /// To the place of each row the positions of the updates that delete it.
    deleters: Links,
    /// The updates that do nothing, in order of arrival.
    voids: Vec<Voided>,
    /// Of each row the index among the links of `children` that is behind those which come of it.
    ends: Vec<u32>,
    /// The groups of rows of one value, in tables that keep the least row of each.
    groups: Groups,
}

impl Model for Tables {
    ghost use Rattle.tuple_state.specs.State.{State};
    ghost use Rattle.tuple_state.specs.Kept.{IsKept};

    ghost Value = { State };

    ghost view = { λ t. record {
      shapes = t.shapes.items;
      count = t.count;
      inserted = t.rows.items;
      dropped = t.dropped.items;
      voids = t.voids.items;
    } };

    ghost invariant = { λ t. IsKept (record { shapes = t.shapes.items; count = t.count; inserted = t.rows.items; dropped = t.dropped.items; voids = t.voids.items })
        t.places t.causes.items t.children t.deleters t.ends.items t.groups };
}

impl Tables {
    /// Tables of this schema with no row. It gives up where memory runs out.
    pub fn new(alloc: Global, schema: &Schema) -> Result<Tables, AllocError>
        ensures { IfOk result (λ tables. (ask : ℕ → List Cell → Bool) → IsStateOf (rules_with ask schema.now.tables) []
            tables) }
    {
        Ok(Tables {
            alloc,
            shapes: shapes_of(alloc, schema)?,
            count: 0,
            rows: Vec::new(alloc),
            places: BTreeMap::new(alloc),
            causes: Vec::new(alloc),
            dropped: Vec::new(alloc),
            children: Links::new(alloc),
            deleters: Links::new(alloc),
            voids: Vec::new(alloc),
            ends: Vec::new(alloc),
            groups: Groups::new(alloc),
        })
    }

    /// Takes the next update over with its verdict: a valid one's rows and deletions, or a void one's line. The verdict
    /// has to be the right one, on the update's ancestors among those that were applied. After an error nothing has
    /// changed.
    pub fn apply(&mut self, node: Node, verdict: Verdict) -> Result<(), AllocError>
        requires next { IsNextVerdict self.old node verdict }
        ensures { MatchResult result (λ _. self.new ≡ after self.old node verdict) (λ _. self.new ≡ self.old) }
    {
        match verdict {
            Verdict::Valid => self.keep_valid(node),
            Verdict::Void { reason, operation } => self.keep_void(VoidLine {
                id: node.id,
                reason,
                operation,
            }),
        }
    }

    /// The place of the row with this name among the rows in order of arrival.
    pub(crate) fn place(&self, name: &RowName) -> Option<usize>
        ensures { result ≡ place_of self.now.inserted name.now }
    {
        self.places.get(name).copied()
    }

    /// The place of each row among the rows in order of arrival, by its name.
    pub(crate) fn places_by_name(&self) -> &BTreeMap<RowName, usize>
        ensures placed { (name : Name) → get name_cmp result.now name ≡ place_of self.now.inserted name }
        ensures layered { are_layered (rules_of_state self.now) (done_in self.now).inserted ≡ true }
    {
        &self.places
    }

    /// The row at a place.
    pub(crate) fn row(&self, place: usize) -> &Inserted
        requires { place < length self.now.inserted }
        ensures row { slice_get self.now.inserted place ≡ Some result.now }
        ensures layered { are_layered (rules_of_state self.now) (done_in self.now).inserted ≡ true }
    {
        &self.rows[place]
    }

    /// Whether the row at a place is visible now.
    pub(crate) fn is_marked(&self, place: usize) -> bool
        requires { place < length self.now.inserted }
        ensures { (it : Row) → slice_get self.now.inserted place ≡ Some it
            → result ≡ is_visible (rules_of_state self.now) (done_in self.now) it.name }
    {
        self.causes[place] == 0
    }

    /// Whether an ancestor of the update at a position deletes the row at a place.
    pub(crate) fn is_deleted_at<A: Ancestors>(
        &self,
        alloc: Global,
        place: usize,
        ancestors: &A,
        position: u32,
    ) -> Result<bool, AllocError>
        requires { place < length self.now.inserted }
        ensures { IfOk result (λ answer. (it : Row) → slice_get self.now.inserted place ≡ Some it
            → answer ≡ is_deleted (done_then self.now (λ p. A.ancestor ancestors.now p position)) it.name) }
    {
        self.deleters
            .any_ancestor(alloc, place, ancestors, position)
    }

    /// The number of links that come of the rows before a place.
    fn links_before(&self, place: usize) -> usize
        requires { place ≤ length self.now.inserted }
        ensures { result ≡ length (parents_from (rules_of_state self.now) 0 (take place self.now.inserted)) }
    {
        if place == 0 {
            0
        } else {
            self.ends[place - 1] as usize
        }
    }

    /// The links that lead to the row at a place from the rows that it names by `CASCADE`, in the order of its columns.
    fn parents(&self, place: usize) -> &[Link]
        requires { place < length self.now.inserted }
        ensures { (it : Row) → slice_get self.now.inserted place ≡ Some it
            → pairs_of result.now ≡ deletes_at (place_of self.now.inserted)
            (map (λ r. dropped_at place r.name) (cascade_refs (rules_of_state self.now) (row_of it))) }
    {
        let to = self.ends[place] as usize;
        self.children.part(self.links_before(place), to)
    }

    /// Adds to the pending places those of the rows that the row at a place names by `CASCADE`, unless it is visible
    /// now, and takes the last one out. Where a row names one alone, which comes last, that is never added.
    pub(crate) fn climb(
        &self,
        place: usize,
        pending: &mut BTreeSet<usize>,
    ) -> Result<Option<usize>, AllocError>
        requires { place < length self.now.inserted }
        ensures each { IfOk result (λ next. (it : Row) → slice_get self.now.inserted place ≡ Some it → (test : ℕ → Bool)
            → list_all test (option_to_list next ++ pending.new.keys)
            ≡ (list_all test pending.old.keys && (is_visible (rules_of_state self.now) (done_in self.now) it.name
            || list_all (λ r. passes_place test (place_of self.now.inserted r.name))
            (cascade_refs (rules_of_state self.now) (row_of it))))) }
        ensures last { IfOk result (λ next. IfSome next (λ k. list_all (λ q. nat_lt q k) pending.new.keys ≡ true)) }
        ensures done { IfOk result (λ next. IfNone next (pending.new.keys ≡ [])) }
    {
        if self.is_marked(place) {
            return Ok(take_last(pending));
        }
        let parents = self.parents(place);
        if let [only] = parents {
            if comes_last(pending, only.place) {
                return Ok(Some(only.place));
            }
        }
        add_parents(parents, pending)?;
        Ok(take_last(pending))
    }

    /// How many rows were inserted, whether they are visible or not: their places are below this number. No update has
    /// more than 256 operations, and no more than 131,072 updates are applied.
    pub fn row_len(&self) -> usize
        ensures len { result ≡ length self.now.inserted }
        ensures few { result ≤ 256 * MAX_MEMBERS }
    {
        self.rows.as_slice().len()
    }

    /// Whether a column of some table refers to this one by `RESTRICT`.
    pub(crate) fn is_held(&self, table: u8) -> bool
        ensures { result ≡ is_held self.now.shapes table }
    {
        is_held(self.shapes.as_slice(), table)
    }

    /// Whether the row at a place names this one by `RESTRICT`.
    pub(crate) fn restricts(&self, place: usize, name: &RowName) -> bool
        requires { place < length self.now.inserted }
        ensures { (it : Row) → slice_get self.now.inserted place ≡ Some it
            → result ≡ list_any (λ r. is_restrict r.action && same_row r.name name.now)
            (refs (rules_of_state self.now) (row_of it)) }
    {
        let entry = &self.rows[place].entry;
        match self.shapes.get(usize::from(entry.table)) {
            Some(shape) => restricts(shape.columns.as_slice(), entry.values.as_slice(), name),
            None => false,
        }
    }

    /// Whether the row at a place is of this table.
    pub(crate) fn is_in(&self, place: usize, table: u8) -> bool
        requires { place < length self.now.inserted }
        ensures { (it : Row) → slice_get self.now.inserted place ≡ Some it → result ≡ in_table table (row_of it) }
    {
        self.rows[place].entry.table == table
    }

    /// Whether the row at a place is of this table and has this value in this column.
    pub(crate) fn equals_at(&self, place: usize, table: u8, column: u8, value: &Value) -> bool
        requires { place < length self.now.inserted }
        ensures { (it : Row) → slice_get self.now.inserted place ≡ Some it
            → result ≡ (in_table table (row_of it) && compares Eq (value_at it.entry.values column) value.now) }
    {
        self.is_in(place, table)
            && equals_column(self.rows[place].entry.values.as_slice(), column, value)
    }

    /// Keeps what a valid update does.
    fn keep_valid(&mut self, node: Node) -> Result<(), AllocError>
        requires next { IsNextVerdict self.old node Valid }
        ensures { MatchResult result (λ _. self.new ≡ after self.old node Valid) (λ _. self.new ≡ self.old) }
    {
        // the type of a node's operations says that they are few, once they are read
        let _ops = &node.ops;
        let mut dropped = dropped_by(self.alloc, self.count, &node)?;
        let mut inserted = inserted_by(self.alloc, self.count, node)?;
        self.keep_changes(&mut inserted, &mut dropped)
    }

    /// Takes over the rows that a valid update inserts, and the names that it deletes.
    fn keep_changes(
        &mut self,
        inserted: &mut Vec<Inserted>,
        dropped: &mut Vec<Dropped>,
    ) -> Result<(), AllocError>
        requires next { AreNextChanges self.old inserted.old.items dropped.old.items }
        ensures { MatchResult result (λ _. self.new ≡ record self.old {
          count = self.old.count + 1;
          inserted = self.old.inserted ++ inserted.old.items;
          dropped = self.old.dropped ++ dropped.old.items;
        })
            (λ _. self.new ≡ self.old) }
    {
        let first = self.rows.len();
        let shapes = self.shapes.as_slice();
        let len = self.children.len();
        let mut parents = parents_of(self.alloc, shapes, inserted.as_slice(), first, len)?;
        let mut pending = room_for(self.alloc, dropped.len(), first + inserted.len())?;
        self.take_over(inserted, dropped, &mut parents, &mut pending)
    }

    /// Takes these rows and names over, with what the rows name by `CASCADE` and room for the places of rows that the
    /// names make absent. Memory is taken before anything changes.
    fn take_over(
        &mut self,
        inserted: &mut Vec<Inserted>,
        dropped: &mut Vec<Dropped>,
        parents: &mut Parents,
        pending: &mut Vec<usize>,
    ) -> Result<(), AllocError>
        requires next { AreWithParents self.old inserted.old.items dropped.old.items parents.old.names.items
            parents.old.ends.items }
        requires idle { pending.old.items ≡ [] }
        requires room { (dropped.old.items ≡ []) ⊎ (length self.old.inserted + length inserted.old.items
            ≤ vec_capacity pending.old) }
        ensures { MatchResult result (λ _. self.new ≡ record self.old {
          count = self.old.count + 1;
          inserted = self.old.inserted ++ inserted.old.items;
          dropped = self.old.dropped ++ dropped.old.items;
        })
            (λ _. self.new ≡ self.old) }
    {
        let first = self.rows.len();
        let more = inserted.len();
        reserve_rows(&mut self.rows, &mut self.causes, &mut self.ends, more)?;
        self.dropped.reserve(dropped.len())?;
        let shapes = self.shapes.as_slice();
        let old = self.rows.as_slice();
        let news = inserted.as_slice();
        let alloc = self.alloc;
        enter(alloc, &mut self.places, &mut self.groups, shapes, old, news)?;
        match grow_links(
            alloc,
            &mut self.children,
            &mut self.deleters,
            &self.places,
            first,
            more,
            parents.names.as_slice(),
            dropped.as_slice(),
        ) {
            Ok(added) => {
                self.causes.resize(first + more, 0).unwrap();
                let causes = self.causes.as_mut_slice();
                add_causes(causes, pending, &self.children, &added);
            }
            Err(error) => {
                remove_places(&mut self.places, old, news);
                self.groups.cut(first);
                return Err(error);
            }
        }
        self.rows.append(inserted).unwrap();
        self.dropped.append(dropped).unwrap();
        self.ends.append(&mut parents.ends).unwrap();
        self.count += 1;
        let grounds = Grounds::new(&self.rows, &self.children, &self.ends, shapes);
        let causes = self.causes.as_mut_slice();
        recount(causes, &mut self.groups, &self.deleters, &grounds);
        Ok(())
    }

    /// Takes the updates back that were applied after the first so many. It takes no memory, and goes over all rows.
    pub fn cut(&mut self, len: u32)
        requires { IsCut self.old len }
        ensures { (rules : Rules) (newer older : List NodeData) → IsStateOf rules (newer ++ older) self.old
            → length older ≡ len → IsStateOf rules older self.new }
    {
        let rows = rows_before(self.rows.as_slice(), len);
        let names = names_before(self.dropped.as_slice(), len);
        let voids = voids_before(self.voids.as_slice(), len);
        remove_places(
            &mut self.places,
            &self.rows.as_slice()[..rows],
            &self.rows.as_slice()[rows..],
        );
        let parents = numbers_before(self.children.links(), rows);
        self.deleters.cut(rows, names);
        self.children.cut(rows, parents);
        self.rows.truncate(rows);
        self.dropped.truncate(names);
        self.voids.truncate(voids);
        self.causes.truncate(rows);
        self.ends.truncate(rows);
        self.groups.cut(rows);
        self.count = len;
        let causes = self.causes.as_mut_slice();
        clear(causes);
        count_places(causes, self.deleters.links());
        count_numbers(causes, self.children.links());
        let shapes = self.shapes.as_slice();
        let grounds = Grounds::new(&self.rows, &self.children, &self.ends, shapes);
        recount(causes, &mut self.groups, &self.deleters, &grounds);
    }

    /// Keeps the line of a void update.
    fn keep_void(&mut self, line: VoidLine) -> Result<(), AllocError>
        requires few { self.old.count < MAX_MEMBERS }
        requires held { IsHeld (record self.old {
          count = self.old.count + 1;
          voids = self.old.voids ++ voided_at self.old.count line ∷ [];
        }) }
        ensures { MatchResult result (λ _. self.new ≡ record self.old {
          count = self.old.count + 1;
          voids = self.old.voids ++ voided_at self.old.count line ∷ [];
        }) (λ _. self.new ≡ self.old) }
    {
        self.voids.push(Voided {
            position: self.count,
            line,
        })?;
        self.count += 1;
        Ok(())
    }

    /// Whether a table keeps the least row of each value of a column.
    pub(crate) fn keeps(&self) -> bool
        ensures { result ≡ keep_any self.now.shapes }
    {
        keep_any(self.shapes.as_slice())
    }

    /// Of each row a number that is 0 where it is visible after the ancestors of the update at a position. It goes over
    /// all rows.
    pub(crate) fn causes_then<A: Ancestors>(
        &self,
        alloc: Global,
        ancestors: &A,
        position: u32,
    ) -> Result<Vec<u32>, AllocError>
        requires layered { are_layered (rules_of_state self.now)
            (done_then self.now (λ p. A.ancestor ancestors.now p position)).inserted ≡ true }
        requires grounded { are_grounded (rules_of_state self.now)
            (done_then self.now (λ p. A.ancestor ancestors.now p position)).inserted ≡ true }
        requires keeps { keep_any self.now.shapes ≡ true }
        ensures { IfOk result (λ causes. AreCausesThen (A.ancestor ancestors.now) self.now position causes.items) }
    {
        let mut causes = own_causes(alloc, self, ancestors, position)?;
        let mut least = Vec::new(alloc);
        least.resize(self.row_len(), None)?;
        let mut nexts = Vec::new(alloc);
        nexts.resize(self.row_len(), 0)?;
        let shapes = self.shapes.as_slice();
        spread_causes(
            causes.as_mut_slice(),
            least.as_mut_slice(),
            nexts.as_mut_slice(),
            self.groups.numbers.as_slice(),
            &Grounds::new(&self.rows, &self.children, &self.ends, shapes),
        );
        Ok(causes)
    }

    /// What is known of the rows after the ancestors of the update at a position. It goes over all rows.
    pub(crate) fn known_then<A: Ancestors>(
        &self,
        alloc: Global,
        ancestors: &A,
        position: u32,
    ) -> Result<Known, AllocError>
        requires layered { are_layered (rules_of_state self.now)
            (done_then self.now (λ p. A.ancestor ancestors.now p position)).inserted ≡ true }
        requires grounded { are_grounded (rules_of_state self.now)
            (done_then self.now (λ p. A.ancestor ancestors.now p position)).inserted ≡ true }
        requires keeps { keep_any self.now.shapes ≡ true }
        ensures { IfOk result (λ known. IsKnownThen (A.ancestor ancestors.now) self.now position known) }
    {
        let causes = self.causes_then(alloc, ancestors, position)?;
        let shown = count_shown(alloc, causes.as_slice(), self.groups.numbers.as_slice())?;
        Ok(Known { causes, shown })
    }

    /// Whether the table keeps the least row of each value of this column.
    pub(crate) fn keeps_in(&self, table: u8, column: u8) -> bool
        ensures { result ≡ true → kept_of (rules_of_state self.now) table ≡ Some column }
    {
        match kept_in(self.shapes.as_slice(), table) {
            Some(kept) => kept == column,
            None => false,
        }
    }

    /// The place of the first row of a table that has this value in the column of which the table keeps the least row of
    /// each. It takes logarithmic time.
    pub(crate) fn first_with(
        &self,
        alloc: Global,
        table: u8,
        value: &Value,
    ) -> Result<Option<usize>, AllocError>
        ensures { IfOk result (λ first. (column : ℕ) → kept_of (rules_of_state self.now) table ≡ Some column
            → first ≡ position_from (has_at table column value.now) 0 self.now.inserted) }
    {
        self.groups.values.find(alloc, table, value)
    }

    /// Whether an ancestor of the update at a position inserted the row at a place, and none deletes it.
    pub(crate) fn is_left<A: Ancestors>(
        &self,
        alloc: Global,
        place: usize,
        ancestors: &A,
        position: u32,
    ) -> Result<bool, AllocError>
        requires { place < length self.now.inserted }
        ensures { IfOk result (λ left. (it : Row) → slice_get self.now.inserted place ≡ Some it
            → left ≡ (A.ancestor ancestors.now it.position position && not
            (is_deleted (done_then self.now (λ p. A.ancestor ancestors.now p position)) it.name))) }
    {
        if !ancestors.is_ancestor(alloc, self.rows[place].position, position)? {
            return Ok(false);
        }
        Ok(!self.is_deleted_at(alloc, place, ancestors, position)?)
    }

    /// How many updates were applied.
    pub fn len(&self) -> u32
        ensures { result ≡ self.now.count }
    {
        self.count
    }

    /// Whether a row with this name is visible. It takes no memory, and logarithmic time.
    pub fn visible(&self, row: &RowName) -> bool
        ensures { (rules : Rules) (nodes : List NodeData) → IsStateOf rules nodes self.now
            → result ≡ is_visible rules (effects_in rules nodes) row.now }
    {
        self.is_shown(row)
    }

    /// Whether a valid update inserted a row with this name, which may be hidden. It takes no memory, and logarithmic
    /// time.
    pub fn has_inserted(&self, row: &RowName) -> bool
        ensures { result ≡ is_named (done_in self.now).inserted row.now }
    {
        self.place(row).is_some()
    }

    /// The number of causes for which a row is absent that a valid update inserted: of the valid updates that delete
    /// it, and of its `CASCADE` columns that name a row which is not visible, and 1 where its table keeps the least row
    /// of each value and a lesser candidate has its value. It takes no memory, and logarithmic time.
    pub fn causes(&self, row: &RowName) -> &u32
        requires { is_named (done_in self.now).inserted row.now ≡ true }
        ensures { (rules : Rules) (nodes : List NodeData) → IsStateOf rules nodes self.now → (it : TableRow)
            → Contains (effects_in rules nodes).inserted it → it.name ≡ row.now
            → result.now ≡ causes_of rules nodes it }
    {
        match self.places.get(row) {
            Some(place) => &self.causes[*place],
            None => &0,
        }
    }

    /// The same answer, told of what the tables hold.
    pub(crate) fn is_shown(&self, row: &RowName) -> bool
        ensures { result ≡ is_visible (rules_of_state self.now) (done_in self.now) row.now }
    {
        match self.places.get(row) {
            Some(place) => self.causes[*place] == 0,
            None => false,
        }
    }

    /// The columns of the table with this number. A table that is not there has none.
    pub(crate) fn columns(&self, table: u8) -> &[Column]
        ensures { result.now ≡ columns_at self.now.shapes table }
    {
        match self.shapes.get(usize::from(table)) {
            Some(shape) => shape.columns.as_slice(),
            None => &[],
        }
    }

    /// The visible rows of the table with this number, in rising order of names. A number that no table has gives no
    /// row.
    pub fn rows(&self, alloc: Global, table: u8) -> Result<ShownRowList, AllocError>
        ensures { IfOk result (λ rows. (rules : Rules) (nodes : List NodeData) → IsStateOf rules nodes self.now
            → AreRowsIn rules nodes table rows) }
    {
        let lines = listed_rows(alloc, self, table)?;
        Ok(ShownRowList::from_vec(lines))
    }

    /// The updates that do nothing, in rising order of ids, each with its reason.
    pub fn voids(&self, alloc: Global) -> Result<VoidList, AllocError>
        ensures { IfOk result (λ lines. (rules : Rules) (nodes : List NodeData) → IsStateOf rules nodes self.now
            → AreVoidsIn rules nodes lines) }
    {
        let lines = lines_of(alloc, self.voids.as_slice())?;
        Ok(VoidList::from_vec(sort_lines(lines)))
    }

    /// Equal tables on memory of their own.
    pub fn copy(&self, alloc: Global) -> Result<Tables, AllocError>
        ensures { IfOk result (λ tables. tables ≡ self.now) }
    {
        let shapes = copy_shapes(alloc, self.shapes.as_slice())?;
        let rows = copy_rows(alloc, self.rows.as_slice())?;
        let mut places = BTreeMap::new(alloc);
        let mut groups = Groups::new(alloc);
        let forms = shapes.as_slice();
        enter(alloc, &mut places, &mut groups, forms, &[], rows.as_slice())?;
        Ok(Tables {
            alloc,
            shapes,
            count: self.count,
            rows,
            places,
            causes: Vec::from_slice(alloc, self.causes.as_slice())?,
            dropped: Vec::from_slice(alloc, self.dropped.as_slice())?,
            children: self.children.copy(alloc)?,
            deleters: self.deleters.copy(alloc)?,
            voids: Vec::from_slice(alloc, self.voids.as_slice())?,
            ends: Vec::from_slice(alloc, self.ends.as_slice())?,
            groups,
        })
    }

    /// The rows that are visible after the ancestors of the update at this position, where the first positions are
    /// those of the updates that were applied. Where a table keeps the least row of each value it goes over all rows,
    /// and takes memory for them, once for all that is asked of what it gives. Else it takes none.
    pub fn at<'a, A: Ancestors>(
        &'a self,
        alloc: Global,
        ancestors: &'a A,
        position: u32,
    ) -> Result<At<'a, A>, AllocError>
        requires past { StandsAt self.now (λ p. A.ancestor ancestors.now p position) }
        ensures answers { IfOk result (λ at. (rules : Rules) (nodes : List NodeData) (node : NodeData)
            → IsStateOf rules nodes self.now → IsPastOf rules nodes node (λ p. A.ancestor ancestors.now p position)
            → AreAnswers rules (effects_before rules nodes node) (⟦<At<'a, A> as RowsAt>⟧.row at) (⟦<At<'a, A> as RowsAt>⟧.has_child at)
            (⟦<At<'a, A> as RowsAt>⟧.equal_count at) (⟦<At<'a, A> as RowsAt>⟧.count at)) }
    {
        At::new(alloc, self, ancestors, position)
    }
}

/// Takes memory for so many more rows, with the counts of their causes and the ends of their links.
fn reserve_rows(
    rows: &mut Vec<Inserted>,
    causes: &mut Vec<u32>,
    ends: &mut Vec<u32>,
    more: usize,
) -> Result<(), AllocError>
    ensures rows { rows.new.items ≡ rows.old.items }
    ensures causes { causes.new.items ≡ causes.old.items }
    ensures ends { ends.new.items ≡ ends.old.items }
    ensures row_room { OnOk result (length rows.old.items + more ≤ vec_capacity rows.new) }
    ensures cause_room { OnOk result (length causes.old.items + more ≤ vec_capacity causes.new) }
    ensures end_room { OnOk result (length ends.old.items + more ≤ vec_capacity ends.new) }
{
    rows.reserve(more)?;
    causes.reserve(more)?;
    ends.reserve(more)
}

/// Whether the value in a column, where there is one, equals this value.
fn equals_column(values: &[Value], column: u8, value: &Value) -> bool
    ensures { result ≡ compares Eq (value_at values.now column) value.now }
{
    match values.get(usize::from(column)) {
        Some(found) => compare(Cmp::Eq, found, value),
        None => false,
    }
}
