//! How many causes each row has to be absent, counted anew: table by table, since a row rests on rows of earlier
//! tables, and on earlier rows of its own table where that keeps no least row. A thread leads from each row of a table
//! to the next one, so that a table costs what it has of rows and links, and all of them together cost each row and
//! each link once.

ghost use Rattle.std.specs.Prelude.{◌≡◌, ◌+◌, ◌<◌, ◌≤◌, ◌==◌, ◌^◌, ◌&&◌, ℕ, false, true, not, IfOk, IfSome, None, Some};
ghost use Rattle.std.specs.Prelude.{count_by, length, slice_get, slice_index_or, if◌then◌else◌};
ghost use Rattle.std.specs.Ordering.{is_lt};
ghost use Rattle.update_model.specs.Entry.{id_cmp};
ghost use Rattle.table_model.specs.Counts.{one_where};
ghost use Rattle.table_model.specs.Visible.{is_deleted, name_cmp};
ghost use Rattle.tuple_state.specs.Causes.{AreParted, AreRising, absent_times, is_absent, times_in};
ghost use Rattle.tuple_state.specs.Grouped.{AreGroupsOf};
ghost use Rattle.tuple_state.specs.Least.{AreGrouped, AreLeast, AreLevel, AreSettled, is_behind, is_first, is_in};
ghost use Rattle.tuple_state.specs.Least.{is_lesser};
ghost use Rattle.tuple_state.specs.Links.{are_inside, is_of};
ghost use Rattle.tuple_state.specs.Past.{done_then};
ghost use Rattle.tuple_state.specs.State.{keep_any};
ghost use Rattle.tuple_state.specs.Threads.{AreThreads, IsThread};
ghost use Rattle.tuple_state.specs.declared.inserted.Inserted.{Inserted as Row};

use crate::causes::{clear, count_places};
use crate::grounds::Grounds;
use crate::groups::Groups;
use crate::links::{Link, Links};
use crate::shapes::keep_any;
use crate::threads::{Members, TABLES, members_of, thread};
use crate::{Inserted, Tables};
use std::alloc::{AllocError, Global};
use std::cmp::Ordering;
use update_model::{Ancestors, RowName, UpdateId};

/// Counts the causes of rows anew, where one of these tables keeps the least row of each value: by what deletes them,
/// and by other rows. It takes no memory.
pub(crate) fn recount(causes: &mut [u32], groups: &mut Groups, deleters: &Links, grounds: &Grounds)
    requires each { length causes.old ≡ length grounds.now.rows.now }
    requires rising { AreRising 0 (length grounds.now.rows.now) grounds.now.children.now }
    requires level { AreLevel grounds.now.shapes.now grounds.now.rows.now grounds.now.children.now }
    requires ends { length grounds.now.ends.now ≡ length grounds.now.rows.now }
    requires parted { AreParted grounds.now.children.now grounds.now.ends.now }
    requires inside { are_inside (length grounds.now.rows.now) deleters.now.links ≡ true }
    requires few { length grounds.now.children.now ≤ 536870912 }
    requires few_deleters { length deleters.now.links ≤ 536870912 }
    requires groups { AreGroupsOf grounds.now.shapes.now grounds.now.rows.now groups.old }
    ensures plain { keep_any grounds.now.shapes.now ≡ false → causes.new ≡ causes.old }
    ensures counted { keep_any grounds.now.shapes.now ≡ true → AreSettled grounds.now.shapes.now grounds.now.rows.now
        grounds.now.children.now (λ k. count_by (is_of k) deleters.now.links) causes.new }
    ensures values { groups.new.values ≡ groups.old.values }
    ensures numbers { groups.new.numbers.items ≡ groups.old.numbers.items }
    ensures least { length groups.new.least.items ≡ length groups.old.least.items }
    ensures nexts { length groups.new.nexts.items ≡ length groups.old.nexts.items }
{
    if !keep_any(grounds.shapes) {
        return;
    }
    clear(causes);
    count_places(causes, deleters.links());
    spread_causes(
        causes,
        groups.least.as_mut_slice(),
        groups.nexts.as_mut_slice(),
        groups.numbers.as_slice(),
        grounds,
    );
}

/// Of each row 0 where an ancestor of the update at a position inserted it and none deletes it, and else 1.
pub(crate) fn own_causes<A: Ancestors>(
    alloc: Global,
    tables: &Tables,
    ancestors: &A,
    position: u32,
) -> Result<Vec<u32>, AllocError>
    ensures own { IfOk result (λ causes. (k : ℕ) (it : Row) → slice_get tables.now.inserted k ≡ Some it
        → (slice_index_or causes.items k 0 == 0) ≡ (A.ancestor ancestors.now it.position position && not
        (is_deleted (done_then tables.now (λ p. A.ancestor ancestors.now p position)) it.name))) }
    ensures few { IfOk result (λ causes. (k : ℕ) → slice_index_or causes.items k 0 ≤ 1) }
    ensures each { IfOk result (λ causes. length causes.items ≡ length tables.now.inserted) }
{
    let mut causes = Vec::with_capacity(alloc, tables.row_len())?;
    for place in 0..tables.row_len() {
        let left = tables.is_left(alloc, place, ancestors, position)?;
        causes.push_reserved(count_of(left));
    }
    Ok(causes)
}

/// The number of causes that a row has of its own: none where it is left, and else one.
fn count_of(left: bool) -> u32
    ensures zero { (result == 0) ≡ left }
    ensures few { result ≤ 1 }
{
    if left { 0 } else { 1 }
}

/// Adds to counts, which are those of each row's own causes, what comes of other rows.
pub(crate) fn spread_causes(
    causes: &mut [u32],
    least: &mut [Option<usize>],
    nexts: &mut [usize],
    groups: &[usize],
    grounds: &Grounds,
)
    requires each { length causes.old ≡ length grounds.now.rows.now }
    requires room { length least.old ≡ length grounds.now.rows.now }
    requires way { length nexts.old ≡ length grounds.now.rows.now }
    requires all { length groups.now ≡ length grounds.now.rows.now }
    requires rising { AreRising 0 (length grounds.now.rows.now) grounds.now.children.now }
    requires level { AreLevel grounds.now.shapes.now grounds.now.rows.now grounds.now.children.now }
    requires ends { length grounds.now.ends.now ≡ length grounds.now.rows.now }
    requires parted { AreParted grounds.now.children.now grounds.now.ends.now }
    requires grouped { AreGrouped grounds.now.shapes.now grounds.now.rows.now groups.now }
    requires few { (k : ℕ) → slice_index_or causes.old k 0 + times_in grounds.now.children.now k + times_in
        grounds.now.children.now k + 2 < 2 ^ 32 }
    ensures { AreSettled grounds.now.shapes.now grounds.now.rows.now grounds.now.children.now
        (λ k. slice_index_or causes.old k 0) causes.new }
{
    let mut firsts = [grounds.rows.len(); TABLES];
    thread(&mut firsts, nexts, grounds.rows);
    settle_tables(causes, least, &firsts, nexts, groups, grounds);
}

/// The same, where threads lead through the rows of each table.
fn settle_tables(
    causes: &mut [u32],
    least: &mut [Option<usize>],
    firsts: &[usize; TABLES],
    nexts: &[usize],
    groups: &[usize],
    grounds: &Grounds,
)
    requires each { length causes.old ≡ length grounds.now.rows.now }
    requires room { length least.old ≡ length grounds.now.rows.now }
    requires way { length nexts.now ≡ length grounds.now.rows.now }
    requires threaded { AreThreads grounds.now.rows.now firsts.now nexts.now 0 }
    requires all { length groups.now ≡ length grounds.now.rows.now }
    requires rising { AreRising 0 (length grounds.now.rows.now) grounds.now.children.now }
    requires level { AreLevel grounds.now.shapes.now grounds.now.rows.now grounds.now.children.now }
    requires ends { length grounds.now.ends.now ≡ length grounds.now.rows.now }
    requires parted { AreParted grounds.now.children.now grounds.now.ends.now }
    requires grouped { AreGrouped grounds.now.shapes.now grounds.now.rows.now groups.now }
    requires few { (k : ℕ) → slice_index_or causes.old k 0 + times_in grounds.now.children.now k + times_in
        grounds.now.children.now k + 2 < 2 ^ 32 }
    ensures { AreSettled grounds.now.shapes.now grounds.now.rows.now grounds.now.children.now
        (λ k. slice_index_or causes.old k 0) causes.new }
{
    for table in 0..grounds.shapes.len() {
        let members = members_of(grounds.rows, firsts, nexts, table);
        count_in(causes, grounds, &members);
        let keeps = grounds.shapes[table].kept.is_some();
        count_passed(causes, least, groups, &members, keeps);
    }
}

/// Adds one to the count of each row of a table before which another one goes, where the table keeps the least row.
fn count_passed(
    causes: &mut [u32],
    least: &mut [Option<usize>],
    groups: &[usize],
    members: &Members,
    keeps: bool,
)
    requires each { length causes.old ≡ length members.now.rows.now }
    requires room { length least.old ≡ length members.now.rows.now }
    requires way { length members.now.nexts.now ≡ length members.now.rows.now }
    requires threaded { IsThread members.now.rows.now members.now.nexts.now members.now.table 0 members.now.first }
    requires all { length groups.now ≡ length members.now.rows.now }
    requires inside { (k : ℕ) → k < length groups.now → slice_index_or groups.now k 0 ≤ k }
    requires few { (k : ℕ) → slice_index_or causes.old k 0 + 1 < 2 ^ 32 }
    ensures least { keeps ≡ true → AreLeast members.now.rows.now causes.old groups.now members.now.table
        (length members.now.rows.now) least.new }
    ensures behind { keeps ≡ true → (k : ℕ) → slice_index_or causes.new k 0 ≡ slice_index_or causes.old k 0 + one_where
        (is_behind members.now.rows.now groups.now least.new members.now.table k (slice_get members.now.rows.now k)) }
    ensures plain { keeps ≡ false → causes.new ≡ causes.old }
{
    if keeps {
        empty_groups(least, groups, members);
        find_least(least, causes, groups, members);
        count_behind(causes, least, groups, members);
    }
}

/// Adds one to the count of each row of a table for each link that comes of it, where the link's place is absent.
fn count_in(causes: &mut [u32], grounds: &Grounds, members: &Members)
    requires rows { members.now.rows.now ≡ grounds.now.rows.now }
    requires each { length causes.old ≡ length grounds.now.rows.now }
    requires way { length members.now.nexts.now ≡ length grounds.now.rows.now }
    requires threaded { IsThread grounds.now.rows.now members.now.nexts.now members.now.table 0 members.now.first }
    requires rising { AreRising 0 (length grounds.now.rows.now) grounds.now.children.now }
    requires ends { length grounds.now.ends.now ≡ length grounds.now.rows.now }
    requires parted { AreParted grounds.now.children.now grounds.now.ends.now }
    requires few { (k : ℕ) → slice_index_or causes.old k 0 + times_in grounds.now.children.now k < 2 ^ 32 }
    ensures { (k : ℕ) → slice_index_or causes.new k 0 ≡ slice_index_or causes.old k
        0 + (if is_in members.now.table (slice_get grounds.now.rows.now k) then absent_times grounds.now.children.now
        causes.new k else 0) }
{
    let mut place = members.first;
    while place < grounds.rows.len() {
        let absent = absent_among(causes, grounds.parents(place));
        causes[place] += absent;
        place = members.nexts[place];
    }
}

/// How many of these links are of an absent place.
fn absent_among(causes: &[u32], links: &[Link]) -> u32
    requires inside { are_inside (length causes.now) links.now ≡ true }
    requires few { length links.now < 2 ^ 32 }
    ensures { result ≡ count_by (λ link. is_absent causes.now link.place) links.now }
{
    let mut count = 0;
    for link in links {
        if causes[link.place] != 0 {
            count += 1;
        }
    }
    count
}

/// Leaves nothing for the group of each row of a table.
fn empty_groups(least: &mut [Option<usize>], groups: &[usize], members: &Members)
    requires room { length least.old ≡ length members.now.rows.now }
    requires way { length members.now.nexts.now ≡ length members.now.rows.now }
    requires threaded { IsThread members.now.rows.now members.now.nexts.now members.now.table 0 members.now.first }
    requires all { length groups.now ≡ length members.now.rows.now }
    requires inside { (k : ℕ) → k < length groups.now → slice_index_or groups.now k 0 ≤ k }
    ensures { (k : ℕ) → is_in members.now.table (slice_get members.now.rows.now k) ≡ true
        → slice_index_or least.new (slice_index_or groups.now k 0) None ≡ None }
{
    let mut place = members.first;
    while place < members.rows.len() {
        least[groups[place]] = None;
        place = members.nexts[place];
    }
}

/// Finds of each group of a table's rows the least one whose count is 0, where none is known before.
fn find_least(least: &mut [Option<usize>], causes: &[u32], groups: &[usize], members: &Members)
    requires each { length causes.now ≡ length members.now.rows.now }
    requires room { length least.old ≡ length members.now.rows.now }
    requires way { length members.now.nexts.now ≡ length members.now.rows.now }
    requires threaded { IsThread members.now.rows.now members.now.nexts.now members.now.table 0 members.now.first }
    requires all { length groups.now ≡ length members.now.rows.now }
    requires inside { (k : ℕ) → k < length groups.now → slice_index_or groups.now k 0 ≤ k }
    requires none { (k : ℕ) → is_in members.now.table (slice_get members.now.rows.now k) ≡ true
        → slice_index_or least.old (slice_index_or groups.now k 0) None ≡ None }
    ensures { AreLeast members.now.rows.now causes.now groups.now members.now.table (length members.now.rows.now)
        least.new }
{
    let mut place = members.first;
    while place < members.rows.len() {
        if is_better(causes, members.rows, place, least[groups[place]]) {
            least[groups[place]] = Some(place);
        }
        place = members.nexts[place];
    }
}

/// Whether the count of the row at a place is 0, and its name is less than that of the row at another place, if there
/// is one.
fn is_better(causes: &[u32], rows: &[Inserted], place: usize, found: Option<usize>) -> bool
    requires inside { place < length rows.now }
    requires each { length causes.now ≡ length rows.now }
    requires there { IfSome found (λ other. other < length rows.now) }
    ensures { (it : Row) → slice_get rows.now place ≡ Some it
        → result ≡ ((slice_index_or causes.now place 0 == 0) && is_first rows.now it found) }
{
    causes[place] == 0 && is_first(rows, place, found)
}

/// Whether the row at a place has a lesser name than the one at another place, if there is one.
fn is_first(rows: &[Inserted], place: usize, found: Option<usize>) -> bool
    requires inside { place < length rows.now }
    requires there { IfSome found (λ k. k < length rows.now) }
    ensures { (it : Row) → slice_get rows.now place ≡ Some it → result ≡ is_first rows.now it found }
{
    match found {
        Some(other) => is_less(&rows[place].name, &rows[other].name),
        None => true,
    }
}

/// Adds one to the count of each row of a table that has a greater name than the least one of its group.
fn count_behind(causes: &mut [u32], least: &[Option<usize>], groups: &[usize], members: &Members)
    requires each { length causes.old ≡ length members.now.rows.now }
    requires room { length least.now ≡ length members.now.rows.now }
    requires way { length members.now.nexts.now ≡ length members.now.rows.now }
    requires threaded { IsThread members.now.rows.now members.now.nexts.now members.now.table 0 members.now.first }
    requires all { length groups.now ≡ length members.now.rows.now }
    requires inside { (k : ℕ) → k < length groups.now → slice_index_or groups.now k 0 ≤ k }
    requires there { (k : ℕ) → is_in members.now.table (slice_get members.now.rows.now k) ≡ true
        → IfSome (slice_index_or least.now (slice_index_or groups.now k 0) None) (λ place.
        place < length members.now.rows.now) }
    requires few { (k : ℕ) → slice_index_or causes.old k 0 + 1 < 2 ^ 32 }
    ensures { (k : ℕ) → slice_index_or causes.new k 0 ≡ slice_index_or causes.old k 0 + one_where
        (is_behind members.now.rows.now groups.now least.now members.now.table k (slice_get members.now.rows.now k)) }
{
    let mut place = members.first;
    while place < members.rows.len() {
        if is_lesser(members.rows, least[groups[place]], place) {
            causes[place] += 1;
        }
        place = members.nexts[place];
    }
}

/// Whether the row at one place, if there is one, has a lesser name than the one at another.
fn is_lesser(rows: &[Inserted], found: Option<usize>, place: usize) -> bool
    requires inside { place < length rows.now }
    requires there { IfSome found (λ k. k < length rows.now) }
    ensures { (it : Row) → slice_get rows.now place ≡ Some it → result ≡ is_lesser rows.now it found }
{
    match found {
        Some(other) => is_less(&rows[other].name, &rows[place].name),
        None => false,
    }
}

/// Whether a name is less than another.
fn is_less(a: &RowName, b: &RowName) -> bool
    ensures { result ≡ is_lt (name_cmp a.now b.now) }
{
    id_cmp(&a.update, &b.update)
        .then(a.index.cmp(&b.index))
        .is_lt()
}

/// The order of two ids.
fn id_cmp(a: &UpdateId, b: &UpdateId) -> Ordering
    ensures { result ≡ id_cmp a.now b.now }
{
    a.cmp(b)
}
