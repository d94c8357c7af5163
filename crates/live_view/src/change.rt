//! What went and what came between two answers.

ghost use Rattle.std.specs.Prelude.{◌≡◌, ◌↔◌, ◌⊎◌, ◌++◌, ◌∷◌, [], IsTrue, IfOk, OnOk, false};
ghost use Rattle.live_view.specs.Named.{RiseByName, name_in, named_cmp};
ghost use Rattle.live_view.specs.Changes.{AreMissing, IsChange};
ghost use Rattle.live_view.specs.Cursors.{BeginsAt, BeginsBefore, Passes, begins_with};

use crate::line_list::LineList;
use crate::naming::name_cmp;
use std::alloc::{AllocError, Global};
use std::cmp::Ordering;
use update_model::{RowName, UpdateId, Value, ValueList};

/// What a view's answer lost and got. Both rise by the names of rows. Of a row whose values changed the old line went
/// and the new one came.
#[derive(Drop)]
pub struct Change {
    /// The lines that are not in the new answer.
    pub went: LineList,
    /// The lines that were not in the old one.
    pub came: LineList,
}

impl Change {
    /// Whether nothing went and nothing came.
    pub fn is_empty(&self) -> bool
        ensures { IsTrue result ↔ ((self.now.went ≡ []) × (self.now.came ≡ [])) }
    {
        self.went.is_empty() && self.came.is_empty()
    }
}

/// What went and what came from one answer to another. Each is gone through twice. It gives up where memory runs out.
pub(crate) fn change_between(
    alloc: Global,
    before: &[ValueList],
    after: &[ValueList],
) -> Result<Change, AllocError>
    requires before { RiseByName before.now }
    requires after { RiseByName after.now }
    ensures { IfOk result (λ change. IsChange before.now after.now change) }
{
    let went = not_among(alloc, before, after)?;
    let came = not_among(alloc, after, before)?;
    Ok(Change { went, came })
}

/// Copies of those lines that are not among others, in order.
fn not_among(
    alloc: Global,
    lines: &[ValueList],
    others: &[ValueList],
) -> Result<LineList, AllocError>
    requires lines { RiseByName lines.now }
    requires others { RiseByName others.now }
    ensures { IfOk result (λ left. AreMissing others.now lines.now left) }
{
    let mut left = Vec::new(alloc);
    let mut rest = others;
    for line in lines {
        rest = behind(rest, line);
        add_missing(alloc, &mut left, rest, line)?;
    }
    Ok(LineList::from_vec(left))
}

/// Adds a copy of a line that does not stand first.
fn add_missing(
    alloc: Global,
    left: &mut Vec<ValueList>,
    rest: &[ValueList],
    line: &ValueList,
) -> Result<(), AllocError>
    ensures { OnOk result ((begins_with rest.now line.now × (left.new.items ≡ left.old.items))
        ⊎ ((begins_with rest.now line.now → ⊥) × (left.new.items ≡ left.old.items ++ line.now ∷ []))) }
{
    if !begins_with(rest, line) {
        left.push(line.copy(alloc)?)?;
    }
    Ok(())
}

/// What is left behind the lines that come before this one.
fn behind<'a>(lines: &'a [ValueList], line: &ValueList) -> &'a [ValueList]
    ensures { Passes lines.now line.now result.now }
{
    let mut rest = lines;
    while begins_before(rest, line) {
        rest = &rest[1..];
    }
    rest
}

/// Whether the first of these lines comes before this one.
fn begins_before(lines: &[ValueList], line: &ValueList) -> bool
    ensures yes { IsTrue result → BeginsBefore lines.now line.now }
    ensures no { result ≡ false → BeginsAt lines.now line.now }
{
    match lines {
        [] => false,
        [first, ..] => comes_before(first, line),
    }
}

/// Whether the first of these lines is this one.
fn begins_with(lines: &[ValueList], line: &ValueList) -> bool
    ensures { IsTrue result ↔ begins_with lines.now line.now }
{
    match lines {
        [] => false,
        [first, ..] => is_same(first.as_slice(), line.as_slice()),
    }
}

/// Whether one line is of a lesser row than another.
fn comes_before(line: &ValueList, other: &ValueList) -> bool
    ensures { IsTrue result ↔ (named_cmp line.now other.now ≡ Ordering.Less) }
{
    name_cmp(&name_in(line.as_slice()), &name_in(other.as_slice())) == Ordering::Less
}

/// The name of the row that a line begins with, and one that stands for none where it begins with no name.
fn name_in(line: &[Value]) -> RowName
    ensures { result ≡ name_in line.now }
{
    match line {
        [Value::Row(name), ..] => *name,
        _ => RowName {
            update: UpdateId([0; 32]),
            index: 0,
        },
    }
}

/// Whether two lines have the same values.
fn is_same(a: &[Value], b: &[Value]) -> bool
    ensures { IsTrue result ↔ (a.now ≡ b.now) }
{
    match (a, b) {
        ([], []) => true,
        ([first, a @ ..], [other, b @ ..]) => first.equals(other) && is_same(a, b),
        _ => false,
    }
}
