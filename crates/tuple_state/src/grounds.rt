//! What counts of causes go by, besides what deletes rows.

ghost use Rattle.std.specs.Prelude.{◌≡◌, ◌<◌, ◌==◌, filter, length};
ghost use Rattle.tuple_state.specs.Causes.{AreParted};

use crate::Inserted;
use crate::links::{Link, Links};
use crate::shape::Shape;

/// What counts of causes go by, besides what deletes rows.
#[derive(Drop)]
pub(crate) struct Grounds<'a> {
    /// The rows in order of arrival.
    pub(crate) rows: &'a [Inserted],
    /// To the place of each row the places of the rows that name it, row by row of those that name.
    pub(crate) children: &'a [Link],
    /// Of each row the index behind the links that come of it.
    pub(crate) ends: &'a [u32],
    /// What tells of each table which of its rows are visible.
    pub(crate) shapes: &'a [Shape],
}

impl<'a> Grounds<'a> {
    /// What these rows, links and shapes say.
    pub(crate) fn new(
        rows: &'a Vec<Inserted>,
        children: &'a Links,
        ends: &'a Vec<u32>,
        shapes: &'a [Shape],
    ) -> Grounds<'a>
        ensures rows { result.rows.now ≡ rows.now.items }
        ensures children { result.children.now ≡ children.now.links }
        ensures ends { result.ends.now ≡ ends.now.items }
        ensures shapes { result.shapes.now ≡ shapes.now }
    {
        Grounds {
            rows: rows.as_slice(),
            children: children.links(),
            ends: ends.as_slice(),
            shapes,
        }
    }

    /// The links to the row at a place from the rows that it names.
    pub(crate) fn parents(&self, place: usize) -> &[Link]
        requires parted { AreParted self.now.children.now self.now.ends.now }
        requires inside { place < length self.now.ends.now }
        ensures { result.now ≡ filter (λ link. link.number == place) self.now.children.now }
    {
        let from = if place == 0 {
            0
        } else {
            self.ends[place - 1] as usize
        };
        &self.children[from..self.ends[place] as usize]
    }
}
