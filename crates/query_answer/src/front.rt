//! The first rows of an answer, of which only some are kept while more come.

ghost use Rattle.std.specs.Prelude.{◌≡◌, ◌++◌, ◌∷◌, [], ℕ, List, Option, true, OnOk, length, map};
ghost use Rattle.query.specs.declared.item.Key.{Key as KeyData};
ghost use Rattle.query_answer.specs.Answers.{LineData, data_cmp, limited, line_data};
ghost use Rattle.query_answer.specs.Fronts.{AreApart, Holds, IsLastPlace, IsReached};
ghost use Rattle.query_answer.specs.InOrder.{in_order};

use crate::line::Line;
use crate::ordering::{line_cmp, sort_lines};
use query::Key;
use std::alloc::{AllocError, Global};

/// The first rows of those that came, as many as the limit, and some that came since the last cut. Under a limit no
/// more are kept than twice as many, and one.
#[derive(Drop)]
pub(crate) struct Front<'a> {
    limit: Option<u32>,
    lines: Vec<Line<'a>>,
    /// Where the last of the first rows stands, once there was a cut. What comes behind it is none of the first.
    bound: Option<usize>,
}

impl<'a> Front<'a> {
    /// The front of no rows.
    pub(crate) fn new(alloc: Global, limit: Option<u32>) -> Front<'a>
        ensures { (keys : List KeyData) → Holds keys limit result [] }
    {
        Front {
            limit,
            lines: Vec::new(alloc),
            bound: None,
        }
    }

    /// Whether a row comes behind as many as the limit.
    fn is_late(&self, keys: &[Key], line: &Line) -> bool
        ensures { result ≡ true → (limit : Option ℕ) (all : List LineData) → Holds keys.now limit self.now all
            → Holds keys.now limit self.now (all ++ line_data line.now ∷ []) }
    {
        match self.bound {
            Some(place) => match self.lines.get(place) {
                Some(last) => line_cmp(keys, line, last).is_ge(),
                None => false,
            },
            None => false,
        }
    }

    /// Adds one more row, and leaves the first rows alone where there are twice as many.
    pub(crate) fn add(&mut self, keys: &[Key], line: Line<'a>) -> Result<(), AllocError>
        ensures { OnOk result ((limit : Option ℕ) (all : List LineData)
            → AreApart keys.now (all ++ line_data line.entry ∷ [])
            → Holds keys.now limit self.old all → Holds keys.now limit self.new (all ++ line_data line.entry ∷ [])) }
    {
        if self.is_late(keys, &line) {
            return Ok(());
        }
        self.lines.push(line)?;
        if is_full(self.limit, self.lines.as_slice()) {
            cut(keys, self.limit, &mut self.lines);
            self.bound = last_place(self.lines.as_slice());
        }
        Ok(())
    }

    /// The first rows in order.
    pub(crate) fn into_first(self, keys: &[Key]) -> Vec<Line<'a>>
        ensures { (limit : Option ℕ) (all : List LineData) → AreApart keys.now all → Holds keys.now limit self.entry all
            → map line_data result.items ≡ limited limit (in_order (data_cmp keys.now) all) }
    {
        let Front {
            limit,
            mut lines,
            bound: _,
        } = self;
        cut(keys, limit, &mut lines);
        lines
    }
}

/// Whether these are twice as many as the limit.
fn is_full(limit: Option<u32>, lines: &[Line]) -> bool
    ensures { result ≡ true → IsReached limit (length lines.now) }
{
    match limit {
        None => false,
        Some(limit) => limit as usize <= lines.len() / 2,
    }
}

/// The place of the last of these.
fn last_place(lines: &[Line]) -> Option<usize>
    ensures { IsLastPlace (length lines.now) result }
{
    lines.len().checked_sub(1)
}

/// Leaves the first rows in order, no more than the limit.
fn cut(keys: &[Key], limit: Option<u32>, lines: &mut Vec<Line>)
    ensures { AreApart keys.now (map line_data lines.old.items)
        → map line_data lines.new.items ≡ limited limit (in_order (data_cmp keys.now) (map line_data lines.old.items)) }
{
    sort_lines(keys, lines);
    if let Some(limit) = limit {
        lines.truncate(limit as usize);
    }
}
