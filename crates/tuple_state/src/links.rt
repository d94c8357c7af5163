//! Numbers that belong to places.

ghost use Rattle.std.specs.Prelude.{◌≡◌, ℕ, ◌+◌, ◌-◌, ◌<◌, ◌≤◌, [], ◌∷◌, ◌++◌, true, None, Some, IfOk, MatchResult};
ghost use Rattle.std.specs.Prelude.{drop, length, slice_get, slice_index_or, take};
ghost use Rattle.std.specs.List.{list_any};
ghost use Rattle.tuple_state.specs.declared.links.Link.{Link as Pair};
ghost use Rattle.tuple_state.specs.Links.{IsBelow, IsLinked, are_inside, latest, numbers_from, numbers_of};

use std::alloc::{AllocError, Global};
use std::marker::Model;
use update_model::Ancestors;

/// A number that belongs to a place.
#[derive(Clone, Copy)]
pub(crate) struct Link {
    /// The place.
    pub(crate) place: usize,
    /// The number.
    pub(crate) number: u32,
}

/// For each place the numbers that belong to it: to the place of a row the positions of the updates that delete it.
/// They are read from the newest to the oldest. A contract sees how many places there are, and the links in order.
#[derive(Drop)]
pub(crate) struct Links {
    /// The links in the order in which they came.
    links: Vec<Link>,
    /// For each link the index of the last one before it of the same place.
    older: Vec<Option<usize>>,
    /// For each place the index of its last link.
    newest: Vec<Option<usize>>,
}

impl Model for Links {
    ghost use Rattle.std.specs.Prelude.{length};
    ghost use Rattle.tuple_state.specs.Links.{IsLinked, Linked};

    ghost Value = { Linked };

    ghost view = { λ it. record { size = length it.newest.items; links = it.links.items } };

    ghost invariant = { λ it. IsLinked it.newest.items it.older.items it.links.items };
}

impl Links {
    /// No places and no links.
    pub(crate) fn new(alloc: Global) -> Links
        ensures { result ≡ record { size = 0; links = [] } }
    {
        Links {
            links: Vec::new(alloc),
            older: Vec::new(alloc),
            newest: Vec::new(alloc),
        }
    }

    /// Adds so many places, and links. After an error nothing has changed.
    pub(crate) fn grow(&mut self, places: usize, links: &[Link]) -> Result<(), AllocError>
        requires inside { are_inside (self.old.size + places) links.now ≡ true }
        ensures { MatchResult result (λ _. self.new ≡ record {
          size = self.old.size + places;
          links = self.old.links ++ links.now;
        }) (λ _. self.new ≡ self.old) }
    {
        let first = self.links.len();
        let size = self.newest.len();
        self.newest.reserve(places)?;
        self.older.reserve(links.len())?;
        self.links.extend_from_slice(links)?;
        self.newest.resize(size + places, None).unwrap();
        self.older.resize(first + links.len(), None).unwrap();
        thread(
            self.newest.as_mut_slice(),
            self.older.as_mut_slice(),
            self.links.as_slice(),
            first,
        );
        Ok(())
    }

    /// Leaves the first so many places and links. It takes no memory.
    pub(crate) fn cut(&mut self, places: usize, links: usize)
        requires few { places ≤ self.old.size }
        requires inside { are_inside places (take links self.old.links) ≡ true }
        ensures { self.new ≡ record { size = places; links = take links self.old.links } }
    {
        self.newest.truncate(places);
        self.older.truncate(links);
        self.links.truncate(links);
        let newest = self.newest.as_mut_slice();
        forget(newest);
        thread(newest, self.older.as_mut_slice(), self.links.as_slice(), 0);
    }

    /// How many links there are. Each is of one of the places.
    pub(crate) fn len(&self) -> usize
        ensures len { result ≡ length self.now.links }
        ensures inside { are_inside self.now.size self.now.links ≡ true }
    {
        self.links.len()
    }

    /// The links in the order in which they came. Each is of one of the places.
    pub(crate) fn links(&self) -> &[Link]
        ensures links { result.now ≡ self.now.links }
        ensures inside { are_inside self.now.size self.now.links ≡ true }
    {
        self.links.as_slice()
    }

    /// Some of these links, from one index on to another.
    pub(crate) fn part(&self, from: usize, to: usize) -> &[Link]
        requires start { from ≤ to }
        requires end { to ≤ length self.now.links }
        ensures { result.now ≡ take (to - from) (drop from self.now.links) }
    {
        &self.links.as_slice()[from..to]
    }

    /// Equal links on memory of their own.
    pub(crate) fn copy(&self, alloc: Global) -> Result<Links, AllocError>
        ensures { IfOk result (λ links. links ≡ self.now) }
    {
        Ok(Links {
            links: Vec::from_slice(alloc, self.links.as_slice())?,
            older: Vec::from_slice(alloc, self.older.as_slice())?,
            newest: Vec::from_slice(alloc, self.newest.as_slice())?,
        })
    }

    /// The last link of a place, from which its numbers are read.
    pub(crate) fn newest(&self, place: usize) -> Option<usize>
        requires { place < self.now.size }
        ensures below { IsBelow result (length self.now.links) }
        ensures numbers { numbers_from self.now.links result ≡ numbers_of self.now.links place }
    {
        self.newest[place]
    }

    /// The link of the same place before this one.
    pub(crate) fn older(&self, index: usize) -> Option<usize>
        requires { index < length self.now.links }
        ensures below { IsBelow result index }
        ensures numbers { (link : Pair) → slice_get self.now.links index ≡ Some link
            → numbers_from self.now.links (Some index) ≡ numbers_from self.now.links result ++ link.number ∷ [] }
    {
        self.older[index]
    }

    /// The number of a link.
    pub(crate) fn number(&self, index: usize) -> u32
        requires { index < length self.now.links }
        ensures { (link : Pair) → slice_get self.now.links index ≡ Some link → result ≡ link.number }
    {
        self.links[index].number
    }

    /// Whether a number of a place is the position of an ancestor of the update at this position.
    pub(crate) fn any_ancestor<A: Ancestors>(
        &self,
        alloc: Global,
        place: usize,
        ancestors: &A,
        position: u32,
    ) -> Result<bool, AllocError>
        requires { place < self.now.size }
        ensures { IfOk result (λ answer. answer ≡ list_any (λ number. A.ancestor ancestors.now number position)
            (numbers_of self.now.links place)) }
    {
        let mut next = self.newest(place);
        while let Some(index) = next {
            if ancestors.is_ancestor(alloc, self.number(index), position)? {
                return Ok(true);
            }
            next = self.older(index);
        }
        Ok(false)
    }
}

/// Leaves nothing at each place.
fn forget(newest: &mut [Option<usize>])
    ensures { (place : ℕ) → slice_index_or newest.new place None ≡ None }
{
    for last in newest.iter_mut() {
        *last = None;
    }
}

/// Finds the last link of each place, and of each link from one on the last one before it, where they are known for the
/// links before that one.
fn thread(newest: &mut [Option<usize>], older: &mut [Option<usize>], links: &[Link], from: usize)
    requires each { length older.old ≡ length links.now }
    requires inside { are_inside (length newest.old) links.now ≡ true }
    requires few { from ≤ length links.now }
    requires last { (place : ℕ) → place < length newest.old → slice_index_or newest.old place None ≡ latest place
        (take from links.now) }
    requires before { (index : ℕ) (link : Pair) → index < from → slice_get links.now index ≡ Some link
        → slice_index_or older.old index None ≡ latest link.place (take index links.now) }
    ensures { IsLinked newest.new older.new links.now }
{
    for index in from..links.len() {
        let place = links[index].place;
        older[index] = newest[place];
        newest[place] = Some(index);
    }
}
