ghost use Rattle.std.specs.Prelude.{◌≡◌, ◌+◌, ◌<◌, ◌≤◌, ◌↔◌, ◌++◌, ◌∷◌, [], ℕ, false, length, not, take, IsTrue, IfOk};
ghost use Rattle.std.specs.Prelude.{OnOk, OnErr, ◌&&◌, ◌||◌, if◌then◌else◌};
ghost use Rattle.std.specs.BTreeMap.{keys};
ghost use Rattle.std.specs.List.{list_any};
ghost use Rattle.std.specs.List.Sorted.{IsStrictlySortedBy};
ghost use Rattle.update_model.specs.declared.update_id.UpdateId.{UpdateId as Id};
ghost use Rattle.update_model.specs.Entry.{id_cmp, same_id};
ghost use Rattle.update_model.specs.Graph.{has};
ghost use Rattle.head_set.specs.Grown.{KeepsHeads};
ghost use Rattle.head_set.specs.Present.{present};
ghost use Rattle.head_set.specs.Spans.{AreBefore, heads_at, unended};

use crate::span::Span;
use std::alloc::{AllocError, Global};
use std::collections::BTreeMap;
use std::marker::Model;
use update_model::{MAX_MEMBERS, UpdateId};

/// The heads of a graph as it grew. A contract sees the list of the heads after each add: of their ids, each above the
/// one before it.
#[derive(Drop)]
pub struct Heads {
    /// For each id that was added, when it is a head. An ordered map, since strangers choose the ids.
    spans: BTreeMap<UpdateId, Span>,
    /// How many adds there were.
    added: u32,
    /// How many heads there are.
    count: u32,
}

impl Model for Heads {
    ghost use Rattle.std.specs.Prelude.{List};
    ghost use Rattle.update_model.specs.declared.update_id.UpdateId.{UpdateId as Id};
    ghost use Rattle.head_set.specs.Kept.{IsKept};
    ghost use Rattle.head_set.specs.Spans.{states};

    ghost Value = { List (List Id) };

    ghost view = { λ heads. states heads.spans.entries heads.added };

    ghost invariant = { λ heads. IsKept heads.spans.entries heads.added heads.count };
}

impl Heads {
    /// The heads of a graph with no member. It takes no memory yet.
    pub fn new(alloc: Global) -> Heads
        ensures { result ≡ [] }
    {
        Heads {
            spans: BTreeMap::new(alloc),
            added: 0,
            count: 0,
        }
    }

    /// Takes in an update that arrives for the first time: its id, and those of its direct predecessors.
    ///
    /// Afterwards the id is a head, unless it names itself, and no predecessor is one. So what were the heads of a
    /// closed graph are now those of the graph with the update: see
    /// [`new_ids_were_no_heads`](crate::new_ids_were_no_heads). It takes logarithmic time for each predecessor. It
    /// gives up where memory runs out, and then nothing has changed.
    pub fn add(&mut self, id: UpdateId, preds: &[UpdateId]) -> Result<(), AllocError>
        requires room { length self.old < MAX_MEMBERS }
        requires new { list_any (λ heads. has heads id) self.old ≡ false }
        ensures states { OnOk result (self.new ≡ self.old ++ present self.new ∷ []) }
        ensures exact { OnOk result ((x : Id)
            → has (present self.new) x ≡ ((same_id x id || has (present self.old) x) && not (has preds.now x))) }
        ensures graph { OnOk result (KeepsHeads self.old id preds.now self.new) }
        ensures same { OnErr result (self.new ≡ self.old) }
    {
        let position = self.added;
        let span = Span {
            since: position,
            until: None,
        };
        self.spans.insert(id, span)?;
        let ended = end_all(&mut self.spans, preds, position);
        self.added = position + 1;
        self.count = self.count + 1 - ended;
        Ok(())
    }

    /// Leaves what the first `len` adds made. It takes no memory, and goes over all ids.
    pub fn cut(&mut self, len: u32)
        requires { len ≤ length self.old }
        ensures { self.new ≡ take len self.old }
    {
        self.spans.retain(|_, span| span.cut(len));
        self.added = len;
        self.count = count_unended(&self.spans);
    }

    /// Whether the id is that of a head. It takes logarithmic time.
    pub fn contains(&self, id: &UpdateId) -> bool
        ensures { result ≡ has (present self.now) id.now }
    {
        match self.spans.get(id) {
            Some(span) => span.until.is_none(),
            None => false,
        }
    }

    /// Whether the id was that of a head after one of the adds. It takes logarithmic time.
    pub fn was_head(&self, id: &UpdateId) -> bool
        ensures { result ≡ list_any (λ heads. has heads id.now) self.now }
    {
        match self.spans.get(id) {
            Some(span) => span.has_moment(),
            None => false,
        }
    }

    /// How many adds there were.
    pub fn added(&self) -> u32
        ensures { result ≡ length self.now }
    {
        self.added
    }

    /// How many heads there are, and what holds of them all. It takes constant time.
    pub fn len(&self) -> u32
        ensures value { result ≡ length (present self.now) }
        ensures few { length self.now ≤ MAX_MEMBERS }
        ensures rising { IsStrictlySortedBy id_cmp (present self.now) }
    {
        self.count
    }

    /// Whether there is no head.
    pub fn is_empty(&self) -> bool
        ensures { IsTrue result ↔ (length (present self.now) ≡ 0) }
    {
        self.len() == 0
    }

    /// The ids of the heads, rising. It goes over all ids.
    pub fn list(&self, alloc: Global) -> Result<Vec<UpdateId>, AllocError>
        ensures items { IfOk result (λ list. list.items ≡ present self.now) }
        ensures rising { IfOk result (λ list. IsStrictlySortedBy id_cmp list.items) }
    {
        let mut list = Vec::with_capacity(alloc, self.count as usize)?;
        for (id, span) in &self.spans {
            if span.until.is_none() {
                list.push(*id)?;
            }
        }
        Ok(list)
    }
}

/// How many spans have no end.
fn count_unended(spans: &BTreeMap<UpdateId, Span>) -> u32
    requires { length (unended spans.now.entries) ≤ MAX_MEMBERS }
    ensures { result ≡ length (unended spans.now.entries) }
{
    let mut count = 0;
    for (_, span) in spans {
        if span.until.is_none() {
            count += 1;
        }
    }
    count
}

/// Ends the spans of these ids that have no end, and says how many it ended. It takes no memory.
fn end_all(spans: &mut BTreeMap<UpdateId, Span>, ids: &[UpdateId], position: u32) -> u32
    requires rising { IsStrictlySortedBy id_cmp (keys spans.old) }
    requires before { AreBefore spans.old.entries (position + 1) }
    requires few { length (heads_at spans.old.entries (position + 1)) ≤ MAX_MEMBERS + 1 }
    ensures earlier { (n : ℕ) → n ≤ position → heads_at spans.new.entries n ≡ heads_at spans.old.entries n }
    ensures exact { (x : Id) → has (heads_at spans.new.entries (position + 1))
        x ≡ (has (heads_at spans.old.entries (position + 1)) x && not (has ids.now x)) }
    ensures count { result + length (heads_at spans.new.entries (position + 1)) ≡ length
        (heads_at spans.old.entries (position + 1)) }
    ensures before { AreBefore spans.new.entries (position + 1) }
    ensures rising { IsStrictlySortedBy id_cmp (keys spans.new) }
{
    let mut ended = 0;
    for id in ids {
        if end(spans, id, position) {
            ended += 1;
        }
    }
    ended
}

/// Ends the span of this id, if it has one with no end, and says whether it did.
fn end(spans: &mut BTreeMap<UpdateId, Span>, id: &UpdateId, position: u32) -> bool
    requires rising { IsStrictlySortedBy id_cmp (keys spans.old) }
    requires before { AreBefore spans.old.entries (position + 1) }
    ensures earlier { (n : ℕ) → n ≤ position → heads_at spans.new.entries n ≡ heads_at spans.old.entries n }
    ensures exact { (x : Id) → has (heads_at spans.new.entries (position + 1))
        x ≡ (has (heads_at spans.old.entries (position + 1)) x && not (same_id x id.now)) }
    ensures count { (if result then 1 else 0) + length (heads_at spans.new.entries (position + 1)) ≡ length
        (heads_at spans.old.entries (position + 1)) }
    ensures before { AreBefore spans.new.entries (position + 1) }
    ensures rising { IsStrictlySortedBy id_cmp (keys spans.new) }
{
    let Some(span) = spans.get_mut(id) else {
        return false;
    };
    if span.until.is_some() {
        return false;
    }
    span.until = Some(position);
    true
}
