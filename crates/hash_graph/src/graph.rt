ghost use Rattle.std.specs.Prelude.{◌≡◌, ◌++◌, ◌∷◌, [], ℕ, ◌<◌, ◌≤◌, ◌↔◌, true, IsTrue, IfErr, IfOk, ◌-◌, length, map};
ghost use Rattle.std.specs.Prelude.{take, drop, slice_get, find, not, Some};
ghost use Rattle.update_model.specs.Graph.{IsClosed, IsNext, is_within, byte_count, position_of, holds};
ghost use Rattle.hash_graph.specs.Answer.{answer_of, Answers, list_after, NamesLeast};

use crate::{Added, Refusal, Refused};
use std::alloc::Global;
use std::collections::BTreeMap;
use std::marker::Model;
use update_model::{MAX_BYTES, MAX_MEMBERS, Member, UpdateId};

/// Members in arrival order, closed and within the limits. A contract sees a graph as the list of its members.
#[derive(Drop)]
pub struct Graph<M: Member> {
    /// In arrival order.
    members: Vec<M>,
    /// Each member's position by its id. An ordered map, since strangers choose the ids, and since look-up and
    /// removal take no memory.
    index: BTreeMap<UpdateId, u32>,
    /// How many bytes the members have together.
    bytes: u64,
}

impl<M: Member> Model for Graph<M> {
    ghost use Rattle.std.specs.Prelude.{List, map};
    ghost use Rattle.hash_graph.specs.Kept.{IsKept};

    ghost Value = { List M };

    ghost view = { λ graph. graph.members.items };

    ghost invariant = { λ graph. IsKept (map M.entry graph.members.items) graph.index graph.bytes };
}

impl<M: Member> Graph<M> {
    /// A graph with no member. It takes no memory yet.
    pub fn new(alloc: Global) -> Graph<M>
        ensures { result ≡ [] }
    {
        Graph {
            members: Vec::new(alloc),
            index: BTreeMap::new(alloc),
            bytes: 0,
        }
    }

    /// How many members there are, and what holds of every graph.
    pub fn len(&self) -> u32
        ensures value { result ≡ length self.now }
        ensures few { result ≤ MAX_MEMBERS }

        ensures closed { IsClosed (map M.entry self.now) }
        ensures within { is_within (map M.entry self.now) ≡ true }
    {
        self.members.len() as u32
    }

    /// Whether there is no member.
    pub fn is_empty(&self) -> bool
        ensures { IsTrue result ↔ (length self.now ≡ 0) }
    {
        self.members.is_empty()
    }

    /// How many bytes the members have together.
    pub fn byte_len(&self) -> u64
        ensures value { result ≡ byte_count (map M.entry self.now) }
        ensures few { result ≤ MAX_BYTES }
    {
        self.bytes
    }

    /// The position of the member with this id, or `None` where no member has it. It takes logarithmic time.
    pub fn position(&self, id: &UpdateId) -> Option<u32>
        ensures { result ≡ position_of (map M.entry self.now) id.now }
    {
        self.index.get(id).copied()
    }

    /// The member at a position, counted from 0 in arrival order.
    pub fn at(&self, position: u32) -> &M
        requires { position < length self.now }
        ensures { slice_get self.now position ≡ Some result.now }
    {
        &self.members[position as usize]
    }

    /// The members from a position on, in arrival order.
    pub fn tail(&self, from: u32) -> &[M]
        requires { from ≤ length self.now }
        ensures { result.now ≡ drop from self.now }
    {
        &self.members[from as usize..]
    }

    /// Takes a member, which then stands last, unless one with its id is held.
    ///
    /// An id that is held is [`Added::Known`], whatever its predecessors are and however full the graph is. A new
    /// member is refused as [`Refusal::Lacks`] exactly where a predecessor is not held, and else as
    /// [`Refusal::Full`] exactly where it would pass a limit. [`Refusal::Memory`] may come for any new member.
    pub fn add(&mut self, member: M) -> Result<Added, Refused<M>>
    where
        M: Drop,
        ensures answer { Answers result (answer_of (map M.entry self.old) (M.entry member)) }
        ensures list { self.new ≡ list_after result self.old member }
        ensures back { IfErr result (λ refused. refused.member ≡ member) }

        // Of several predecessors that are not held, the least one is named.
        ensures least { IfErr result (λ refused. NamesLeast (map M.entry self.old) (M.entry member) refused.why) }
    {
        if let Some(position) = self.position(&member.id()) {
            return Ok(Added::Known(position));
        }
        if let Some(id) = self.first_not_held(member.preds()) {
            return Err(Refused {
                why: Refusal::Lacks(id),
                member,
            });
        }
        if !self.has_room_for(&member) {
            return Err(Refused {
                why: Refusal::Full,
                member,
            });
        }
        self.push(member)
    }

    /// Leaves the first `len` members. It takes no memory.
    pub fn cut(&mut self, len: u32)
    where
        M: Drop,
        requires { len ≤ length self.old }
        ensures { self.new ≡ take len self.old }
    {
        while self.len() > len {
            self.drop_last();
        }
    }

    /// Whether a member has this id.
    fn is_held(&self, id: &UpdateId) -> bool
        ensures { result ≡ holds (map M.entry self.now) id.now }
    {
        self.position(id).is_some()
    }

    /// The first of these ids that no member has.
    fn first_not_held(&self, ids: &[UpdateId]) -> Option<UpdateId>
        ensures { result ≡ find (λ id. not (holds (map M.entry self.now) id)) ids.now }
    {
        ids.iter().find(|id| !self.is_held(id)).copied()
    }

    /// Whether one more member, this one, is within the limits.
    fn has_room_for(&self, member: &M) -> bool
        ensures { result ≡ is_within (map M.entry self.now ++ M.entry member.now ∷ []) }
    {
        self.len() < MAX_MEMBERS && member.bytes().len() as u64 <= MAX_BYTES - self.byte_len()
    }

    /// Puts a member at the end. Memory is taken before anything changes.
    fn push(&mut self, member: M) -> Result<Added, Refused<M>>
    where
        M: Drop,
        requires next { IsNext (map M.entry self.old) (M.entry member) }
        requires fits { is_within (map M.entry self.old ++ M.entry member ∷ []) ≡ true }
        ensures ok { IfOk result (λ added. added ≡ Added.New (length self.old)) }
        ensures err { IfErr result (λ refused. refused ≡ record { why = Refusal.Memory; member = member }) }
        ensures list { self.new ≡ list_after result self.old member }
    {
        let position = self.len();
        let id = member.id();
        let size = member.bytes().len() as u64;
        if self.members.reserve(1).is_err() {
            return Err(Refused {
                why: Refusal::Memory,
                member,
            });
        }
        if self.index.insert(id, position).is_err() {
            return Err(Refused {
                why: Refusal::Memory,
                member,
            });
        }
        self.members.push(member).unwrap();
        self.bytes += size;
        Ok(Added::New(position))
    }

    /// Drops the member that stands last.
    fn drop_last(&mut self)
    where
        M: Drop,
        requires { 0 < length self.old }
        ensures { self.new ≡ take (length self.old - 1) self.old }
    {
        let member = self.members.pop().unwrap();
        self.index.remove(&member.id());
        self.bytes -= member.bytes().len() as u64;
    }
}
