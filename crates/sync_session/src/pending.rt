ghost use Rattle.std.specs.Prelude.{◌≡◌, ◌||◌, ◌++◌, ◌∷◌, [], true, map, IfOk, OnOk};
ghost use Rattle.update_codec.specs.Parts.{entry_of};
ghost use Rattle.update_model.specs.Graph.{holds, is_within, names};
ghost use Rattle.sync_session.specs.Pending.{entries_in, has_room_for, nothing};

use crate::lookup::is_among;
use std::alloc::{AllocError, Global};
use std::collections::BTreeMap;
use std::marker::Model;
use std::mem;
use update_check::Checked;
use update_model::{MAX_BYTES, MAX_MEMBERS, Member, UpdateId};

/// The updates of a session that its holder does not have yet: those that wait for predecessors since an earlier
/// commit, and those that were gathered since. They are found by id: each id has a place in the one list behind the
/// other.
#[derive(Drop)]
pub(crate) struct Pending {
    waiting: Vec<Checked>,
    gathered: Vec<Checked>,
    ids: BTreeMap<UpdateId, usize>,
    bytes: u64,
}

impl Model for Pending {
    ghost use Rattle.sync_session.specs.Pending.{PendingData, IsIndexed};

    ghost Value = { PendingData };

    ghost view = { λ p. record { waiting = p.waiting.items; gathered = p.gathered.items } };

    ghost invariant = { λ p. IsIndexed p.waiting.items p.gathered.items p.ids p.bytes };
}

impl Pending {
    /// Nothing.
    pub fn new(alloc: Global) -> Pending
        ensures { result ≡ nothing }
    {
        Pending {
            waiting: Vec::new(alloc),
            gathered: Vec::new(alloc),
            ids: BTreeMap::new(alloc),
            bytes: 0,
        }
    }

    /// Whether an update with this id was gathered or waits.
    pub fn contains(&self, id: &UpdateId) -> bool
        ensures found { result ≡ (holds (map entry_of self.now.gathered) id.now || holds (map entry_of self.now.waiting)
            id.now) }
        ensures within { is_within (entries_in self.now) ≡ true }
    {
        self.ids.contains_key(id)
    }

    /// Whether an update that waits with this id has an id as a predecessor. Where two share the id, the other one is
    /// not looked at.
    pub fn is_named_by(&self, namer: &UpdateId, id: &UpdateId) -> bool
        ensures { result ≡ true → names (map entry_of self.now.waiting) id.now ≡ true }
    {
        match self.ids.get(namer) {
            Some(place) if *place < self.waiting.len() => {
                self.waiting[*place].preds().binary_search(id).is_ok()
            }
            _ => false,
        }
    }

    /// Whether any update that waits has an id as a predecessor.
    pub fn names(&self, id: &UpdateId) -> bool
        ensures { result ≡ names (map entry_of self.now.waiting) id.now }
    {
        for update in &self.waiting {
            if is_among(update.preds(), id) {
                return true;
            }
        }
        false
    }

    /// Whether the update may be gathered too.
    pub fn has_room(&self, update: &Checked) -> bool
        ensures { result ≡ has_room_for self.now update.now }
    {
        let bytes = update.bytes().len() as u64;
        self.waiting.len() + self.gathered.len() < MAX_MEMBERS as usize
            && bytes <= MAX_BYTES - self.bytes
    }

    /// Gathers an update, for which there is room.
    pub fn gather(&mut self, update: Checked) -> Result<(), AllocError>
        requires { has_room_for self.old update ≡ true }
        ensures { OnOk result (self.new ≡ record {
          waiting = self.old.waiting;
          gathered = self.old.gathered ++ update ∷ [];
        }) }
    {
        let place = self.waiting.len() + self.gathered.len();
        self.gathered.reserve(1)?;
        self.ids.insert(update.id(), place)?;
        self.bytes += update.bytes().len() as u64;
        self.gathered.push(update).unwrap();
        Ok(())
    }

    /// Takes all out: what waits, and then what was gathered.
    pub fn take(&mut self, alloc: Global) -> Result<Vec<Checked>, AllocError>
        ensures batch { IfOk result (λ batch. batch.items ≡ self.old.waiting ++ self.old.gathered) }
        ensures state { OnOk result (self.new ≡ nothing) }
        ensures within { is_within (entries_in self.old) ≡ true }
    {
        self.waiting.append(&mut self.gathered)?;
        let batch = mem::replace(&mut self.waiting, Vec::new(alloc));
        self.ids = BTreeMap::new(alloc);
        self.bytes = 0;
        Ok(batch)
    }
}

/// What waits after a commit.
pub(crate) fn waiting_after(alloc: Global, waiting: Vec<Checked>) -> Result<Pending, AllocError>
    requires { is_within (map entry_of waiting.items) ≡ true }
    ensures { IfOk result (λ pending. pending ≡ record { waiting = waiting.items; gathered = [] }) }
{
    let mut ids = BTreeMap::new(alloc);
    let mut bytes = 0;
    for update in &waiting {
        let place = ids.len();
        ids.insert(update.id(), place)?;
        bytes += update.bytes().len() as u64;
    }
    Ok(Pending {
        waiting,
        gathered: Vec::new(alloc),
        ids,
        bytes,
    })
}
