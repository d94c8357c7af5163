ghost use Rattle.std.specs.Prelude.{◌≡◌, ◌++◌, ◌∷◌, [], ◌+◌, ◌<◌, ◌≤◌, ◌^◌, ◌&&◌, ◌||◌, true, ℕ, IfOk, OnOk, List};
ghost use Rattle.std.specs.Prelude.{length, map, take};
ghost use Rattle.std.specs.BTreeSet.{keys};
ghost use Rattle.session_rules.specs.State.{Item as item, BadItem as bad_item};
ghost use Rattle.session_rules.specs.Steps.{closing, in_burst, Takes};
ghost use Rattle.session_rules.specs.declared.limits.TheConstants.{MAX_ITEMS};
ghost use Rattle.update_check.specs.Signed.{IsChecked};
ghost use Rattle.update_codec.specs.Parts.{entry_of, preds_of};
ghost use Rattle.update_model.specs.Batch.{Limits};
ghost use Rattle.update_model.specs.Entry.{Entry};
ghost use Rattle.update_model.specs.Graph.{holds, is_within};
ghost use Rattle.update_model.specs.Rule.{RuleData};
ghost use Rattle.sync_session.specs.Kept.{whole, out_of, number_of, with_end, with_item, IsRunning, Stands};
ghost use Rattle.sync_session.specs.Pending.{entries_in, has_room_for};
ghost use Rattle.sync_session.specs.Wants.{SeeksToo};

use crate::Out;
use crate::pending::Pending;
use crate::reading::{Reading, advance, fresh, is_burst, item_fault, takes_item};
use crate::sought::{Sought, seek};
use session_rules::{End, PeerFault, Role};
use std::alloc::{AllocError, Global};
use std::collections::BTreeSet;
use std::marker::Model;
use sync_frames::Hello;
use update_check::{CheckFault, Checked};
use update_model::{IdList, Member, UpdateId};

/// One end of a session.
#[derive(Drop)]
pub struct Session {
    pub(crate) role: Role,
    pub(crate) database: [u8; 32],
    pub(crate) node: [u8; 32],
    pub(crate) recalled: IdList,
    pub(crate) heads: IdList,
    pub(crate) below: u32,
    pub(crate) peer: Option<Hello>,
    pub(crate) reading: Reading,
    pub(crate) began: bool,
    pub(crate) items: u32,
    pub(crate) pending: Pending,
    pub(crate) asked: BTreeSet<UpdateId>,
    pub(crate) peer_asked: BTreeSet<UpdateId>,
    pub(crate) sought: Sought,
    pub(crate) sent_have: bool,
    pub(crate) got_have: bool,
    pub(crate) turns: u32,
    pub(crate) gained: u32,
    pub(crate) ended: Option<End>,
    pub(crate) failed: bool,
}

impl Model for Session {
    ghost use Rattle.std.specs.Prelude.{[], option_map};
    ghost use Rattle.std.specs.BTreeMap.{keys as keys_in};
    ghost use Rattle.std.specs.BTreeSet.{keys};
    ghost use Rattle.sync_session.specs.Kept.{Kept, hello_of, reading_of};
    ghost use Rattle.sync_session.specs.Form.{IsInForm};

    ghost Value = { Kept };

    ghost view = { λ s. record {
      state = record {
        role = s.role;
        database = s.database;
        node = s.node;
        old = s.recalled;
        start = [];
        peer = option_map hello_of s.peer;
        reading = reading_of s.reading;
        began = s.began;
        items = s.items;
        gathered = [];
        waiting = [];
        asked = keys s.asked;
        peer_asked = keys s.peer_asked;
        sent_have = s.sent_have;
        got_have = s.got_have;
        turns = s.turns;
        gained = s.gained;
        ended = s.ended;
      };
      below = s.below;
      pending = s.pending;
      heads = s.heads;
      sought = keys_in s.sought;
      failed = s.failed;
    } };

    ghost invariant = { λ s. IsInForm s.items s.recalled };
}

impl Session {
    /// Ends the session.
    pub(crate) fn end(&mut self, alloc: Global, end: End) -> Out
        ensures state { self.new ≡ with_end end self.old }
        ensures out { (list : List Entry) → out_of list result ≡ closing end }
    {
        self.ended = Some(end);
        Out::closing(alloc, end)
    }

    /// Counts an update that came.
    fn count_item(&mut self)
        requires running { IsRunning self.old }
        requires few { self.old.state.items < MAX_ITEMS }
        ensures { self.new ≡ with_item self.old self.old.pending }
    {
        advance(&mut self.reading);
        self.turns += fresh(self.began);
        self.began = true;
        self.items += 1;
    }

    /// Gathers an update that came.
    fn gather(&mut self, update: Checked) -> Result<(), AllocError>
        requires running { IsRunning self.old }
        requires few { self.old.state.items < MAX_ITEMS }
        requires room { has_room_for self.old.pending update ≡ true }
        ensures state { OnOk result
            (self.new ≡ record (with_item self.old (record {
              waiting = self.old.pending.waiting;
              gathered = self.old.pending.gathered ++ update ∷ [];
            })) { sought = self.new.sought }) }
        ensures sought { OnOk result (SeeksToo self.old.sought (preds_of update) self.new.sought) }
    {
        seek(&mut self.sought, update.preds(), Some(update.id()))?;
        self.pending.gather(update)?;
        advance(&mut self.reading);
        self.turns += fresh(self.began);
        self.began = true;
        self.items += 1;
        Ok(())
    }

    /// Whether an update of a burst was there already.
    fn is_repeated(&self, id: &UpdateId) -> bool
        ensures there { result ≡ (in_burst self.now.state.reading && (holds (map entry_of self.now.pending.gathered)
            id.now || holds (map entry_of self.now.pending.waiting) id.now)) }
        ensures within { is_within (entries_in self.now.pending) ≡ true }
    {
        let there = self.pending.contains(id);
        is_burst(&self.reading) && there
    }

    /// An update comes.
    pub(crate) fn take_item(&mut self, alloc: Global, update: Checked) -> Result<Out, AllocError>
        requires { IsRunning self.old }
        ensures takes { IfOk result (λ out. (limits : Limits) (start list : List Entry) →
            Takes limits (whole start self.old) list (item (entry_of update)) (whole start self.new) (out_of list out)
            list) }
        ensures nothing { IfOk result (λ out. out.send ≡ []) }
        ensures stands { OnOk result ((rule : RuleData) (members : List (List ℕ)) → IsChecked rule update
            → Stands rule self.old members → Stands rule self.new members) }
        ensures below { OnOk result (self.new.below ≡ self.old.below) }
        ensures failed { OnOk result (self.new.failed ≡ self.old.failed) }
    {
        let id = update.id();
        if let Some(fault) = item_fault(&self.reading, self.items, id) {
            return Ok(self.end(alloc, End::Peer(fault)));
        }
        if self.is_repeated(&id) {
            self.count_item();
            return Ok(Out::silent(alloc));
        }
        if !self.pending.has_room(&update) {
            return Ok(self.end(alloc, End::Full));
        }
        self.gather(update)?;
        Ok(Out::silent(alloc))
    }

    /// What is no update comes.
    pub(crate) fn take_bad_item(&mut self, alloc: Global, fault: CheckFault) -> Out
        ensures takes { (limits : Limits) (start list : List Entry) →
            Takes limits (whole start self.old) list (bad_item (number_of fault)) (whole start self.new)
            (out_of list result) list }
        ensures nothing { result.send ≡ [] }
        ensures stands { (rule : RuleData) (members : List (List ℕ)) → Stands rule self.old members
            → Stands rule self.new members }
        ensures below { self.new.below ≡ self.old.below }
        ensures failed { self.new.failed ≡ self.old.failed }
    {
        if takes_item(&self.reading, self.items) {
            self.end(alloc, End::Peer(PeerFault::BadUpdate(number(fault))))
        } else {
            self.end(alloc, End::Peer(PeerFault::OutOfTurn))
        }
    }
}

/// The number of a fault.
fn number(fault: CheckFault) -> u8
    ensures { result ≡ number_of fault }
{
    match fault {
        CheckFault::Codec(_) => 1,
        CheckFault::WrongDatabase => 2,
        CheckFault::AuthorNotListed => 3,
        CheckFault::BadSignature => 4,
    }
}
