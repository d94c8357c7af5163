//! What a session does with the peer's Turn.

ghost use Rattle.std.specs.Prelude.{◌≡◌, [], ◌+◌, ◌<◌, ◌≤◌, ◌^◌, true, All, IfOk, OnOk, List, length, map, take};
ghost use Rattle.std.specs.Prelude.{slice_get, filter_map, not, ◌&&◌, ◌||◌};
ghost use Rattle.std.specs.BTreeMap.{keys as keys_in};
ghost use Rattle.std.specs.BTreeSet.{keys};
ghost use Rattle.session_rules.specs.Steps.{closing, is_empty, is_wanted, IsSent, IsTurn};
ghost use Rattle.session_rules.specs.declared.limits.TheConstants.{MAX_TURNS};
ghost use Rattle.update_codec.specs.Parts.{entry_of};
ghost use Rattle.update_model.specs.Entry.{Entry};
ghost use Rattle.update_model.specs.Graph.{is_within, IsClosed};
ghost use Rattle.sync_session.specs.Kept.{late_fault_at, out_of, seen, turn_of, whole, with_commit, with_refusal};
ghost use Rattle.sync_session.specs.Kept.{IsRunning, LeavesSought, Seeks, TurnsFor};
ghost use Rattle.sync_session.specs.Wants.{AreSought, StaySought};

use crate::greeting::burst;
use crate::lookup::{first_unknown, has_all, positions_of};
use crate::needs::{first_again, needs};
use crate::pending::{Pending, waiting_after};
use crate::reading::fresh;
use crate::sought::Sought;
use crate::{Out, Session};
use session_rules::{End, PeerFault};
use std::alloc::{AllocError, Global};
use std::collections::BTreeSet;
use sync_frames::Turn;
use update_check::{Committed, Holder};
use update_model::{IdList, UpdateId};

impl Session {
    /// Keeps what a commit answered.
    pub(crate) fn keep(
        &mut self,
        alloc: Global,
        committed: Committed,
        have: bool,
    ) -> Result<(), AllocError>
        requires running { IsRunning self.old }
        requires within { is_within (map entry_of committed.waiting) ≡ true }
        requires fits { self.old.state.gained + length committed.added < 2 ^ 32 }
        ensures { OnOk result (self.new ≡ with_commit (length committed.added) committed.waiting have self.old) }
    {
        let Committed { added, waiting } = committed;
        self.pending = waiting_after(alloc, waiting.into_vec())?;
        self.gained += added.as_slice().len() as u32;
        self.got_have = have;
        self.turns += fresh(self.began);
        self.began = true;
        Ok(())
    }

    /// Gives up after a commit that was refused.
    pub(crate) fn refuse(&mut self, alloc: Global, end: End) -> Out
        requires { self.old.state.turns < MAX_TURNS }
        ensures state { self.new ≡ with_refusal end self.old }
        ensures out { (list : List Entry) → out_of list result ≡ closing end }
    {
        self.turns += fresh(self.began);
        self.began = true;
        self.pending = Pending::new(alloc);
        self.end(alloc, end)
    }

    /// The Turn to send now. What it asks for is no longer sought.
    pub(crate) fn own_turn<H: Holder>(
        &mut self,
        alloc: Global,
        holder: &H,
    ) -> Result<Turn, AllocError>
        requires settled { self.old.pending.gathered ≡ [] }
        requires seeks { Seeks (map entry_of (H.members holder.now)) self.old }
        ensures turn { IfOk result (λ own. (start : List Entry)
            → IsTurn (whole start self.old) (map entry_of (H.members holder.now))
            (map entry_of self.old.pending.waiting) (turn_of own)) }
        ensures left { IfOk result (λ own. LeavesSought (map entry_of (H.members holder.now)) (turn_of own) self.old
            self.new.sought) }
        ensures state { OnOk result (self.new ≡ record self.old { sought = self.new.sought }) }
    {
        match &self.peer {
            None => Ok(Turn::all_held(alloc)),
            Some(peer) => turn_for(
                alloc,
                holder,
                peer.heads.as_slice(),
                &self.pending,
                &self.asked,
                &mut self.sought,
            ),
        }
    }

    /// What the next turn begins with: the burst after turn 1, and else what the peer asked for.
    pub(crate) fn sent<H: Holder>(
        &self,
        alloc: Global,
        holder: &H,
        first: bool,
        turn: &Turn,
    ) -> Result<Vec<u32>, AllocError>
        requires within { self.now.below ≤ length (H.members holder.now) }
        requires closed { IsClosed (map entry_of (H.members holder.now)) }
        ensures exact { IfOk result (λ positions. IsSent first (seen (H.members holder.now) self.now) (turn_of turn.now)
            (filter_map (slice_get (map entry_of (H.members holder.now))) positions.items)) }
        ensures within { IfOk result (λ positions. All (λ p. p < length (H.members holder.now)) positions.items) }
    {
        if !first {
            return positions_of(alloc, holder, self.below, turn.needs.as_slice());
        }
        match &self.peer {
            None => Ok(Vec::new(alloc)),
            Some(peer) => burst(alloc, holder, self.below, peer),
        }
    }
}

/// The Turn of an end that is to have these heads.
fn turn_for<H: Holder>(
    alloc: Global,
    holder: &H,
    heads: &[UpdateId],
    pending: &Pending,
    asked: &BTreeSet<UpdateId>,
    sought: &mut Sought,
) -> Result<Turn, AllocError>
    requires settled { pending.now.gathered ≡ [] }
    requires sought { AreSought heads.now (map entry_of (H.members holder.now)) pending.now (keys asked.now)
        (keys_in sought.old) }
    ensures turn { IfOk result (λ own. TurnsFor heads.now (map entry_of (H.members holder.now))
        (map entry_of pending.now.waiting) (keys asked.now) (turn_of own)) }
    ensures left { IfOk result (λ own. StaySought (is_wanted heads.now (map entry_of (H.members holder.now))
        (map entry_of pending.now.waiting) (keys asked.now)) own.needs (keys_in sought.new)) }
{
    if has_all(holder, heads) {
        return Ok(Turn::all_held(alloc));
    }
    let ids = needs(alloc, holder, heads, pending, asked, sought)?;
    Ok(Turn::asking(IdList::from_vec(ids)))
}

/// Which fault a Turn shows after its commit, where this end then has this Turn to send.
pub(crate) fn late_fault<H: Holder>(
    holder: &H,
    below: u32,
    peer_asked: &BTreeSet<UpdateId>,
    first: bool,
    turn: &Turn,
    own: &Turn,
) -> Option<PeerFault>
    ensures { result ≡ late_fault_at first (take below (map entry_of (H.members holder.now))) (keys peer_asked.now)
        (turn_of turn.now) (turn_of own.now) }
{
    if is_stalled(first, turn, own) {
        return Some(PeerFault::Stalled);
    }
    if let Some(id) = first_unknown(holder, below, turn.needs.as_slice()) {
        return Some(PeerFault::AskedUnknown(id));
    }
    if let Some(id) = first_again(peer_asked, turn.needs.as_slice()) {
        return Some(PeerFault::AskedAgain(id));
    }
    None
}

/// Whether a Turn goes nowhere: the peer's, other than turn 1, or the own one neither has all nor asks for anything.
fn is_stalled(first: bool, turn: &Turn, own: &Turn) -> bool
    ensures { result ≡ ((not first && (not turn.now.have && is_empty turn.now.needs)) || (not own.now.have && is_empty
        own.now.needs)) }
{
    !first && is_idle(turn) || is_idle(own)
}

/// Whether a Turn neither has all nor asks for anything.
fn is_idle(turn: &Turn) -> bool
    ensures { result ≡ (not turn.now.have && is_empty turn.now.needs) }
{
    !turn.have && turn.needs.as_slice().is_empty()
}
