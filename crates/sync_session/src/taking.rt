//! What follows a commit: the own Turn, the judgement of the peer's, and the next turn.

ghost use Rattle.std.specs.Prelude.{◌≡◌, ◌≢◌, [], ◌+◌, ◌<◌, ◌≤◌, ◌^◌, true, ◌&&◌, Some, None, if◌then◌else◌, All, IfOk};
ghost use Rattle.std.specs.Prelude.{OnOk, length, map};
ghost use Rattle.bec_bytes.specs.Causes.{Rose};
ghost use Rattle.session_rules.specs.declared.end.End.TheVariants.{Done as done, Full as full, Store as store};
ghost use Rattle.session_rules.specs.declared.limits.TheConstants.{MAX_TURNS};
ghost use Rattle.update_check.specs.Holding.{IsHeld};
ghost use Rattle.update_codec.specs.Parts.{entry_of};
ghost use Rattle.update_model.specs.Graph.{is_within, IsClosed};
ghost use Rattle.sync_session.specs.Kept.{turn_of, updates_in, with_commit, GrowsBy, IsRunning, IsSeeking};
ghost use Rattle.sync_session.specs.Kept.{LeavesSought, Seeks, Stands};
ghost use Rattle.sync_session.specs.Turns.{Awaits, RepliesTo, SettlesTo, TakesTurn, IsOrdered};

use crate::ids::join;
use crate::reading::{Reading, is_first, turn_fault};
use crate::turn::late_fault;
use crate::{Out, Session};
use session_rules::End;
use std::alloc::{AllocError, Global};
use std::collections::VecDeque;
use sync_frames::Turn;
use update_check::{CommitFault, Committed, Holder};
use update_model::PositionList;

impl Session {
    /// A Turn comes: what waits and what was gathered is committed, and this end answers.
    pub(crate) fn take_turn<H: Holder>(
        &mut self,
        alloc: Global,
        holder: &mut H,
        turn: &Turn,
    ) -> Result<Out, AllocError>
        requires running { IsRunning self.old }
        requires held { IsHeld (H.limits holder.old) (H.rule holder.old) (H.members holder.old) }
        requires gained { self.old.state.gained ≤ length (H.members holder.old) }
        requires stands { Stands (H.rule holder.old) self.old (H.members holder.old) }
        requires rising { IsOrdered self.old }
        ensures takes { IfOk result (λ out. TakesTurn (H.limits holder.old) self.old (H.members holder.old)
            (turn_of turn.now) self.new out (H.members holder.new)) }
        ensures within { IfOk result (λ out. All (λ p. p < length (H.members holder.new)) out.send) }
        ensures stands { OnOk result (Stands (H.rule holder.old) self.new (H.members holder.new)) }
        ensures failed { OnOk result (self.new.failed ≡ self.old.failed) }
        ensures grows { GrowsBy (updates_in self.old) (H.members holder.old) (H.members holder.new) }
        ensures later { H.faults holder.old ≤ H.faults holder.new }
        ensures store { IfOk result (λ out. out.end ≡ Some store → Rose (H.faults holder.old) (H.faults holder.new)) }
        ensures keeps { H.keeps holder.old holder.new }
        ensures whole { H.is_whole holder.old → IfOk result (λ out. out.end ≢ Some full → out.end ≢ Some store
            → H.is_whole holder.new) }
        ensures limits { H.limits holder.new ≡ H.limits holder.old }
        ensures rule { H.rule holder.new ≡ H.rule holder.old }
    {
        let fault = turn_fault(self.role, &self.reading, self.got_have, turn);
        if let Some(fault) = fault {
            return Ok(self.end(alloc, End::Peer(fault)));
        }
        let batch = self.pending.take(alloc)?;
        match holder.commit(alloc, batch) {
            Ok(committed) => self.answer_turn(alloc, holder, turn, committed),
            Err(CommitFault::Full) => Ok(self.refuse(alloc, End::Full)),
            Err(CommitFault::DiskFault) => Ok(self.refuse(alloc, End::Store)),
            Err(CommitFault::Memory) => Err(AllocError),
        }
    }

    /// Answers a Turn whose commit added what could be added.
    fn answer_turn<H: Holder>(
        &mut self,
        alloc: Global,
        holder: &H,
        turn: &Turn,
        committed: Committed,
    ) -> Result<Out, AllocError>
        requires running { IsRunning self.old }
        requires within { is_within (map entry_of committed.waiting) ≡ true }
        requires closed { IsClosed (map entry_of (H.members holder.now)) }
        requires fits { self.old.state.gained + length committed.added < 2 ^ 32 }
        requires below { self.old.below ≤ length (H.members holder.now) }
        requires rising { IsOrdered self.old }
        requires seeks { Seeks (map entry_of (H.members holder.now)) (with_commit 0 committed.waiting true self.old) }
        ensures seeks { OnOk result (IsSeeking (map entry_of (H.members holder.now)) self.new) }
        ensures settles { IfOk result (λ out. SettlesTo (map entry_of (H.members holder.now)) (length committed.added)
            committed.waiting (turn_of turn.now) self.old self.new out) }
        ensures within { IfOk result (λ out. All (λ p. p < length (H.members holder.now)) out.send) }
    {
        let first = is_first(self.role, &self.reading);
        let both = have_both(self.sent_have, turn.have);
        self.keep(alloc, committed, turn.have)?;
        let own = self.own_turn(alloc, holder)?;
        let fault = late_fault(holder, self.below, &self.peer_asked, first, turn, &own);
        if let Some(fault) = fault {
            return Ok(self.end(alloc, End::Peer(fault)));
        }
        if both {
            return Ok(self.end(alloc, End::Done));
        }
        self.reply(alloc, holder, first, turn, own)
    }

    /// Sends the next turn.
    fn reply<H: Holder>(
        &mut self,
        alloc: Global,
        holder: &H,
        first: bool,
        turn: &Turn,
        own: Turn,
    ) -> Result<Out, AllocError>
        requires turns { self.old.state.turns ≤ MAX_TURNS }
        requires closed { IsClosed (map entry_of (H.members holder.now)) }
        requires below { self.old.below ≤ length (H.members holder.now) }
        requires rising { IsOrdered self.old }
        requires left { LeavesSought (map entry_of (H.members holder.now)) (turn_of own) self.old self.old.sought }
        requires settled { self.old.pending.gathered ≡ [] }
        ensures seeks { OnOk result (IsSeeking (map entry_of (H.members holder.now)) self.new) }
        ensures replies { IfOk result (λ out. RepliesTo (map entry_of (H.members holder.now)) first (turn_of turn.now)
            (turn_of own) self.old self.new out) }
        ensures within { IfOk result (λ out. All (λ p. p < length (H.members holder.now)) out.send) }
    {
        let send = self.sent(alloc, holder, first, turn)?;
        self.await_answers(alloc, turn, &own)?;
        let end = ending(own.have, turn.have);
        self.ended = end;
        Ok(Out {
            hello: None,
            send: PositionList::from_vec(send),
            turn: Some(own),
            end,
        })
    }

    /// Keeps what was asked for, and awaits what this end asks for.
    fn await_answers(&mut self, alloc: Global, turn: &Turn, own: &Turn) -> Result<(), AllocError>
        requires turns { self.old.state.turns ≤ MAX_TURNS }
        requires rising { IsOrdered self.old }
        ensures { OnOk result (Awaits (turn_of turn.now) (turn_of own.now) self.old self.new) }
    {
        join(&mut self.asked, own.needs.as_slice())?;
        join(&mut self.peer_asked, turn.needs.as_slice())?;
        self.reading = Reading::Answers(VecDeque::from_vec(Vec::from_slice(
            alloc,
            own.needs.as_slice(),
        )?));
        self.began = false;
        self.items = 0;
        self.turns += 1;
        self.sent_have = own.have;
        Ok(())
    }
}

/// How the session ends where both ends have sent and received a Turn: it is done once both have all.
fn ending(own: bool, peer: bool) -> Option<End>
    ensures { result ≡ (if own && peer then Some done else None) }
{
    if have_both(own, peer) {
        Some(End::Done)
    } else {
        None
    }
}

/// Whether both ends have all.
fn have_both(own: bool, peer: bool) -> bool
    ensures { result ≡ (own && peer) }
{
    own && peer
}
