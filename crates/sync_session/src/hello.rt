//! What a session does with the peer's Hello.

ghost use Rattle.std.specs.Prelude.{◌≡◌, [], ◌+◌, ◌<◌, ◌≤◌, ◌^◌, All, IfOk, OnOk, List, length, map};
ghost use Rattle.session_rules.specs.State.{Hello as hello_frame};
ghost use Rattle.session_rules.specs.Steps.{silent, Takes};
ghost use Rattle.update_check.specs.Holding.{IsHeld};
ghost use Rattle.update_codec.specs.Parts.{entry_of};
ghost use Rattle.update_model.specs.Batch.{Limits};
ghost use Rattle.update_model.specs.Entry.{Entry};
ghost use Rattle.sync_session.specs.Kept.{hello_fault_at, hello_of, out_of, reading_of, seen, with_hello, with_peer};
ghost use Rattle.sync_session.specs.Kept.{GreetsOver, IsRunning, Stands};
ghost use Rattle.sync_session.specs.Wants.{SeeksToo};

use crate::greeting::burst;
use crate::lookup::has_all;
use crate::reading::{Reading, fresh, takes_hello};
use crate::sought::seek;
use crate::{Out, Session};
use session_rules::{End, PeerFault, Role};
use std::alloc::{AllocError, Global};
use sync_frames::{Hello, Turn};
use update_check::Holder;
use update_model::{IdList, PositionList};

impl Session {
    /// A Hello comes.
    pub(crate) fn take_hello<H: Holder>(
        &mut self,
        alloc: Global,
        holder: &H,
        hello: Hello,
    ) -> Result<Out, AllocError>
        requires running { IsRunning self.old }
        requires stands { Stands (H.rule holder.now) self.old (H.members holder.now) }
        ensures takes { IfOk result (λ out. (limits : Limits) →
            Takes limits (seen (H.members holder.now) self.old) (map entry_of (H.members holder.now))
            (hello_frame (hello_of hello))
            (seen (H.members holder.now) self.new) (out_of (map entry_of (H.members holder.now)) out)
            (map entry_of (H.members holder.now))) }
        ensures within { IfOk result (λ out. All (λ p. p < length (H.members holder.now)) out.send) }
        ensures stands { OnOk result (Stands (H.rule holder.now) self.new (H.members holder.now)) }
        ensures failed { OnOk result (self.new.failed ≡ self.old.failed) }
    {
        if let Some(fault) = hello_fault(&self.database, &self.reading, &hello.database) {
            return Ok(self.end(alloc, End::Peer(fault)));
        }
        match self.role {
            Role::Initiator => self.hear(alloc, hello),
            Role::Responder => self.greet(alloc, holder, hello),
        }
    }

    /// The initiator takes the responder's Hello.
    fn hear(&mut self, alloc: Global, hello: Hello) -> Result<Out, AllocError>
        requires { IsRunning self.old }
        ensures state { OnOk result (self.new ≡ with_hello hello self.new.sought self.old) }
        ensures sought { OnOk result (SeeksToo self.old.sought hello.heads self.new.sought) }
        ensures out { IfOk result (λ out. (list : List Entry) → out_of list out ≡ silent) }
    {
        seek(&mut self.sought, hello.heads.as_slice(), None)?;
        self.peer = Some(hello);
        self.reading = Reading::Burst;
        self.turns += fresh(self.began);
        self.began = true;
        Ok(Out::silent(alloc))
    }

    /// The responder takes the initiator's Hello, and sends its own, its burst and its first Turn.
    fn greet<H: Holder>(
        &mut self,
        alloc: Global,
        holder: &H,
        hello: Hello,
    ) -> Result<Out, AllocError>
        requires running { IsRunning self.old }
        requires stands { Stands (H.rule holder.now) self.old (H.members holder.now) }
        ensures greets { IfOk result (λ out. GreetsOver (map entry_of (H.members holder.now)) hello self.old self.new
            out) }
        ensures within { IfOk result (λ out. All (λ p. p < length (H.members holder.now)) out.send) }
        ensures below { OnOk result (self.new.below ≡ length (H.members holder.now)) }
    {
        let answer = self.answer_hello(alloc, holder, &hello);
        self.peer = Some(hello);
        answer
    }

    /// What the responder sends for the initiator's Hello, which it is to keep.
    fn answer_hello<H: Holder>(
        &mut self,
        alloc: Global,
        holder: &H,
        hello: &Hello,
    ) -> Result<Out, AllocError>
        requires running { IsRunning self.old }
        requires stands { Stands (H.rule holder.now) self.old (H.members holder.now) }
        ensures greets { IfOk result (λ out. GreetsOver (map entry_of (H.members holder.now)) hello.now self.old
            (with_peer hello.now self.new) out) }
        ensures within { IfOk result (λ out. All (λ p. p < length (H.members holder.now)) out.send) }
        ensures below { OnOk result (self.new.below ≡ length (H.members holder.now)) }
    {
        let send = burst(alloc, holder, holder.len(), hello)?;
        let own = self.say_hello(alloc, holder)?;
        let have = has_all(holder, hello.heads.as_slice());
        seek(&mut self.sought, hello.heads.as_slice(), None)?;
        self.reading = Reading::Burst;
        self.turns += 2;
        self.sent_have = have;
        Ok(Out {
            hello: Some(own),
            send: PositionList::from_vec(send),
            turn: Some(first_turn(alloc, have)),
            end: None,
        })
    }
}

/// The first Turn of a responder, which asks for nothing.
fn first_turn(alloc: Global, have: bool) -> Turn
    ensures { result ≡ record { have = have; needs = [] } }
{
    if have {
        Turn::all_held(alloc)
    } else {
        Turn::asking(IdList::from_vec(Vec::new(alloc)))
    }
}

/// Which fault a Hello of this database shows here.
fn hello_fault(own: &[u8; 32], reading: &Reading, database: &[u8; 32]) -> Option<PeerFault>
    ensures { result ≡ hello_fault_at own.now (reading_of reading.now) database.now }
{
    if database != own {
        return Some(PeerFault::WrongDatabase);
    }
    if takes_hello(reading) {
        None
    } else {
        Some(PeerFault::OutOfTurn)
    }
}
