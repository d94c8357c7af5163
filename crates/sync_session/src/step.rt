//! One frame to a session.

ghost use Rattle.std.specs.Prelude.{◌≡◌, ◌≢◌, ◌<◌, ◌≤◌, ◌||◌, true, is_some, Some, All, IfOk, OnOk, OnErr, length, map};
ghost use Rattle.bec_bytes.specs.Causes.{Rose};
ghost use Rattle.session_rules.specs.declared.end.End.TheVariants.{Full as full, Store as store};
ghost use Rattle.session_rules.specs.Steps.{Takes};
ghost use Rattle.update_check.specs.Holding.{IsHeld};
ghost use Rattle.update_codec.specs.Parts.{entry_of};
ghost use Rattle.sync_session.specs.Kept.{frame_of, out_of, seen, updates_in, BelongsTo, GrowsBy, IsFrameUnder};
ghost use Rattle.sync_session.specs.Kept.{IsRunning, Stands, StepsTo};
ghost use Rattle.sync_session.specs.Turns.{IsOrdered};

use crate::{CheckedFrame, Out, Session};
use session_rules::{End, PeerFault};
use std::alloc::{AllocError, Global};
use update_check::Holder;

impl Session {
    /// Takes the peer's next frame, and answers what is to be sent. Each position that is handed out is one of the
    /// holder's list as this leaves it.
    ///
    /// The session has to belong to the holder, as it does after [`Session::start`] and after each call of this: since
    /// then the holder's list has at most grown. An update has to be under the holder's rule. A session that has ended,
    /// or whose memory ran out in an earlier call, answers nothing and leaves the holder alone.
    ///
    /// Where memory runs out the session is over. What the holder added in the same call it keeps: some of what the
    /// session had gathered and of what waited. The end is `Store` only where the holder's count of faults rose. Where
    /// the end is neither `Full` nor `Store`, a holder that was whole is whole.
    pub fn step<H: Holder>(
        &mut self,
        alloc: Global,
        holder: &mut H,
        frame: CheckedFrame,
    ) -> Result<Out, AllocError>
        requires belongs { BelongsTo (H.limits holder.old) (H.rule holder.old) self.old (H.members holder.old) }
        requires under { IsFrameUnder (H.rule holder.old) frame }
        ensures steps { IfOk result (λ out. StepsTo (H.limits holder.old) self.old (H.members holder.old) frame self.new
            out (H.members holder.new)) }
        ensures within { IfOk result (λ out. All (λ p. p < length (H.members holder.new)) out.send) }
        ensures belongs { BelongsTo (H.limits holder.old) (H.rule holder.old) self.new (H.members holder.new) }
        ensures failed { OnErr result (self.new.failed ≡ true) }
        ensures grows { GrowsBy (updates_in self.old) (H.members holder.old) (H.members holder.new) }
        ensures later { H.faults holder.old ≤ H.faults holder.new }
        ensures store { IfOk result (λ out. out.end ≡ Some store → Rose (H.faults holder.old) (H.faults holder.new)) }
        ensures keeps { H.keeps holder.old holder.new }
        ensures whole { H.is_whole holder.old → IfOk result (λ out. out.end ≢ Some full → out.end ≢ Some store
            → H.is_whole holder.new) }
        ensures limits { H.limits holder.new ≡ H.limits holder.old }
        ensures rule { H.rule holder.new ≡ H.rule holder.old }
    {
        if self.is_over() {
            return Ok(Out::silent(alloc));
        }
        holder.len(); // what every holder keeps
        match self.take(alloc, holder, frame) {
            Ok(out) => Ok(out),
            Err(fault) => {
                self.failed = true;
                Err(fault)
            }
        }
    }

    /// Ends the session where the caller's memory ran out over a frame: it is over, as where its own did.
    pub fn give_up(&mut self)
        ensures { self.new ≡ record self.old { failed = true } }
    {
        self.failed = true;
    }

    /// Whether no frame is answered any more.
    pub(crate) fn is_over(&self) -> bool
        ensures { result ≡ (self.now.failed || is_some self.now.state.ended) }
    {
        self.failed || self.ended.is_some()
    }

    /// Takes a frame where the session is not over.
    fn take<H: Holder>(
        &mut self,
        alloc: Global,
        holder: &mut H,
        frame: CheckedFrame,
    ) -> Result<Out, AllocError>
        requires running { IsRunning self.old }
        requires held { IsHeld (H.limits holder.old) (H.rule holder.old) (H.members holder.old) }
        requires gained { self.old.state.gained ≤ length (H.members holder.old) }
        requires stands { Stands (H.rule holder.old) self.old (H.members holder.old) }
        requires rising { IsOrdered self.old }
        requires under { IsFrameUnder (H.rule holder.old) frame }
        ensures takes { IfOk result (λ out. Takes (H.limits holder.old) (seen (H.members holder.old) self.old)
            (map entry_of (H.members holder.old)) (frame_of frame)
            (seen (H.members holder.new) self.new) (out_of (map entry_of (H.members holder.new)) out)
            (map entry_of (H.members holder.new))) }
        ensures within { IfOk result (λ out. All (λ p. p < length (H.members holder.new)) out.send) }
        ensures stands { OnOk result (Stands (H.rule holder.old) self.new (H.members holder.new)) }
        ensures failed { OnOk result (self.new.failed ≡ self.old.failed) }
        ensures grows { GrowsBy (updates_in self.old) (H.members holder.old) (H.members holder.new) }
        ensures later { H.faults holder.old ≤ H.faults holder.new }
        ensures store { IfOk result (λ out. out.end ≡ Some store → Rose (H.faults holder.old) (H.faults holder.new)) }
        ensures keeps { H.keeps holder.old holder.new }
        ensures whole { H.is_whole holder.old → IfOk result (λ out. out.end ≢ Some full → out.end ≢ Some store
            → H.is_whole holder.new) }
        ensures limits { H.limits holder.new ≡ H.limits holder.old }
        ensures rule { H.rule holder.new ≡ H.rule holder.old }
    {
        match frame {
            CheckedFrame::Hello(hello) => self.take_hello(alloc, holder, hello),
            CheckedFrame::OtherVersion(_) => Ok(self.end(alloc, End::Peer(PeerFault::Version))),
            CheckedFrame::Item(update) => self.take_item(alloc, update),
            CheckedFrame::BadItem(fault) => Ok(self.take_bad_item(alloc, fault)),
            CheckedFrame::Turn(turn) => self.take_turn(alloc, holder, &turn),
            CheckedFrame::BadFrame(place) => Ok(self.end(
                alloc,
                End::Peer(PeerFault::BadFrame(place)),
            )),
        }
    }
}
