//! The event Feed: a liar sends bytes.

ghost use Rattle.std.specs.Prelude.{◌≡◌, All, IfOk, OnOk, Some, slice_get};
ghost use Rattle.row_check.specs.Checksum.{is_luhn};
ghost use Rattle.sync_session.specs.Kept.{IsFrameUnder};
ghost use Rattle.update_check.specs.Members.{AreMembers};
ghost use Rattle.byzantine_world.specs.Events.{IsStep};
ghost use Rattle.byzantine_world.specs.Standing.{IsSideSound, IsStanding};
ghost use Rattle.byzantine_world.specs.Taking.{CanHear, HearsLiar, TakesFrames, hearer_in, liar_in};
ghost use Rattle.byzantine_world.specs.declared.talk.Liar.{Liar as LiarData};
ghost use Rattle.byzantine_world.specs.declared.talk.Talk.TheVariants.{Liar as LiarTalk};
ghost use Rattle.byzantine_world.specs.Codes.{is_over_code};
ghost use Rattle.world_rules.specs.Worlds.{flat, held_by};
ghost use Rattle.world_rules.specs.declared.event.Event.TheVariants.{Feed as FeedEvent};

use crate::carrying::is_store;
use crate::state::State;
use crate::talk::{Liar, Side, Talk};
use link_frames::checked_all;
use record_check::OneThread;
use session_rules::End;
use std::alloc::{AllocError, Global};
use sync_frames::{FeedError, one_split};
use sync_session::CheckedFrame;
use world_rules::{Site, Stepped};

impl State {
    /// The liar of a session sends bytes. Each frame that they complete is read, and behind them that what is left is
    /// no frame, where it is none.
    pub fn feed(&mut self, session: u32, bytes: &[u8]) -> Result<Stepped, AllocError>
        requires stands { IsStanding self.old.sites.items self.old.talks.items }
        ensures step { IfOk result (λ answer. IsStep is_luhn self.old.sites.items self.old.talks.items
            (FeedEvent session bytes.now) answer self.new.sites.items self.new.talks.items) }
        ensures stands { OnOk result (IsStanding self.new.sites.items self.new.talks.items) }
    {
        let Some(reader) = self.hearer(session) else {
            return Ok(Stepped::NoSuch);
        };
        let talk = &mut self.talks[session as usize];
        let site = &mut self.sites[reader as usize];
        let end = hear_end(self.alloc, talk, site, bytes)?;
        if is_store(&end) {
            site.sink();
            self.cut_with(reader);
        }
        Ok(Stepped::Done)
    }

    /// The number of the replica that hears a liar, where the session is one with a liar, and its end is not over.
    fn hearer(&self, session: u32) -> Option<u32>
        ensures { result ≡ hearer_in (liar_in (flat (slice_get self.now.talks.items session))) }
    {
        match self.talks.get(session as usize) {
            Some(Some(Talk::Liar(liar))) => {
                if liar.is_over() {
                    return None;
                }
                Some(liar.first)
            }
            Some(Some(Talk::Both(_))) => None,
            Some(None) => None,
            None => None,
        }
    }
}

/// The end of a session with a liar hears its bytes.
fn hear_end(
    alloc: Global,
    talk: &mut Option<Talk>,
    site: &mut Site,
    bytes: &[u8],
) -> Result<Option<End>, AllocError>
    requires { (liar : LiarData) → liar_in talk.old ≡ Some liar → CanHear site.old liar }
    ensures { IfOk result (λ end. (liar : LiarData) → liar_in talk.old ≡ Some liar
        → (new : LiarData) × (talk.new ≡ Some (LiarTalk new)) × HearsLiar site.old liar bytes.now site.new new
        × (end ≡ new.end.ended)) }
{
    match talk {
        Some(Talk::Liar(liar)) => liar.hear(alloc, site, bytes),
        Some(Talk::Both(_)) => Ok(None),
        None => Ok(None),
    }
}

impl Liar {
    /// Whether its end reads no more.
    fn is_over(&self) -> bool
        ensures { result ≡ is_over_code self.now.end }
    {
        self.end.is_over()
    }

    /// Its end takes the frames that bytes complete behind those that came before, each update as the check of updates
    /// finds it, and behind them that what is left is no frame, where it is none. The answer is how the end ended,
    /// where it did.
    fn hear(
        &mut self,
        alloc: Global,
        site: &mut Site,
        bytes: &[u8],
    ) -> Result<Option<End>, AllocError>
        requires { CanHear site.old self.old }
        ensures hears { OnOk result (HearsLiar site.old self.old bytes.now site.new self.new) }
        ensures ended { IfOk result (λ end. end ≡ self.new.end.ended) }
    {
        one_split();
        let Ok(whole) = self.frames.feed(alloc, bytes) else {
            return Err(AllocError);
        };
        let heard = checked_all(alloc, &OneThread, site.store().schema().rule(), whole)?;
        self.end.take_all(site, heard)?;
        match self.frames.feed(alloc, &[]) {
            Ok(_) => Ok(self.end.ended),
            Err(FeedError::Fault(fault)) => {
                self.end.take(site, CheckedFrame::BadFrame(fault.place))?;
                Ok(self.end.ended)
            }
            Err(FeedError::Memory) => Err(AllocError),
        }
    }
}

impl Side {
    /// It takes these frames in order.
    fn take_all(&mut self, site: &mut Site, heard: Vec<CheckedFrame>) -> Result<(), AllocError>
        requires sound { IsSideSound site.old.store.history.schema.rule (held_by site.old) self.old }
        requires members { AreMembers site.old.store.history.schema.rule (held_by site.old) }
        requires under { All (IsFrameUnder site.old.store.history.schema.rule) heard.items }
        ensures takes { OnOk result (TakesFrames site.old self.old heard.items site.new self.new) }
    {
        let mut frames = heard.into_iter();
        'frames: while let Some(frame) = frames.next() {
            self.take(site, frame)?;
        }
        Ok(())
    }
}
