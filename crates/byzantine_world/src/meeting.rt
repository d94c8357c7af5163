//! The event Start: a session begins.

ghost use Rattle.std.specs.Prelude.{◌≡◌, ◌<◌, ◌&&◌, IfOk, OnOk, Some, None, true, length, is_none, nat_lt, slice_set};
ghost use Rattle.std.specs.VecDeque.{deque_items};
ghost use Rattle.row_check.specs.Checksum.{is_luhn};
ghost use Rattle.byzantine_world.specs.Codes.{is_free_in};
ghost use Rattle.byzantine_world.specs.Events.{IsStep, way_of};
ghost use Rattle.byzantine_world.specs.Sessions.{BeginBoth, Begins, BeginsFirst};
ghost use Rattle.byzantine_world.specs.Standing.{IsStanding};
ghost use Rattle.world_rules.specs.Happens.{recalled};
ghost use Rattle.world_rules.specs.Sites.{recalled_of};
ghost use Rattle.world_rules.specs.declared.event.Event.TheVariants.{Start as StartEvent};

use crate::state::State;
use crate::talk::{Both, Liar, Side, Talk};
use session_rules::Role;
use std::alloc::{AllocError, Global};
use std::collections::VecDeque;
use sync_frames::{Frames, Hello};
use sync_session::CheckedFrame;
use world_rules::{Site, Stepped};

impl State {
    /// A replica begins a session with another one, or with a liar, where the number is free.
    pub fn start(
        &mut self,
        session: u32,
        first: u32,
        second: Option<u32>,
    ) -> Result<Stepped, AllocError>
        requires stands { IsStanding self.old.sites.items self.old.talks.items }
        ensures step { IfOk result (λ answer. IsStep is_luhn self.old.sites.items self.old.talks.items
            (StartEvent session first second) answer self.new.sites.items self.new.talks.items) }
        ensures stands { OnOk result (IsStanding self.new.sites.items self.new.talks.items) }
    {
        if !self.is_free(session) {
            return Ok(Stepped::NoSuch);
        }
        match second {
            None => self.start_with_liar(session, first),
            Some(second) => self.start_with(session, first, second),
        }
    }

    /// Whether no session has this number, which is one of a world.
    fn is_free(&self, session: u32) -> bool
        ensures { result ≡ is_free_in self.now.talks.items session }
    {
        match self.talks.get(session as usize) {
            Some(talk) => talk.is_none(),
            None => false,
        }
    }

    /// A session with a liar, who answers, at a number that is free.
    fn start_with_liar(&mut self, session: u32, first: u32) -> Result<Stepped, AllocError>
        requires stands { IsStanding self.old.sites.items self.old.talks.items }
        requires free { is_free_in self.old.talks.items session ≡ true }
        ensures step { IfOk result (λ answer. IsStep is_luhn self.old.sites.items self.old.talks.items
            (StartEvent session first None) answer self.new.sites.items self.new.talks.items) }
        ensures stands { OnOk result (IsStanding self.new.sites.items self.new.talks.items) }
    {
        if !self.is_up(first) {
            return Ok(Stepped::NoSuch);
        }
        let (end, _) = begin(&self.sites[first as usize], Role::Initiator, None)?;
        self.put(
            session,
            Talk::Liar(Liar {
                first,
                end,
                frames: Frames::new(self.alloc),
            }),
        );
        Ok(Stepped::Done)
    }

    /// A session of two replicas, at a number that is free. The Hello of who begins is on its way.
    fn start_with(&mut self, session: u32, first: u32, second: u32) -> Result<Stepped, AllocError>
        requires stands { IsStanding self.old.sites.items self.old.talks.items }
        requires free { is_free_in self.old.talks.items session ≡ true }
        ensures step { IfOk result (λ answer. IsStep is_luhn self.old.sites.items self.old.talks.items
            (StartEvent session first (Some second)) answer self.new.sites.items self.new.talks.items) }
        ensures stands { OnOk result (IsStanding self.new.sites.items self.new.talks.items) }
    {
        if !self.is_up(first) || !self.is_up(second) || first == second {
            return Ok(Stepped::NoSuch);
        }
        let one = &self.sites[first as usize];
        let other = &self.sites[second as usize];
        let both = begin_both(self.alloc, one, other, first, second)?;
        self.put(session, Talk::Both(both));
        Ok(Stepped::Done)
    }

    /// A session is what is at a number.
    fn put(&mut self, session: u32, talk: Talk)
        requires { session < length self.old.talks.items }
        ensures sites { self.new.sites.items ≡ self.old.sites.items }
        ensures talks { self.new.talks.items ≡ slice_set self.old.talks.items session (Some talk) }
    {
        self.talks[session as usize] = Some(talk);
    }
}

/// An end of a session begins over what a replica holds, with what it remembers of the replica with this number; of a
/// liar nothing is remembered. The Hello with which it begins is handed out.
fn begin(site: &Site, role: Role, other: Option<u32>) -> Result<(Side, Option<Hello>), AllocError>
    ensures { IfOk result (λ p. Begins role site.now (recalled_of site.now other) p.0 p.1) }
{
    let (begun, out) = site.start(role, other)?;
    Ok((Side::of(begun), out.hello))
}

/// The end that begins a session with the replica of this number, and its Hello on its way.
fn begin_first(
    alloc: Global,
    site: &Site,
    other: u32,
) -> Result<(Side, VecDeque<CheckedFrame>), AllocError>
    ensures { IfOk result (λ p. BeginsFirst site.now (recalled site.now other) p.0 (deque_items p.1)) }
{
    let (side, hello) = begin(site, Role::Initiator, Some(other))?;
    let frames = on_its_way(alloc, hello)?;
    Ok((side, frames))
}

/// A session of two replicas, with their numbers. The Hello of who begins is on its way.
fn begin_both(
    alloc: Global,
    one: &Site,
    other: &Site,
    first: u32,
    second: u32,
) -> Result<Both, AllocError>
    ensures { IfOk result (λ both. BeginBoth one.now other.now first second both) }
{
    let (a, to_b) = begin_first(alloc, one, second)?;
    let (b, _) = begin(other, Role::Responder, Some(first))?;
    Ok(Both {
        first,
        second,
        a,
        b,
        to_a: VecDeque::new(alloc),
        to_b,
    })
}

/// A Hello on its way, where there is one.
fn on_its_way(alloc: Global, hello: Option<Hello>) -> Result<VecDeque<CheckedFrame>, AllocError>
    ensures { IfOk result (λ frames. deque_items frames ≡ way_of hello) }
{
    let mut frames = VecDeque::new(alloc);
    if let Some(hello) = hello {
        frames.push_back(CheckedFrame::Hello(hello))?;
    }
    Ok(frames)
}
