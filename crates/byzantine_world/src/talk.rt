//! The sessions of a world, as its code keeps them.

ghost use Rattle.std.specs.Prelude.{◌≡◌, IfOk};
ghost use Rattle.update_check.specs.Members.{AreMembers};
ghost use Rattle.sync_session.specs.Kept.{IsFrameUnder};
ghost use Rattle.world_rules.specs.Worlds.{held_by};
ghost use Rattle.byzantine_world.specs.Codes.{cut_code, cut_talk, is_over_code, is_over_talk, side_of, takes_part_in};
ghost use Rattle.byzantine_world.specs.Standing.{IsSideSound};
ghost use Rattle.byzantine_world.specs.Taking.{TakesFrame};

use session_rules::End;
use std::alloc::AllocError;
use std::collections::VecDeque;
use sync_frames::Frames;
use sync_session::{CheckedFrame, Out, Session};
use world_rules::Site;

/// A session of two correct replicas, or one with a liar.
#[derive(Drop)]
pub(crate) enum Talk {
    Both(Both),
    Liar(Liar),
}

/// A session of two correct replicas: their numbers, their ends, and the frames on the way to each.
#[derive(Drop)]
pub(crate) struct Both {
    pub first: u32,
    pub second: u32,
    pub a: Side,
    pub b: Side,
    pub to_a: VecDeque<CheckedFrame>,
    pub to_b: VecDeque<CheckedFrame>,
}

/// A session with a liar: who began it, its end, and what came of the liar's bytes.
#[derive(Drop)]
pub(crate) struct Liar {
    pub first: u32,
    pub end: Side,
    pub frames: Frames,
}

/// An end of a session: how it ended, where it did, and whether it was cut.
#[derive(Drop)]
pub(crate) struct Side {
    pub session: Session,
    pub ended: Option<End>,
    pub is_cut: bool,
}

impl Side {
    /// An end that begins with this session.
    pub fn of(session: Session) -> Side
        ensures { result ≡ side_of session }
    {
        Side {
            session,
            ended: None,
            is_cut: false,
        }
    }

    /// Whether it reads no more.
    pub fn is_over(&self) -> bool
        ensures { result ≡ is_over_code self.now }
    {
        self.ended.is_some() || self.is_cut
    }

    /// It is cut, unless it has ended.
    pub fn cut(&mut self)
        ensures { self.new ≡ cut_code self.old }
    {
        if self.ended.is_none() {
            self.is_cut = true;
        }
    }

    /// It takes a frame over what its replica holds.
    pub fn take(&mut self, site: &mut Site, frame: CheckedFrame) -> Result<Out, AllocError>
        requires sound { IsSideSound site.old.store.history.schema.rule (held_by site.old) self.old }
        requires members { AreMembers site.old.store.history.schema.rule (held_by site.old) }
        requires under { IsFrameUnder site.old.store.history.schema.rule frame }
        ensures takes { IfOk result (λ out. TakesFrame site.old self.old frame out site.new self.new) }
    {
        let out = site.take(&mut self.session, frame)?;
        if self.ended.is_none() {
            self.ended = out.end;
        }
        Ok(out)
    }
}

impl Talk {
    /// Whether the replica with this number takes part.
    pub fn has(&self, replica: u32) -> bool
        ensures { result ≡ takes_part_in replica self.now }
    {
        match self {
            Talk::Both(both) => both.first == replica || both.second == replica,
            Talk::Liar(liar) => liar.first == replica,
        }
    }

    /// Whether no end of it reads any more.
    pub fn is_over(&self) -> bool
        ensures { result ≡ is_over_talk self.now }
    {
        match self {
            Talk::Both(both) => both.a.is_over() && both.b.is_over(),
            Talk::Liar(liar) => liar.end.is_over(),
        }
    }

    /// Its ends are cut, unless they have ended.
    pub fn cut(&mut self)
        ensures { self.new ≡ cut_talk self.old }
    {
        match self {
            Talk::Both(both) => {
                both.a.cut();
                both.b.cut();
            }
            Talk::Liar(liar) => liar.end.cut(),
        }
    }
}
