//! The replicas and the sessions of a world.

ghost use Rattle.std.specs.Prelude.{◌≡◌, IfOk, OnOk, map, slice_get};
ghost use Rattle.row_check.specs.Checksum.{is_luhn};
ghost use Rattle.byzantine_world.specs.Events.{HasForm, IsStep, cut_code_with};
ghost use Rattle.byzantine_world.specs.Standing.{IsStanding};
ghost use Rattle.world_rules.specs.Worlds.{is_up};

use crate::talk::Talk;
use numbered_words::Words;
use std::alloc::{AllocError, Global};
use world_rules::{Event, Site, Stepped};

/// The replicas, the sessions by their numbers, and the words that are left.
#[derive(Drop)]
pub(crate) struct State {
    pub alloc: Global,
    pub sites: Vec<Site>,
    pub talks: Vec<Option<Talk>>,
    pub words: Words,
}

impl State {
    /// Whether the replica with this number is there and up.
    pub fn is_up(&self, replica: u32) -> bool
        ensures { result ≡ is_up (slice_get self.now.sites.items replica) }
    {
        match self.sites.get(replica as usize) {
            Some(site) => !site.is_down(),
            None => false,
        }
    }

    /// Cuts the sessions of a replica.
    pub fn cut_with(&mut self, replica: u32)
        ensures sites { self.new.sites.items ≡ self.old.sites.items }
        ensures talks { self.new.talks.items ≡ map (cut_code_with replica) self.old.talks.items }
    {
        cut_all(self.talks.as_mut_slice(), replica);
    }

    /// Whether a call of a disk failed for want of memory.
    pub fn starved(&self) -> bool {
        self.sites.iter().any(|site| site.starved())
    }

    /// An event happens.
    pub fn happen(&mut self, event: &Event) -> Result<Stepped, AllocError>
        requires stands { IsStanding self.old.sites.items self.old.talks.items }
        requires form { HasForm event.now }
        ensures step { IfOk result (λ answer. IsStep is_luhn self.old.sites.items self.old.talks.items event.now answer
            self.new.sites.items self.new.talks.items) }
        ensures stands { OnOk result (IsStanding self.new.sites.items self.new.talks.items) }
    {
        match event {
            Event::Make { replica, ops } => self.make(*replica, ops),
            Event::Start {
                session,
                first,
                second,
            } => self.start(*session, *first, *second),
            Event::Carry { session, forward } => self.carry(*session, *forward),
            Event::Cut { session } => Ok(self.cut(*session)),
            Event::Feed { session, bytes } => self.feed(*session, bytes.as_slice()),
            Event::Stop { replica, calls } => Ok(self.stop(*replica, *calls)),
            Event::Restart { replica, choice } => self.restart(*replica, *choice),
        }
    }
}

/// Cuts those of the sessions in which a replica takes part.
fn cut_all(talks: &mut [Option<Talk>], replica: u32)
    ensures { talks.new ≡ map (cut_code_with replica) talks.old }
{
    'talks: for talk in talks.iter_mut() {
        cut_one(talk, replica);
    }
}

/// Cuts a session where a replica takes part in it.
fn cut_one(talk: &mut Option<Talk>, replica: u32)
    ensures { talk.new ≡ cut_code_with replica talk.old }
{
    if let Some(talk) = talk {
        if talk.has(replica) {
            talk.cut();
        }
    }
}
