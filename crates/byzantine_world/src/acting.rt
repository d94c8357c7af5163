//! Events of one replica, or of one session as a whole: Make, Stop, Restart and Cut.

ghost use Rattle.std.specs.Prelude.{◌≡◌, IfOk, OnOk};
ghost use Rattle.row_check.specs.Checksum.{is_luhn};
ghost use Rattle.byzantine_world.specs.Events.{AreOpsOfMake, Cuts, IsStep};
ghost use Rattle.byzantine_world.specs.Standing.{IsStanding};
ghost use Rattle.world_rules.specs.Happens.{Answers, has_failed};
ghost use Rattle.world_rules.specs.declared.event.Event.TheVariants.{Make as MakeEvent, Stop as StopEvent};
ghost use Rattle.world_rules.specs.declared.event.Event.TheVariants.{Restart as RestartEvent, Cut as CutEvent};

use crate::state::State;
use crate::talk::Talk;
use rand_core::Rng;
use replica::MakeFault;
use schema_text::{declared_is_sound, one_schema};
use std::alloc::AllocError;
use update_model::{OpList, UpdateId};
use world_rules::Stepped;

impl State {
    /// A replica makes an update. Its C is drawn whether it is refused or not.
    pub fn make(&mut self, replica: u32, ops: &OpList) -> Result<Stepped, AllocError>
        requires stands { IsStanding self.old.sites.items self.old.talks.items }
        requires form { AreOpsOfMake ops.now }
        ensures step { IfOk result (λ answer. IsStep is_luhn self.old.sites.items self.old.talks.items
            (MakeEvent replica ops.now) answer self.new.sites.items self.new.talks.items) }
        ensures stands { OnOk result (IsStanding self.new.sites.items self.new.talks.items) }
    {
        if !self.is_up(replica) {
            return Ok(Stepped::NoSuch);
        }
        let ops = ops.copy(self.alloc)?;
        let mut c = [0; 32];
        self.words.fill_bytes(&mut c);
        let site = &mut self.sites[replica as usize];
        let made = site.make(ops, &c);
        if has_failed(&made) {
            site.sink();
            self.cut_with(replica);
        }
        answer_of(made)
    }

    /// Each disk of a replica passes so many calls more, and then fails every call.
    pub fn stop(&mut self, replica: u32, calls: u32) -> Stepped
        requires stands { IsStanding self.old.sites.items self.old.talks.items }
        ensures step { IsStep is_luhn self.old.sites.items self.old.talks.items (StopEvent replica calls) result
            self.new.sites.items self.new.talks.items }
        ensures stands { IsStanding self.new.sites.items self.new.talks.items }
    {
        if !self.is_up(replica) {
            return Stepped::NoSuch;
        }
        self.sites[replica as usize].arm(calls);
        Stepped::Done
    }

    /// A replica stops, and opens what a crash left. Where memory runs out it is lost.
    pub fn restart(&mut self, replica: u32, choice: u64) -> Result<Stepped, AllocError>
        requires stands { IsStanding self.old.sites.items self.old.talks.items }
        ensures step { IfOk result (λ answer. IsStep is_luhn self.old.sites.items self.old.talks.items
            (RestartEvent replica choice) answer self.new.sites.items self.new.talks.items) }
        ensures stands { OnOk result (IsStanding self.new.sites.items self.new.talks.items) }
    {
        one_schema();
        declared_is_sound();
        if replica as usize >= self.sites.len() {
            return Ok(Stepped::NoSuch);
        }
        let site = self.sites.remove(replica as usize);
        let new = site.restart(choice)?;
        self.sites.insert(replica as usize, new)?;
        self.cut_with(replica);
        Ok(Stepped::Done)
    }

    /// A session is cut.
    pub fn cut(&mut self, session: u32) -> Stepped
        requires stands { IsStanding self.old.sites.items self.old.talks.items }
        ensures step { IsStep is_luhn self.old.sites.items self.old.talks.items (CutEvent session) result
            self.new.sites.items self.new.talks.items }
        ensures stands { IsStanding self.new.sites.items self.new.talks.items }
    {
        if session as usize >= self.talks.len() {
            return Stepped::NoSuch;
        }
        cut_session(&mut self.talks[session as usize])
    }
}

/// Cuts a session, unless there is none that has an end to be cut.
fn cut_session(talk: &mut Option<Talk>) -> Stepped
    ensures { Cuts talk.old result talk.new }
{
    match talk {
        None => Stepped::NoSuch,
        Some(talk) => {
            if talk.is_over() {
                return Stepped::NoSuch;
            }
            talk.cut();
            Stepped::Done
        }
    }
}

/// Whether a Make leaves its replica down.
fn has_failed(made: &Result<UpdateId, MakeFault>) -> bool
    ensures { result ≡ has_failed made.now }
{
    match made {
        Ok(_) => false,
        Err(MakeFault::DiskFault(_)) => true,
        Err(_) => false,
    }
}

/// What a Make answers.
fn answer_of(made: Result<UpdateId, MakeFault>) -> Result<Stepped, AllocError>
    ensures { IfOk result (Answers made) }
{
    match made {
        Ok(_) => Ok(Stepped::Done),
        Err(MakeFault::Invalid { .. }) => Ok(Stepped::Refused(1)),
        Err(MakeFault::TooManyHeads(_)) => Ok(Stepped::Refused(2)),
        Err(MakeFault::Spent) => Ok(Stepped::Refused(3)),
        Err(MakeFault::Full) => Ok(Stepped::Refused(4)),
        Err(MakeFault::DiskFault(_)) => Ok(Stepped::Refused(5)),
        Err(MakeFault::NotListed) => Ok(Stepped::Refused(6)),
        Err(MakeFault::TooLong(_)) => Ok(Stepped::Refused(7)),
        Err(MakeFault::Taken(_)) => Ok(Stepped::Refused(8)),
        Err(MakeFault::Memory) => Err(AllocError),
    }
}
