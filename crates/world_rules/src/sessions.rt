//! The sessions of a replica: how they begin, what a frame does, and what is remembered of them.

ghost use Rattle.std.specs.Prelude.{◌≡◌, ◌≤◌, ◌<◌, false, IfOk, OnOk, None, length, map};
ghost use Rattle.std.specs.List.Sorted.{IsStrictlySortedBy};
ghost use Rattle.session_rules.specs.declared.limits.TheConstants.{MAX_NEEDS};
ghost use Rattle.update_codec.specs.Parts.{entry_of};
ghost use Rattle.update_model.specs.Batch.{store_limits};
ghost use Rattle.update_model.specs.Entry.{id_cmp};
ghost use Rattle.sync_session.specs.Kept.{frame_of, out_of, seen, BelongsTo, IsFrameUnder};
ghost use Rattle.sync_session.specs.Starts.{StartsAs};
ghost use Rattle.world_rules.specs.Happens.{RemembersOf, TakesOne};
ghost use Rattle.world_rules.specs.Worlds.{held_by};
ghost use Rattle.world_rules.specs.Sites.{recalled_of, with_remembered, with_store};

use crate::site::Site;
use session_rules::{End, Role};
use std::alloc::AllocError;
use sync_session::{CheckedFrame, Out, Session};
use update_model::IdList;

impl Site {
    /// Begins a session over what it holds, with what it remembers of the replica with this number; of a liar nothing
    /// is remembered, and there is no number.
    pub fn start(&self, role: Role, other: Option<u32>) -> Result<(Session, Out), AllocError>
        ensures starts { IfOk result (λ p. StartsAs role self.now.store.history.schema.rule.database self.now.store.node
            (recalled_of self.now other) (held_by self.now) p.0 p.1) }
        ensures belongs { IfOk result (λ p. BelongsTo store_limits self.now.store.history.schema.rule p.0
            (held_by self.now)) }
    {
        let recalled = self.recalled(other)?;
        let database = self.store.schema().rule().database;
        let node = self.store.node();
        Session::start(self.alloc, &self.store, role, database, node, recalled)
    }

    /// What it remembers of the replica with this number.
    fn recalled(&self, other: Option<u32>) -> Result<IdList, AllocError>
        ensures ids { IfOk result (λ ids. ids ≡ recalled_of self.now other) }
        ensures few { IfOk result (λ ids. length ids ≤ MAX_NEEDS) }
        ensures rising { IfOk result (λ ids. IsStrictlySortedBy id_cmp ids) }
    {
        let Some(number) = other else {
            return Ok(IdList::from_vec(Vec::new(self.alloc)));
        };
        match self.remembered.get(number as usize) {
            Some(ids) => ids.copy(self.alloc),
            None => Ok(IdList::from_vec(Vec::new(self.alloc))),
        }
    }

    /// An end of a session takes a frame over what the replica holds. Where the end ends by it, `end` of what is
    /// answered says how.
    pub fn take(&mut self, session: &mut Session, frame: CheckedFrame) -> Result<Out, AllocError>
        requires belongs { BelongsTo store_limits self.old.store.history.schema.rule session.old (held_by self.old) }
        requires under { IsFrameUnder self.old.store.history.schema.rule frame }
        requires runs { session.old.failed ≡ false }
        ensures takes { IfOk result (λ out. TakesOne self.old.store (seen (held_by self.old) session.old)
            (frame_of frame)
            (seen (held_by self.new) session.new) (out_of (map entry_of (held_by self.new)) out) self.new.store) }
        ensures ended { session.old.state.ended ≡ None → IfOk result (λ out. session.new.state.ended ≡ out.end) }
        ensures belongs { OnOk result (BelongsTo store_limits self.old.store.history.schema.rule session.new
            (held_by self.new)) }
        ensures runs { OnOk result (session.new.failed ≡ false) }
        ensures same { self.new ≡ with_store self.old self.new.store self.old.key }
    {
        session.step(self.alloc, &mut self.store, frame)
    }

    /// Remembers heads of the replica with this number, where this end of a session with it is done.
    pub fn remember(
        &mut self,
        other: u32,
        session: &Session,
        end: Option<End>,
    ) -> Result<(), AllocError>
        requires there { other < length self.old.remembered }
        requires belongs { BelongsTo store_limits self.old.store.history.schema.rule session.now (held_by self.old) }
        requires runs { session.now.failed ≡ false }
        requires ended { session.now.state.ended ≡ end }
        ensures remembers { OnOk result (RemembersOf self.old other (seen (held_by self.old) session.now)
            self.new.remembered) }
        ensures same { self.new ≡ with_remembered self.old self.new.remembered }
    {
        let ids = session.remembered(self.alloc)?;
        if let Some(End::Done) = end {
            self.remembered[other as usize] = ids;
        }
        Ok(())
    }
}
