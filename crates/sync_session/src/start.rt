//! How a session begins.

ghost use Rattle.std.specs.Prelude.{◌≡◌, ◌<◌, ◌≤◌, All, IfOk, OnOk, length, map};
ghost use Rattle.std.specs.List.Sorted.{IsStrictlySortedBy};
ghost use Rattle.session_rules.specs.declared.limits.TheConstants.{MAX_NEEDS};
ghost use Rattle.update_codec.specs.Parts.{entry_of};
ghost use Rattle.update_model.specs.Entry.{id_cmp};
ghost use Rattle.sync_session.specs.Greeting.{IsHelloOver};
ghost use Rattle.sync_session.specs.Kept.{BelongsTo};
ghost use Rattle.sync_session.specs.Starts.{before_hello, IsFresh, StartsAs};

use crate::greeting::own_hello;
use crate::pending::Pending;
use crate::reading::Reading;
use crate::{Out, Session};
use session_rules::Role;
use std::alloc::{AllocError, Global};
use std::collections::{BTreeMap, BTreeSet};
use sync_frames::Hello;
use update_check::Holder;
use update_model::{IdList, PositionList};

impl Session {
    /// Begins a session of this database, under this id of the own node. `recalled` are the ids that were remembered of
    /// the peer when they last met, which rise: none where they never did.
    ///
    /// The initiator makes its Hello from what the holder has now, and hands it out. The responder waits for the
    /// initiator's.
    pub fn start<H: Holder>(
        alloc: Global,
        holder: &H,
        role: Role,
        database: [u8; 32],
        node: [u8; 32],
        recalled: IdList,
    ) -> Result<(Session, Out), AllocError>
        requires few { length recalled ≤ MAX_NEEDS }
        requires rising { IsStrictlySortedBy id_cmp recalled }
        ensures starts { IfOk result (λ p. StartsAs role database node recalled (H.members holder.now) p.0 p.1) }
        ensures within { IfOk result (λ p. All (λ i. i < length (H.members holder.now)) p.1.send) }
        ensures belongs { IfOk result (λ p. BelongsTo (H.limits holder.now) (H.rule holder.now) p.0
            (H.members holder.now)) }
    {
        let mut session = Session::fresh(alloc, role, database, node, recalled);
        let out = session.open(alloc, holder)?;
        Ok((session, out))
    }

    /// Opens a session that is fresh over its holder's list: the initiator hands out its Hello.
    pub(crate) fn open<H: Holder>(&mut self, alloc: Global, holder: &H) -> Result<Out, AllocError>
        requires { IsFresh self.old.state.role self.old }
        ensures starts { IfOk result (StartsAs self.old.state.role self.old.state.database self.old.state.node
            self.old.state.old (H.members holder.now) self.new) }
        ensures within { IfOk result (λ out. All (λ i. i < length (H.members holder.now)) out.send) }
        ensures belongs { OnOk result (BelongsTo (H.limits holder.now) (H.rule holder.now) self.new
            (H.members holder.now)) }
    {
        holder.len(); // what every holder keeps
        match self.role {
            Role::Responder => Ok(Out::silent(alloc)),
            Role::Initiator => {
                let own = self.say_hello(alloc, holder)?;
                self.turns = 1;
                Ok(Out {
                    hello: Some(own),
                    send: PositionList::from_vec(Vec::new(alloc)),
                    turn: None,
                    end: None,
                })
            }
        }
    }

    /// Makes the own Hello over all that the holder has now, which is the start set from here on.
    pub(crate) fn say_hello<H: Holder>(
        &mut self,
        alloc: Global,
        holder: &H,
    ) -> Result<Hello, AllocError>
        ensures hello { IfOk result (IsHelloOver self.old.state.database self.old.state.node self.old.state.old
            (map entry_of (H.members holder.now))) }
        ensures state { IfOk result (λ own. self.new ≡ record self.old {
          below = length (H.members holder.now);
          heads = own.heads;
        }) }
    {
        self.heads = IdList::from_vec(holder.heads(alloc)?);
        self.below = holder.len();
        own_hello(
            alloc,
            holder,
            self.database,
            self.node,
            self.heads.as_slice(),
            self.recalled.as_slice(),
        )
    }

    /// A session before its own Hello.
    pub(crate) fn fresh(
        alloc: Global,
        role: Role,
        database: [u8; 32],
        node: [u8; 32],
        recalled: IdList,
    ) -> Session
        requires few { length recalled ≤ MAX_NEEDS }
        requires rising { IsStrictlySortedBy id_cmp recalled }
        ensures { result ≡ before_hello role database node recalled }
    {
        Session {
            role,
            database,
            node,
            recalled,
            heads: IdList::from_vec(Vec::new(alloc)),
            below: 0,
            peer: None,
            reading: Reading::Opening,
            began: false,
            items: 0,
            pending: Pending::new(alloc),
            asked: BTreeSet::new(alloc),
            peer_asked: BTreeSet::new(alloc),
            sought: BTreeMap::new(alloc),
            sent_have: false,
            got_have: false,
            turns: 0,
            gained: 0,
            ended: None,
            failed: false,
        }
    }
}
