//! What a session tells of itself.

ghost use Rattle.std.specs.Prelude.{◌≡◌, ◌≤◌, ◌||◌, option_map, length, IfOk};
ghost use Rattle.std.specs.List.Sorted.{IsStrictlySortedBy};
ghost use Rattle.session_rules.specs.declared.limits.TheConstants.{MAX_NEEDS};
ghost use Rattle.session_rules.specs.Steps.{heads_in, AreLeast};
ghost use Rattle.update_model.specs.Entry.{id_cmp};
ghost use Rattle.update_model.specs.Graph.{has};
ghost use Rattle.sync_session.specs.Kept.{hello_of};
ghost use Rattle.sync_session.specs.Starts.{RemembersBy, node_of};

use crate::Session;
use crate::ids::{join, least};
use session_rules::End;
use std::alloc::{AllocError, Global};
use std::collections::BTreeSet;
use sync_frames::Hello;
use update_model::{IdList, UpdateId};

impl Session {
    /// How many updates the commits of this session have added.
    pub fn gained(&self) -> u32
        ensures { result ≡ self.now.state.gained }
    {
        self.gained
    }

    /// Of how many turns this end has sent or read a frame.
    pub fn turns(&self) -> u32
        ensures { result ≡ self.now.state.turns }
    {
        self.turns
    }

    /// The id of the peer's node, once its Hello has come.
    pub fn peer(&self) -> Option<[u8; 32]>
        ensures { result ≡ option_map node_of self.now.state.peer }
    {
        match &self.peer {
            None => None,
            Some(hello) => Some(hello.node),
        }
    }

    /// The ids to remember of the peer: of a session that is done the least 4,096 of both Hellos' heads, and of any
    /// other none.
    pub fn remembered(&self, alloc: Global) -> Result<IdList, AllocError>
        ensures remembers { IfOk result (RemembersBy self.now.failed self.now) }
        ensures few { IfOk result (λ ids. length ids ≤ MAX_NEEDS) }
        ensures rising { IfOk result (λ ids. IsStrictlySortedBy id_cmp ids) }
    {
        if self.failed {
            return Ok(IdList::from_vec(Vec::new(alloc)));
        }
        match self.ended {
            Some(End::Done) => least_heads(alloc, self.heads.as_slice(), &self.peer),
            _ => Ok(IdList::from_vec(Vec::new(alloc))),
        }
    }
}

/// The least of these heads and of those of the peer's Hello, as many as are remembered.
fn least_heads(
    alloc: Global,
    heads: &[UpdateId],
    peer: &Option<Hello>,
) -> Result<IdList, AllocError>
    ensures least { IfOk result (AreLeast (λ id. has heads.now id || has (heads_in (option_map hello_of peer.now)) id)
        MAX_NEEDS) }
    ensures few { IfOk result (λ ids. length ids ≤ MAX_NEEDS) }
    ensures rising { IfOk result (λ ids. IsStrictlySortedBy id_cmp ids) }
{
    let mut ids = BTreeSet::new(alloc);
    join(&mut ids, heads)?;
    if let Some(hello) = peer {
        join(&mut ids, hello.heads.as_slice())?;
    }
    Ok(IdList::from_vec(least(alloc, &ids)?))
}
