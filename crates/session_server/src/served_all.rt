//! What serving answers.

ghost use Rattle.std.specs.Prelude.{◌≡◌};

use crate::Served;
use bec_disk::Disk;
use shared_replica::Pass;
use std::marker::Model;

/// A list of what sessions came to. A contract sees it as the list of its items.
#[derive(Drop)]
pub struct ServedList {
    sessions: Vec<Served>,
}

impl Model for ServedList {
    ghost use Rattle.std.specs.Prelude.{List};
    ghost use Rattle.session_server.specs.declared.served.Served.{Served};

    ghost Value = { List Served };

    ghost view = { λ list. list.sessions.items };
}

impl ServedList {
    /// Takes over a vector.
    pub fn from_vec(sessions: Vec<Served>) -> Self
        ensures { result ≡ sessions.items }
    {
        ServedList { sessions }
    }

    /// Lends the sessions.
    pub fn as_slice(&self) -> &[Served]
        ensures { result.now ≡ self.now }
    {
        self.sessions.as_slice()
    }

    /// Gives the vector back.
    pub fn into_vec(self) -> Vec<Served>
        ensures { result.items ≡ self }
    {
        let ServedList { sessions } = self;
        sessions
    }
}

/// What serving many links came to.
#[derive(Drop)]
pub struct ServedAll<D: Disk> {
    /// The pass, which has seen what the passes of the sessions have, unless memory ran out.
    pub pass: Pass<D>,
    /// What the sessions came to, in the order in which their links were accepted.
    pub sessions: ServedList,
    /// Whether a call of the net failed, so that fewer links were accepted than were asked for.
    pub net_failed: bool,
    /// Whether memory ran out outside the sessions.
    pub memory: bool,
}
