//! What a report reads of a world.

ghost use Rattle.std.specs.Prelude.{◌≡◌, ◌≤◌, List, IfOk, length};
ghost use Rattle.row_check.specs.Checksum.{is_luhn};
ghost use Rattle.table_model.specs.Visible.{Rules};
ghost use Rattle.update_model.specs.Node.{NodeData};
ghost use Rattle.tuple_state.specs.State.{IsStateOf};
ghost use Rattle.byzantine_world.specs.Codes.{ShowsWorld};
ghost use Rattle.byzantine_world.specs.Shown.{AreCounts, AreRowCounts, AreShownReplicas, IsShownReplica, fault_number};
ghost use Rattle.byzantine_world.specs.Shown.{sessions_shown, shown_as, talk_shown, talks_shown};
ghost use Rattle.world_rules.specs.Worlds.{WorldData};

use crate::talk::{Side, Talk};
use crate::world::World;
use session_rules::{End, PeerFault};
use std::alloc::{AllocError, Global};
use tuple_state::Tables;
use world_report::{Counts, ShownEnd, ShownReplica, ShownSession};
use world_rules::Site;

impl World {
    /// Each replica, by number from 0: what it holds, or that it is down. Where the world is over, the answer is want
    /// of memory.
    pub fn replicas(&self) -> Result<Vec<ShownReplica>, AllocError>
        ensures { IfOk result (λ shown. AreShownReplicas is_luhn self.now.sites shown.items) }
    {
        if self.is_over {
            return Err(AllocError);
        }
        shown_replicas(self.state.alloc, self.state.sites.as_slice())
    }

    /// Each session that was started, by its number: how its correct ends stand. Where the world is over, the answer is
    /// want of memory.
    pub fn sessions(&self) -> Result<Vec<ShownSession>, AllocError>
        ensures { IfOk result (λ shown. (w : WorldData) → ShowsWorld self.now w
            → shown.items ≡ sessions_shown 0 w.sessions) }
    {
        if self.is_over {
            return Err(AllocError);
        }
        shown_sessions(self.state.alloc, self.state.talks.as_slice())
    }
}

/// How each replica is shown.
fn shown_replicas(alloc: Global, sites: &[Site]) -> Result<Vec<ShownReplica>, AllocError>
    ensures { IfOk result (λ shown. AreShownReplicas is_luhn sites.now shown.items) }
{
    let mut shown = Vec::new(alloc);
    'sites: for site in sites {
        let replica = shown_replica(alloc, site)?;
        shown.push(replica)?;
    }
    Ok(shown)
}

/// How a replica is shown.
fn shown_replica(alloc: Global, site: &Site) -> Result<ShownReplica, AllocError>
    ensures { IfOk result (IsShownReplica is_luhn site.now) }
{
    if site.is_down() {
        return Ok(ShownReplica::Down);
    }
    let counts = counts_of(alloc, site)?;
    Ok(ShownReplica::Up(counts))
}

/// What a replica holds.
fn counts_of(alloc: Global, site: &Site) -> Result<Counts, AllocError>
    ensures { IfOk result (AreCounts is_luhn site.now) }
{
    let store = site.store();
    let tables = store.tables();
    let heads = store.heads(alloc)?;
    let rows = row_counts(alloc, tables, store.schema().tables())?;
    let voids = tables.voids(alloc)?;
    Ok(Counts {
        updates: store.len(),
        heads: small(heads.len())?,
        rows,
        voids: small(voids.as_slice().len())?,
    })
}

/// How many rows each of so many tables shows, in their order.
fn row_counts(alloc: Global, tables: &Tables, count: u8) -> Result<Vec<u32>, AllocError>
    ensures { IfOk result (λ counts. (rules : Rules) (nodes : List NodeData) → IsStateOf rules nodes tables.now
        → AreRowCounts rules nodes count counts.items) }
{
    let mut counts = Vec::new(alloc);
    'tables: for table in 0..count {
        let rows = tables.rows(alloc, table)?;
        counts.push(small(rows.as_slice().len())?)?;
    }
    Ok(counts)
}

/// How many things there are that are in memory. Where that is no word of 32 bits, memory has run out.
fn small(count: usize) -> Result<u32, AllocError>
    ensures { IfOk result (λ number. number ≡ count) }
{
    match u32::try_from(count) {
        Ok(number) => Ok(number),
        Err(_) => Err(AllocError),
    }
}

/// How the sessions are shown that were started.
fn shown_sessions(alloc: Global, talks: &[Option<Talk>]) -> Result<Vec<ShownSession>, AllocError>
    requires { length talks.now ≤ 256 }
    ensures { IfOk result (λ shown. shown.items ≡ talks_shown 0 talks.now) }
{
    let mut shown = Vec::new(alloc);
    let mut number = 0;
    'talks: for talk in talks {
        if let Some(talk) = talk {
            shown.push(shown_talk(number, talk))?;
        }
        number += 1;
    }
    Ok(shown)
}

/// How a session is shown.
fn shown_talk(number: u32, talk: &Talk) -> ShownSession
    ensures { result ≡ talk_shown number talk.now }
{
    match talk {
        Talk::Both(both) => ShownSession {
            number,
            first: shown_end(&both.a),
            second: Some(shown_end(&both.b)),
        },
        Talk::Liar(liar) => ShownSession {
            number,
            first: shown_end(&liar.end),
            second: None,
        },
    }
}

/// How an end stands.
fn shown_end(side: &Side) -> ShownEnd
    ensures { result ≡ shown_as side.now.ended side.now.is_cut }
{
    match side.ended {
        Some(End::Done) => ShownEnd::Done,
        Some(End::Peer(fault)) => ShownEnd::Peer(number_of(fault)),
        Some(End::Full) => ShownEnd::Full,
        Some(End::Store) => ShownEnd::Store,
        None => {
            if side.is_cut {
                ShownEnd::Cut
            } else {
                ShownEnd::Open
            }
        }
    }
}

/// The number of a fault of a peer.
fn number_of(fault: PeerFault) -> u8
    ensures { result ≡ fault_number fault }
{
    match fault {
        PeerFault::BadFrame(_) => 1,
        PeerFault::WrongDatabase => 2,
        PeerFault::BadUpdate(_) => 3,
        PeerFault::Unanswered(_) => 4,
        PeerFault::AskedUnknown(_) => 5,
        PeerFault::AskedAgain(_) => 6,
        PeerFault::Stalled => 7,
        PeerFault::TakenBack => 8,
        PeerFault::OutOfTurn => 9,
        PeerFault::Version => 10,
    }
}
