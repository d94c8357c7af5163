//! A session in a thread of its own.

ghost use Rattle.std.specs.Prelude.{◌≡◌, None, IfOk, IfErr};
ghost use Rattle.session_rules.specs.declared.role.Role.TheVariants.{Responder};
ghost use Rattle.shared_replica.specs.Sessions.{IsRuledBy};
ghost use Rattle.session_server.specs.Accepting.{given_to};
ghost use Rattle.session_server.specs.Sessions.{IsSession};

use crate::{Common, Served, run_session};
use bec_disk::Disk;
use bec_links::Link;
use peer_memory::Peers;
use session_rules::Role;
use shared_replica::Pass;
use std::marker::Model;
use std::snapshot::Snapshot;
use std::sync::Wait;
use std::thread::{Promise, PromisedHandle, Scope, Threads};
use update_model::DbRule;

/// What a session of a link was given. It has no bytes.
#[derive(Drop)]
pub(crate) struct Task<D: Disk, K: Link> {
    /// The rule of the database.
    rule: Snapshot<DbRule>,
    /// The peers that are remembered.
    peers: Snapshot<Peers>,
    /// The pass.
    pass: Snapshot<Pass<D>>,
    /// The link.
    link: Snapshot<K>,
}

impl<D: Disk, K: Link> Model for Task<D, K> {
    ghost use Rattle.schema.specs.Checks.{coded_tree};
    ghost use Rattle.session_server.specs.Accepting.{Given, given_to};
    ghost use Rattle.std.specs.Coded.{codes};

    ghost Value = { Given };

    ghost coded = { Prim.hlevel (codes, coded_tree) };

    ghost view = { λ t. given_to t.rule.value t.peers.value t.pass.value (K.left t.link.value) (K.held t.link.value)
        (K.faults t.link.value) };
}

/// What comes back of a session.
#[derive(Drop)]
pub(crate) struct Ended<D: Disk, K> {
    /// The pass.
    pub(crate) pass: Pass<D>,
    /// The link.
    pub(crate) link: K,
    /// What the session came to.
    pub(crate) served: Served,
}

impl<D: Disk, K: Link> Promise<Ended<D, K>> for Task<D, K> {
    ghost kept_by = { λ p r. IsSession p.rule Responder p.peers None p.begun.before r.pass p.begun.left (K.left r.link)
        p.begun.held (K.held r.link) p.begun.faults (K.faults r.link) r.served };
}

/// What threads are started with.
#[derive(Drop)]
pub(crate) struct Starter<'s, E, R> {
    /// The leave to start them.
    pub(crate) rt: &'s R,
    /// The scope in which they end.
    pub(crate) scope: &'s Scope<'s, E>,
}

/// A session that runs in a thread.
pub(crate) type Child<D, K> = PromisedHandle<Ended<D, K>, Task<D, K>>;

/// Runs the session of a link that was accepted.
fn run_one<R: Threads + Wait, K: Link, D: Disk>(
    rt: &R,
    common: &Common<'_, D>,
    pass: Pass<D>,
    link: K,
) -> Ended<D, K>
    requires lock { pass.lock ≡ common.now.shared.now.lock }
    requires rule { IsRuledBy pass.seen common.now.rule.now }
    ensures { IsSession common.now.rule.now Responder common.now.peers.now None pass result.pass (K.left link)
        (K.left result.link) (K.held link) (K.held result.link) (K.faults link) (K.faults result.link) result.served }
{
    let mut link = link;
    let (pass, served) = run_session(rt, common, pass, &mut link, Role::Responder, None);
    Ended { pass, link, served }
}

/// Runs the session of a link in a thread of the scope, or here where no thread can be started.
pub(crate) fn start<'s, E, R: Threads + Wait + Sync, K: Link + 's, D: Disk + Send + 's>(
    starter: &Starter<'s, E, R>,
    common: &Common<'s, D>,
    pass: Pass<D>,
    link: K,
) -> Result<Child<D, K>, Ended<D, K>>
    requires lock { pass.lock ≡ common.now.shared.now.lock }
    requires rule { IsRuledBy pass.seen common.now.rule.now }
    ensures there { IfOk result (λ h. h.promise ≡ given_to common.now.rule.now common.now.peers.now pass (K.left link)
        (K.held link) (K.faults link)) }
    ensures here { IfErr result (λ r. IsSession common.now.rule.now Responder common.now.peers.now None pass r.pass
        (K.left link) (K.left r.link) (K.held link) (K.held r.link) (K.faults link) (K.faults r.link) r.served) }
{
    let Starter { rt, scope } = *starter;
    let Common {
        alloc,
        shared,
        rule,
        peers,
    } = *common;
    let task = Task {
        rule: Snapshot::of(rule),
        peers: Snapshot::of(peers),
        pass: Snapshot::of(&pass),
        link: Snapshot::of(&link),
    };
    let session = move || -> Ended<D, K>
        requires lock { pass.lock ≡ shared.now.lock }
        requires rule { IsRuledBy pass.seen rule.now }
        ensures { IsSession rule.entry.now Responder peers.entry.now None pass result.pass (K.left link)
            (K.left result.link) (K.held link) (K.held result.link) (K.faults link) (K.faults result.link) result.served }
    {
        run_one(
            rt,
            &Common {
                alloc,
                shared,
                rule,
                peers,
            },
            pass,
            link,
        )
    };
    match scope.spawn_with(task, session) {
        Ok(child) => Ok(child),
        Err(refused) => Err((refused.value)()),
    }
}
