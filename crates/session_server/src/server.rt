//! Serving many links at once.

ghost use Rattle.std.specs.Prelude.{◌≡◌, ◌+◌, ◌<◌, ◌≤◌, ◌++◌, ◌∷◌, [], List, true, false, All, length, map};
ghost use mathlib.Core.List.{IsPrefix};
ghost use Rattle.bec_bytes.specs.Causes.{Rose};
ghost use Rattle.bec_links.specs.Nets.{taken_back};
ghost use Rattle.update_model.specs.Rule.{RuleData};
ghost use Rattle.peer_memory.specs.declared.peer.Peer.{Peer};
ghost use Rattle.turn_lock.specs.Numbers.{AreApart};
ghost use Rattle.turn_lock.specs.Seats.{numbers_of};
ghost use Rattle.shared_replica.specs.Sessions.{IsRuledBy};
ghost use Rattle.session_server.specs.Accepting.{Accepts, GoesOn, IsDue};
ghost use Rattle.session_server.specs.Serving.{Ran, Serves};

use crate::running::{Child, Ended, Starter, start};
use crate::{Common, Served, ServedAll, ServedList};
use bec_disk::Disk;
use bec_links::Net;
use shared_replica::{Pass, Shared};
use std::collections::VecDeque;
use std::sync::Wait;
use std::thread;
use std::thread::Threads;

/// What the sessions came to so far.
#[derive(Drop)]
pub(crate) struct Tally {
    /// The sessions that have ended, in the order of acceptance.
    pub(crate) served: Vec<Served>,
    /// Whether a call of the net failed.
    pub(crate) net_failed: bool,
    /// Whether memory ran out.
    pub(crate) memory: bool,
}

/// Accepts `sessions` links, and runs the session of each in a thread of its own as it is accepted. Where no thread can
/// be started, the accepting thread runs the session itself. All have ended when it returns.
///
/// The rule is that of the replica's schema. Each session is one of `run_session` as the Responder. The links are put
/// back in the order of acceptance, and the answer has an entry for each session in this order. There are exactly as
/// many as were asked for, unless `net_failed` or `memory` is true. `net_failed` is true only where `listen` or
/// `accept` failed, and then there are fewer. Where `memory` is true, a session may be missing in the answer, and the
/// pass may not have seen what a session added.
pub fn serve<R: Threads + Wait + Sync, N: Net, D: Disk + Send>(
    rt: &R,
    common: &Common<'_, D>,
    net: &mut N,
    pass: Pass<D>,
    address: &str,
    sessions: u32,
) -> ServedAll<D>
    requires lock { pass.lock ≡ common.now.shared.now.lock }
    requires rule { IsRuledBy pass.seen common.now.rule.now }
    requires some { 0 < sessions }
    ensures { Serves common.now.rule.now common.now.peers.now sessions pass result.pass (N.state net.old)
        (N.state net.new) (N.faults net.old) (N.faults net.new) result.sessions result.net_failed result.memory }
{
    let Common {
        alloc,
        shared,
        rule,
        peers,
    } = *common;
    if let Err(_) = net.listen(address) {
        return ServedAll {
            pass,
            sessions: ServedList::from_vec(Vec::new(alloc)),
            net_failed: true,
            memory: false,
        };
    }
    let (all, _net) = thread::scope(
        thread::scope_env(),
        rt,
        move |scope| -> (ServedAll<D>, &mut N)
            requires lock { pass.lock ≡ shared.now.lock }
            requires rule { IsRuledBy pass.seen rule.now }
            requires some { 0 < sessions }
            ensures same { result.1.ghost_name ≡ net.entry.ghost_name }
            ensures serves { Serves rule.entry.now peers.entry.now sessions pass result.0.pass (N.state net.entry.now)
                (N.state result.1.now) (N.faults net.entry.now) (N.faults result.1.now) result.0.sessions
                result.0.net_failed result.0.memory }
        {
            let common = Common {
                alloc,
                shared,
                rule,
                peers,
            };
            let all = accept_links(&Starter { rt, scope }, &common, net, pass, sessions);
            (all, net)
        },
    );
    all
}

/// Accepts links, and gives each to a thread of the scope. All have ended when it returns.
fn accept_links<'s, E, R: Threads + Wait + Sync, N: Net, D: Disk + Send>(
    starter: &Starter<'s, E, R>,
    common: &Common<'s, D>,
    net: &mut N,
    pass: Pass<D>,
    sessions: u32,
) -> ServedAll<D>
where
    N::L: 's,
    D: 's,
    requires lock { pass.lock ≡ common.now.shared.now.lock }
    requires rule { IsRuledBy pass.seen common.now.rule.now }
    requires some { 0 < sessions }
    ensures { Serves common.now.rule.now common.now.peers.now sessions pass result.pass (N.state net.old)
        (N.state net.new) (N.faults net.old) (N.faults net.new) result.sessions result.net_failed result.memory }
{
    let alloc = common.alloc;
    let mut pass = pass;
    let mut children = VecDeque::new(alloc);
    let mut tally = Tally {
        served: Vec::new(alloc),
        net_failed: false,
        memory: false,
    };
    let mut tries = 0u32;
    let mut goes_on = true;
    while goes_on && tries < sessions {
        tries += 1;
        (pass, goes_on) = accept_one(starter, common, net, pass, &mut children, &mut tally);
    }
    let pass = end_sessions(
        starter.rt,
        net,
        common.shared,
        pass,
        &mut children,
        &mut tally,
    );
    let Tally {
        served,
        net_failed,
        memory,
    } = tally;
    ServedAll {
        pass,
        sessions: ServedList::from_vec(served),
        net_failed,
        memory,
    }
}

/// Accepts a link, and gives it to a thread of the scope, or runs its session here. Answers whether it did.
fn accept_one<'s, E, R: Threads + Wait + Sync, N: Net, D: Disk + Send>(
    starter: &Starter<'s, E, R>,
    common: &Common<'s, D>,
    net: &mut N,
    pass: Pass<D>,
    children: &mut VecDeque<Child<D, N::L>>,
    tally: &mut Tally,
) -> (Pass<D>, bool)
where
    N::L: 's,
    D: 's,
    requires lock { pass.lock ≡ common.now.shared.now.lock }
    requires rule { IsRuledBy pass.seen common.now.rule.now }
    requires due { All (λ h. IsDue common.now.rule.now common.now.peers.now pass h.promise) children.old.items }
    requires out { length children.old.items ≤ (N.state net.old).out }
    requires still { tally.old.net_failed ≡ false }
    ensures due { All (λ h. IsDue common.now.rule.now common.now.peers.now result.0 h.promise) children.new.items }
    ensures accepts { Accepts common.now.rule.now common.now.peers.now
        (record {
          net = N.state net.old;
          faults = N.faults net.old;
          running = map (λ h. h.promise.begun) children.old.items;
          pass = pass;
          tally = tally.old;
        })
        (record {
          net = N.state net.new;
          faults = N.faults net.new;
          running = map (λ h. h.promise.begun) children.new.items;
          pass = result.0;
          tally = tally.new;
        }) result.1 }
{
    let (rt, shared) = (starter.rt, common.shared);
    if children.reserve(1).is_err() {
        tally.memory = true;
        return (pass, false);
    }
    let link = match net.accept() {
        Ok(link) => link,
        Err(_) => {
            tally.net_failed = true;
            return (pass, false);
        }
    };
    match shared.split(pass) {
        Ok((mine, theirs)) => match start(starter, common, theirs, link) {
            Ok(child) => {
                children.push_back_reserved(child);
                (mine, true)
            }
            Err(ended) => {
                let pass = end_sessions(rt, net, shared, mine, children, tally);
                (end_session(net, shared, pass, ended, tally), true)
            }
        },
        Err(refused) => {
            let pass = end_sessions(rt, net, shared, refused.back, children, tally);
            net.put_back(link);
            tally.memory = true;
            (pass, false)
        }
    }
}

/// Joins the threads in the order of acceptance, whatever rule and peers their sessions were given.
fn end_sessions<R: Threads, N: Net, D: Disk>(
    rt: &R,
    net: &mut N,
    shared: &Shared<D>,
    pass: Pass<D>,
    children: &mut VecDeque<Child<D, N::L>>,
    tally: &mut Tally,
) -> Pass<D>
    requires lock { pass.lock ≡ shared.now.lock }
    requires locks { All (λ h. h.promise.begun.before.lock ≡ shared.now.lock) children.old.items }
    requires out { length children.old.items ≤ (N.state net.old).out }
    ensures children { children.new.items ≡ [] }
    ensures lock { result.lock ≡ pass.lock }
    ensures out { (N.state net.new).out + length children.old.items ≡ (N.state net.old).out }
    ensures goes { (rule : RuleData) (peers : List Peer) → All (λ h. IsDue rule peers pass h.promise) children.old.items
        → (ended : List Ran) × GoesOn rule peers
        (record {
          net = N.state net.old;
          faults = N.faults net.old;
          running = map (λ h. h.promise.begun) children.old.items;
          pass = pass;
          tally = tally.old;
        })
        (record { net = N.state net.new; faults = N.faults net.new; running = []; pass = result; tally = tally.new }) []
        ended }
    ensures failed { tally.new.net_failed ≡ tally.old.net_failed }
{
    let mut pass = pass;
    while let Some(child) = children.pop_front() {
        let ended = child.join(rt);
        pass = end_session(net, shared, pass, ended, tally);
    }
    pass
}

/// Puts the link of a session back, counts the session, and takes in what its pass has seen.
fn end_session<N: Net, D: Disk>(
    net: &mut N,
    shared: &Shared<D>,
    pass: Pass<D>,
    ended: Ended<D, N::L>,
    tally: &mut Tally,
) -> Pass<D>
    requires locks { (pass.lock ≡ shared.now.lock) × (ended.pass.lock ≡ shared.now.lock) }
    requires out { 0 < (N.state net.old).out }
    ensures pass { (result.lock ≡ pass.lock) × (result.number ≡ pass.number) × (result.acts ≡ pass.acts) }
    ensures seen { IsPrefix pass.seen result.seen }
    ensures net { N.state net.new ≡ taken_back (N.state net.old) (N.L.held ended.link) }
    ensures later { N.faults net.old ≤ N.faults net.new }
    ensures faulted { 0 < N.L.faults ended.link → Rose (N.faults net.old) (N.faults net.new) }
    ensures failed { tally.new.net_failed ≡ tally.old.net_failed }
    ensures counted { tally.new.memory ≡ false → (tally.old.memory ≡ false)
        × (tally.new.served.items ≡ tally.old.served.items ++ ended.served ∷ [])
        × IsPrefix ended.pass.seen result.seen }
    ensures few { length tally.new.served.items ≤ length tally.old.served.items + 1 }
    ensures numbers { tally.new.memory ≡ false → (result.others ≡ pass.others ++ numbers_of ended.pass)
        × AreApart (numbers_of result) }
{
    let Ended {
        pass: theirs,
        link,
        served,
    } = ended;
    net.put_back(link);
    if tally.served.push(served).is_err() {
        tally.memory = true;
    }
    match shared.meet(pass, theirs) {
        Ok(pass) => pass,
        Err(refused) => {
            tally.memory = true;
            refused.back.0
        }
    }
}
