ghost use Rattle.std.specs.Prelude.{◌≡◌, ◌⊎◌, ◌↔◌, ◌≤◌, ◌<◌, ◌+◌, ◌-◌, ◌∷◌, ◌++◌, [], Some, All, IsErr, IfOk, OnErr};
ghost use Rattle.std.specs.Prelude.{OnOk, length, map, vec_len, slice_index_or};
ghost use Rattle.std.specs.Vec.{vec_capacity};
ghost use Rattle.std.specs.Vec.Iter.{into_iter_items};
ghost use Rattle.bec_bytes.specs.Causes.{HasCause, one_more, faults_after};
ghost use Rattle.bec_links.specs.Nets.{HandsOut, after_try, taken_back};
ghost use Rattle.bec_links.specs.Memory.{MemNetState, HandsOutFirst, IsFresh, IsToFail, after_call, after_failure};
ghost use Rattle.bec_links.specs.Memory.{net_of};

use crate::mem_link::MemLink;
use crate::net::Net;
use bec_bytes::{Counted, Failed, FaultPlan};
use std::alloc::{AllocError, Global};
use std::marker::Model;
use std::vec::IntoIter;

/// A net in memory, some of whose calls fail, for tests of what a fault does. It hands its links out
/// in order, to `accept` and `dial` alike, and keeps those that come back.
#[derive(Drop)]
pub struct MemNet {
    /// The links that are still to come.
    coming: IntoIter<MemLink, Global>,
    /// Those that came back. There is room for those that are out, so that none is lost for want of memory.
    given: Vec<MemLink>,
    /// How many are out.
    out: usize,
    /// How many calls failed, and how many links came back that had failed.
    faults: u64,
    /// Which calls are to fail, and how many did.
    plan: FaultPlan,
}

impl Model for MemNet {
    ghost Value = { MemNetState };

    ghost view = { λ n. record {
      coming = into_iter_items n.coming;
      given = map (λ link. link.held) n.given.items;
      out = n.out;
      faults = n.faults;
      plan = record { failing = n.plan.failing.items; calls = n.plan.calls; faults = n.plan.faults };
    } };

    ghost invariant = { λ n. (vec_len n.given + n.out ≤ vec_capacity n.given)
        × All IsFresh (into_iter_items n.coming) };
}

impl MemNet {
    /// A net that hands these links out. Each has counted no fault, and nothing was put on it. The calls of
    /// `listen`, `accept` and `dial`, counted together from 1, that `failing` numbers fail; of the
    /// others only an `accept` or a `dial` for which no link is left, or no memory for its return.
    pub fn new(alloc: Global, links: Vec<MemLink>, failing: Vec<u32>) -> MemNet
        requires { All IsFresh links.items }
        ensures { result ≡ record {
          coming = links.items;
          given = [];
          out = 0;
          faults = 0;
          plan = record { failing = failing.items; calls = 0; faults = 0 };
        } }
    {
        MemNet {
            coming: links.into_iter(),
            given: Vec::new(alloc),
            out: 0,
            faults: 0,
            plan: FaultPlan::new(failing),
        }
    }

    /// How many links came back.
    pub fn returned(&self) -> usize
        ensures { result ≡ length self.now.given }
    {
        self.given.len()
    }

    /// The bytes that were put on the link that came back as this one, counted from 0.
    pub fn given(&self, link: usize) -> &[u8]
        requires { link < length self.now.given }
        ensures { result.now ≡ slice_index_or self.now.given link [] }
    {
        self.given[link].bytes()
    }

    /// Hands the next link out, unless the call is one of those that are to fail.
    fn hand_out(&mut self) -> Result<MemLink, Failed>
        ensures fails { IsToFail self.old.plan ⊎ (self.old.coming ≡ []) → IsErr result }
        ensures handed { IfOk result (λ link. HandsOutFirst self.old link self.new) }
        ensures fresh { IfOk result IsFresh }
        ensures unchanged { OnErr result (self.new ≡ after_failure self.old) }
        ensures later { self.old.faults ≤ self.new.faults }
    {
        let handed = self.next_link();
        self.counted(handed)
    }

    /// The next link, for whose return there is room.
    fn next_link(&mut self) -> Result<MemLink, Failed>
        ensures fails { IsToFail self.old.plan ⊎ (self.old.coming ≡ []) → IsErr result }
        ensures handed { IfOk result (λ link. HandsOutFirst self.old link self.new) }
        ensures fresh { IfOk result IsFresh }
        ensures unchanged { OnErr result (self.new ≡ record self.old { plan = after_call result self.old.plan }) }
    {
        self.plan.count_call()?;
        let Ok(out) = make_room(&mut self.given, self.out) else {
            return Err(self.plan.count_fault());
        };
        match self.coming.next() {
            Some(link) => {
                self.out = out;
                Ok(link)
            }
            None => Err(self.plan.count_fault()),
        }
    }

    /// Counts a fault where `outcome` is one.
    fn counted<T>(&mut self, outcome: Result<T, Failed>) -> Result<T, Failed>
        ensures same { result ≡ outcome }
        ensures count { self.new ≡ record self.old { faults = faults_after outcome self.old.faults } }
        ensures later { self.old.faults ≤ self.new.faults }
    {
        if outcome.is_err() {
            self.faults = self.faults.saturating_add(1);
        }
        outcome
    }
}

/// Makes room for the return of one link more than are out, and answers how many that is.
fn make_room(given: &mut Vec<MemLink>, out: usize) -> Result<usize, AllocError>
    ensures items { given.new.items ≡ given.old.items }
    ensures len { vec_len given.new ≡ vec_len given.old }
    ensures capacity { vec_capacity given.old ≤ vec_capacity given.new }
    ensures one_more { IfOk result (λ n. n ≡ out + 1) }
    ensures room { IfOk result (λ n. vec_len given.new + n ≤ vec_capacity given.new) }
{
    let out = out.checked_add(1).ok_or(AllocError)?;
    given.reserve(out)?;
    Ok(out)
}

impl Counted for MemNet {
    ghost faults = { λ n. n.faults };
}

impl Net for MemNet {
    type L = MemLink;

    ghost state = { net_of };

    /// Succeeds, whatever the address, unless the call is one of those that are to fail.
    fn listen(&mut self, _address: &str) -> Result<(), Failed>
        ensures tried { net_of self.new ≡ after_try result (net_of self.old) }
        ensures count { self.new.faults ≡ faults_after result self.old.faults }
        ensures cause { HasCause self.old.faults self.new.faults result }
        ensures fails { IsErr result ↔ IsToFail self.old.plan }
        ensures counted { self.new ≡ record self.old {
          faults = faults_after result self.old.faults;
          plan = after_call result self.old.plan;
        } }
    {
        let counted = self.plan.count_call();
        self.counted(counted)
    }

    /// Hands the next link out, unless the call is one of those that are to fail, none is left or
    /// memory is refused.
    fn accept(&mut self) -> Result<MemLink, Failed>
        ensures handed { IfOk result (λ link. HandsOut (net_of self.old) (Some link.left) (Some link.held)
            (net_of self.new)) }
        ensures clean { IfOk result (λ link. link.plan.faults ≡ 0) }
        ensures refused { OnErr result (net_of self.new ≡ after_try result (net_of self.old)) }
        ensures count { self.new.faults ≡ faults_after result self.old.faults }
        ensures cause { HasCause self.old.faults self.new.faults result }
        ensures fails { IsToFail self.old.plan ⊎ (self.old.coming ≡ []) → IsErr result }
        ensures first { IfOk result (λ link. HandsOutFirst self.old link self.new) }
        ensures unchanged { OnErr result (self.new ≡ after_failure self.old) }
    {
        self.hand_out()
    }

    /// Hands the next link out, whatever the address, just as `accept` does.
    fn dial(&mut self, _address: &str) -> Result<MemLink, Failed>
        ensures handed { IfOk result (λ link. HandsOut (net_of self.old) (Some link.left) (Some link.held)
            (net_of self.new)) }
        ensures clean { IfOk result (λ link. link.plan.faults ≡ 0) }
        ensures refused { OnErr result (net_of self.new ≡ after_try result (net_of self.old)) }
        ensures count { self.new.faults ≡ faults_after result self.old.faults }
        ensures cause { HasCause self.old.faults self.new.faults result }
        ensures fails { IsToFail self.old.plan ⊎ (self.old.coming ≡ []) → IsErr result }
        ensures first { IfOk result (λ link. HandsOutFirst self.old link self.new) }
        ensures unchanged { OnErr result (self.new ≡ after_failure self.old) }
    {
        self.hand_out()
    }

    /// Keeps the link behind those that came back before.
    fn put_back(&mut self, link: MemLink)
        requires { 0 < self.old.out }
        ensures taken { net_of self.new ≡ taken_back (net_of self.old) (Some link.held) }
        ensures later { self.old.faults ≤ self.new.faults }
        ensures faulted { 0 < link.plan.faults → self.new.faults ≡ one_more self.old.faults }
        ensures clean { link.plan.faults ≡ 0 → self.new.faults ≡ self.old.faults }
        ensures kept { self.new ≡ record self.old {
          given = self.old.given ++ link.held ∷ [];
          out = self.old.out - 1;
          faults = self.new.faults;
        } }
    {
        if link.faults() > 0 {
            self.faults = self.faults.saturating_add(1);
        }
        self.out -= 1;
        self.given.push_reserved(link);
    }
}
