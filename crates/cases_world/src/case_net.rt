//! The net of one command: it listens, or dials a node that listens, or there is nobody.

ghost use Rattle.cases_world.specs.Untold.{untold_net};

use crate::pipes::{End, Socket, pipe};
use bec_bytes::{Counted, Failed};
use bec_links::Net;
use crossbeam_channel::{Receiver, Sender};
use std::alloc::{AllocError, Global};
use std::sync::Wait;
use std::sync::atomic::{AtomicU64, Ordering};

/// Where a node that listens is called, so often at most.
#[derive(Drop)]
pub struct Caller {
    going: Sender<Socket>,
    left: AtomicU64,
}

impl Caller {
    /// A node that is called where these sockets come out, so often at most.
    pub fn new(going: Sender<Socket>, left: u64) -> Caller {
        Caller {
            going,
            left: AtomicU64::new(left),
        }
    }

    /// Calls it once more, where it listens: one end of a pipe whose other end it has.
    fn call<R: Wait>(&self, rt: &R, alloc: Global) -> Option<Socket> {
        let left = self.left.load(Ordering::SeqCst);
        if left == 0 {
            return None;
        }
        self.left.store(left - 1, Ordering::SeqCst);
        let (one, other) = pipe(alloc).ok()?;
        match self.going.send(rt, other) {
            Ok(()) => Some(one),
            Err(_) => None,
        }
    }
}

/// Who is at the other end.
#[derive(Drop)]
pub enum Peer<'a> {
    /// Nobody.
    Nobody,
    /// Those that call.
    Callers(Receiver<Socket>),
    /// One that is called.
    Called(&'a Caller),
}

/// The net of one command, which tells how many links are out and how many of its calls failed.
#[derive(Drop)]
pub struct CaseNet<'a, R: Wait> {
    rt: &'a R,
    alloc: Global,
    peer: Peer<'a>,
    /// The number of the call that fails on each link.
    failing: u32,
    /// How many are out.
    out: u64,
    /// How many calls failed.
    failed: u64,
    /// How many calls failed, and how many links came back that had failed.
    faults: u64,
}

impl<'a, R: Wait> CaseNet<'a, R> {
    /// A net with this peer, on each of whose links the call of this number fails.
    pub fn new(rt: &'a R, alloc: Global, peer: Peer<'a>, failing: u32) -> CaseNet<'a, R> {
        CaseNet {
            rt,
            alloc,
            peer,
            failing,
            out: 0,
            failed: 0,
            faults: 0,
        }
    }

    /// The end of the next pipe to the peer, and which call on it fails.
    fn next_end(&self) -> Option<(Socket, Vec<u32>)> {
        let failing = one_number(self.alloc, self.failing).ok()?;
        let socket = match &self.peer {
            Peer::Nobody => None,
            Peer::Callers(coming) => coming.recv(self.rt).ok(),
            Peer::Called(caller) => caller.call(self.rt, self.alloc),
        };
        Some((socket?, failing))
    }
}

/// A list of one number.
pub fn one_number(alloc: Global, number: u32) -> Result<Vec<u32>, AllocError> {
    Vec::from_slice(alloc, &[number])
}

impl<'a, R: Wait> Counted for CaseNet<'a, R> {
    ghost faults = { λ n. n.faults };
}

impl<'a, R: Wait + Sync> Net for CaseNet<'a, R> {
    type L = End<'a, R>;

    ghost state = { λ n. untold_net n.out n.failed };

    fn listen(&mut self, _address: &str) -> Result<(), Failed> {
        Ok(())
    }

    fn accept(&mut self) -> Result<End<'a, R>, Failed> {
        match self.next_end() {
            Some((socket, failing)) if self.out < u64::MAX => {
                self.out += 1;
                Ok(End::new(self.rt, self.alloc, socket, failing))
            }
            _ => {
                self.failed = self.failed.saturating_add(1);
                self.faults = self.faults.saturating_add(1);
                Err(Failed)
            }
        }
    }

    fn dial(&mut self, _address: &str) -> Result<End<'a, R>, Failed> {
        self.accept()
    }

    fn put_back(&mut self, link: End<'a, R>) {
        self.out -= 1;
        if link.is_faulty() {
            self.faults = self.faults.saturating_add(1);
        }
    }
}
