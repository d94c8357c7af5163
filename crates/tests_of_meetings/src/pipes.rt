//! Pipes in memory: what is put at one end is taken at the other, which waits for it.

ghost use Rattle.std.specs.Prelude.{◌≡◌, None};

use bec_bytes::{Counted, Failed, FaultPlan, PlainSource, Sink, Source};
use bec_links::{Link, Net};
use crossbeam_channel::{Receiver, SendError, Sender, unbounded};
use std::alloc::{AllocError, Global};
use std::mem;
use std::sync::Wait;

/// One end of a pipe that nobody has taken up yet.
#[derive(Drop)]
pub struct Socket {
    /// What comes from the other end, a piece for each `put` there.
    coming: Receiver<Vec<u8>>,
    /// Where what is put goes.
    going: Sender<Vec<u8>>,
    /// The numbers of the calls that are to fail.
    failing: Vec<u32>,
}

impl Socket {
    /// Puts a piece, and answers whether it did.
    pub fn says<R: Wait>(&self, rt: &R, piece: Vec<u8>) -> bool {
        self.going.send(rt, piece).is_ok()
    }
}

/// Both ends of a pipe. The calls of `take` and `put` at an end, counted together from 1, that its numbers name fail.
pub fn pipe(alloc: Global, failing: (u32, u32)) -> Result<(Socket, Socket), AllocError> {
    let (to_one, at_one) = unbounded(alloc)?;
    let (to_other, at_other) = unbounded(alloc)?;
    let one = Socket {
        coming: at_one,
        going: to_other,
        failing: Vec::from_slice(alloc, &[failing.0])?,
    };
    let other = Socket {
        coming: at_other,
        going: to_one,
        failing: Vec::from_slice(alloc, &[failing.1])?,
    };
    Ok((one, other))
}

/// One end of a pipe, which tells nothing of its bytes. What is put where nobody takes any more is lost.
#[derive(Drop)]
pub struct End<'a, R: Wait> {
    rt: &'a R,
    alloc: Global,
    coming: Receiver<Vec<u8>>,
    going: Sender<Vec<u8>>,
    /// What is left of the piece that came last.
    piece: PlainSource,
    plan: FaultPlan,
}

impl<'a, R: Wait> End<'a, R> {
    /// The end of a pipe that this takes up.
    fn new(rt: &'a R, alloc: Global, socket: Socket) -> End<'a, R>
        ensures { result.plan.faults ≡ 0 }
    {
        let Socket {
            coming,
            going,
            failing,
        } = socket;
        End {
            rt,
            alloc,
            coming,
            going,
            piece: PlainSource::new(Vec::new(alloc)),
            plan: FaultPlan::new(failing),
        }
    }
}

impl<'a, R: Wait> Counted for End<'a, R> {
    ghost faults = { λ e. e.plan.faults };
}

impl<'a, R: Wait> Source for End<'a, R> {
    ghost left = { λ _. None };

    fn take(&mut self, buf: &mut [u8]) -> Result<usize, Failed> {
        self.plan.count_call()?;
        let count = self.piece.take(buf)?;
        if count > 0 {
            return Ok(count);
        }
        let Ok(piece) = self.coming.recv(self.rt) else {
            return Ok(0);
        };
        self.piece = PlainSource::new(piece);
        self.piece.take(buf)
    }
}

impl<'a, R: Wait> Sink for End<'a, R> {
    ghost held = { λ _. None };

    fn put(&mut self, bytes: &[u8]) -> Result<usize, Failed> {
        self.plan.count_call()?;
        let Ok(piece) = Vec::from_slice(self.alloc, bytes) else {
            return Err(self.plan.count_fault());
        };
        match self.going.send(self.rt, piece) {
            Err(SendError::OutOfMemory(_)) => Err(self.plan.count_fault()),
            _ => Ok(bytes.len()),
        }
    }
}

impl<'a, R: Wait + Sync> Link for End<'a, R> {
    fn receive(&mut self, buf: &mut [u8]) -> Result<usize, Failed> {
        self.take(buf)
    }

    fn send(&mut self, bytes: &[u8]) -> Result<(), Failed> {
        self.put(bytes)?;
        Ok(())
    }
}

/// Ends of pipes that are handed out in order, two at most.
pub type Sockets = (Option<Socket>, Option<Socket>);

/// A net that hands ends of pipes out in order, to `accept` and `dial` alike.
#[derive(Drop)]
pub struct PipeNet<'a, R: Wait> {
    rt: &'a R,
    alloc: Global,
    /// Those that are still to come.
    coming: Sockets,
    /// How many are out.
    out: u64,
    /// How many calls failed.
    failed: u64,
    /// How many calls failed, and how many links came back that had failed.
    faults: u64,
}

impl<'a, R: Wait> PipeNet<'a, R> {
    /// A net that hands these out.
    pub fn new(rt: &'a R, alloc: Global, coming: Sockets) -> PipeNet<'a, R> {
        PipeNet {
            rt,
            alloc,
            coming,
            out: 0,
            failed: 0,
            faults: 0,
        }
    }
}

impl<'a, R: Wait> Counted for PipeNet<'a, R> {
    ghost faults = { λ n. n.faults };
}

impl<'a, R: Wait + Sync> Net for PipeNet<'a, R> {
    type L = End<'a, R>;

    ghost state = { λ n. record { coming = None; given = None; out = n.out; failed = n.failed } };

    fn listen(&mut self, _address: &str) -> Result<(), Failed> {
        Ok(())
    }

    fn accept(&mut self) -> Result<End<'a, R>, Failed> {
        let later = self.coming.1.take();
        match mem::replace(&mut self.coming.0, later) {
            Some(socket) if self.out < u64::MAX => {
                self.out += 1;
                Ok(End::new(self.rt, self.alloc, socket))
            }
            _ => {
                self.failed = self.failed.saturating_add(1);
                self.faults = self.faults.saturating_add(1);
                Err(Failed)
            }
        }
    }

    fn dial(&mut self, _address: &str) -> Result<End<'a, R>, Failed> {
        self.accept()
    }

    fn put_back(&mut self, link: End<'a, R>) {
        if link.plan.faults > 0 {
            self.faults = self.faults.saturating_add(1);
        }
        self.out -= 1;
    }
}
