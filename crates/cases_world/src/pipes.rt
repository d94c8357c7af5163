//! Pipes in memory between a node that listens and those that dial: what is put at one end is taken at the other,
//! which waits for it.

ghost use Rattle.std.specs.Prelude.{◌≡◌, ◌<◌, ◌↔◌, None, IsTrue};

use bec_bytes::{Counted, Failed, FaultPlan, PlainSource, Sink, Source};
use bec_links::{Link, Net};
use crossbeam_channel::{Receiver, SendError, Sender, unbounded};
use std::alloc::{AllocError, Global};
use std::sync::Wait;

/// One end of a pipe that nobody has taken up yet.
#[derive(Drop)]
pub struct Socket {
    /// What comes from the other end, a piece for each `put` there.
    coming: Receiver<Vec<u8>>,
    /// Where what is put goes.
    going: Sender<Vec<u8>>,
}

/// Both ends of a pipe.
pub fn pipe(alloc: Global) -> Result<(Socket, Socket), AllocError> {
    let (to_one, at_one) = unbounded(alloc)?;
    let (to_other, at_other) = unbounded(alloc)?;
    let one = Socket {
        coming: at_one,
        going: to_other,
    };
    let other = Socket {
        coming: at_other,
        going: to_one,
    };
    Ok((one, other))
}

/// One end of a pipe, which tells nothing of its bytes. What is put where nobody takes any more is lost.
#[derive(Drop)]
pub struct End<'a, R: Wait> {
    rt: &'a R,
    alloc: Global,
    coming: Receiver<Vec<u8>>,
    going: Sender<Vec<u8>>,
    /// What is left of the piece that came last.
    piece: PlainSource,
    plan: FaultPlan,
}

impl<'a, R: Wait> End<'a, R> {
    /// The end of a pipe that this takes up, whose call of this number fails.
    pub fn new(rt: &'a R, alloc: Global, socket: Socket, failing: Vec<u32>) -> End<'a, R>
        ensures { result.plan.faults ≡ 0 }
    {
        let Socket { coming, going } = socket;
        End {
            rt,
            alloc,
            coming,
            going,
            piece: PlainSource::new(Vec::new(alloc)),
            plan: FaultPlan::new(failing),
        }
    }

    /// Whether a call failed.
    pub fn is_faulty(&self) -> bool
        ensures { IsTrue result ↔ (0 < self.now.plan.faults) }
    {
        self.plan.faults > 0
    }
}

impl<'a, R: Wait> Counted for End<'a, R> {
    ghost faults = { λ e. e.plan.faults };
}

impl<'a, R: Wait> Source for End<'a, R> {
    ghost left = { λ _. None };

    fn take(&mut self, buf: &mut [u8]) -> Result<usize, Failed> {
        self.plan.count_call()?;
        let count = self.piece.take(buf)?;
        if count > 0 {
            return Ok(count);
        }
        let Ok(piece) = self.coming.recv(self.rt) else {
            return Ok(0);
        };
        self.piece = PlainSource::new(piece);
        self.piece.take(buf)
    }
}

impl<'a, R: Wait> Sink for End<'a, R> {
    ghost held = { λ _. None };

    fn put(&mut self, bytes: &[u8]) -> Result<usize, Failed> {
        self.plan.count_call()?;
        let Ok(piece) = Vec::from_slice(self.alloc, bytes) else {
            return Err(self.plan.count_fault());
        };
        match self.going.send(self.rt, piece) {
            Err(SendError::OutOfMemory(_)) => Err(self.plan.count_fault()),
            _ => Ok(bytes.len()),
        }
    }
}

impl<'a, R: Wait + Sync> Link for End<'a, R> {
    fn receive(&mut self, buf: &mut [u8]) -> Result<usize, Failed> {
        self.take(buf)
    }

    fn send(&mut self, bytes: &[u8]) -> Result<(), Failed> {
        self.put(bytes)?;
        Ok(())
    }
}
