//! Waiting for other programs.

use std::fs::{File, OpenOptions, TryLockError};
use std::io::Write;
use std::rt::Files;
use std::time::{Clock, Duration};
use std::{io, thread};

/// How many times in a second a lock is tried.
const TURNS: u32 = 20;

/// How long a command waits for others to give up the parts of a directory.
#[derive(Drop)]
pub(crate) struct Waiting<'a, W: Write + Copy> {
    /// The directory, as it is told. The empty one is the current one.
    pub dir: &'a str,
    /// For how many seconds.
    pub seconds: u32,
    /// Where it is told that a command waits.
    pub explain: W,
}

impl<'a, W: Write + Copy> Waiting<'a, W> {
    /// Opens a file and locks it. Where another process keeps it for longer than this, that is an error.
    pub(crate) fn open<R: Files<File = File> + Clock>(
        &self,
        rt: &R,
        how: &OpenOptions,
        path: &str,
    ) -> io::Result<File> {
        let file = how.open(rt, path)?;
        self.lock(rt, &file)?;
        Ok(file)
    }

    /// Locks a file.
    fn lock<R: Clock>(&self, rt: &R, file: &File) -> io::Result<()> {
        for turn in 0..self.seconds.saturating_mul(TURNS) {
            match file.try_lock() {
                Err(TryLockError::WouldBlock) => {}
                tried => return Ok(tried?),
            }
            if turn == TURNS {
                self.tell();
            }
            thread::sleep(rt, Duration::from_millis(50));
        }
        Ok(file.try_lock()?)
    }

    /// Tells that a command waits.
    fn tell(&self) {
        let mut explain = self.explain;
        let dir = if self.dir.is_empty() { "." } else { self.dir };
        let _ = writeln!(explain, "bec: waiting for another command on {dir} to end");
    }
}
