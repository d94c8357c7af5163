use crate::frame_ends::FrameEnds;
use crate::patience::Patience;
use std::io;
use std::io::{ErrorKind, Read, Write};
use std::net::{Shutdown, TcpStream};
use std::time::{Clock, Duration, Instant};

/// How many milliseconds what still comes is read on at the end of a connection.
const LAST_READS_LIMIT: u64 = 1000;

/// How many reads there are at most then, of at most 4,096 bytes each.
const LAST_READS: u64 = 16;

/// A connection whose peer is waited for only so long, after which its calls fail.
///
/// Only the time counts for which a read or a write waits, and not that in which this end is at work. Reads wait a
/// minute until a frame of the peer is whole, and ten minutes in all. Both are a second more for each 32,000 bytes that
/// the peer took, since it may have to verify them before it answers, and the ten minutes for as many that it sent too.
/// Writes wait a minute, and a second of it is given back for each 4,000 bytes that the peer took.
#[derive(Drop)]
pub struct PatientStream<C: Clock + Drop> {
    /// The connection.
    stream: TcpStream,
    /// What tells the time.
    clock: C,
    /// How long the peer will still be waited for.
    patience: Patience,
    /// How far it has come in a frame.
    frames: FrameEnds,
    /// Whether the last call was a read that gave bytes.
    came_last: bool,
}

impl<C: Clock + Drop> PatientStream<C> {
    /// A connection of which nothing came yet.
    pub fn new(stream: TcpStream, clock: C) -> PatientStream<C> {
        PatientStream {
            stream,
            clock,
            patience: Patience::new(),
            frames: FrameEnds::new(),
            came_last: false,
        }
    }

    /// Ends the connection.
    ///
    /// Who stops because of what came may have left bytes unread, and the system throws away what the peer has not taken
    /// yet where a connection with unread bytes is closed. So the peer is told first that no more comes, and what it still
    /// sends is read on, until it ends its side too, but for a second and 64 KiB at most.
    pub(crate) fn end(mut self) {
        if !self.came_last || self.stream.shutdown(Shutdown::Write).is_err() {
            return;
        }
        let mut left = LAST_READS_LIMIT;
        for _ in 0..LAST_READS {
            match self.pass_over(left) {
                Ok(waited) => left = left.saturating_sub(waited),
                Err(_) => return,
            }
        }
    }

    /// Reads some bytes and passes them over, and says how many milliseconds it waited. At the end of input it fails.
    fn pass_over(&mut self, left: u64) -> io::Result<u64> {
        self.stream.set_read_timeout(limit(left)?)?;
        let begun = Instant::now(&self.clock)?;
        match self.stream.read(&mut [0; 4096])? {
            0 => Err(io::Error::from(ErrorKind::UnexpectedEof)),
            _ => Ok(since(&self.clock, begun)),
        }
    }
}

/// A limit of so many milliseconds. Where none is left, the time is up.
fn limit(left: u64) -> io::Result<Option<Duration>> {
    if left == 0 {
        return Err(io::Error::from(ErrorKind::TimedOut));
    }
    Ok(Some(Duration::from_millis(left)))
}

/// How many milliseconds have gone since a time. A clock that cannot be read has stood still.
fn since(clock: &impl Clock, begun: Instant) -> u64 {
    match begun.elapsed(clock) {
        Ok(time) => u64::try_from(time.as_millis()).unwrap_or(u64::MAX),
        Err(_) => 0,
    }
}

/// How many bytes a call moved.
fn moved(outcome: &io::Result<usize>) -> usize {
    match outcome {
        Ok(count) => *count,
        Err(_) => 0,
    }
}

impl<C: Clock + Drop> Read for PatientStream<C> {
    fn read(&mut self, buf: &mut [u8]) -> io::Result<usize> {
        let wait = limit(self.patience.for_read())?;
        self.stream.set_read_timeout(wait)?;
        let begun = Instant::now(&self.clock)?;
        let read = self.stream.read(buf);
        let count = moved(&read);
        self.came_last = count > 0;
        self.patience
            .has_read(since(&self.clock, begun), count as u64);
        if self.frames.pass(buf.get(..count).unwrap_or(&[])) {
            self.patience.frame_came();
        }
        read
    }
}

impl<C: Clock + Drop> Write for PatientStream<C> {
    fn write(&mut self, buf: &[u8]) -> io::Result<usize> {
        let wait = limit(self.patience.for_write())?;
        self.stream.set_write_timeout(wait)?;
        let begun = Instant::now(&self.clock)?;
        let written = self.stream.write(buf);
        self.came_last = false;
        self.patience
            .has_written(since(&self.clock, begun), moved(&written) as u64);
        written
    }

    fn flush(&mut self) -> io::Result<()> {
        self.stream.flush()
    }
}
