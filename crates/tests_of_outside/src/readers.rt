//! Adapters over readers and writers that stop short and fail.

use bec_bytes::{Failed, Sink, Source, read_full, write_all_of};
use bec_host::{HostSink, HostSource};
use std::io;
use std::io::{ErrorKind, Read, Write};
use std::test::Fail;

/// What one call of a reader or a writer does.
#[derive(Clone, Copy)]
enum Turn {
    /// It moves at most this many bytes.
    Moves(usize),
    /// It answers this error.
    Fails(ErrorKind),
}

use Turn::{Fails, Moves};

/// The next turn, which is then over.
fn next_turn<'a>(turns: &mut &'a [Turn]) -> io::Result<usize> {
    let Some((turn, rest)) = turns.split_first() else {
        return Ok(0);
    };
    *turns = rest;
    match turn {
        Moves(most) => Ok(*most),
        Fails(kind) => Err(io::Error::from(*kind)),
    }
}

/// Reads bytes that count up from 1, a turn a call, and is at its end after the turns.
#[derive(Drop)]
struct UnevenReader<'a> {
    turns: &'a [Turn],
    last: u8,
}

impl Read for UnevenReader<'_> {
    fn read(&mut self, buf: &mut [u8]) -> io::Result<usize> {
        let most = next_turn(&mut self.turns)?;
        let count = buf.len().min(most);
        for byte in buf[..count].iter_mut() {
            self.last = self.last.wrapping_add(1);
            *byte = self.last;
        }
        Ok(count)
    }
}

/// Keeps what is written, a turn a call, and takes nothing after the turns.
#[derive(Drop)]
struct UnevenWriter<'a> {
    turns: &'a [Turn],
    taken: Vec<u8>,
    can_flush: bool,
}

impl Write for UnevenWriter<'_> {
    fn write(&mut self, buf: &[u8]) -> io::Result<usize> {
        let most = next_turn(&mut self.turns)?;
        let count = buf.len().min(most);
        self.taken.extend_from_slice(&buf[..count])?;
        Ok(count)
    }

    fn flush(&mut self) -> io::Result<()> {
        if !self.can_flush {
            return Err(io::Error::from(ErrorKind::BrokenPipe));
        }
        Ok(())
    }
}

/// What a reader does.
const READS: &[Turn] = &[
    Moves(2),
    Fails(ErrorKind::Interrupted),
    Moves(9),
    Fails(ErrorKind::BrokenPipe),
    Moves(1),
];

/// Whether a source reads on over such a reader unless that fails.
fn reads_on<S: Source>(source: &mut S) -> bool {
    let (mut one, mut two, mut three) = ([0u8; 4], [0u8; 3], [0u8; 4]);
    let full = (
        read_full(source, &mut one),
        read_full(source, &mut two),
        read_full(source, &mut three),
    );
    let is_full = full == (Ok(4), Ok(3), Ok(4)) && (one, three) == ([1, 2, 3, 4], [8, 9, 10, 11]);
    let rest = (
        source.take(&mut three),
        source.take(&mut three),
        source.take(&mut one),
    );
    is_full && rest == (Err(Failed), Ok(1), Ok(0)) && three == [12, 9, 10, 11]
}

#[test]
fn a_source_reads_on_unless_the_reader_fails(rt: HostRuntime) -> Result<(), Fail> {
    let reader = UnevenReader {
        turns: READS,
        last: 0,
    };
    let mut source = HostSource::new(rt.alloc(), reader)?;
    assert!(rt; reads_on(&mut source));
    Ok(())
}

/// What a writer does.
const WRITES: &[Turn] = &[
    Moves(2),
    Fails(ErrorKind::Interrupted),
    Moves(9),
    Fails(ErrorKind::BrokenPipe),
    Moves(0),
    Moves(1),
];

/// Whether a sink writes on over such a writer unless that fails.
fn writes_on<K: Sink>(sink: &mut K) -> bool {
    let first = write_all_of(sink, b"first");
    let rest = (
        sink.put(b"fails"),
        sink.put(b"is not taken"),
        sink.put(b"second"),
    );
    first == Ok(()) && rest == (Err(Failed), Err(Failed), Ok(1))
}

#[test]
fn a_sink_writes_on_unless_the_writer_fails(rt: HostRuntime) {
    let mut writer = UnevenWriter {
        turns: WRITES,
        taken: Vec::new(rt.alloc()),
        can_flush: true,
    };
    let writes_on = writes_on(&mut HostSink::new(&mut writer));
    assert!(rt; writes_on && writer.taken.as_slice() == b"firsts".as_slice());
}

#[test]
fn a_flush_that_fails_is_a_fault(rt: HostRuntime) {
    let mut sink = HostSink::new(UnevenWriter {
        turns: &[Moves(9)],
        taken: Vec::new(rt.alloc()),
        can_flush: false,
    });
    assert!(rt; sink.put(b"bytes") == Err(Failed));
}
