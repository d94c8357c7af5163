//! Sources, sinks, pieces behind their lengths, and the cursor.

use bec_bytes::{
    Cursor, Failed, Framed, MemSink, MemSource, PlainSink, PlainSource, ReadError, Sink, Source,
    read_framed, read_full, write_all_of,
};
use std::alloc::{AllocError, Global};
use std::test::Fail;

/// Whether a source fails at its second call and at no other.
fn source_fails(source: &mut MemSource) -> bool {
    let mut buf = [0u8; 2];
    let first = source.take(&mut buf);
    let second = read_full(source, &mut buf);
    let third = read_full(source, &mut buf);
    (first, second, third) == (Ok(2), Err(Failed), Ok(1)) && buf == [3, 2]
}

#[test]
fn a_source_fails_at_its_numbered_calls(rt: HostRuntime) -> Result<(), Fail> {
    let failing = [2u32].to_vec(rt.alloc())?;
    let mut source = MemSource::new([1, 2, 3].to_vec(rt.alloc())?, failing);
    assert!(rt; source_fails(&mut source));
    Ok(())
}

/// Whether a sink fails at its second call and at no other.
fn sink_fails(sink: &mut MemSink) -> bool {
    let first = write_all_of(sink, b"one");
    let second = write_all_of(sink, b"two");
    let third = write_all_of(sink, b"three");
    (first, second, third) == (Ok(()), Err(Failed), Ok(()))
        && sink.bytes() == b"onethree".as_slice()
}

#[test]
fn a_sink_fails_at_its_numbered_calls(rt: HostRuntime) -> Result<(), Fail> {
    let mut sink = MemSink::new(rt.alloc(), [2u32].to_vec(rt.alloc())?);
    assert!(rt; sink_fails(&mut sink) && PlainSink::new().put(b"four") == Ok(4));
    Ok(())
}

/// What stands first in these bytes, where a piece has at most three: how many bytes of a piece came, if one begins.
fn first(alloc: Global, bytes: &[u8]) -> Result<(&'static str, usize), AllocError> {
    let mut source = PlainSource::new(Vec::from_slice(alloc, bytes)?);
    Ok(match read_framed(alloc, &mut source, 3) {
        Ok(Framed::End) => ("end", 0),
        Ok(Framed::Cut(came)) => ("cut", came),
        Ok(Framed::TooLong) => ("too long", 0),
        Ok(Framed::Whole(piece)) => ("whole", piece.len()),
        Err(ReadError::Failed) => ("failed", 0),
        Err(ReadError::Memory) => return Err(AllocError),
    })
}

/// Bytes, and what stands first in them.
const FIRST: &[(&[u8], (&str, usize))] = &[
    (b"", ("end", 0)),
    (b"\x00\x00\x00", ("cut", 0)),
    (b"\x00\x00\x00\x03ab", ("cut", 2)),
    (b"\x00\x00\x00\x03abcd", ("whole", 3)),
    (b"\x00\x00\x00\x04abcd", ("too long", 0)),
];

/// Whether each row is as it says.
fn reads_pieces(alloc: Global) -> Result<bool, AllocError> {
    for (bytes, found) in FIRST {
        if first(alloc, bytes)? != *found {
            return Ok(false);
        }
    }
    Ok(true)
}

#[test]
fn reads_pieces_behind_their_lengths(rt: HostRuntime) {
    assert!(rt; matches!(reads_pieces(rt.alloc()), Ok(true)));
}

/// Whether a cursor takes fields, and none of which bytes are missing.
fn takes_fields() -> bool {
    let mut cursor = Cursor::new(b"\x01\x02\x03\x04\x05\x06\x07\x08");
    let are_taken = cursor.take_u8() == Some(1)
        && cursor.take_u16() == Some(0x0203)
        && cursor.take_u32() == Some(0x0405_0607);
    are_taken && cursor.take_u16().is_none() && (cursor.place(), cursor.left()) == (7, 1)
}

#[test]
fn a_cursor_takes_fields(rt: HostRuntime) {
    assert!(rt; takes_fields());
}
