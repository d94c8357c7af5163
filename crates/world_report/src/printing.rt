//! The lines of a report.

ghost use Rattle.std.specs.Prelude.{◌≡◌, ℕ, ◌∷◌, ◌++◌, OnOk, OnErr};
ghost use mathlib.Core.List.{IsPrefix};
ghost use Rattle.std.specs.Fmt.{decimal};
ghost use Rattle.std.specs.List.{flat_map};
ghost use Rattle.world_report.specs.Reports.{missed_text, replica_text, replicas_text, counts_text, count_text};
ghost use Rattle.world_report.specs.Reports.{doubled_text, doubled_texts, session_text, end_text, second_text};
ghost use Rattle.world_report.specs.Reports.{numbered};

use crate::{Counts, Missed, ShownEnd, ShownReplica, ShownSession};
use itoa::Buffer;
use std::alloc::AllocError;

/// Adds the line of an event that changed nothing: `line 9 none`, or `line 9 refused 4`.
pub fn push_missed(out: &mut Vec<u8>, missed: &Missed) -> Result<(), AllocError>
    ensures added { OnOk result (out.new.items ≡ out.old.items ++ missed_text missed.now) }
    ensures kept { OnErr result (IsPrefix out.old.items out.new.items) }
{
    match missed {
        Missed::NoSuch { line } => {
            push_numbered(out, b"line ", u64::from(*line))?;
            out.extend_from_slice(b" none\n")
        }
        Missed::Refused { line, cause } => {
            push_numbered(out, b"line ", u64::from(*line))?;
            push_numbered(out, b" refused ", u64::from(*cause))?;
            out.extend_from_slice(b"\n")
        }
    }
}

/// Adds a line for each replica, which number from 0.
pub fn push_replicas(out: &mut Vec<u8>, replicas: &[ShownReplica]) -> Result<(), AllocError>
    ensures added { OnOk result (out.new.items ≡ out.old.items ++ replicas_text 0 replicas.now) }
    ensures kept { OnErr result (IsPrefix out.old.items out.new.items) }
{
    let mut number = 0;
    let mut rest = replicas;
    while let [replica, after @ ..] = rest {
        push_replica(out, number, replica)?;
        number += 1;
        rest = after;
    }
    Ok(())
}

/// Adds the line of a replica: `replica 0 updates 2 heads 2 rows 2 0 void 0`, or `replica 0 down`.
fn push_replica(out: &mut Vec<u8>, number: u64, replica: &ShownReplica) -> Result<(), AllocError>
    ensures added { OnOk result (out.new.items ≡ out.old.items ++ replica_text number replica.now) }
    ensures kept { OnErr result (IsPrefix out.old.items out.new.items) }
{
    out.extend_from_slice(b"replica ")?;
    push_number(out, number)?;
    match replica {
        ShownReplica::Up(counts) => push_counts(out, counts),
        ShownReplica::Down => out.extend_from_slice(b" down\n"),
    }
}

/// Adds what a replica holds.
fn push_counts(out: &mut Vec<u8>, counts: &Counts) -> Result<(), AllocError>
    ensures added { OnOk result (out.new.items ≡ out.old.items ++ counts_text counts.now) }
    ensures kept { OnErr result (IsPrefix out.old.items out.new.items) }
{
    push_numbered(out, b" updates ", u64::from(counts.updates))?;
    push_numbered(out, b" heads ", u64::from(counts.heads))?;
    out.extend_from_slice(b" rows")?;
    push_rows(out, counts.rows.as_slice())?;
    push_numbered(out, b" void ", u64::from(counts.voids))?;
    out.extend_from_slice(b"\n")
}

/// Adds a blank and a number for each table.
fn push_rows(out: &mut Vec<u8>, rows: &[u32]) -> Result<(), AllocError>
    ensures added { OnOk result (out.new.items ≡ out.old.items ++ flat_map count_text rows.now) }
    ensures kept { OnErr result (IsPrefix out.old.items out.new.items) }
{
    for count in rows {
        push_numbered(out, b" ", u64::from(*count))?;
    }
    Ok(())
}

/// Adds a line for each replica that runs, which number from 0, of how many one-time keys signed twice among what it
/// holds: `replica 0 doubled 0`. A replica that has stopped has `None`.
pub fn push_doubled(out: &mut Vec<u8>, counts: &[Option<u64>]) -> Result<(), AllocError>
    ensures added { OnOk result (out.new.items ≡ out.old.items ++ doubled_texts 0 counts.now) }
    ensures kept { OnErr result (IsPrefix out.old.items out.new.items) }
{
    let mut number = 0;
    let mut rest = counts;
    while let [count, after @ ..] = rest {
        push_doubled_of(out, number, *count)?;
        number += 1;
        rest = after;
    }
    Ok(())
}

/// Adds the line of a replica that runs.
fn push_doubled_of(out: &mut Vec<u8>, number: u64, count: Option<u64>) -> Result<(), AllocError>
    ensures added { OnOk result (out.new.items ≡ out.old.items ++ doubled_text number count) }
    ensures kept { OnErr result (IsPrefix out.old.items out.new.items) }
{
    match count {
        Some(count) => {
            push_numbered(out, b"replica ", number)?;
            push_numbered(out, b" doubled ", count)?;
            out.extend_from_slice(b"\n")
        }
        None => Ok(()),
    }
}

/// Adds a line for each session: `session 0 done done`.
pub fn push_sessions(out: &mut Vec<u8>, sessions: &[ShownSession]) -> Result<(), AllocError>
    ensures added { OnOk result (out.new.items ≡ out.old.items ++ flat_map session_text sessions.now) }
    ensures kept { OnErr result (IsPrefix out.old.items out.new.items) }
{
    for session in sessions {
        push_session(out, *session)?;
    }
    Ok(())
}

/// Adds the line of a session.
fn push_session(out: &mut Vec<u8>, session: ShownSession) -> Result<(), AllocError>
    ensures added { OnOk result (out.new.items ≡ out.old.items ++ session_text session) }
    ensures kept { OnErr result (IsPrefix out.old.items out.new.items) }
{
    push_numbered(out, b"session ", u64::from(session.number))?;
    push_end(out, session.first)?;
    push_second(out, session.second)?;
    out.extend_from_slice(b"\n")
}

/// Adds the other end, where a correct replica has it.
fn push_second(out: &mut Vec<u8>, second: Option<ShownEnd>) -> Result<(), AllocError>
    ensures added { OnOk result (out.new.items ≡ out.old.items ++ second_text second) }
    ensures kept { OnErr result (IsPrefix out.old.items out.new.items) }
{
    match second {
        Some(end) => push_end(out, end),
        None => Ok(()),
    }
}

/// Adds a blank and how an end ended.
fn push_end(out: &mut Vec<u8>, end: ShownEnd) -> Result<(), AllocError>
    ensures added { OnOk result (out.new.items ≡ out.old.items ++ end_text end) }
    ensures kept { OnErr result (IsPrefix out.old.items out.new.items) }
{
    match end {
        ShownEnd::Open => out.extend_from_slice(b" open"),
        ShownEnd::Done => out.extend_from_slice(b" done"),
        ShownEnd::Peer(fault) => push_numbered(out, b" peer ", u64::from(fault)),
        ShownEnd::Full => out.extend_from_slice(b" full"),
        ShownEnd::Store => out.extend_from_slice(b" store"),
        ShownEnd::Cut => out.extend_from_slice(b" cut"),
    }
}

/// Adds words and a number.
fn push_numbered(out: &mut Vec<u8>, words: &[u8], number: u64) -> Result<(), AllocError>
    ensures added { OnOk result (out.new.items ≡ out.old.items ++ numbered words.now number) }
    ensures kept { OnErr result (IsPrefix out.old.items out.new.items) }
{
    out.extend_from_slice(words)?;
    push_number(out, number)
}

/// Adds a number in decimal.
fn push_number(out: &mut Vec<u8>, number: u64) -> Result<(), AllocError>
    ensures added { OnOk result (out.new.items ≡ out.old.items ++ decimal number) }
    ensures kept { OnErr result (IsPrefix out.old.items out.new.items) }
{
    let mut buffer = Buffer::new();
    out.extend_from_slice(buffer.format(number).as_bytes())
}
