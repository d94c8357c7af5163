ghost use Rattle.std.specs.Prelude.{◌≡◌, ◌<◌, None, IfOk, OnErr, OnOk, length, take};
ghost use Rattle.std.specs.Io.{WritesAtMost};
ghost use Rattle.std.specs.Io.KnownBytes.{WriteAppends, Appends, Keeps};
ghost use Rattle.bec_bytes.specs.Causes.{HasCause, faults_after};
ghost use Rattle.bec_host.specs.Streams.{HostStream, WritesFront};

use bec_bytes::{Counted, Failed, Sink};
use std::io::{Error, ErrorKind, Write};
use std::marker::Model;

/// A sink over a writer of std, as the standard output. It keeps nothing back: what a `put` took has
/// been flushed when it answers.
#[derive(Drop)]
pub struct HostSink<W: Write> {
    writer: W,
    faults: u64,
    has_no_reader: bool,
}

impl<W: Write> Model for HostSink<W> {
    ghost Value = { HostStream };

    ghost view = { λ s. record { bytes = W.contents s.writer; faults = s.faults } };
}

impl<W: Write> HostSink<W> {
    /// A sink that writes to `writer`.
    pub fn new(writer: W) -> HostSink<W>
        ensures { result ≡ record { bytes = W.contents writer; faults = 0 } }
    {
        HostSink {
            writer,
            faults: 0,
            has_no_reader: false,
        }
    }

    /// Whether a `put` failed since nobody reads any more what is written, as behind a pipe whose reader has ended.
    pub fn has_no_reader(&self) -> bool {
        self.has_no_reader
    }
}

impl<W: Write> Counted for HostSink<W> {
    ghost faults = { λ s. s.faults };
}

impl<W: Write> Sink for HostSink<W> {
    // A flush that fails leaves it open whether what was written arrives, so the sink tells nothing.
    ghost held = { λ _. None };

    /// Writes a front of `bytes` and flushes it. A write that a signal interrupted is made again; any
    /// other error, a write that takes nothing of a piece and a flush that fails are faults.
    fn put(&mut self, bytes: &[u8]) -> Result<usize, Failed>
        ensures bound { WritesAtMost result bytes.now }
        ensures some { 0 < length bytes.now → IfOk result (λ n. 0 < n) }
        ensures bytes { WriteAppends None None result bytes.now }
        ensures cause { HasCause self.old.faults self.new.faults result }

        ensures count { self.new.faults ≡ faults_after result self.old.faults }

        // What the writer took, where it tells that.
        ensures wrote { IfOk result (λ n. Appends self.old.bytes self.new.bytes (take n bytes.now)) }
        ensures front { OnErr result (WritesFront self.old.bytes self.new.bytes bytes.now) }
    {
        match write_flushed(&mut self.writer, bytes) {
            Ok(count) => Ok(count),
            Err(loss) => {
                self.faults = self.faults.saturating_add(1);
                self.has_no_reader = loss == Loss::Reader;
                Err(Failed)
            }
        }
    }
}

/// What was lost where a write failed.
#[derive(Clone, Copy, PartialEq, Eq)]
pub(crate) enum Loss {
    /// Nobody reads any more what is written.
    Reader,
    /// Anything else.
    Other,
}

/// What an error of a write means.
fn loss_of(error: &Error) -> Loss {
    if error.kind() == ErrorKind::BrokenPipe {
        Loss::Reader
    } else {
        Loss::Other
    }
}

/// Writes a front of `bytes` and flushes it.
pub(crate) fn write_flushed<W: Write>(writer: &mut W, bytes: &[u8]) -> Result<usize, Loss>
    ensures bound { WritesAtMost result bytes.now }
    ensures some { 0 < length bytes.now → IfOk result (λ n. 0 < n) }
    ensures wrote { IfOk result
        (λ n. Appends (W.contents writer.old) (W.contents writer.new) (take n bytes.now)) }
    ensures front { OnErr result
        (WritesFront (W.contents writer.old) (W.contents writer.new) bytes.now) }
{
    let count = write_retrying(writer, bytes)?;
    flush_retrying(writer)?;
    if count == 0 && !bytes.is_empty() {
        return Err(Loss::Other);
    }
    Ok(count)
}

/// Writes all the bytes and flushes them. A write that a signal interrupted is made again.
pub(crate) fn write_all_flushed<W: Write>(writer: &mut W, bytes: &[u8]) -> Result<(), Failed>
    ensures wrote { OnOk result (Appends (W.contents writer.old) (W.contents writer.new) bytes.now) }
{
    match writer.write_all(bytes) {
        Ok(()) => match flush_retrying(writer) {
            Ok(()) => Ok(()),
            Err(_) => Err(Failed),
        },
        Err(_) => Err(Failed),
    }
}

/// One write, made again where a signal interrupted it.
fn write_retrying<W: Write>(writer: &mut W, bytes: &[u8]) -> Result<usize, Loss>
    ensures bound { WritesAtMost result bytes.now }
    ensures bytes { WriteAppends (W.contents writer.old) (W.contents writer.new) result bytes.now }
{
    for _ in 0..u64::MAX {
        match writer.write(bytes) {
            Ok(count) => return Ok(count),
            Err(error) => {
                if error.kind() != ErrorKind::Interrupted {
                    return Err(loss_of(&error));
                }
            }
        }
    }
    Err(Loss::Other)
}

/// One flush, made again where a signal interrupted it.
fn flush_retrying<W: Write>(writer: &mut W) -> Result<(), Loss>
    ensures bytes { Keeps (W.contents writer.old) (W.contents writer.new) }
{
    for _ in 0..u64::MAX {
        match writer.flush() {
            Ok(()) => return Ok(()),
            Err(error) => {
                if error.kind() != ErrorKind::Interrupted {
                    return Err(loss_of(&error));
                }
            }
        }
    }
    Err(Loss::Other)
}
