ghost use Rattle.std.specs.Prelude.{◌≡◌, ◌<◌, ◌↔◌, None, IsTrue, IfOk, OnErr, OnOk, length, take};
ghost use Rattle.std.specs.Io.{ReadsAtMost, WritesAtMost};
ghost use Rattle.std.specs.Io.KnownBytes.{ReadConsumes, WriteAppends, Appends};
ghost use Rattle.bec_bytes.specs.Causes.{HasCause, faults_after};
ghost use Rattle.bec_bytes.specs.Moved.{TakesAll};
ghost use Rattle.bec_host.specs.Streams.{HostLink, WritesFront};

use crate::host_sink::{write_all_flushed, write_flushed};
use crate::host_source::read_retrying;
use bec_bytes::{Counted, Failed, Sink, Source};
use bec_links::Link;
use std::io::{Read, Write};
use std::marker::Model;

/// A link over a stream that is read and written, as a socket. It tells nothing of its bytes: what was
/// written may be lost on the way.
///
/// A call that a signal interrupted is made again. Any other error, the end of a time limit among them,
/// and a write that takes nothing of a piece are faults. A peer that has closed its side is the end of
/// input.
#[derive(Drop)]
pub struct TcpLink<S: Read + Write> {
    stream: S,
    faults: u64,
}

impl<S: Read + Write> Model for TcpLink<S> {
    ghost Value = { HostLink };

    ghost view = { λ l. record {
      coming = S.remaining l.stream;
      gone = S.contents l.stream;
      faults = l.faults;
    } };
}

impl<S: Read + Write> TcpLink<S> {
    /// A link over a stream that is connected.
    pub fn new(stream: S) -> TcpLink<S>
        ensures { result ≡ record {
          coming = S.remaining stream;
          gone = S.contents stream;
          faults = 0;
        } }
    {
        TcpLink { stream, faults: 0 }
    }

    /// Whether a call failed.
    pub(crate) fn is_faulty(&self) -> bool
        ensures { IsTrue result ↔ (0 < self.now.faults) }
    {
        self.faults > 0
    }

    /// The stream, without its count.
    pub(crate) fn into_stream(self) -> S {
        self.stream
    }

    /// Counts a fault where `outcome` is one.
    fn counted<T>(&mut self, outcome: Result<T, Failed>) -> Result<T, Failed>
        ensures same { result ≡ outcome }
        ensures count { self.new ≡ record self.old { faults = faults_after outcome self.old.faults } }
        ensures cause { HasCause self.old.faults self.new.faults result }
    {
        if outcome.is_err() {
            self.faults = self.faults.saturating_add(1);
        }
        outcome
    }
}

impl<S: Read + Write> Counted for TcpLink<S> {
    ghost faults = { λ l. l.faults };
}

impl<S: Read + Write> Source for TcpLink<S> {
    ghost left = { λ _. None };

    /// Reads once. The bytes are those that the stream gave.
    fn take(&mut self, buf: &mut [u8]) -> Result<usize, Failed>
        ensures bound { ReadsAtMost result buf.new }
        ensures bytes { ReadConsumes None None result buf.new }
        ensures cause { HasCause self.old.faults self.new.faults result }
        ensures count { self.new.faults ≡ faults_after result self.old.faults }
        ensures read { ReadConsumes self.old.coming self.new.coming result buf.new }
    {
        let taken = read_retrying(&mut self.stream, buf);
        self.counted(taken)
    }
}

impl<S: Read + Write> Sink for TcpLink<S> {
    ghost held = { λ _. None };

    /// Writes a front of `bytes`.
    fn put(&mut self, bytes: &[u8]) -> Result<usize, Failed>
        ensures bound { WritesAtMost result bytes.now }
        ensures some { 0 < length bytes.now → IfOk result (λ n. 0 < n) }
        ensures bytes { WriteAppends None None result bytes.now }
        ensures cause { HasCause self.old.faults self.new.faults result }
        ensures count { self.new.faults ≡ faults_after result self.old.faults }
        ensures wrote { IfOk result (λ n. Appends self.old.gone self.new.gone (take n bytes.now)) }
        ensures front { OnErr result (WritesFront self.old.gone self.new.gone bytes.now) }
    {
        let put = match write_flushed(&mut self.stream, bytes) {
            Ok(count) => Ok(count),
            Err(_) => Err(Failed),
        };
        self.counted(put)
    }
}

impl<S: Read + Write + Send + Drop> Link for TcpLink<S> {
    /// Just as `take`.
    fn receive(&mut self, buf: &mut [u8]) -> Result<usize, Failed>
        ensures bound { ReadsAtMost result buf.new }
        ensures bytes { ReadConsumes None None result buf.new }
        ensures cause { HasCause self.old.faults self.new.faults result }
        ensures count { self.new.faults ≡ faults_after result self.old.faults }
        ensures read { ReadConsumes self.old.coming self.new.coming result buf.new }
    {
        self.take(buf)
    }

    /// Writes all the bytes, in as many writes as the stream takes.
    fn send(&mut self, bytes: &[u8]) -> Result<(), Failed>
        ensures bytes { TakesAll None None result bytes.now }
        ensures cause { HasCause self.old.faults self.new.faults result }
        ensures count { self.new.faults ≡ faults_after result self.old.faults }
        ensures wrote { OnOk result (Appends self.old.gone self.new.gone bytes.now) }
    {
        let sent = write_all_flushed(&mut self.stream, bytes);
        self.counted(sent)
    }
}
