ghost use Rattle.std.specs.Prelude.{◌≡◌, IfOk};
ghost use Rattle.std.specs.Io.{ReadsAtMost};
ghost use Rattle.std.specs.Io.KnownBytes.{ReadConsumes};
ghost use Rattle.std.specs.Io.Buffered.{reader_remaining};
ghost use Rattle.bec_bytes.specs.Causes.{HasCause, faults_after};
ghost use Rattle.bec_host.specs.Streams.{HostStream};

use bec_bytes::{Counted, Failed, Source};
use std::alloc::{AllocError, Global};
use std::io::{BufReader, ErrorKind, Read};
use std::marker::Model;

/// How many bytes are read ahead: large enough that the reading of a long stream is not the cost.
const READ_AHEAD: usize = 131_072;

/// A source over a reader of std, as the standard input. It reads ahead.
#[derive(Drop)]
pub struct HostSource<R: Read> {
    reader: BufReader<R>,
    faults: u64,
}

impl<R: Read> Model for HostSource<R> {
    ghost Value = { HostStream };

    ghost view = { λ s. record {
      bytes = reader_remaining R.remaining s.reader;
      faults = s.faults;
    } };
}

impl<R: Read> HostSource<R> {
    /// A source that gives what `reader` gives. Where there is no memory for the buffer the reader is
    /// dropped.
    pub fn new(alloc: Global, reader: R) -> Result<HostSource<R>, AllocError>
    where
        R: Drop,
        ensures { IfOk result (λ s. s ≡ record { bytes = R.remaining reader; faults = 0 }) }
    {
        let reader = BufReader::with_capacity(alloc, READ_AHEAD, reader).map_err(|_| AllocError)?;
        Ok(HostSource { reader, faults: 0 })
    }
}

impl<R: Read> Counted for HostSource<R> {
    ghost faults = { λ s. s.faults };
}

impl<R: Read> Source for HostSource<R> {
    ghost left = { λ s. s.bytes };

    /// Gives bytes that were read ahead, or reads. A read that a signal interrupted is made again, and
    /// any other error is a fault.
    fn take(&mut self, buf: &mut [u8]) -> Result<usize, Failed>
        ensures bound { ReadsAtMost result buf.new }
        ensures bytes { ReadConsumes self.old.bytes self.new.bytes result buf.new }
        ensures cause { HasCause self.old.faults self.new.faults result }
        ensures count { self.new.faults ≡ faults_after result self.old.faults }
    {
        let taken = read_retrying(&mut self.reader, buf);
        if taken.is_err() {
            self.faults = self.faults.saturating_add(1);
        }
        taken
    }
}

/// One read, made again where a signal interrupted it.
pub(crate) fn read_retrying<R: Read>(reader: &mut R, buf: &mut [u8]) -> Result<usize, Failed>
    ensures bound { ReadsAtMost result buf.new }
    ensures bytes { ReadConsumes (R.remaining reader.old) (R.remaining reader.new) result buf.new }
{
    for _ in 0..u64::MAX {
        match reader.read(buf) {
            Ok(count) => return Ok(count),
            Err(error) => {
                if error.kind() != ErrorKind::Interrupted {
                    return Err(Failed);
                }
            }
        }
    }
    Err(Failed)
}
