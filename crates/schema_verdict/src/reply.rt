//! What is written, and the exit status for it.

ghost use Rattle.std.specs.Prelude.{codes};
ghost use Rattle.schema_verdict.specs.Written.{Puts};

use crate::status::{NO_COMMAND, STREAM_FAULT};
use bec_bytes::{Sink, write_all_of};

/// Writes a text and answers its status, or that of a stream fault where the sink failed. Then a front of the text went
/// out.
pub fn put<K: Sink>(out: &mut K, text: &[u8], status: u8) -> u8
    ensures { Puts (K.faults out.old) (K.faults out.new) (K.held out.old) (K.held out.new) status text.now result }
{
    match write_all_of(out, text) {
        Ok(()) => status,
        Err(_failed) => STREAM_FAULT,
    }
}

/// Writes the line for words that are no command.
pub fn no_command<K: Sink>(out: &mut K) -> u8
    ensures { Puts (K.faults out.old) (K.faults out.new) (K.held out.old) (K.held out.new) NO_COMMAND
        (codes "! words\n") result }
{
    put(out, b"! words\n", NO_COMMAND)
}
