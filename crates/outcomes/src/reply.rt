//! What is written of what a command comes to.

ghost use Rattle.outcomes.specs.Outcome.{Ends};
ghost use Rattle.outcomes.specs.Told.{EndsTold};

use crate::lines::refuse;
use crate::refusal::Refusal;
use bec_bytes::Sink;
use schema_verdict::put;
use schema_verdict::status::{DONE, OUT_OF_MEMORY};
use std::alloc::Global;

/// Ends a command: writes what it comes to, the text of what is done or the lines of its refusal, and answers the exit
/// status. Where memory runs out nothing is written.
pub fn finish<K: Sink>(alloc: Global, out: &mut K, outcome: Result<Vec<u8>, Refusal>) -> u8
    ensures { Ends (K.faults out.old) (K.faults out.new) (K.held out.old) (K.held out.new) outcome result }
{
    match outcome {
        Ok(text) => put(out, &text, DONE),
        Err(refusal) => match refuse(alloc, out, &refusal) {
            Ok(status) => status,
            Err(_memory) => OUT_OF_MEMORY,
        },
    }
}

/// A text that a command writes, with an exit status of its own.
#[derive(Drop)]
pub struct Reply {
    /// The text.
    pub text: Vec<u8>,
    /// The exit status.
    pub status: u8,
}

/// Ends a command that tells a status of its own: writes what is told, or the lines of the refusal, and answers the
/// exit status. Where memory runs out for those lines nothing is written.
pub fn end<K: Sink>(alloc: Global, out: &mut K, told: Result<Reply, Refusal>) -> u8
    ensures { EndsTold (K.faults out.old) (K.faults out.new) (K.held out.old) (K.held out.new) told result }
{
    match told {
        Ok(reply) => put(out, &reply.text, reply.status),
        Err(refusal) => finish(alloc, out, Err(refusal)),
    }
}
