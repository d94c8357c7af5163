//! Why a watch stops before the end of its stream.

ghost use Rattle.std.specs.Prelude.{◌≡◌, ◌≤◌, ℕ, List};
ghost use Rattle.outcomes.specs.Outcome.{from_open};
ghost use Rattle.outcomes.specs.declared.refusal.Refusal.TheVariants.{Memory};
ghost use Rattle.schema_verdict.specs.Written.{SinkState};
ghost use Rattle.watch_command.specs.Ending.{Says, Writes, stop_of};
ghost use Rattle.watch_command.specs.declared.stop.Stop.TheVariants.{Refused as Refusing, Unwritten as NotWritten};

use bec_bytes::{Failed, Sink};
use outcomes::status::{DONE, STREAM_FAULT};
use outcomes::{Refusal, finish};
use std::alloc::{AllocError, Global};
use store_directory::OpenRefusal;

/// Why a watch stops before the end of its stream.
#[derive(Drop)]
pub enum Stop {
    /// Something is refused: the store, the query, a record; or a disk or the source failed, or memory ran out.
    Refused(Refusal),
    /// The sink failed at a block.
    Unwritten,
}

impl From<Refusal> for Stop {
    ghost from_gives = { λ refusal stop. stop ≡ Refusing refusal };

    fn from(refusal: Refusal) -> Stop {
        Stop::Refused(refusal)
    }
}

impl From<OpenRefusal> for Stop {
    ghost from_gives = { λ why stop. stop ≡ Refusing (from_open why) };

    fn from(why: OpenRefusal) -> Stop {
        Stop::Refused(Refusal::from(why))
    }
}

impl From<AllocError> for Stop {
    ghost from_gives = { λ _ stop. stop ≡ Refusing Memory };

    fn from(_error: AllocError) -> Stop {
        Stop::Refused(Refusal::Memory)
    }
}

impl From<Failed> for Stop {
    ghost from_gives = { λ _ stop. stop ≡ NotWritten };

    fn from(_error: Failed) -> Stop {
        Stop::Unwritten
    }
}

/// Ends a watch: writes the lines of what it stopped for, if anything, and answers the exit status.
pub(crate) fn end<K: Sink>(alloc: Global, out: &mut K, ended: Result<(), Stop>) -> u8
    ensures { (old : SinkState) (text : List ℕ)
        → Writes old (record { held = K.held out.old; faults = K.faults out.old }) text (stop_of ended)
        → old.faults ≤ K.faults out.old → Says old (record { held = K.held out.new; faults = K.faults out.new }) text
        (stop_of ended) result }
{
    match ended {
        Ok(()) => DONE,
        Err(Stop::Refused(refusal)) => finish(alloc, out, Err(refusal)),
        Err(Stop::Unwritten) => STREAM_FAULT,
    }
}
