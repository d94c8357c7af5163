ghost use Rattle.std.specs.Prelude.{◌≡◌, ◌≤◌, IfOk, IfErr};
ghost use Rattle.bec_bytes.specs.Causes.{Rose};
ghost use Rattle.bec_bytes.specs.Moved.{IfTold};
ghost use Rattle.update_codec.specs.declared.codec_fault.CodecKind.{CodecKind};
ghost use Rattle.update_check.specs.declared.check_error.CheckFault.TheVariants.{Codec};
ghost use Rattle.update_stream.specs.declared.record_fault.RecordFault.TheVariants.{Check};
ghost use Rattle.update_stream.specs.Stream.{BreaksOff};
ghost use Rattle.update_stream.specs.Told.{Reads};

use crate::take_record::take_record;
use crate::{Reading, RecordFault};
use bec_bytes::{Framed, ReadError, Source, read_framed, read_full};
use hash_graph::Graph;
use std::alloc::Global;
use update_check::CheckFault;
use update_codec::{CodecFault, CodecKind, UPDATE_LIMIT};
use update_model::DbRule;

/// How many records a stream has at most.
pub const MAX_RECORDS: u32 = 262_144;

/// Reads a stream up to its end, or up to its first record that is refused and no further: of a record that is too
/// long, its length alone.
///
/// Where a rule is given, each update has to be under it. Without one the first record sets the database, and every
/// author is listed.
///
/// [`ReadError::Failed`] comes only where a call of the source failed, and after that nothing is read.
/// [`ReadError::Memory`] comes only where a record may still stand: behind [`MAX_RECORDS`] of them memory is not asked
/// for.
pub fn read_stream<S: Source>(
    alloc: Global,
    rule: &Option<DbRule>,
    input: &mut S,
) -> Result<Reading, ReadError>
    ensures told { IfOk result (λ reading. Reads rule.now (S.left input.old) (S.left input.new) reading) }
    ensures left { IfErr result (λ e. IfTold (S.left input.old) (S.left input.new) (BreaksOff rule.now e)) }
    ensures later { S.faults input.old ≤ S.faults input.new }
    ensures failed { IfErr result (λ e. e ≡ ReadError.Failed → Rose (S.faults input.old) (S.faults input.new)) }
{
    let mut graph = Graph::new(alloc);
    let mut set = None;
    for number in 0..MAX_RECORDS {
        let fault = match read_framed(alloc, input, UPDATE_LIMIT)? {
            Framed::End => return Ok(Reading::Whole(graph)),
            Framed::Cut(came) => Some(cut(CodecKind::Short, came as u32)),
            Framed::TooLong => Some(cut(CodecKind::TooLong, UPDATE_LIMIT as u32)),
            Framed::Whole(bytes) => take_record(alloc, rule, &mut set, &mut graph, bytes)?,
        };
        if let Some(fault) = fault {
            return Ok(Reading::Refused {
                number: number + 1,
                fault,
            });
        }
    }
    let mut more = [0u8; 1];
    let count = read_full(input, &mut more)?;
    if count == 0 {
        return Ok(Reading::Whole(graph));
    }
    Ok(Reading::Refused {
        number: MAX_RECORDS + 1,
        fault: RecordFault::Full,
    })
}

/// The fault of a record that does not stand there whole.
fn cut(kind: CodecKind, place: u32) -> RecordFault
    ensures { result ≡ Check (Codec (record { kind = kind; place = place })) }
{
    RecordFault::Check(CheckFault::Codec(CodecFault { kind, place }))
}
