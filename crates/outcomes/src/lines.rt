//! Every line that begins with `! `, and what follows it.

ghost use Rattle.std.specs.Prelude.{◌≡◌, ◌≢◌, IfOk, IfSome, IfNone, OnErr, Err};
ghost use Rattle.std.specs.String.{string_bytes};
ghost use Rattle.outcomes.specs.declared.refusal.Refusal.TheVariants.{Memory};
ghost use Rattle.outcomes.specs.Texts.{invalid_text, many_heads_text, peer_text, query_text, record_text, spent_text};
ghost use Rattle.outcomes.specs.Texts.{transaction_text};
ghost use Rattle.outcomes.specs.Outcome.{MayLackMemory, Says, text_for};

use crate::refusal::Refusal;
use bec_bytes::Sink;
use query::QueryFault;
use schema_verdict::{put, refused_lines, schema_line};
use session_rules::PeerFault;
use std::alloc::{AllocError, Global};
use txn_text::TextFault;
use update_stream::RecordFault;

/// Writes the lines of a refusal and answers its exit status. Where memory runs out nothing is written; a refusal that
/// has always the same line takes none.
pub fn refuse<K: Sink>(alloc: Global, out: &mut K, refusal: &Refusal) -> Result<u8, AllocError>
    ensures said { IfOk result (λ status. Says (K.faults out.old) (K.faults out.new) (K.held out.old) (K.held out.new)
        (Err refusal.now) status) }
    ensures same { OnErr result (out.new ≡ out.old) }
    ensures made { OnErr result (MayLackMemory (Err refusal.now)) }
{
    let status = refusal.status();
    if let Some(line) = plain_line(refusal) {
        return Ok(put(out, line, status));
    }
    let lines = told_lines(alloc, refusal)?;
    Ok(put(out, &lines, status))
}

/// The line of a refusal that has always the same one.
fn plain_line(refusal: &Refusal) -> Option<&'static [u8]>
    ensures line { IfSome result (λ line. (line.now ≡ text_for refusal.now) × (refusal.now ≢ Memory)) }
    ensures other { IfNone result (MayLackMemory (Err refusal.now)) }
{
    match refusal {
        Refusal::Words => Some(b"! words\n"),
        Refusal::CutSchema => Some(b"! schema cut\n"),
        Refusal::QueryNotNamed => Some(b"! query not named\n"),
        Refusal::AuthorNotListed => Some(b"! author not listed\n"),
        Refusal::UpdateTooLong => Some(b"! update too long\n"),
        Refusal::IdTaken => Some(b"! id taken\n"),
        Refusal::Full => Some(b"! full\n"),
        Refusal::Peer(fault) => Some(peer_line(fault)),
        Refusal::NotDoubled => Some(b"! not doubled\n"),
        Refusal::BadSeal => Some(b"! bad seal\n"),
        Refusal::InputTooLong => Some(b"! input too long\n"),
        Refusal::NoStore => Some(b"! no store\n"),
        Refusal::StoreThere => Some(b"! store there\n"),
        Refusal::BadStore => Some(b"! bad store\n"),
        Refusal::NoKey => Some(b"! no key\n"),
        Refusal::KeyThere => Some(b"! key there\n"),
        Refusal::BadKey => Some(b"! bad key\n"),
        Refusal::StoreFault => Some(b"! store fault\n"),
        Refusal::Stream => Some(b"! stream fault\n"),
        Refusal::Record { .. } | Refusal::Schema(_) | Refusal::NotConfluent { .. } => None,
        Refusal::Query(_) | Refusal::Transaction(_) | Refusal::Invalid { .. } => None,
        Refusal::KeySpent(_) | Refusal::Heads(_) | Refusal::Memory => None,
    }
}

/// The line for a peer that shows this fault.
pub fn peer_line(fault: &PeerFault) -> &'static [u8]
    ensures { result.now ≡ peer_text fault.now }
{
    match fault {
        PeerFault::BadFrame(_) => b"! peer bad frame\n",
        PeerFault::WrongDatabase => b"! peer wrong database\n",
        PeerFault::BadUpdate(_) => b"! peer bad update\n",
        PeerFault::Unanswered(_) => b"! peer unanswered\n",
        PeerFault::AskedUnknown(_) => b"! peer asked unknown\n",
        PeerFault::AskedAgain(_) => b"! peer asked again\n",
        PeerFault::Stalled => b"! peer stalled\n",
        PeerFault::TakenBack => b"! peer taken back\n",
        PeerFault::OutOfTurn => b"! peer out of turn\n",
        PeerFault::Version => b"! peer version\n",
    }
}

/// The lines of a refusal that tell what it has: numbers, ids, texts. No other has any.
fn told_lines(alloc: Global, refusal: &Refusal) -> Result<Vec<u8>, AllocError>
    ensures { IfOk result (λ lines. (lines.items ≡ text_for refusal.now) × (refusal.now ≢ Memory)) }
{
    match refusal {
        Refusal::Record { number, fault } => Ok(record_line(alloc, *number, fault)?.into_bytes()),
        Refusal::Schema(fault) => Ok(schema_line(alloc, fault)?.into_bytes()),
        Refusal::NotConfluent {
            schema,
            which,
            example,
        } => refused_lines(alloc, schema, which, example),
        Refusal::Query(fault) => Ok(query_line(alloc, fault)?.into_bytes()),
        Refusal::Transaction(fault) => Ok(transaction_line(alloc, fault)?.into_bytes()),
        Refusal::Invalid { reason, operation } => {
            Ok(invalid_line(alloc, *reason, *operation)?.into_bytes())
        }
        Refusal::KeySpent(count) => Ok(spent_line(alloc, *count)?.into_bytes()),
        Refusal::Heads(count) => Ok(many_heads_line(alloc, *count)?.into_bytes()),
        _ => Err(AllocError),
    }
}

/// The line for a refused record, which is counted from 1.
fn record_line(alloc: Global, number: u32, fault: &RecordFault) -> Result<String, AllocError>
    ensures { IfOk result (λ line. string_bytes line ≡ record_text number fault.now) }
{
    match fault {
        RecordFault::Check(fault) => { format!(in alloc; "! update {number}: {fault}\n") }
        RecordFault::Lacks(id) => {
            let digits = hex::encode(alloc, id.0)?;
            let name = digits.as_str();
            format!(in alloc; "! update {number}: lacks {name}\n")
        }
        RecordFault::Full => String::from_str(alloc, "! full\n"),
    }
}

/// The line for the first fault of a query's text.
fn query_line(alloc: Global, fault: &QueryFault) -> Result<String, AllocError>
    ensures { IfOk result (λ line. string_bytes line ≡ query_text fault.now) }
{
    format!(in alloc; "! query {fault}\n")
}

/// The line for the first fault of a transaction's text.
fn transaction_line(alloc: Global, fault: &TextFault) -> Result<String, AllocError>
    ensures { IfOk result (λ line. string_bytes line ≡ transaction_text fault.now) }
{
    format!(in alloc; "! transaction {fault}\n")
}

/// The line for an update that would not be valid.
fn invalid_line(alloc: Global, reason: u8, operation: u16) -> Result<String, AllocError>
    ensures { IfOk result (λ line. string_bytes line ≡ invalid_text reason operation) }
{
    format!(in alloc; "! invalid reason {reason} operation {operation}\n")
}

/// The line for a key of so many indices that are all used.
fn spent_line(alloc: Global, count: u32) -> Result<String, AllocError>
    ensures { IfOk result (λ line. string_bytes line ≡ spent_text count) }
{
    format!(in alloc; "! key spent {count}\n")
}

/// The line for so many heads.
fn many_heads_line(alloc: Global, count: u32) -> Result<String, AllocError>
    ensures { IfOk result (λ line. string_bytes line ≡ many_heads_text count) }
{
    format!(in alloc; "! heads {count}\n")
}
