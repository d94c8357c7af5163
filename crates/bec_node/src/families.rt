//! What the words of a command line ask for without a net, of the families of commands that a run alone does not have.

ghost use Rattle.std.specs.Prelude.{IfOk, MatchOption};
ghost use Rattle.bec_node.specs.Families.{BesideText, IsBesideCommand, beside_seen};

use command_words::{
    AuditRequest, SealRequest, WatchRequest, WorldRequest, parse_audit_request, parse_seal_request,
    parse_watch_request, parse_world_request,
};
use std::alloc::{AllocError, Global};

/// A request of one of these families.
#[derive(Drop)]
pub(crate) enum BesideRequest<'a> {
    /// About seals.
    Seals(SealRequest<'a>),
    /// About keys that signed twice by one index.
    Audits(AuditRequest<'a>),
    /// About views of queries.
    Views(WatchRequest<'a>),
    /// About worlds.
    Worlds(WorldRequest),
}

/// What these words ask for of one of these families, or `None` where they ask for nothing of them. The one error is
/// want of memory, after which nothing is known of the words.
pub(crate) fn parse_beside_request<'a>(
    alloc: Global,
    words: &'a [String],
) -> Result<Option<BesideRequest<'a>>, AllocError>
    ensures { IfOk result (λ found. MatchOption found ((request : BesideText) → IsBesideCommand request words.entry.now
        → ⊥)
        (λ request. IsBesideCommand (beside_seen request) words.entry.now)) }
{
    if let Some(request) = parse_seal_request(alloc, words)? {
        return Ok(Some(BesideRequest::Seals(request)));
    }
    if let Some(request) = parse_audit_request(alloc, words)? {
        return Ok(Some(BesideRequest::Audits(request)));
    }
    if let Some(request) = parse_watch_request(alloc, words)? {
        return Ok(Some(BesideRequest::Views(request)));
    }
    match parse_world_request(alloc, words)? {
        Some(request) => Ok(Some(BesideRequest::Worlds(request))),
        None => Ok(None),
    }
}
