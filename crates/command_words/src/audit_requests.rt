//! What the words of each command about keys that signed twice ask for.

ghost use Rattle.std.specs.Prelude.{◌≡◌, IfOk, MatchOption, map, option_map, string_bytes};
ghost use Rattle.command_words.specs.AuditCommands.{audit_of, audit_request_named, audit_request_of, confirm_of};
ghost use Rattle.command_words.specs.AuditRequests.{AsksAudit, AuditText};
ghost use Rattle.command_words.specs.Seen.{audit_seen};

use crate::reading::read_words;
use crate::requests::directory_of;
use crate::{AuditRequest, audit_requests_are_by_rule};
use std::alloc::{AllocError, Global};

/// What these words ask for about keys that signed twice, or `None` where they ask for nothing about them. The first
/// word names the command. The one error is want of memory, after which nothing is known of the words.
pub fn parse_audit_request<'a>(
    alloc: Global,
    words: &'a [String],
) -> Result<Option<AuditRequest<'a>>, AllocError>
    ensures { IfOk result (λ found. MatchOption found ((request : AuditText)
        → AsksAudit (map string_bytes words.entry.now) request → ⊥)
        (λ request. AsksAudit (map string_bytes words.entry.now) (audit_seen request))) }
{
    audit_requests_are_by_rule();
    audit_request_of(alloc, words)
}

/// The same by the first word.
fn audit_request_of<'a>(
    alloc: Global,
    words: &'a [String],
) -> Result<Option<AuditRequest<'a>>, AllocError>
    ensures { IfOk result (λ found. option_map audit_seen found ≡ audit_request_of (map string_bytes words.entry.now)) }
{
    match words.first() {
        Some(first) => audit_request_named(alloc, first.as_str(), words),
        None => Ok(None),
    }
}

fn audit_request_named<'a>(
    alloc: Global,
    first: &str,
    words: &'a [String],
) -> Result<Option<AuditRequest<'a>>, AllocError>
    ensures { IfOk result (λ found. option_map audit_seen found ≡ audit_request_named first.now
        (map string_bytes words.entry.now)) }
{
    match first {
        "audit" => audit_of(alloc, words),
        "confirm" => confirm_of(alloc, words),
        _ => Ok(None),
    }
}

/// `audit DIR`
fn audit_of<'a>(alloc: Global, words: &'a [String]) -> Result<Option<AuditRequest<'a>>, AllocError>
    ensures { IfOk result (λ found. option_map audit_seen found ≡ audit_of (map string_bytes words.entry.now)) }
{
    match directory_of(alloc, "audit", words)? {
        Some(directory) => Ok(Some(AuditRequest::Audit { directory })),
        None => Ok(None),
    }
}

/// `confirm`
fn confirm_of<'a>(
    alloc: Global,
    words: &'a [String],
) -> Result<Option<AuditRequest<'a>>, AllocError>
    ensures { IfOk result (λ found. option_map audit_seen found ≡ confirm_of (map string_bytes words.entry.now)) }
{
    match read_words(alloc, "confirm", &[], words)? {
        Some(_) => Ok(Some(AuditRequest::Confirm)),
        None => Ok(None),
    }
}
