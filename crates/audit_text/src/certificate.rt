//! Certificates.

ghost use Rattle.std.specs.Prelude.{IfOk, MatchOption};
ghost use Rattle.audit_text.specs.Certificates.{HoldsDoubled, HoldsNone};

use crate::records::two_records;
use key_audit::confirms_doubled;
use std::alloc::{AllocError, Global};
use update_codec::UPDATE_LIMIT;
use update_model::AuthorKey;

/// How many bytes a certificate has at most: the records of two updates, each behind its length of four bytes.
pub const MAX_CERTIFICATE_BYTES: usize = 2 * (4 + UPDATE_LIMIT);

/// The key and the index of two updates that are doubled, where the bytes are their two records and nothing else, and
/// else `None`. It gives up where memory runs out.
pub fn certified(alloc: Global, bytes: &[u8]) -> Result<Option<(AuthorKey, u32)>, AllocError>
    ensures { IfOk result (λ found. MatchOption found (HoldsNone bytes.now) (λ pair.
        HoldsDoubled bytes.now pair.0 pair.1)) }
{
    match two_records(bytes) {
        Some((first, second)) => confirms_doubled(alloc, first, second),
        None => Ok(None),
    }
}
