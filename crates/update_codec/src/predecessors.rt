//! Reading predecessors, whose ids rise.

ghost use Rattle.std.specs.Prelude.{◌≡◌, None};
ghost use Rattle.update_codec.specs.Reading.{Gives, ids_at, is_next as may_follow};

use crate::CodecKind;
use crate::fields::id_of_update;
use crate::halt::{UpdateReadError, fault_at};
use std::alloc::Global;
use update_model::UpdateId;

/// Whether an id may come after the one before it, if there is one.
fn is_next(last: Option<UpdateId>, id: UpdateId) -> bool
    ensures { result ≡ may_follow last id }
{
    match last {
        None => true,
        Some(last) => last.cmp(&id).is_lt(),
    }
}

/// This many ids, each above the one before it, and the bytes after them.
pub(crate) fn preds_of(
    alloc: Global,
    count: usize,
    bytes: &[u8],
) -> Result<(Vec<UpdateId>, &[u8]), UpdateReadError>
    ensures { Gives (λ read. (read.0.items, read.1.now)) result (ids_at count None bytes.now) }
{
    let mut ids = Vec::with_capacity(alloc, count)?;
    let mut last = None;
    let mut rest = bytes;
    for _ in 0..count {
        let (id, after) = id_of_update(rest)?;
        if !is_next(last, id) {
            return Err(fault_at(CodecKind::Order, rest));
        }
        ids.push(id)?;
        last = Some(id);
        rest = after;
    }
    Ok((ids, rest))
}
