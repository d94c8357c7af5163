//! Reading updates, and holders of them.

ghost use Rattle.std.specs.Prelude.{All, IfOk};
ghost use Rattle.update_check.specs.Signed.{IsChecked};

use bec_bytes::{Framed, Source, read_framed};
use mem_holder::MemHolder;
use std::alloc::Global;
use update_check::{Checked, Holder, check};
use update_codec::UPDATE_LIMIT;
use update_model::{DbRule, KeyList, MAX_MEMBERS};

/// The database of the updates.
pub(crate) const DATABASE: [u8; 32] = [0; 32];

/// A holder of no update yet, for those of the database by any author.
pub(crate) fn empty(alloc: Global) -> MemHolder {
    let rule = DbRule {
        database: DATABASE,
        authors: KeyList::from_vec(Vec::new(alloc)),
    };
    MemHolder::new(alloc, rule, MAX_MEMBERS, None)
}

/// Reads updates up to the end of the input, and no more than so many.
pub(crate) fn read_updates<S: Source>(
    alloc: Global,
    rule: &DbRule,
    input: &mut S,
    most: u32,
) -> anyhow::Result<Vec<Checked>>
    ensures { IfOk result (λ updates. All (IsChecked rule.now) updates.items) }
{
    let mut updates = Vec::new(alloc);
    'records: for _ in 0..most {
        match read_framed(alloc, input, UPDATE_LIMIT)? {
            Framed::End => return Ok(updates),
            Framed::Whole(bytes) => updates.push(check(alloc, rule, bytes)?)?,
            _ => anyhow::bail!("a record is cut short or too long"),
        }
    }
    Ok(updates)
}

/// Reads updates, no more than so many, and commits them as one batch.
pub(crate) fn take_updates<S: Source>(
    alloc: Global,
    holder: &mut MemHolder,
    input: &mut S,
    most: u32,
) -> anyhow::Result<()> {
    let batch = read_updates(alloc, holder.rule(), input, most)?;
    holder.commit(alloc, batch)?;
    Ok(())
}
