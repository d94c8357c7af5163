//! What is timed, and what is printed of it.

ghost use Rattle.std.specs.Prelude.{◌≤◌, length};
ghost use Rattle.std.specs.List.Sorted.{IsStrictlySortedBy};
ghost use Rattle.session_rules.specs.declared.limits.TheConstants.{MAX_NEEDS};
ghost use Rattle.update_model.specs.Entry.{id_cmp};

use crate::holding::{DATABASE, empty, read_updates, take_updates};
use bec_bytes::{Sink, Source, write_all_of};
use mem_holder::MemHolder;
use session_rules::End;
use std::alloc::{AllocError, Global};
use sync_session::{PairEnd, PairStart, sync_pair};
use update_check::Holder;
use update_model::{IdList, MAX_MEMBERS};

/// Commits all updates behind the first ones to a holder of these.
pub(crate) fn commit_rest<S: Source, K: Sink>(
    alloc: Global,
    count: u32,
    input: &mut S,
    output: &mut K,
) -> anyhow::Result<()> {
    let mut holder = empty(alloc);
    take_updates(alloc, &mut holder, input, count)?;
    let rest = read_updates(alloc, holder.rule(), input, MAX_MEMBERS)?;
    tell_held(alloc, output, holder.len())?;
    holder.commit(alloc, rest)?;
    tell_held(alloc, output, holder.len())
}

/// Holds a session between a holder of the first updates and a holder of the others.
pub(crate) fn hold_session<S: Source, K: Sink>(
    alloc: Global,
    count: u32,
    input: &mut S,
    output: &mut K,
) -> anyhow::Result<()> {
    let mut first = empty(alloc);
    take_updates(alloc, &mut first, input, count)?;
    let mut second = empty(alloc);
    take_updates(alloc, &mut second, input, MAX_MEMBERS)?;
    tell_and_sync(alloc, &mut first, &mut second, output)
}

/// Tells how many updates two holders have, syncs them, and tells how that ended and how many they have then.
fn tell_and_sync<K: Sink>(
    alloc: Global,
    first: &mut MemHolder,
    second: &mut MemHolder,
    output: &mut K,
) -> anyhow::Result<()> {
    tell_both(alloc, output, first, second)?;
    let ended = sync(alloc, first, second)?;
    tell_ended(alloc, output, &ended)?;
    tell_both(alloc, output, first, second)
}

/// Syncs two holders that remember nothing of each other.
fn sync(
    alloc: Global,
    first: &mut MemHolder,
    second: &mut MemHolder,
) -> Result<PairEnd, AllocError> {
    sync_pair(alloc, first, second, strangers(alloc))
}

/// Two ends that remember nothing of each other.
fn strangers(alloc: Global) -> PairStart
    ensures few_a { length result.old_a ≤ MAX_NEEDS }
    ensures rising_a { IsStrictlySortedBy id_cmp result.old_a }
    ensures few_b { length result.old_b ≤ MAX_NEEDS }
    ensures rising_b { IsStrictlySortedBy id_cmp result.old_b }
{
    PairStart {
        database_a: DATABASE,
        database_b: DATABASE,
        node_a: [1; 32],
        node_b: [2; 32],
        old_a: no_ids(alloc),
        old_b: no_ids(alloc),
    }
}

/// No id.
fn no_ids(alloc: Global) -> IdList
    ensures few { length result ≤ MAX_NEEDS }
    ensures rising { IsStrictlySortedBy id_cmp result }
{
    IdList::from_vec(Vec::new(alloc))
}

/// Prints how many updates a holder has.
fn tell_held<K: Sink>(alloc: Global, output: &mut K, held: u32) -> anyhow::Result<()> {
    let line = format!(in alloc; "held {held}\n")?;
    write_all_of(output, line.as_bytes())?;
    Ok(())
}

/// Prints how many updates each of two holders has.
fn tell_both<K: Sink>(
    alloc: Global,
    output: &mut K,
    first: &MemHolder,
    second: &MemHolder,
) -> anyhow::Result<()> {
    tell_held(alloc, output, first.len())?;
    tell_held(alloc, output, second.len())
}

/// Prints how a session ended, and its turns.
fn tell_ended<K: Sink>(alloc: Global, output: &mut K, ended: &PairEnd) -> anyhow::Result<()> {
    let word = end_word(ended.a);
    let line = format!(in alloc; "{word} turns {}\n", ended.turns)?;
    write_all_of(output, line.as_bytes())?;
    Ok(())
}

/// The word for an end.
fn end_word(end: End) -> &'static str {
    match end {
        End::Done => "done",
        End::Full => "full",
        End::Store => "store",
        End::Peer(_) => "peer",
    }
}
