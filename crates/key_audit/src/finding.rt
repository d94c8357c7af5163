//! The one-time keys that signed two messages.

ghost use Rattle.std.specs.Prelude.{◌≡◌, ◌++◌, IfOk, OnOk};
ghost use Rattle.key_audit.specs.Entries.{AreFound};
ghost use Rattle.key_audit.specs.Walk.{double_at, doubles_in};

use crate::Doubled;
use crate::one_time::OneTime;
use crate::walk::{Pair, find_pairs};
use std::alloc::{AllocError, Global};
use std::collections::BTreeMap;
use update_check::Holder;
use update_codec::fields_of_spelling;
use update_model::Member;

/// The keys and indices under which two updates of a holder have different messages, each once, rising by the bytes
/// of the key and by the index: with the least id of the updates under them, and the least of those whose message is
/// not that one's.
///
/// It goes through the updates once, and looks at no signature: what is held was verified when it was taken. It gives
/// up where memory runs out.
pub fn find<H: Holder>(alloc: Global, holder: &H) -> Result<Vec<Doubled>, AllocError>
    ensures { IfOk result (λ doubles. AreFound (H.members holder.now) doubles.items) }
{
    fields_of_spelling();
    holder.len(); // each update was signed by its author
    let found = find_pairs(alloc, holder)?;
    found.len(); // its keys rise
    let doubles = doubles_of(alloc, &found)?;
    Ok(doubles)
}

/// The entries of what was found, in order.
fn doubles_of(alloc: Global, found: &BTreeMap<OneTime, Pair>) -> Result<Vec<Doubled>, AllocError>
    ensures { IfOk result (λ doubles. doubles.items ≡ doubles_in found.now.entries) }
{
    let mut doubles = Vec::new(alloc);
    for (key, pair) in found {
        push_double(&mut doubles, key, pair)?;
    }
    Ok(doubles)
}

/// Adds the entry of a pair, where it has a second update.
fn push_double(doubles: &mut Vec<Doubled>, key: &OneTime, pair: &Pair) -> Result<(), AllocError>
    ensures { OnOk result (doubles.new.items ≡ doubles.old.items ++ double_at key.now pair.now) }
{
    if let Some(second) = pair.second {
        doubles.push(Doubled {
            key: key.key,
            index: key.index,
            first: pair.first.id(),
            second: second.id(),
        })?;
    }
    Ok(())
}
