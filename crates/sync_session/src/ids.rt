//! Sets of ids.

ghost use Rattle.std.specs.Prelude.{◌≡◌, take, IfOk, OnOk};
ghost use Rattle.std.specs.BTreeSet.{keys};
ghost use Rattle.std.specs.List.Sorted.{IsStrictlySortedBy};
ghost use Rattle.session_rules.specs.declared.limits.TheConstants.{MAX_NEEDS};
ghost use Rattle.session_rules.specs.Steps.{Joins};
ghost use Rattle.update_model.specs.Entry.{id_cmp};

use session_rules::MAX_NEEDS;
use std::alloc::{AllocError, Global};
use std::collections::BTreeSet;
use update_model::UpdateId;

/// The least ids, as many as a turn asks for.
pub(crate) fn least(alloc: Global, all: &BTreeSet<UpdateId>) -> Result<Vec<UpdateId>, AllocError>
    ensures { IfOk result (λ ids. ids.items ≡ take MAX_NEEDS (keys all.now)) }
{
    let mut ids = Vec::new(alloc);
    for id in all {
        if ids.len() >= MAX_NEEDS as usize {
            return Ok(ids);
        }
        ids.push(*id)?;
    }
    Ok(ids)
}

/// Takes these ids into the set.
pub(crate) fn join(set: &mut BTreeSet<UpdateId>, ids: &[UpdateId]) -> Result<(), AllocError>
    requires { IsStrictlySortedBy id_cmp (keys set.old) }
    ensures { OnOk result (Joins (keys set.old) ids.now (keys set.new)) }
{
    for id in ids {
        set.insert(*id)?;
    }
    Ok(())
}
