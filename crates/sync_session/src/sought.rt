//! What an end seeks.

ghost use Rattle.std.specs.Prelude.{OnOk};
ghost use Rattle.std.specs.BTreeMap.{keys as keys_in};
ghost use Rattle.sync_session.specs.Wants.{SeeksToo};

use std::alloc::AllocError;
use std::collections::BTreeMap;
use update_model::UpdateId;

/// Ids among which is each one that an end is to ask for. Each is kept with the id of an update that named it, or with
/// none where it is a head of the peer's Hello.
pub(crate) type Sought = BTreeMap<UpdateId, Option<UpdateId>>;

/// Takes in ids that this one names.
pub(crate) fn seek(
    sought: &mut Sought,
    ids: &[UpdateId],
    namer: Option<UpdateId>,
) -> Result<(), AllocError>
    ensures { OnOk result (SeeksToo (keys_in sought.old) ids.now (keys_in sought.new)) }
{
    for id in ids {
        sought.insert(*id, namer)?;
    }
    Ok(())
}
