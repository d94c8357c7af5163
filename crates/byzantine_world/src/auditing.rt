//! The audit of a replica.

ghost use Rattle.std.specs.Prelude.{◌≡◌, false, IfOk, MatchOption, Some, slice_get};
ghost use Rattle.key_audit.specs.Entries.{AreFound};
ghost use Rattle.world_rules.specs.Worlds.{SiteData, held_by, is_up};

use crate::world::World;
use key_audit::{Doubled, find};
use std::alloc::{AllocError, Global};

/// The one-time keys that signed two messages among what a replica holds, as [`find`] lists them. Of a replica that is
/// not there, or is down, the answer is `None`.
pub fn audit_world(
    alloc: Global,
    world: &World,
    replica: u32,
) -> Result<Option<Vec<Doubled>>, AllocError>
    ensures { IfOk result (λ found. MatchOption found (is_up (slice_get world.now.sites replica) ≡ false)
        (λ entries. (site : SiteData) × (slice_get world.now.sites replica ≡ Some site) × (site.is_down ≡ false)
        × AreFound (held_by site) entries.items)) }
{
    match world.replica(replica) {
        Some(store) => Ok(Some(find(alloc, store)?)),
        None => Ok(None),
    }
}
