ghost use Rattle.std.specs.Prelude.{◌≡◌, ◌≤◌, [], true, false, length};
ghost use Rattle.std.specs.List.Sorted.{IsStrictlySortedBy};
ghost use Rattle.update_model.specs.Entry.{id_cmp};

use crate::MAX_NEEDS;
use std::alloc::Global;
use std::marker::Model;
use update_model::IdList;

/// How a turn ends.
///
/// Its type keeps that the ids rise, that there are no more than 4,096, and that there are none where all is held.
#[derive(Drop)]
pub struct Turn {
    /// Whether all heads of the other's Hello are held.
    pub have: bool,
    /// The ids of the updates that are asked for.
    pub needs: IdList,
}

impl Model for Turn {
    ghost use Rattle.sync_frames.specs.Payload.{TurnData, IsTurn};

    ghost Value = { TurnData };

    ghost view = { λ turn. record { have = turn.have; needs = turn.needs } };

    ghost invariant = { λ turn. IsTurn (record { have = turn.have; needs = turn.needs }) };
}

impl Turn {
    /// A Turn that says that all is held, and asks for nothing.
    pub fn all_held(alloc: Global) -> Turn
        ensures { result ≡ record { have = true; needs = [] } }
    {
        Turn {
            have: true,
            needs: IdList::from_vec(Vec::new(alloc)),
        }
    }

    /// A Turn that asks for the updates with these ids, which may be none.
    pub fn asking(needs: IdList) -> Turn
        requires few { length needs ≤ MAX_NEEDS }
        requires rising { IsStrictlySortedBy id_cmp needs }
        ensures { result ≡ record { have = false; needs = needs } }
    {
        Turn { have: false, needs }
    }
}
