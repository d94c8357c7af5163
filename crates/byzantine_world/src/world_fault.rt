use std::alloc::AllocError;
use world_rules::SiteFault;

/// Why there is no world. Where there is more than one reason, it is the first in this order.
#[derive(Clone, Copy)]
pub enum WorldFault {
    /// The text declares no schema.
    BadSchema,
    /// An invariant of the schema does not survive merging.
    NotConfluent,
    /// There are to be none, or more than 16 replicas.
    Limit,
    /// Memory ran out.
    Memory,
}

impl From<SiteFault> for WorldFault {
    ghost use Rattle.std.specs.Prelude.{◌≡◌};
    ghost use Rattle.byzantine_world.specs.Begun.{world_fault_of};

    ghost from_gives = { λ fault error. error ≡ world_fault_of fault };

    fn from(fault: SiteFault) -> WorldFault {
        match fault {
            SiteFault::BadSchema => WorldFault::BadSchema,
            SiteFault::NotConfluent => WorldFault::NotConfluent,
            SiteFault::Memory => WorldFault::Memory,
        }
    }
}

impl From<AllocError> for WorldFault {
    ghost use Rattle.std.specs.Prelude.{◌≡◌};
    ghost use Rattle.byzantine_world.specs.declared.world_fault.WorldFault.TheVariants.{Memory};

    ghost from_gives = { λ _ error. error ≡ Memory };

    fn from(_error: AllocError) -> WorldFault {
        WorldFault::Memory
    }
}
