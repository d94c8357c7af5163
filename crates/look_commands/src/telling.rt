//! What is told of members.

ghost use Rattle.std.specs.Prelude.{IfOk};
ghost use Rattle.tuple_state.specs.State.{IsStateOf};
ghost use Rattle.outcomes.specs.Rules.{nodes_of, rules_of};
ghost use Rattle.look_commands.specs.Telling.{IsToldOf};

use crate::members::Members;
use crate::notes::notes_of;
use graph_drawing::Told;
use node_commands::heads_of;
use std::alloc::{AllocError, Global};

/// What is told of the updates: the heads, those that do nothing, and their notes.
pub(crate) fn told_of(alloc: Global, members: Members) -> Result<Told, AllocError>
    requires { IsStateOf (rules_of members.schema.now) (nodes_of members.graph.now) members.tables.now }
    ensures { IfOk result (λ told. IsToldOf (rules_of members.entry.schema.now) members.entry.graph.now told) }
{
    let notes = notes_of(alloc, members.graph)?;
    let found = heads_of(alloc, members.graph)?;
    let heads = found.list(alloc)?;
    let voids = members.tables.voids(alloc)?.into_vec();
    Ok(Told {
        heads,
        voids,
        notes,
    })
}
