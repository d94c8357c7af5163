//! Laws of what a batch adds. Each function does nothing: its contract is a theorem for callers to cite.

ghost use Rattle.std.specs.Prelude.{◌≡◌, ◌++◌, true, List, Contains};
ghost use Rattle.update_model.specs.declared.update_id.UpdateId.{UpdateId};
ghost use Rattle.update_model.specs.Batch.{Adds};
ghost use Rattle.update_model.specs.Entry.{Entry};
ghost use Rattle.update_model.specs.Graph.{holds};
ghost use Rattle.ready_batch.specs.Ready.{IsReady};

/// In whatever order a batch's members are added, the same ids are held afterwards.
pub fn orders_hold_the_same()
    ensures { (before batch added waiting other others_waiting : List Entry) → Adds before batch added waiting
        → Adds before batch other others_waiting
        → (id : UpdateId) → holds (before ++ added) id ≡ holds (before ++ other) id }
{}

/// A member that can be added, in some order of members of the batch, is held afterwards.
pub fn ready_is_added()
    ensures { (before batch added waiting : List Entry) (e : Entry) → Adds before batch added waiting → Contains batch e
        → IsReady before batch e
        → holds (before ++ added) e.id ≡ true }
{}
