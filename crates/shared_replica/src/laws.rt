//! Laws of passes. Each function does nothing: its contract is a theorem for callers to cite.

ghost use Rattle.std.specs.Prelude.{◌≡◌, ◌≤◌, ◌∷◌, ℕ, Bool, List, length, map};
ghost use mathlib.Core.List.{IsPrefix};
ghost use Rattle.bec_disk.specs.Disk.{IsSameDisk};
ghost use Rattle.replica.specs.Replicas.{IsSameStore, ReplicaState};
ghost use Rattle.shared_replica.specs.declared.entry.Entry.{Entry};
ghost use Rattle.shared_replica.specs.declared.entry.Entry.TheVariants.{First, Opened};
ghost use Rattle.shared_replica.specs.declared.entry.Opening.{Opening};
ghost use Rattle.shared_replica.specs.Acts.{IsAct};
ghost use Rattle.shared_replica.specs.Entries.{HasFaults, IsStoreOf, faults_of, opening_of, updates_of};
ghost use Rattle.shared_replica.specs.Sessions.{BelongsIn, IsRuledBy, IsUnder};
ghost use Rattle.sync_session.specs.Kept.{Kept, BelongsTo};
ghost use Rattle.sync_session.specs.declared.checked_frame.CheckedFrame.{CheckedFrame};
ghost use Rattle.turn_lock.specs.Seats.{Known};
ghost use Rattle.update_model.specs.Batch.{store_limits};
ghost use Rattle.update_model.specs.Rule.{RuleData};

/// A list has the rule of the schema of its first entry, and each longer list has it too.
pub fn rules_stay()
    ensures first { (opening : Opening) (rest : List Entry) → IsRuledBy (First opening ∷ rest) opening.schema.rule }
    ensures stays { (list longer : List Entry) (rule : RuleData) → IsPrefix list longer → IsRuledBy list rule
        → IsRuledBy longer rule }
    ensures one { (list : List Entry) (rule other : RuleData) → IsRuledBy list rule → IsRuledBy list other
        → rule ≡ other }
{}

/// What a pass has seen begins what it has seen after an act, and a longer list has no fewer updates.
pub fn acts_see_more()
    ensures updates { (list longer : List Entry) → IsPrefix list longer
        → length (updates_of list) ≤ length (updates_of longer) }
    ensures seen { (before after : Known Entry) (P : List Entry) (old new : ReplicaState) (fault : Bool)
        → IsAct before after P old new fault → IsPrefix before.seen after.seen }
{}

/// A session belongs to what its pass has seen, after the act that began it and after each that gave it a frame, and to
/// each longer list.
pub fn sessions_go_on()
    ensures begun { (before after : Known Entry) (P : List Entry) (old new : ReplicaState) (fault : Bool)
        (session : Kept)
        → IsAct before after P old new fault → BelongsTo store_limits old.history.schema.rule session (updates_of P)
        → BelongsIn after.seen session }
    ensures stepped { (before after : Known Entry) (P : List Entry) (old new : ReplicaState) (fault : Bool)
        (session : Kept)
        → IsAct before after P old new fault → BelongsTo store_limits old.history.schema.rule session
        (updates_of after.seen) → BelongsIn after.seen session }
    ensures stays { (list longer : List Entry) (session : Kept) → IsPrefix list longer → BelongsIn list session
        → BelongsIn longer session }
{}

/// A frame that is under the rule of a list is under that of each longer one.
pub fn frames_stay()
    ensures { (list longer : List Entry) (frame : CheckedFrame) → IsPrefix list longer → IsUnder list frame
        → IsUnder longer frame }
{}

/// A replica that was shared is the same store on the same disk for as long as its list grows. Its updates begin with
/// those that were there at the start, and its log has counted each fault since then.
pub fn stores_stay()
    ensures store { (replica store : ReplicaState) (rest last : List Entry)
        → IsPrefix (First (opening_of replica) ∷ rest) last → IsStoreOf last store → IsSameStore replica store }
    ensures disk { (replica store : ReplicaState) (rest last : List Entry)
        → IsPrefix (First (opening_of replica) ∷ rest) last → IsStoreOf last store
        → IsSameDisk replica.log.disk store.log.disk }
    ensures faults { (replica store : ReplicaState) (rest last : List Entry)
        → IsPrefix (First (opening_of replica) ∷ rest) last → IsStoreOf last store
        → HasFaults replica.log.faults (faults_of last) store.log.faults }
    ensures updates { (seen last : List Entry) (store : ReplicaState) → IsPrefix seen last → IsStoreOf last store
        → IsPrefix (updates_of seen) store.history.members }
    ensures opened { (replica : ReplicaState)
        → updates_of (First (opening_of replica) ∷ map Opened replica.history.members) ≡ replica.history.members }
{}
