//! What holds of every session.

ghost use Rattle.std.specs.Prelude.{◌≡◌, ◌≤◌, ◌<◌, ℕ, false, List, [], length, Some};
ghost use Rattle.update_model.specs.Batch.{Limits};
ghost use Rattle.update_model.specs.Entry.{Entry};
ghost use Rattle.update_model.specs.declared.limits.TheConstants.{MAX_MEMBERS};
ghost use Rattle.update_model.specs.declared.update_id.UpdateId.{UpdateId};
ghost use Rattle.session_rules.specs.declared.limits.TheConstants.{MAX_TURNS};
ghost use Rattle.session_rules.specs.Laws.{NoCollision, HasAll, InBound, IsLive, IsUnion, AsksNew};
ghost use Rattle.session_rules.specs.Pair.{PairData, Opens, Reaches, CarriesOn, Feeds, IsNoFault};
ghost use Rattle.session_rules.specs.State.{Done, Initiator, Responder, SessionData, FrameData, OutData, TurnData};
ghost use Rattle.session_rules.specs.Steps.{begun, Steps};

/// Two correct ends of one database, whatever is carried when, and however their lists grow meanwhile.
///
/// Neither finds a fault in the other. The turns of each stay within the bound of the two start sets: twice the greater
/// number of updates that one lacks of the other, and four. Until both are done a frame is on its way to an end that
/// runs, unless one has ended for want of room or by its store: so a session never stands still. And an end that is
/// done holds the other's start set, where no two updates of the lists share an id.
pub fn correct_ends()
    ensures fault { (limits_a limits_b : Limits) (p q : PairData) → Opens p → Reaches limits_a limits_b p q
        → IsNoFault q.a × IsNoFault q.b }
    ensures bound { (limits_a limits_b : Limits) (p q : PairData) → Opens p → Reaches limits_a limits_b p q
        → InBound q }
    ensures live { (limits_a limits_b : Limits) (p q : PairData) → Opens p → Reaches limits_a limits_b p q → IsLive q }
    ensures done_a { (limits_a limits_b : Limits) (p q : PairData) → Opens p → Reaches limits_a limits_b p q
        → NoCollision q.list_a q.list_b → q.a.ended ≡ Some Done → HasAll q.list_a q.b.start }
    ensures done_b { (limits_a limits_b : Limits) (p q : PairData) → Opens p → Reaches limits_a limits_b p q
        → NoCollision q.list_a q.list_b → q.b.ended ≡ Some Done → HasAll q.list_b q.a.start }
{}

/// Two correct ends between which frames are carried, and nothing else changes a list: where both are done, both lists
/// are the union of what both were, and each end has counted what it lacked.
pub fn undisturbed_ends_reach_the_union()
    ensures { (limits_a limits_b : Limits) (p q : PairData) → Opens p → CarriesOn limits_a limits_b p q
        → NoCollision q.list_a q.list_b → q.a.ended ≡ Some Done → q.b.ended ≡ Some Done → IsUnion p q }
{}

/// Whatever frames come to an end, and however its list grows within the greatest limit, it counts fewer than
/// [`crate::MAX_TURNS`] turns.
pub fn turns_are_few()
    ensures initiator { (limits : Limits) (database node : List ℕ) (old : List UpdateId) (list now : List Entry)
        (t : SessionData)
        → limits.updates ≤ MAX_MEMBERS → length list ≤ MAX_MEMBERS
        → Feeds limits (record (begun Initiator database node old list) { turns = 1 }) list t now
        → t.turns < MAX_TURNS }
    ensures responder { (limits : Limits) (database node : List ℕ) (old : List UpdateId) (list now : List Entry)
        (t : SessionData)
        → limits.updates ≤ MAX_MEMBERS → length list ≤ MAX_MEMBERS
        → Feeds limits (begun Responder database node old []) list t now → t.turns < MAX_TURNS }
{}

/// Whatever frame came: a Turn that an end sends without `have`, other than the responder's first, asks for an id that
/// it did not ask for before.
pub fn turns_ask_anew()
    ensures { (limits : Limits) (s next : SessionData) (before after : List Entry) (frame : FrameData) (out : OutData)
        (own : TurnData)
        → Steps limits s before frame next out after → out.turn ≡ Some own → own.have ≡ false → AsksNew s own }
{}
