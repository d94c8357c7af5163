//! Laws of sessions. Each function does nothing: its contract is a theorem for callers to cite.

ghost use Rattle.std.specs.Prelude.{◌≡◌, ◌≢◌, ◌≤◌, ◌++◌, ℕ, List, Some, length};
ghost use Rattle.update_model.specs.Batch.{Limits};
ghost use Rattle.update_model.specs.Rule.{RuleData};
ghost use Rattle.update_model.specs.declared.limits.TheConstants.{MAX_MEMBERS};
ghost use Rattle.session_rules.specs.Pair.{PairData, swapped};
ghost use Rattle.session_rules.specs.declared.end.End.{End};
ghost use Rattle.session_rules.specs.declared.end.End.TheVariants.{Store as store};
ghost use Rattle.sync_session.specs.Carrying.{HandsOn, Syncs};
ghost use Rattle.sync_session.specs.Kept.{Kept, BelongsTo};
ghost use Rattle.sync_session.specs.Reruns.{AreOneRun, HasStopped, IsLeftAlone};
ghost use Rattle.sync_session.specs.declared.pair.PairStart.{PairStart};
ghost use Rattle.sync_session.specs.declared.pair.PairEnd.{PairEnd};

use bloom_summary::one_summary;
use update_check::{no_cause, one_cause};

/// A session that belongs to its holder still belongs to it when the holder's list has grown between two calls. The
/// limit on the grown list is one that every holder keeps.
pub fn belongs_when_grown()
    ensures { (limits : Limits) (rule : RuleData) (k : Kept) (members more : List (List ℕ))
        → BelongsTo limits rule k members → length (members ++ more) ≤ MAX_MEMBERS
        → BelongsTo limits rule k (members ++ more) }
{}

/// Two runs of one pair answer the same: the same end, the same counts, the same ids to remember. And they leave the
/// same updates in either list. The order of what one commit added may differ, since the contract of a holder leaves it
/// open.
///
/// Each run is what [`crate::sync_pair`] says of its answer. They begin with equal lists under equal limits and rules,
/// and neither ended by a disk. Of a run whose memory ran out nothing is said.
pub fn one_run_of_a_pair()
    ensures { (limits_a limits_b : Limits) (rule_a rule_b : RuleData) (start : PairStart)
        (before_a before_b after_a after_b others_a others_b : List (List ℕ)) (ended other : PairEnd)
        → Syncs limits_a limits_b rule_a rule_b start before_a before_b ended after_a after_b
        → Syncs limits_a limits_b rule_a rule_b start before_a before_b other others_a others_b
        → ended.a ≢ store → other.a ≢ store → AreOneRun ended other after_a after_b others_a others_b }
{
    no_cause();
    one_cause();
    one_summary();
}

/// Where an end has ended otherwise than done the run is over: no frame is handed to either end, and so no turn is
/// counted any more. And to an end that has ended, however it did, nothing is handed.
pub fn a_stopped_run_is_over()
    ensures stopped { (limits_a limits_b : Limits) (rule_a rule_b : RuleData) (p q : PairData)
        → HandsOn limits_a limits_b rule_a rule_b p q → HasStopped p → q ≡ p }
    ensures ended_a { (limits_a limits_b : Limits) (rule_a rule_b : RuleData) (p q : PairData) (ending : End)
        → HandsOn limits_a limits_b rule_a rule_b p q → p.a.ended ≡ Some ending → IsLeftAlone p q }
    ensures ended_b { (limits_a limits_b : Limits) (rule_a rule_b : RuleData) (p q : PairData) (ending : End)
        → HandsOn limits_a limits_b rule_a rule_b p q → p.b.ended ≡ Some ending → IsLeftAlone (swapped p) (swapped q) }
{}
