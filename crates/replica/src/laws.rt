//! Laws of what making and joining answer. Each function does nothing: its contract is a theorem for callers to cite.

ghost use Rattle.std.specs.Prelude.{◌≡◌, ℕ, Bool, List};
ghost use Rattle.update_model.specs.declared.update_id.UpdateId.{UpdateId};
ghost use Rattle.lms_tree.specs.SecretKey.{SecretData};
ghost use Rattle.schema.specs.Data.{Meaning};
ghost use Rattle.history.specs.Histories.{HistoryData};
ghost use Rattle.replica.specs.Making.{HasNoneToJoin, IsJoinCause, IsMakeCauseWith, Joins, MakesWith};
ghost use Rattle.replica.specs.Told.{IsAfterVerdict, IsBeforeVerdict, IsTold};
ghost use Rattle.replica.specs.declared.contents.Contents.{Contents};
ghost use Rattle.replica.specs.declared.make_fault.MakeFault.{MakeFault};

/// Heads are joined by one update, or there are none to join, or one refusal has its cause: no two of these.
pub fn one_join()
    ensures joined { (history : HistoryData) (secret : SecretData) (taken : List Bool) (c : List ℕ)
        (id other : UpdateId) (new newer : HistoryData)
        → Joins history secret taken c id new → Joins history secret taken c other newer → id ≡ other }
    ensures refused { (history : HistoryData) (secret : SecretData) (taken : List Bool) (c : List ℕ) (why other :
        MakeFault) → IsTold why → IsTold other
        → IsJoinCause history secret taken c why → IsJoinCause history secret taken c other → why ≡ other }
    ensures joined_or_none { (history : HistoryData) (secret : SecretData) (taken : List Bool) (c : List ℕ)
        (id : UpdateId) (new : HistoryData)
        → Joins history secret taken c id new → HasNoneToJoin history → ⊥ }
    ensures joined_or_refused { (history : HistoryData) (secret : SecretData) (taken : List Bool) (c : List ℕ)
        (id : UpdateId) (new : HistoryData) (why : MakeFault) → IsTold why
        → Joins history secret taken c id new → IsJoinCause history secret taken c why → ⊥ }
    ensures none_or_refused { (history : HistoryData) (secret : SecretData) (taken : List Bool) (c : List ℕ)
        (why : MakeFault) → IsTold why
        → HasNoneToJoin history → IsJoinCause history secret taken c why → ⊥ }
{}

/// Where a refusal that comes before operations are judged has its cause, no other has its own, and no update is made.
pub fn one_early_refusal()
    ensures refused { (ask : Meaning) (history : HistoryData) (secret : SecretData) (taken : List Bool)
        (says : Contents) (c : List ℕ) (why other : MakeFault) → IsBeforeVerdict why → IsTold other
        → IsMakeCauseWith ask history secret taken says c why → IsMakeCauseWith ask history secret taken says c other
        → why ≡ other }
    ensures made_or_refused { (ask : Meaning) (history : HistoryData) (secret : SecretData) (taken : List Bool)
        (says : Contents) (c : List ℕ) (id : UpdateId) (new : HistoryData) (why : MakeFault) → IsBeforeVerdict why
        → MakesWith ask history secret taken says c id new → IsMakeCauseWith ask history secret taken says c why → ⊥ }
{}

/// Operations that are valid make one update, or one refusal has its cause, and not both.
pub fn one_make()
    ensures made { (ask : Meaning) (history : HistoryData) (secret : SecretData) (taken : List Bool) (says : Contents)
        (c : List ℕ) (id other : UpdateId) (new newer : HistoryData)
        → MakesWith ask history secret taken says c id new → MakesWith ask history secret taken says c other newer
        → id ≡ other }
    ensures refused { (ask : Meaning) (history : HistoryData) (secret : SecretData) (taken : List Bool)
        (says : Contents) (c : List ℕ) (why other : MakeFault) → IsAfterVerdict why → IsAfterVerdict other
        → IsMakeCauseWith ask history secret taken says c why → IsMakeCauseWith ask history secret taken says c other
        → why ≡ other }
    ensures made_or_refused { (ask : Meaning) (history : HistoryData) (secret : SecretData) (taken : List Bool)
        (says : Contents) (c : List ℕ) (id : UpdateId) (new : HistoryData) (why : MakeFault) → IsAfterVerdict why
        → MakesWith ask history secret taken says c id new → IsMakeCauseWith ask history secret taken says c why → ⊥ }
{}
