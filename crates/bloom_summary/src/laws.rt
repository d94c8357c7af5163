//! Laws of summaries. Each function does nothing: its contract is a theorem for callers to cite.

ghost use Rattle.std.specs.Prelude.{◌≡◌, ℕ, true, List, Contains};
ghost use Rattle.update_model.specs.declared.update_id.UpdateId.{UpdateId};
ghost use Rattle.bloom_summary.specs.Bloom.{AreBits, is_member};

/// A list of ids has one summary.
pub fn one_summary()
    ensures { (ids : List UpdateId) (bytes others : List ℕ) → AreBits ids bytes → AreBits ids others → bytes ≡ others }
{}

/// Each id that was summed up is a member.
pub fn members_are_found()
    ensures { (ids : List UpdateId) (bytes : List ℕ) (id : UpdateId) → AreBits ids bytes → Contains ids id
        → is_member bytes id ≡ true }
{}
