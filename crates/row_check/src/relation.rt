ghost use Rattle.std.specs.Prelude.{ℕ, List, Bool};
ghost use Rattle.update_model.specs.declared.value.Value.{Value};

/// What native checks mean: for the number of a check and its arguments, whether it holds of them.
///
/// A type names a relation, such as [`crate::Luhn`]. What is proved under a bound `L: Relation` holds whatever the
/// checks mean.
pub trait Relation: Send + Sync {
    // whether the check with this number holds of these arguments
    ghost answer: { ℕ → List Value → Bool };
}
