//! When a subscriber wants to be told.

ghost use Rattle.std.specs.Prelude.{◌≡◌, ◌+◌, ℕ, Bool, nat_le};
ghost use Rattle.live_view.specs.Wishes.{WhenData, is_at_least};

use std::marker::{Model, PhantomData};

/// What is wanted: of a parameter and the counts of lines that went and came, whether a change is.
///
/// A type names a relation, such as [`AtLeast`]. What is proved under a bound `W: Wish` holds whatever is wanted.
pub trait Wish {
    // whether a change is wanted, by the parameter and the counts of lines that went and came
    ghost wants: { ℕ → ℕ → ℕ → Bool };
}

/// Code that answers the relation `W`: on every parameter and all counts, what it says is what the relation says.
///
/// The fact belongs to the type, so that it stays with a value of it wherever that is kept.
pub trait Wishes<W: Wish>: Drop {
    /// Whether a change of so many lines is wanted.
    fn wants(&self, param: u64, went: u64, came: u64) -> bool
        ensures { result ≡ W.wants param went came };
}

/// A callback of a subscriber with its parameter. A contract sees both.
#[derive(Drop)]
pub struct When<W: Wish, G> {
    param: u64,
    code: G,
    name: PhantomData<W>,
}

impl<W: Wish, G> Model for When<W, G> {
    ghost use Rattle.live_view.specs.Wishes.{WhenData};

    ghost Value = { WhenData G };

    ghost view = { λ when. record { param = when.param; code = when.code } };
}

impl<W: Wish, G: Wishes<W>> When<W, G> {
    /// Takes code that answers the relation, and the parameter at which it is asked.
    pub fn new(param: u64, code: G) -> When<W, G>
        ensures { result ≡ record { param = param; code = code } }
    {
        When {
            param,
            code,
            name: PhantomData,
        }
    }

    /// Whether a change of so many lines is wanted.
    pub fn ask(&self, went: u64, came: u64) -> bool
        ensures { result ≡ W.wants self.now.param went came }
    {
        self.code.wants(self.param, went, came)
    }
}

/// The relation of counts that add up to at least the parameter.
#[derive(Drop)]
pub struct AtLeast;

impl Wish for AtLeast {
    ghost wants = { is_at_least };
}

impl Wishes<AtLeast> for AtLeast {
    fn wants(&self, param: u64, went: u64, came: u64) -> bool {
        param <= went.saturating_add(came)
    }
}
