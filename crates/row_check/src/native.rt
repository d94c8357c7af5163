ghost use Rattle.std.specs.Prelude.{◌≡◌};

use crate::Relation;
use std::marker::{Model, PhantomData};
use update_model::Value;

/// Code that answers the relation `L`: on every number and all arguments, what it says is what the relation says.
///
/// The fact belongs to the type, so that it stays with a value of it wherever that is kept.
pub trait Checks<L: Relation>: Drop {
    /// Whether the check with this number holds of these arguments. A number that the relation does not know is no
    /// fault: the relation has an answer for it too.
    fn check(&self, number: u16, args: &[Value]) -> bool
        ensures { result ≡ L.answer number args.now };
}

/// The native checks of a host program, which answer the relation `L`. A contract sees the code that was given.
#[derive(Drop)]
pub struct Native<L: Relation, C> {
    checks: C,
    name: PhantomData<L>,
}

impl<L: Relation, C> Model for Native<L, C> {
    ghost Value = { C };

    ghost view = { λ native. native.checks };
}

impl<L: Relation, C: Checks<L>> Native<L, C> {
    /// Takes code that answers the relation.
    pub fn new(checks: C) -> Native<L, C>
        ensures { result ≡ checks }
    {
        Native {
            checks,
            name: PhantomData,
        }
    }

    /// Whether the check with this number holds of these arguments.
    pub fn ask(&self, number: u16, args: &[Value]) -> bool
        ensures { result ≡ L.answer number args.now }
    {
        self.checks.check(number, args)
    }
}
