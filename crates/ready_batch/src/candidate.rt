ghost use Rattle.std.specs.Prelude.{◌≡◌};

use update_model::Member;

/// A member that may have to wait, and that remembers how far it was looked at.
pub trait Candidate: Member {
    /// How many of its predecessors, from the first on, were found held when it was last tried. It is a hint: a wrong
    /// one costs time alone.
    fn found(&self) -> usize;

    /// Notes how many of its predecessors were found held. No contract sees it.
    fn note(&mut self, found: usize)
        ensures { self.new ≡ self.old };
}
