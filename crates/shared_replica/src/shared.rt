//! The replica under the lock.
ghost use Rattle.std.specs.Prelude.{◌≡◌, ◌⊎◌, ◌<◌, ◌+◌, ℕ, List, ◌∷◌, ◌++◌, [], None, Some, IfOk, IfErr, length, map};
ghost use mathlib.Core.List.{IsPrefix};
ghost use Rattle.turn_lock.specs.Numbers.{AreApart};
ghost use Rattle.turn_lock.specs.Seats.{numbers_of};
ghost use Rattle.shared_replica.specs.declared.entry.Entry.{Entry};
ghost use Rattle.shared_replica.specs.declared.entry.Entry.TheVariants.{First, Opened};
ghost use Rattle.shared_replica.specs.Entries.{IsStoreOf, opening_of};

use crate::stored::Stored;
use bec_disk::Disk;
use replica::Replica;
use row_check::Luhn;
use std::alloc::Global;
use std::sync::Wait;
use turn_lock::{Back, Seat, TurnLock};

/// A seat at a shared replica.
pub type Pass<D> = Seat<Stored<D>>;

/// What an act answers, and the pass with which it was made.
#[derive(Drop)]
pub struct Acted<D: Disk, T> {
    /// The pass, which has seen the list to its end.
    pub pass: Pass<D>,
    /// The answer.
    pub answer: T,
}

/// A replica that many callers use, one act at a time.
#[derive(Drop)]
pub struct Shared<D: Disk> {
    pub(crate) lock: TurnLock<Stored<D>>,
}

impl<D: Disk> Shared<D> {
    /// The pass has seen the first entry and an opening entry for each update. Where there is no memory, the replica
    /// comes back.
    pub fn new(
        alloc: Global,
        replica: Replica<D, Luhn, Luhn>,
    ) -> Result<(Shared<D>, Pass<D>), Back<Replica<D, Luhn, Luhn>>>
        ensures ok { IfOk result
            (λ r. r.1 ≡ record {
              lock = r.0.lock;
              seen = First (opening_of replica) ∷ map Opened replica.history.members;
              number = None;
              acts = 0;
              others =
                  [];
            }) }
        ensures err { IfErr result (λ b. b.back ≡ replica) }
    {
        match TurnLock::new(alloc, Stored::new(alloc, replica)) {
            Ok((lock, pass)) => Ok((Shared { lock }, pass)),
            Err(refused) => Err(Back {
                why: refused.why,
                back: refused.back.into_replica(),
            }),
        }
    }

    /// Two passes that have seen as much. The first has the number and the acts of the one that was given.
    pub fn split(&self, pass: Pass<D>) -> Result<(Pass<D>, Pass<D>), Back<Pass<D>>>
        requires { pass.lock ≡ self.now.lock }
        ensures ok { IfOk result (λ r. (r.0 ≡ pass)
            × (r.1 ≡ record { lock = pass.lock; seen = pass.seen; number = None; acts = 0; others = [] })) }
        ensures err { IfErr result (λ b. b.back ≡ pass) }
    {
        self.lock.split(pass)
    }

    /// One pass that has seen what both have seen, with the number and the acts of the first. What one has seen begins
    /// what the other has seen.
    pub fn meet(&self, a: Pass<D>, b: Pass<D>) -> Result<Pass<D>, Back<(Pass<D>, Pass<D>)>>
        requires locks { (a.lock ≡ self.now.lock) × (b.lock ≡ self.now.lock) }
        ensures seat { IfOk result (λ s. (s.lock ≡ a.lock) × (s.number ≡ a.number) × (s.acts ≡ a.acts)) }
        ensures seen { IfOk result (λ s. IsPrefix a.seen s.seen × IsPrefix b.seen s.seen
            × ((s.seen ≡ a.seen) ⊎ (s.seen ≡ b.seen))) }
        ensures others { IfOk result (λ s. s.others ≡ a.others ++ numbers_of b) }
        ensures apart { IfOk result (λ s. AreApart (numbers_of s)) }
        ensures err { IfErr result (λ e. (e.back.0 ≡ a) × (e.back.1 ≡ b)) }
    {
        self.lock.meet(a, b)
    }

    /// Gives the replica back. It is as its list says, which begins with what the pass has seen.
    pub fn end<R: Wait>(self, rt: &R, pass: Pass<D>) -> Replica<D, Luhn, Luhn>
        requires { pass.lock ≡ self.lock }
        ensures { (last : List Entry) × IsPrefix pass.seen last × IsStoreOf last result }
    {
        let Shared { lock } = self;
        lock.end(rt, pass).into_replica()
    }
}
