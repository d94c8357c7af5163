//! The session of two holders in one process, from its first frame to its end.

ghost use Rattle.std.specs.Prelude.{◌≡◌, ◌≢◌, ◌⊎◌, ◌≤◌, ◌++◌, IfOk, length, map};
ghost use Rattle.std.specs.List.Sorted.{IsStrictlySortedBy};
ghost use Rattle.bec_bytes.specs.Causes.{Rose};
ghost use Rattle.session_rules.specs.declared.end.End.TheVariants.{Done as done, Full as full, Store as store};
ghost use Rattle.session_rules.specs.declared.limits.TheConstants.{MAX_NEEDS};
ghost use Rattle.session_rules.specs.declared.role.Role.TheVariants.{Initiator as initiator, Responder as responder};
ghost use Rattle.session_rules.specs.Laws.{NoCollision};
ghost use Rattle.update_codec.specs.Parts.{entry_of};
ghost use Rattle.update_model.specs.Entry.{id_cmp};
ghost use Rattle.sync_session.specs.Carrying.{start_of, Closes, Going, HasRoom, IsUnrefused, Syncs, Unites};
ghost use Rattle.sync_session.specs.Kept.{Moves};
ghost use Rattle.sync_session.specs.Starts.{IsFresh};

use crate::carrying::{hand_hello, round};
use crate::{Out, Session};
use session_rules::{End, Role};
use std::alloc::{AllocError, Global};
use update_check::{Holder, no_cause};
use update_model::IdList;

/// What two ends begin with. Each list of ids rises and has at most 4,096: what that end remembers of the other, or
/// none.
#[derive(Drop)]
pub struct PairStart {
    /// The id of the database that the first end speaks of.
    pub database_a: [u8; 32],
    /// The id of the database that the second end speaks of.
    pub database_b: [u8; 32],
    /// The id of the first end's node.
    pub node_a: [u8; 32],
    /// The id of the second end's node.
    pub node_b: [u8; 32],
    /// What the first end remembers of the second.
    pub old_a: IdList,
    /// What the second end remembers of the first.
    pub old_b: IdList,
}

/// How the session of two holders ended.
///
/// Where one end ended otherwise than done, both fields hold that end, even if the other end was done before.
#[derive(Drop)]
pub struct PairEnd {
    /// How it ended for the first end.
    pub a: End,
    /// How it ended for the second end.
    pub b: End,
    /// How many updates the first holder gained.
    pub gained_a: u32,
    /// How many updates the second holder gained.
    pub gained_b: u32,
    /// How many turns there were.
    pub turns: u32,
    /// The ids that the first end is to remember of the second: none where it is not done.
    pub remembered_a: IdList,
    /// The ids that the second end is to remember of the first: none where it is not done.
    pub remembered_b: IdList,
}

/// Syncs two holders: runs a session between them, of which the first is the initiator, up to its end.
///
/// The frames are handed over as values, in order. An update that is not under the receiver's rule arrives as a bad
/// one, which ends the session. Where both holders have one rule and the ends one database, no two updates of theirs
/// share an id, no end is full and no disk fails, both lists are then the union of what both were; and where that union
/// is within the limits of both, no end is full.
///
/// Whatever comes, want of memory included, each list begins with the one before, and what it gained was in one of both
/// lists. The end is `Store` only where a holder's count of faults rose. Where it is `Done`, two holders that were
/// whole are whole.
pub fn sync_pair<A: Holder, B: Holder>(
    alloc: Global,
    a: &mut A,
    b: &mut B,
    start: PairStart,
) -> Result<PairEnd, AllocError>
    requires few_a { length start.old_a ≤ MAX_NEEDS }
    requires rising_a { IsStrictlySortedBy id_cmp start.old_a }
    requires few_b { length start.old_b ≤ MAX_NEEDS }
    requires rising_b { IsStrictlySortedBy id_cmp start.old_b }
    ensures syncs { IfOk result (λ ended. Syncs (A.limits a.old) (B.limits b.old) (A.rule a.old) (B.rule b.old) start
        (A.members a.old) (B.members b.old) ended (A.members a.new) (B.members b.new)) }
    ensures unites { IfOk result (λ ended. A.rule a.old ≡ B.rule b.old → start.database_a ≡ start.database_b
        → NoCollision (map entry_of (A.members a.old)) (map entry_of (B.members b.old)) → ended.a ≢ full
        → ended.a ≢ store
        → Unites (A.members a.old) (B.members b.old) ended (A.members a.new) (B.members b.new)) }
    ensures room { IfOk result (λ ended. NoCollision (map entry_of (A.members a.old)) (map entry_of (B.members b.old))
        → HasRoom (A.limits a.old) (A.members a.old) (B.members b.old)
        → HasRoom (B.limits b.old) (B.members b.old) (A.members a.old) → ended.a ≢ full) }
    ensures store { IfOk result (λ ended. ended.a ≡ store → Rose (A.faults a.old) (A.faults a.new)
        ⊎ Rose (B.faults b.old) (B.faults b.new)) }
    ensures keeps_a { A.keeps a.old a.new }
    ensures keeps_b { B.keeps b.old b.new }
    ensures whole { A.is_whole a.old → B.is_whole b.old → IfOk result (λ ended. ended.a ≡ done → A.is_whole a.new
        × B.is_whole b.new) }
    ensures moves_a { Moves (A.members a.old ++ B.members b.old) (A.limits a.old) (A.rule a.old) (A.members a.old)
        (A.faults a.old) (A.limits a.new) (A.rule a.new) (A.members a.new) (A.faults a.new) }
    ensures moves_b { Moves (A.members a.old ++ B.members b.old) (B.limits b.old) (B.rule b.old) (B.members b.old)
        (B.faults b.old) (B.limits b.new) (B.rule b.new) (B.members b.new) (B.faults b.new) }
{
    no_cause();
    a.len(); // what every holder keeps
    b.len(); // the same
    let PairStart {
        database_a,
        database_b,
        node_a,
        node_b,
        old_a,
        old_b,
    } = start;
    let mut session_a = Session::fresh(alloc, Role::Initiator, database_a, node_a, old_a);
    let mut session_b = Session::fresh(alloc, Role::Responder, database_b, node_b, old_b);
    run(alloc, a, &mut session_a, b, &mut session_b)
}

/// Runs a session between two ends that are fresh, up to its end.
fn run<A: Holder, B: Holder>(
    alloc: Global,
    a: &mut A,
    session_a: &mut Session,
    b: &mut B,
    session_b: &mut Session,
) -> Result<PairEnd, AllocError>
    requires fresh_a { IsFresh initiator session_a.old }
    requires fresh_b { IsFresh responder session_b.old }
    ensures syncs { IfOk result (λ ended. Syncs (A.limits a.old) (B.limits b.old) (A.rule a.old) (B.rule b.old)
        (start_of session_a.old session_b.old) (A.members a.old) (B.members b.old) ended (A.members a.new)
        (B.members b.new)) }
    ensures store { IfOk result (λ ended. ended.a ≡ store → Rose (A.faults a.old) (A.faults a.new)
        ⊎ Rose (B.faults b.old) (B.faults b.new)) }
    ensures keeps_a { A.keeps a.old a.new }
    ensures keeps_b { B.keeps b.old b.new }
    ensures whole { A.is_whole a.old → B.is_whole b.old → IfOk result (λ ended. ended.a ≡ done → A.is_whole a.new
        × B.is_whole b.new) }
    ensures moves_a { Moves (A.members a.old ++ B.members b.old) (A.limits a.old) (A.rule a.old) (A.members a.old)
        (A.faults a.old) (A.limits a.new) (A.rule a.new) (A.members a.new) (A.faults a.new) }
    ensures moves_b { Moves (A.members a.old ++ B.members b.old) (B.limits b.old) (B.rule b.old) (B.members b.old)
        (B.faults b.old) (B.limits b.new) (B.rule b.new) (B.members b.new) (B.faults b.new) }
{
    let mut out = meet(alloc, a, session_a, b, session_b)?;
    'rounds: while out.turn.is_some() {
        let next = round(alloc, a, session_a, b, session_b, out)?;
        out = next;
    }
    closed(alloc, session_a, session_b, out.end.unwrap())
}

/// Begins a session at two ends that are fresh: hands the first end's Hello to the second. What that one answers is to
/// be carried.
fn meet<A: Holder, B: Holder>(
    alloc: Global,
    a: &A,
    session_a: &mut Session,
    b: &mut B,
    session_b: &mut Session,
) -> Result<Out, AllocError>
    requires fresh_a { IsFresh initiator session_a.old }
    requires fresh_b { IsFresh responder session_b.old }
    ensures going { IfOk result (λ out. Going (start_of session_a.old session_b.old) (A.limits a.now) (B.limits b.old)
        (A.rule a.now) (B.rule b.old) (A.members a.now) (B.members b.old) (A.faults a.now) (B.faults b.old)
        session_a.new (A.members a.now) (A.limits a.now) (A.rule a.now) (A.faults a.now) session_b.new (B.members b.new)
        (B.limits b.new) (B.rule b.new) (B.faults b.new) out) }
    ensures moves { Moves (A.members a.now ++ B.members b.old) (B.limits b.old) (B.rule b.old) (B.members b.old)
        (B.faults b.old) (B.limits b.new) (B.rule b.new) (B.members b.new) (B.faults b.new) }
    ensures keeps { B.keeps b.old b.new }
    ensures whole { B.is_whole b.old → IfOk result (λ out. IsUnrefused out → B.is_whole b.new) }
{
    a.len(); // what every holder keeps
    b.len(); // the same
    let first = session_a.open(alloc, a)?;
    hand_hello(alloc, first.hello, session_b, b)
}

/// How a session that ended so is told.
fn closed(
    alloc: Global,
    session_a: &Session,
    session_b: &Session,
    end: End,
) -> Result<PairEnd, AllocError>
    ensures { IfOk result (Closes session_a.now session_b.now end) }
{
    Ok(PairEnd {
        a: end,
        b: end,
        gained_a: session_a.gained(),
        gained_b: session_b.gained(),
        turns: session_a.turns().max(session_b.turns()),
        remembered_a: session_a.remembered(alloc)?,
        remembered_b: session_b.remembered(alloc)?,
    })
}
