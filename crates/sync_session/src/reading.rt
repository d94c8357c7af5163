ghost use Rattle.std.specs.Prelude.{◌≡◌, ◌<◌, IfNone, Some, None, if◌then◌else◌, cond, not, ◌&&◌};
ghost use Rattle.session_rules.specs.declared.peer_fault.PeerFault.TheVariants.{OutOfTurn as out_of_turn};
ghost use Rattle.session_rules.specs.declared.peer_fault.PeerFault.TheVariants.{TakenBack as taken_back_fault};
ghost use Rattle.session_rules.specs.declared.limits.TheConstants.{MAX_ITEMS};
ghost use Rattle.session_rules.specs.Steps.{after_item, answer_fault, in_burst, is_first, takes_hello, takes_item};
ghost use Rattle.sync_session.specs.Kept.{reading_of, turn_fault_at, turn_of};

use session_rules::{MAX_ITEMS, PeerFault, Role};
use std::collections::VecDeque;
use sync_frames::Turn;
use update_model::UpdateId;

/// Which frames may come next.
#[derive(Drop)]
pub(crate) enum Reading {
    /// A Hello.
    Opening,
    /// Updates of the peer's burst, and a Turn.
    Burst,
    /// The updates with these ids, in this order, and a Turn.
    Answers(VecDeque<UpdateId>),
}

/// Which fault an update with this id shows here, after so many updates of its turn.
pub(crate) fn item_fault(reading: &Reading, items: u32, id: UpdateId) -> Option<PeerFault>
    ensures fault { result ≡ (if takes_item (reading_of reading.now) items then answer_fault (reading_of reading.now)
        id else Some out_of_turn) }
    ensures few { IfNone result (items < MAX_ITEMS) }
{
    match reading {
        Reading::Opening => Some(PeerFault::OutOfTurn),
        Reading::Burst => {
            if items < MAX_ITEMS {
                None
            } else {
                Some(PeerFault::OutOfTurn)
            }
        }
        Reading::Answers(due) => match due.front() {
            Some(first) if items < MAX_ITEMS => {
                if *first == id {
                    None
                } else {
                    Some(PeerFault::Unanswered(*first))
                }
            }
            _ => Some(PeerFault::OutOfTurn),
        },
    }
}

/// Whether an update may come here, after so many of its turn.
pub(crate) fn takes_item(reading: &Reading, items: u32) -> bool
    ensures { result ≡ takes_item (reading_of reading.now) items }
{
    match reading {
        Reading::Opening => false,
        Reading::Burst => items < MAX_ITEMS,
        Reading::Answers(due) => !due.is_empty() && items < MAX_ITEMS,
    }
}

/// Whether a Hello may come here.
pub(crate) fn takes_hello(reading: &Reading) -> bool
    ensures { result ≡ takes_hello (reading_of reading.now) }
{
    matches!(reading, Reading::Opening)
}

/// Whether any update of the peer's burst may come.
pub(crate) fn is_burst(reading: &Reading) -> bool
    ensures { result ≡ in_burst (reading_of reading.now) }
{
    matches!(reading, Reading::Burst)
}

/// Whether the Turn that comes is turn 1.
pub(crate) fn is_first(role: Role, reading: &Reading) -> bool
    ensures { result ≡ is_first role (reading_of reading.now) }
{
    match role {
        Role::Initiator => is_burst(reading),
        Role::Responder => false,
    }
}

/// The reading once an update has come.
pub(crate) fn advance(reading: &mut Reading)
    ensures { reading_of reading.new ≡ after_item (reading_of reading.old) }
{
    if let Reading::Answers(due) = reading {
        due.pop_front();
    }
}

/// Which fault a Turn shows here before its commit.
pub(crate) fn turn_fault(
    role: Role,
    reading: &Reading,
    got_have: bool,
    turn: &Turn,
) -> Option<PeerFault>
    ensures { result ≡ turn_fault_at role (reading_of reading.now) got_have (turn_of turn.now) }
{
    match reading {
        Reading::Opening => Some(PeerFault::OutOfTurn),
        Reading::Burst => {
            if is_first(role, reading) && !turn.needs.as_slice().is_empty() {
                Some(PeerFault::OutOfTurn)
            } else {
                taken_back(got_have, turn.have)
            }
        }
        Reading::Answers(due) => match due.front() {
            Some(id) => Some(PeerFault::Unanswered(*id)),
            None => taken_back(got_have, turn.have),
        },
    }
}

/// The fault of a Turn that no longer says that all is held.
fn taken_back(got_have: bool, have: bool) -> Option<PeerFault>
    ensures { result ≡ (if got_have && not have then Some taken_back_fault else None) }
{
    if got_have && !have {
        Some(PeerFault::TakenBack)
    } else {
        None
    }
}

/// How many turns more there are with a frame of this turn.
pub(crate) fn fresh(began: bool) -> u32
    ensures { result ≡ cond began 0 1 }
{
    if began { 0 } else { 1 }
}
