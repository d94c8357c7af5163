//! Frames between two holders: what one end hands out is handed to the other, in order.

ghost use Rattle.std.specs.Prelude.{◌≡◌, ◌≢◌, ◌⊎◌, ◌↔◌, ◌≤◌, ◌<◌, ◌+◌, IsTrue, None, Some, IfOk, OnOk, All, Contains};
ghost use Rattle.std.specs.Prelude.{map, filter_map, slice_get, option_map};
ghost use Rattle.bec_bytes.specs.Causes.{Rose};
ghost use Rattle.session_rules.specs.declared.end.End.TheVariants.{Full as full, Store as store};
ghost use Rattle.session_rules.specs.Pair.{PairData};
ghost use Rattle.session_rules.specs.declared.role.Role.TheVariants.{Initiator as initiator};
ghost use Rattle.session_rules.specs.State.{Hello as hello_frame, Item as item, Turn as turn_frame};
ghost use Rattle.update_codec.specs.Parts.{database_of, entry_of};
ghost use Rattle.sync_session.specs.Carrying.{at_hand, before_turn, Arrives, AreHanded, HasGot, IsCarried, IsHanded};
ghost use Rattle.sync_session.specs.Carrying.{IsOnItsWay, IsUnrefused, IsWell};
ghost use Rattle.sync_session.specs.Kept.{frame_of, hello_of, out_of, seen, turn_of, updates_in, IsFrameUnder, Moves};

use crate::{CheckedFrame, Out, Session};
use std::alloc::{AllocError, Global};
use sync_frames::{Hello, Turn};
use update_check::{CheckFault, Checked, Holder};
use update_model::DbRule;

/// A round: what the second end handed out is carried to the first, and what that one answers is carried back.
pub(crate) fn round<A: Holder, B: Holder>(
    alloc: Global,
    a: &mut A,
    session_a: &mut Session,
    b: &mut B,
    session_b: &mut Session,
    out: Out,
) -> Result<Out, AllocError>
    requires well_a { IsWell (A.limits a.old) (A.rule a.old) session_a.old (A.members a.old) }
    requires well_b { IsWell (B.limits b.old) (B.rule b.old) session_b.old (B.members b.old) }
    requires on_its_way { IsOnItsWay (seen (A.members a.old) session_a.old) (seen (B.members b.old) session_b.old)
        (out_of (map entry_of (B.members b.old)) out) }
    ensures got { IfOk result (λ next. (first : PairData)
        → HasGot (A.limits a.old) (B.limits b.old) (A.rule a.old) (B.rule b.old) first
        (seen (A.members a.old) session_a.old) (map entry_of (A.members a.old))
        (seen (B.members b.old) session_b.old) (map entry_of (B.members b.old)) (out_of (map entry_of (B.members b.old))
        out)
        → HasGot (A.limits a.old) (B.limits b.old) (A.rule a.old) (B.rule b.old) first
        (seen (A.members a.new) session_a.new) (map entry_of (A.members a.new))
        (seen (B.members b.new) session_b.new) (map entry_of (B.members b.new)) (out_of (map entry_of (B.members b.new))
        next)) }
    ensures well_a { OnOk result (IsWell (A.limits a.old) (A.rule a.old) session_a.new (A.members a.new)) }
    ensures well_b { OnOk result (IsWell (B.limits b.old) (B.rule b.old) session_b.new (B.members b.new)) }
    ensures turns { IfOk result (λ next. next.turn ≢ None
        → session_a.old.state.turns + session_b.old.state.turns < session_a.new.state.turns + session_b.new.state.turns) }
    ensures moves_a { Moves (at_hand session_a.old (B.members b.old) (A.members a.old)) (A.limits a.old) (A.rule a.old)
        (A.members a.old) (A.faults a.old) (A.limits a.new) (A.rule a.new) (A.members a.new) (A.faults a.new) }
    ensures moves_b { Moves (at_hand session_b.old (A.members a.new) (B.members b.old)) (B.limits b.old) (B.rule b.old)
        (B.members b.old) (B.faults b.old) (B.limits b.new) (B.rule b.new) (B.members b.new) (B.faults b.new) }
    ensures store { IfOk result (λ next. next.end ≡ Some store → Rose (A.faults a.old) (A.faults a.new)
        ⊎ Rose (B.faults b.old) (B.faults b.new)) }
    ensures keeps_a { A.keeps a.old a.new }
    ensures keeps_b { B.keeps b.old b.new }
    ensures whole { A.is_whole a.old → B.is_whole b.old → IfOk result (λ next. IsUnrefused next → A.is_whole a.new
        × B.is_whole b.new) }
{
    let answer = carry(alloc, b, out, session_a, a)?;
    let is_over = answer.turn.is_none();
    if is_over {
        return Ok(answer);
    }
    carry(alloc, a, answer, session_b, b)
}

/// Carries what one end handed out to the other, up to the frame at which that one ends. What that one answered to the
/// last frame comes back.
fn carry<X: Holder, Y: Holder>(
    alloc: Global,
    from: &X,
    out: Out,
    session: &mut Session,
    to: &mut Y,
) -> Result<Out, AllocError>
    requires well { IsWell (Y.limits to.old) (Y.rule to.old) session.old (Y.members to.old) }
    requires running { session.old.state.ended ≡ None }
    requires hello { (option_map hello_of out.hello ≡ None) ⊎ (session.old.state.role ≡ initiator) }
    ensures carried { IfOk result (λ answer. IsCarried (Y.limits to.old) (Y.rule to.old)
        (seen (Y.members to.old) session.old) (map entry_of (Y.members to.old))
        (out_of (map entry_of (X.members from.now)) out)
        (seen (Y.members to.new) session.new) (out_of (map entry_of (Y.members to.new)) answer)
        (map entry_of (Y.members to.new))) }
    ensures well { OnOk result (IsWell (Y.limits to.old) (Y.rule to.old) session.new (Y.members to.new)) }
    ensures moves { Moves (at_hand session.old (X.members from.now) (Y.members to.old)) (Y.limits to.old)
        (Y.rule to.old) (Y.members to.old) (Y.faults to.old) (Y.limits to.new) (Y.rule to.new) (Y.members to.new)
        (Y.faults to.new) }
    ensures store { IfOk result (λ answer. answer.end ≡ Some store → Rose (Y.faults to.old) (Y.faults to.new)) }
    ensures keeps { Y.keeps to.old to.new }
    ensures whole { Y.is_whole to.old → IfOk result (λ answer. answer.end ≢ Some full → answer.end ≢ Some store
        → Y.is_whole to.new) }
{
    let Out {
        hello,
        send,
        turn,
        ..
    } = out;
    let heard = hand_first(alloc, from, hello, send.as_slice(), session, to)?;
    let is_over = heard.end.is_some();
    if is_over {
        return Ok(heard);
    }
    hand_turn(alloc, turn, session, to)
}

/// Hands an end what comes before the Turn: a Hello, where there is one, and updates of a holder, up to the frame at
/// which it ends.
fn hand_first<X: Holder, Y: Holder>(
    alloc: Global,
    from: &X,
    hello: Option<Hello>,
    positions: &[u32],
    session: &mut Session,
    to: &mut Y,
) -> Result<Out, AllocError>
    requires well { IsWell (Y.limits to.old) (Y.rule to.old) session.old (Y.members to.old) }
    requires running { session.old.state.ended ≡ None }
    requires hello { (option_map hello_of hello ≡ None) ⊎ (session.old.state.role ≡ initiator) }
    ensures carried { IfOk result (λ answer. IsCarried (Y.limits to.old) (Y.rule to.old)
        (seen (Y.members to.old) session.old) (map entry_of (Y.members to.old)) (before_turn (option_map hello_of hello)
        (filter_map (slice_get (map entry_of (X.members from.now))) positions.now))
        (seen (Y.members to.new) session.new) (out_of (map entry_of (Y.members to.new)) answer)
        (map entry_of (Y.members to.new))) }
    ensures pending { OnOk result (All (Contains (at_hand session.old (X.members from.now) (Y.members to.old)))
        (updates_in session.new)) }
    ensures well { OnOk result (IsWell (Y.limits to.old) (Y.rule to.old) session.new (Y.members to.new)) }
    ensures moves { Moves (at_hand session.old (X.members from.now) (Y.members to.old)) (Y.limits to.old)
        (Y.rule to.old) (Y.members to.old) (Y.faults to.old) (Y.limits to.new) (Y.rule to.new) (Y.members to.new)
        (Y.faults to.new) }
    ensures store { IfOk result (λ answer. answer.end ≡ Some store → Rose (Y.faults to.old) (Y.faults to.new)) }
    ensures keeps { Y.keeps to.old to.new }
    ensures whole { Y.is_whole to.old → IfOk result (λ answer. answer.end ≢ Some full → answer.end ≢ Some store
        → Y.is_whole to.new) }
{
    let greeted = hand_hello(alloc, hello, session, to)?;
    let is_refused = greeted.end.is_some();
    if is_refused {
        return Ok(greeted);
    }
    hand_updates(alloc, from, positions, session, to)
}

/// Hands a Hello to an end, where there is one.
pub(crate) fn hand_hello<H: Holder>(
    alloc: Global,
    hello: Option<Hello>,
    session: &mut Session,
    to: &mut H,
) -> Result<Out, AllocError>
    requires { IsWell (H.limits to.old) (H.rule to.old) session.old (H.members to.old) }
    ensures handed { IfOk result (λ out. IsHanded (H.limits to.old) (H.rule to.old)
        (seen (H.members to.old) session.old) (map entry_of (H.members to.old))
        (option_map hello_frame (option_map hello_of hello))
        (seen (H.members to.new) session.new) (out_of (map entry_of (H.members to.new)) out)
        (map entry_of (H.members to.new))) }
    ensures well { OnOk result (IsWell (H.limits to.old) (H.rule to.old) session.new (H.members to.new)) }
    ensures moves { Moves (updates_in session.old) (H.limits to.old) (H.rule to.old) (H.members to.old)
        (H.faults to.old) (H.limits to.new) (H.rule to.new) (H.members to.new) (H.faults to.new) }
    ensures store { IfOk result (λ out. out.end ≡ Some store → Rose (H.faults to.old) (H.faults to.new)) }
    ensures keeps { H.keeps to.old to.new }
    ensures whole { H.is_whole to.old → IfOk result (λ out. out.end ≢ Some full → out.end ≢ Some store
        → H.is_whole to.new) }
{
    match hello {
        None => Ok(Out::silent(alloc)),
        Some(hello) => session.step(alloc, to, CheckedFrame::Hello(hello)),
    }
}

/// Hands updates of a holder, which stand at these positions, to an end, up to the one at which it ends.
fn hand_updates<X: Holder, Y: Holder>(
    alloc: Global,
    from: &X,
    positions: &[u32],
    session: &mut Session,
    to: &mut Y,
) -> Result<Out, AllocError>
    requires well { IsWell (Y.limits to.old) (Y.rule to.old) session.old (Y.members to.old) }
    requires running { session.old.state.ended ≡ None }
    ensures handed { IfOk result (λ out. AreHanded (Y.limits to.old) (Y.rule to.old)
        (seen (Y.members to.old) session.old) (map entry_of (Y.members to.old))
        (filter_map (slice_get (map entry_of (X.members from.now))) positions.now)
        (seen (Y.members to.new) session.new) (out_of (map entry_of (Y.members to.new)) out)) }
    ensures list { OnOk result (map entry_of (Y.members to.new) ≡ map entry_of (Y.members to.old)) }
    ensures pending { OnOk result (All (Contains (at_hand session.old (X.members from.now) (Y.members to.old)))
        (updates_in session.new)) }
    ensures well { OnOk result (IsWell (Y.limits to.old) (Y.rule to.old) session.new (Y.members to.new)) }
    ensures moves { Moves (at_hand session.old (X.members from.now) (Y.members to.old)) (Y.limits to.old)
        (Y.rule to.old) (Y.members to.old) (Y.faults to.old) (Y.limits to.new) (Y.rule to.new) (Y.members to.new)
        (Y.faults to.new) }
    ensures store { IfOk result (λ out. out.end ≡ Some store → Rose (Y.faults to.old) (Y.faults to.new)) }
    ensures keeps { Y.keeps to.old to.new }
    ensures whole { Y.is_whole to.old → IfOk result (λ out. out.end ≢ Some full → out.end ≢ Some store
        → Y.is_whole to.new) }
{
    'updates: for position in positions {
        let heard = hand_update(alloc, from, *position, session, to)?;
        if heard.end.is_some() {
            return Ok(heard);
        }
    }
    Ok(Out::silent(alloc))
}

/// Hands the update at a position of a holder to an end, where there is one.
fn hand_update<X: Holder, Y: Holder>(
    alloc: Global,
    from: &X,
    position: u32,
    session: &mut Session,
    to: &mut Y,
) -> Result<Out, AllocError>
    requires { IsWell (Y.limits to.old) (Y.rule to.old) session.old (Y.members to.old) }
    ensures handed { IfOk result (λ out. IsHanded (Y.limits to.old) (Y.rule to.old)
        (seen (Y.members to.old) session.old) (map entry_of (Y.members to.old))
        (option_map item (slice_get (map entry_of (X.members from.now)) position))
        (seen (Y.members to.new) session.new) (out_of (map entry_of (Y.members to.new)) out)
        (map entry_of (Y.members to.new))) }
    ensures well { OnOk result (IsWell (Y.limits to.old) (Y.rule to.old) session.new (Y.members to.new)) }
    ensures moves { Moves (updates_in session.old) (Y.limits to.old) (Y.rule to.old) (Y.members to.old)
        (Y.faults to.old) (Y.limits to.new) (Y.rule to.new) (Y.members to.new) (Y.faults to.new) }
    ensures store { IfOk result (λ out. out.end ≡ Some store → Rose (Y.faults to.old) (Y.faults to.new)) }
    ensures keeps { Y.keeps to.old to.new }
    ensures whole { Y.is_whole to.old → IfOk result (λ out. out.end ≢ Some full → out.end ≢ Some store
        → Y.is_whole to.new) }
{
    if position >= from.len() {
        return Ok(Out::silent(alloc));
    }
    let frame = arriving(alloc, to.rule(), from.update_at(position))?;
    session.step(alloc, to, frame)
}

/// Hands a Turn to an end, where there is one.
fn hand_turn<H: Holder>(
    alloc: Global,
    turn: Option<Turn>,
    session: &mut Session,
    to: &mut H,
) -> Result<Out, AllocError>
    requires { IsWell (H.limits to.old) (H.rule to.old) session.old (H.members to.old) }
    ensures handed { IfOk result (λ out. IsHanded (H.limits to.old) (H.rule to.old)
        (seen (H.members to.old) session.old) (map entry_of (H.members to.old))
        (option_map turn_frame (option_map turn_of turn))
        (seen (H.members to.new) session.new) (out_of (map entry_of (H.members to.new)) out)
        (map entry_of (H.members to.new))) }
    ensures well { OnOk result (IsWell (H.limits to.old) (H.rule to.old) session.new (H.members to.new)) }
    ensures moves { Moves (updates_in session.old) (H.limits to.old) (H.rule to.old) (H.members to.old)
        (H.faults to.old) (H.limits to.new) (H.rule to.new) (H.members to.new) (H.faults to.new) }
    ensures store { IfOk result (λ out. out.end ≡ Some store → Rose (H.faults to.old) (H.faults to.new)) }
    ensures keeps { H.keeps to.old to.new }
    ensures whole { H.is_whole to.old → IfOk result (λ out. out.end ≢ Some full → out.end ≢ Some store
        → H.is_whole to.new) }
{
    match turn {
        None => Ok(Out::silent(alloc)),
        Some(turn) => session.step(alloc, to, CheckedFrame::Turn(turn)),
    }
}

/// How an update arrives where this rule holds: a copy of it, or why it is refused.
///
/// Its signature was verified when it became a `Checked`, whatever the rule was. So only its database and its author
/// are looked at again; and where the sender's rule is this one, it is never refused, since a holder has only updates
/// under its rule.
fn arriving(alloc: Global, rule: &DbRule, update: &Checked) -> Result<CheckedFrame, AllocError>
    ensures arrives { IfOk result (λ frame. Arrives rule.now (item (entry_of update.now)) (frame_of frame)) }
    ensures under { IfOk result (IsFrameUnder rule.now) }
{
    update.author(); // who signed it
    if update.is_under(rule) {
        return Ok(CheckedFrame::Item(update.copy(alloc)?));
    }
    if is_of_database(rule, update) {
        Ok(CheckedFrame::BadItem(CheckFault::AuthorNotListed))
    } else {
        Ok(CheckedFrame::BadItem(CheckFault::WrongDatabase))
    }
}

/// Whether an update is of the rule's database.
fn is_of_database(rule: &DbRule, update: &Checked) -> bool
    ensures { IsTrue result ↔ (database_of update.now ≡ rule.now.database) }
{
    *update.database() == rule.database
}
