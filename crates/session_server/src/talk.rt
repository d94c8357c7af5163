//! One end of a session over a link, frame by frame.

ghost use Rattle.std.specs.Prelude.{◌≡◌, ◌≤◌, ◌<◌, ◌++◌, ◌∷◌, [], ℕ, None, Some, true, false, IfOk, IfErr, List};
ghost use Rattle.std.specs.Prelude.{Option, length};
ghost use Rattle.std.specs.List.Sorted.{IsStrictlySortedBy};
ghost use Rattle.session_rules.specs.declared.limits.TheConstants.{MAX_NEEDS};
ghost use Rattle.session_rules.specs.State.{FrameData, Item as item};
ghost use Rattle.sync_session.specs.declared.checked_frame.CheckedFrame.TheVariants.{Item as an_item};
ghost use Rattle.update_codec.specs.Parts.{entry_of};
ghost use Rattle.session_rules.specs.declared.role.Role.{Role as AnyRole};
ghost use Rattle.sync_session.specs.Kept.{frame_of};
ghost use Rattle.update_model.specs.Entry.{id_cmp};
ghost use Rattle.update_model.specs.Rule.{RuleData};
ghost use Rattle.update_model.specs.declared.update_id.UpdateId.{UpdateId as Id};
ghost use Rattle.shared_replica.specs.Sessions.{BelongsIn, IsRuledBy, IsUnder};
ghost use Rattle.session_server.specs.Recalling.{recalled as recalled_by};
ghost use Rattle.link_frames.specs.Hearing.{Reads};
ghost use Rattle.session_server.specs.Talks.{Begins, Goes, HeardFront, HeardOne, IsStill, IsTalk, IsTalkWith, ReadsBy};
ghost use Rattle.session_server.specs.Talks.{ReadsTo, Start, TookOne, first_node_of, is_cut, over_by};
ghost use Rattle.session_server.specs.declared.ending.Ending.TheVariants.{Memory as memory};

use crate::saying::say;
use crate::{Common, Ending};
use bec_disk::Disk;
use bec_links::Link;
use link_frames::{Halt, Heard, checked_all, listen};
use record_check::ManyThreads;
use session_rules::{End, Role};
use shared_replica::{Acted, Pass, Shared};
use std::alloc::{AllocError, Global};
use std::sync::Wait;
use std::thread::Threads;
use sync_frames::{Frame, Frames};
use sync_session::{CheckedFrame, Out, Session};
use update_check::Checked;
use update_model::{IdList, UpdateId};

/// How many bytes are read at once at most.
const PIECE: usize = 262_144;

/// A session, and the pass with which it takes its turns.
#[derive(Drop)]
pub(crate) struct Talk<D: Disk> {
    /// The pass.
    pub(crate) pass: Pass<D>,
    /// The session.
    pub(crate) session: Session,
    /// Whether no frame was heard yet.
    pub(crate) is_fresh: bool,
}

/// One side of a session.
#[derive(Drop)]
pub(crate) struct Side<'a, D: Disk> {
    /// What it has in common with the others of its node.
    pub(crate) common: &'a Common<'a, D>,
    /// Its role.
    pub(crate) role: Role,
}

/// Begins a session with what is remembered of the peer. Where there is no memory, the pass comes back.
pub(crate) fn begin<R: Wait, D: Disk>(
    rt: &R,
    alloc: Global,
    shared: &Shared<D>,
    pass: Pass<D>,
    role: Role,
    recalled: &[UpdateId],
) -> Result<(Talk<D>, Out), Pass<D>>
    requires lock { pass.lock ≡ shared.now.lock }
    requires few { length recalled.now ≤ MAX_NEEDS }
    requires rising { IsStrictlySortedBy id_cmp recalled.now }
    ensures begun { IfOk result (λ r. Begins pass r.0.pass role recalled.now r.0.session r.1 × (r.0.is_fresh ≡ true)) }
    ensures refused { IfErr result (λ p. IsStill pass p) }
{
    let ids = match Vec::from_slice(alloc, recalled) {
        Ok(ids) => IdList::from_vec(ids),
        Err(_) => return Err(pass),
    };
    let Acted { pass, answer } = shared.session_start(rt, alloc, pass, role, ids);
    match answer {
        Ok((session, out)) => {
            let talk = Talk {
                pass,
                session,
                is_fresh: true,
            };
            Ok((talk, out))
        }
        Err(_) => Err(pass),
    }
}

/// A responder knows its peer by the first Hello: its session begins again then, with what is remembered of that node.
/// Where there is no memory, the session comes back as it was.
fn recall<R: Wait, D: Disk>(
    rt: &R,
    side: &Side<'_, D>,
    talk: Talk<D>,
    frame: &CheckedFrame,
) -> Result<Talk<D>, Talk<D>>
    requires lock { talk.pass.lock ≡ side.now.common.now.shared.now.lock }
    requires belongs { BelongsIn talk.pass.seen talk.session }
    ensures fresh { IfOk result (λ next. next.is_fresh ≡ talk.is_fresh) }
    ensures ok { IfOk result (λ next. Goes talk.pass next.pass next.session
        × ((rule : RuleData) (start : Start) (held : Option (List ℕ)) (faults : ℕ) (heard : List FrameData)
        → IsTalkWith rule side.now.role side.now.common.now.peers.now start talk.pass talk.session talk.is_fresh held
        faults heard None
        → (old : List Id) × (old ≡ recalled_by side.now.role side.now.common.now.peers.now start.name
        (heard ++ frame_of frame.now ∷ [])) × IsTalk rule side.now.role start old next.pass next.session next.is_fresh
        held faults heard None)) }
    ensures err { IfErr result (λ next. Goes talk.pass next.pass next.session
        × ((rule : RuleData) (start : Start) (held : Option (List ℕ)) (faults : ℕ) (heard : List FrameData)
        → IsTalkWith rule side.now.role side.now.common.now.peers.now start talk.pass talk.session talk.is_fresh held
        faults heard None
        → IsTalkWith rule side.now.role side.now.common.now.peers.now start next.pass next.session next.is_fresh held
        faults heard (Some memory))) }
{
    let Some(node) = first_node(side.role, talk.is_fresh, frame) else {
        return Ok(talk);
    };
    let Talk { pass, session, .. } = talk;
    let Common { alloc, shared, .. } = *side.common;
    let recalled = side.common.peers.heads_of(&node);
    match begin(rt, alloc, shared, pass, side.role, recalled) {
        Ok((talk, _)) => Ok(talk),
        Err(pass) => Err(Talk {
            pass,
            session,
            is_fresh: true,
        }),
    }
}

/// The node of the first Hello, by which a responder knows its peer.
fn first_node(role: Role, is_fresh: bool, frame: &CheckedFrame) -> Option<[u8; 32]>
    ensures { result ≡ first_node_of role is_fresh (frame_of frame.now) }
{
    match (role, is_fresh, frame) {
        (Role::Responder, true, CheckedFrame::Hello(hello)) => Some(hello.node),
        _ => None,
    }
}

/// Takes a frame of the peer, and says what is to be said. It answers how the session ended, where it did.
fn take<R: Wait, K: Link, D: Disk>(
    rt: &R,
    alloc: Global,
    shared: &Shared<D>,
    link: &mut K,
    talk: Talk<D>,
    frame: CheckedFrame,
) -> (Talk<D>, Option<Ending>)
    requires lock { talk.pass.lock ≡ shared.now.lock }
    requires belongs { BelongsIn talk.pass.seen talk.session }
    requires under { IsUnder talk.pass.seen frame }
    ensures goes { Goes talk.pass result.0.pass result.0.session }
    ensures uncut { is_cut result.1 ≡ false }
    ensures left { K.left link.new ≡ K.left link.old }
    ensures talk { (rule : RuleData) (role : AnyRole) (start : Start) (old : List Id) (heard : List FrameData)
        → IsTalk rule role start old talk.pass talk.session talk.is_fresh (K.held link.old) (K.faults link.old) heard
        None
        → (all : List FrameData) × TookOne (frame_of frame) heard result.1 all result.0.session talk.is_fresh
        result.0.is_fresh (K.held link.old) (K.held link.new) (K.faults link.old) (K.faults link.new)
        × IsTalk rule role start old result.0.pass result.0.session result.0.is_fresh (K.held link.new)
        (K.faults link.new) all result.1 }
{
    match frame {
        CheckedFrame::Item(update) => gather(alloc, talk, update),
        frame => take_in_turn(rt, alloc, shared, link, talk, frame),
    }
}

/// Takes an update of the peer outside of any turn: it is gathered, and the replica has no part in that.
fn gather<D: Disk>(alloc: Global, talk: Talk<D>, update: Checked) -> (Talk<D>, Option<Ending>)
    requires belongs { BelongsIn talk.pass.seen talk.session }
    requires under { IsUnder talk.pass.seen (an_item update) }
    ensures goes { Goes talk.pass result.0.pass result.0.session }
    ensures uncut { is_cut result.1 ≡ false }
    ensures talk { (rule : RuleData) (role : AnyRole) (start : Start) (old : List Id) (held : Option (List ℕ))
        (faults : ℕ) (heard : List FrameData)
        → IsTalk rule role start old talk.pass talk.session talk.is_fresh held faults heard None
        → (all : List FrameData) × TookOne (item (entry_of update)) heard result.1 all result.0.session talk.is_fresh
        result.0.is_fresh held held faults faults
        × IsTalk rule role start old result.0.pass result.0.session result.0.is_fresh held faults all result.1 }
{
    let Talk {
        pass,
        mut session,
        is_fresh,
    } = talk;
    match session.gather_update(alloc, update) {
        Ok(out) => {
            let talk = Talk {
                pass,
                session,
                is_fresh: false,
            };
            (talk, over(Ok(()), out.end))
        }
        Err(_) => {
            let talk = Talk {
                pass,
                session,
                is_fresh,
            };
            (talk, Some(Ending::Memory))
        }
    }
}

/// Takes a frame of the peer in a turn of its own, and says what is to be said.
fn take_in_turn<R: Wait, K: Link, D: Disk>(
    rt: &R,
    alloc: Global,
    shared: &Shared<D>,
    link: &mut K,
    talk: Talk<D>,
    frame: CheckedFrame,
) -> (Talk<D>, Option<Ending>)
    requires lock { talk.pass.lock ≡ shared.now.lock }
    requires belongs { BelongsIn talk.pass.seen talk.session }
    requires under { IsUnder talk.pass.seen frame }
    ensures goes { Goes talk.pass result.0.pass result.0.session }
    ensures uncut { is_cut result.1 ≡ false }
    ensures left { K.left link.new ≡ K.left link.old }
    ensures talk { (rule : RuleData) (role : AnyRole) (start : Start) (old : List Id) (heard : List FrameData)
        → IsTalk rule role start old talk.pass talk.session talk.is_fresh (K.held link.old) (K.faults link.old) heard
        None
        → (all : List FrameData) × TookOne (frame_of frame) heard result.1 all result.0.session talk.is_fresh
        result.0.is_fresh (K.held link.old) (K.held link.new) (K.faults link.old) (K.faults link.new)
        × IsTalk rule role start old result.0.pass result.0.session result.0.is_fresh (K.held link.new)
        (K.faults link.new) all result.1 }
{
    let Talk {
        pass,
        mut session,
        is_fresh,
    } = talk;
    let Acted { pass, answer } = shared.session_step(rt, alloc, pass, &mut session, frame);
    match answer {
        Err(_) => {
            let talk = Talk {
                pass,
                session,
                is_fresh,
            };
            (talk, Some(Ending::Memory))
        }
        Ok(out) => {
            let (pass, told) = say(rt, alloc, shared, pass, link, &out);
            let talk = Talk {
                pass,
                session,
                is_fresh: false,
            };
            (talk, over(told, out.end))
        }
    }
}

/// How a session ended, by whether all was said and by how the session of the rules ended, if it did.
fn over(told: Result<(), Halt>, end: Option<End>) -> Option<Ending>
    ensures value { result ≡ over_by told end }
    ensures uncut { is_cut result ≡ false }
{
    match told {
        Err(Halt::Broken) => Some(Ending::Broken),
        Err(Halt::Memory) => Some(Ending::Memory),
        Ok(()) => match end {
            None => None,
            Some(End::Done) => Some(Ending::Done),
            Some(End::Peer(fault)) => Some(Ending::Peer(fault)),
            Some(End::Full) => Some(Ending::Full),
            Some(End::Store) => Some(Ending::Store),
        },
    }
}

/// Hears a frame that was checked: the first Hello tells a responder who its peer is.
fn hear_checked<R: Wait, K: Link, D: Disk>(
    rt: &R,
    side: &Side<'_, D>,
    link: &mut K,
    talk: Talk<D>,
    frame: CheckedFrame,
) -> (Talk<D>, Option<Ending>)
    requires lock { talk.pass.lock ≡ side.now.common.now.shared.now.lock }
    requires belongs { BelongsIn talk.pass.seen talk.session }
    requires under { IsUnder talk.pass.seen frame }
    ensures goes { Goes talk.pass result.0.pass result.0.session }
    ensures uncut { is_cut result.1 ≡ false }
    ensures left { K.left link.new ≡ K.left link.old }
    ensures talk { (rule : RuleData) (start : Start) (heard : List FrameData)
        → IsTalkWith rule side.now.role side.now.common.now.peers.now start talk.pass talk.session talk.is_fresh
        (K.held link.old) (K.faults link.old) heard None
        → (all : List FrameData) × HeardOne (frame_of frame) heard result.1 all
        × IsTalkWith rule side.now.role side.now.common.now.peers.now start result.0.pass result.0.session
        result.0.is_fresh (K.held link.new) (K.faults link.new) all result.1 }
{
    match recall(rt, side, talk, &frame) {
        Ok(talk) => take(rt, side.common.alloc, side.common.shared, link, talk, frame),
        Err(talk) => (talk, Some(Ending::Memory)),
    }
}

/// Has the updates among frames checked outside the turn, on as many threads as there are processors, and hears the
/// frames in order, up to the one at which the session ends. Where memory runs out in the check, it hears none.
fn hear_all<R: Threads + Wait, K: Link, D: Disk>(
    rt: &R,
    side: &Side<'_, D>,
    link: &mut K,
    talk: Talk<D>,
    frames: Vec<Frame>,
) -> (Talk<D>, Option<Ending>)
    requires lock { talk.pass.lock ≡ side.now.common.now.shared.now.lock }
    requires belongs { BelongsIn talk.pass.seen talk.session }
    requires ruled { IsRuledBy talk.pass.seen side.now.common.now.rule.now }
    ensures goes { Goes talk.pass result.0.pass result.0.session }
    ensures uncut { is_cut result.1 ≡ false }
    ensures left { K.left link.new ≡ K.left link.old }
    ensures talk { (start : Start) (heard : List FrameData) → IsTalkWith side.now.common.now.rule.now side.now.role
        side.now.common.now.peers.now start talk.pass talk.session talk.is_fresh (K.held link.old) (K.faults link.old)
        heard None
        → (all : List FrameData) × HeardFront side.now.common.now.rule.now frames.items heard result.1 all
        × IsTalkWith side.now.common.now.rule.now side.now.role side.now.common.now.peers.now start result.0.pass
        result.0.session result.0.is_fresh (K.held link.new) (K.faults link.new) all result.1 }
{
    let Ok(all) = checked_all(
        side.common.alloc,
        &ManyThreads::new(rt),
        side.common.rule,
        frames,
    ) else {
        return (talk, Some(Ending::Memory));
    };
    let mut talk = talk;
    let mut frames = all.into_iter();
    'frames: while let Some(frame) = frames.next() {
        let (next, over) = hear_checked(rt, side, link, talk, frame);
        talk = next;
        if over.is_some() {
            return (talk, over);
        }
    }
    (talk, None)
}

/// Reads a piece of the link, and hears the frames that are whole then.
fn go_on<R: Threads + Wait, K: Link, D: Disk>(
    rt: &R,
    side: &Side<'_, D>,
    link: &mut K,
    talk: Talk<D>,
    frames: &mut Frames,
    buffer: &mut [u8],
) -> (Talk<D>, Option<Ending>)
    requires lock { talk.pass.lock ≡ side.now.common.now.shared.now.lock }
    requires belongs { BelongsIn talk.pass.seen talk.session }
    requires ruled { IsRuledBy talk.pass.seen side.now.common.now.rule.now }
    requires room { 0 < length buffer.old }
    ensures goes { Goes talk.pass result.0.pass result.0.session }
    ensures len { length buffer.new ≡ length buffer.old }
    ensures talk { (start : Start) (before : Option (List ℕ)) (heard : List FrameData)
        → IsTalkWith side.now.common.now.rule.now side.now.role side.now.common.now.peers.now start talk.pass
        talk.session talk.is_fresh (K.held link.old) (K.faults link.old) heard None
        → Reads side.now.common.now.rule.now before (K.left link.old) frames.old heard
        → (all : List FrameData) × IsTalkWith side.now.common.now.rule.now side.now.role side.now.common.now.peers.now
        start result.0.pass result.0.session result.0.is_fresh (K.held link.new) (K.faults link.new) all result.1
        × ReadsBy result.1 side.now.common.now.rule.now before (K.left link.new) frames.new all }
{
    match listen(side.common.alloc, link, frames, buffer) {
        Heard::Frames(all) => hear_all(rt, side, link, talk, all),
        Heard::NoFrame(place) => {
            hear_checked(rt, side, link, talk, CheckedFrame::BadFrame(place))
        }
        Heard::End => (talk, Some(Ending::Cut)),
        Heard::Broken => (talk, Some(Ending::Broken)),
        Heard::Memory => (talk, Some(Ending::Memory)),
    }
}

/// Goes on with a session until it ends, and answers how. Where there is no memory for what is read at once, nothing is
/// read.
pub(crate) fn go_through<R: Threads + Wait, K: Link, D: Disk>(
    rt: &R,
    side: &Side<'_, D>,
    link: &mut K,
    talk: Talk<D>,
) -> (Talk<D>, Ending)
    requires lock { talk.pass.lock ≡ side.now.common.now.shared.now.lock }
    requires belongs { BelongsIn talk.pass.seen talk.session }
    requires ruled { IsRuledBy talk.pass.seen side.now.common.now.rule.now }
    ensures lock { result.0.pass.lock ≡ talk.pass.lock }
    ensures talk { (start : Start) (heard : List FrameData) → IsTalkWith side.now.common.now.rule.now side.now.role
        side.now.common.now.peers.now start talk.pass talk.session talk.is_fresh (K.held link.old) (K.faults link.old)
        heard None → heard ≡ []
        → (all : List FrameData) × IsTalkWith side.now.common.now.rule.now side.now.role side.now.common.now.peers.now
        start result.0.pass result.0.session result.0.is_fresh (K.held link.new) (K.faults link.new) all (Some result.1)
        × ReadsTo side.now.common.now.rule.now (K.left link.old) (K.left link.new) all result.1 }
{
    let alloc = side.common.alloc;
    let mut frames = Frames::new(alloc);
    let Ok(mut buffer) = vec![in alloc; 0u8; PIECE] else {
        return (talk, Ending::Memory);
    };
    let mut talk = talk;
    for _ in rt.forever() {
        let (next, over) = go_on(rt, side, link, talk, &mut frames, &mut buffer);
        talk = next;
        if let Some(ending) = over {
            return (talk, ending);
        }
    }
    unreachable!()
}
