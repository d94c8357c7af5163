//! The event Carry: a frame on the way is read.

ghost use Rattle.std.specs.Prelude.{◌≡◌, ℕ, ◌++◌, All, IfOk, OnOk, Some, filter_map, map, slice_get};
ghost use Rattle.std.specs.VecDeque.{deque_items};
ghost use Rattle.row_check.specs.Checksum.{is_luhn};
ghost use Rattle.session_rules.specs.Pair.{frames_of};
ghost use Rattle.session_rules.specs.State.{Item};
ghost use Rattle.sync_session.specs.Kept.{IsFrameUnder, frame_of, out_of};
ghost use Rattle.update_check.specs.Members.{AreMembers};
ghost use Rattle.update_codec.specs.Parts.{entry_of};
ghost use Rattle.update_model.specs.Rule.{RuleData};
ghost use Rattle.byzantine_world.specs.Events.{IsStep};
ghost use Rattle.byzantine_world.specs.Standing.{IsStanding};
ghost use Rattle.byzantine_world.specs.Taking.{CanRead, Reads, both_in, reader_in, view_from, view_of};
ghost use Rattle.byzantine_world.specs.declared.talk.Both.{Both as BothData};
ghost use Rattle.byzantine_world.specs.declared.talk.Talk.TheVariants.{Both as BothTalk};
ghost use Rattle.world_rules.specs.Happens.{is_broken_off, is_store};
ghost use Rattle.world_rules.specs.Worlds.{flat, held_by};
ghost use Rattle.world_rules.specs.declared.event.Event.TheVariants.{Carry as CarryEvent};

use crate::state::State;
use crate::talk::{Both, Side, Talk};
use session_rules::End;
use std::alloc::AllocError;
use std::collections::VecDeque;
use sync_session::{CheckedFrame, Out};
use world_rules::{Site, Stepped};

/// What became of a frame that was to be read.
#[derive(Clone, Copy)]
pub(crate) enum Read {
    /// There was none, or its end is over.
    Nothing,
    /// It was read. The end may have ended by it.
    Frame { end: Option<End> },
}

impl State {
    /// The next frame on the way is read: by the end that answers where it goes forward, and else by the one that
    /// began.
    pub fn carry(&mut self, session: u32, forward: bool) -> Result<Stepped, AllocError>
        requires stands { IsStanding self.old.sites.items self.old.talks.items }
        ensures step { IfOk result (λ answer. IsStep is_luhn self.old.sites.items self.old.talks.items
            (CarryEvent session forward) answer self.new.sites.items self.new.talks.items) }
        ensures stands { OnOk result (IsStanding self.new.sites.items self.new.talks.items) }
    {
        let Some(reader) = self.reader(session, forward) else {
            return Ok(Stepped::NoSuch);
        };
        let talk = &mut self.talks[session as usize];
        let site = &mut self.sites[reader as usize];
        match read_end(talk, site, forward)? {
            Read::Nothing => Ok(Stepped::NoSuch),
            Read::Frame { end } => {
                if is_store(&end) {
                    site.sink();
                    self.cut_with(reader);
                }
                Ok(Stepped::Done)
            }
        }
    }

    /// The number of the replica whose end is to read, where the session is one of two replicas.
    fn reader(&self, session: u32, forward: bool) -> Option<u32>
        ensures { result ≡ reader_in forward (both_in (flat (slice_get self.now.talks.items session))) }
    {
        match self.talks.get(session as usize) {
            Some(Some(Talk::Both(both))) => Some(both.reader(forward)),
            Some(Some(Talk::Liar(_))) => None,
            Some(None) => None,
            None => None,
        }
    }
}

/// An end of a session of two replicas reads the oldest frame on the way to it.
fn read_end(talk: &mut Option<Talk>, site: &mut Site, forward: bool) -> Result<Read, AllocError>
    requires { (both : BothData) → both_in talk.old ≡ Some both → CanRead site.old (view_from forward both) }
    ensures { IfOk result (λ read. (both : BothData) → both_in talk.old ≡ Some both
        → (new : BothData) × (talk.new ≡ Some (BothTalk new)) × Reads read site.old (view_from forward both) site.new
        (view_from forward new)) }
{
    match talk {
        Some(Talk::Both(both)) => both.read(site, forward),
        Some(Talk::Liar(_)) => Ok(Read::Nothing),
        None => Ok(Read::Nothing),
    }
}

impl Both {
    /// The number of the replica whose end reads: of the one that answers where a frame goes forward, and else of the
    /// one that began.
    fn reader(&self, forward: bool) -> u32
        ensures { result ≡ (view_from forward self.now).reader }
    {
        if forward { self.second } else { self.first }
    }

    /// The end that answers reads the oldest frame on the way to it where `forward` is true, and else the end that
    /// began.
    fn read(&mut self, site: &mut Site, forward: bool) -> Result<Read, AllocError>
        requires { CanRead site.old (view_from forward self.old) }
        ensures { IfOk result (λ read. Reads read site.old (view_from forward self.old) site.new
            (view_from forward self.new)) }
    {
        if forward {
            read_frame(
                site,
                self.first,
                &mut self.b,
                &mut self.a,
                &mut self.to_b,
                &mut self.to_a,
            )
        } else {
            read_frame(
                site,
                self.second,
                &mut self.a,
                &mut self.b,
                &mut self.to_a,
                &mut self.to_b,
            )
        }
    }
}

/// An end reads the oldest frame that arrives, and what it answers is put behind what leaves. Where it is done its
/// replica remembers, and where it ended otherwise its peer is cut.
fn read_frame(
    site: &mut Site,
    other: u32,
    end: &mut Side,
    peer: &mut Side,
    arriving: &mut VecDeque<CheckedFrame>,
    leaving: &mut VecDeque<CheckedFrame>,
) -> Result<Read, AllocError>
    requires { (reader : ℕ) → CanRead site.old (view_of reader other end.old peer.old (deque_items arriving.old)
        (deque_items leaving.old)) }
    ensures { IfOk result (λ read. (reader : ℕ)
        → Reads read site.old (view_of reader other end.old peer.old (deque_items arriving.old)
        (deque_items leaving.old)) site.new (view_of reader other end.new peer.new (deque_items arriving.new)
        (deque_items leaving.new))) }
{
    if end.is_over() {
        return Ok(Read::Nothing);
    }
    let Some(frame) = arriving.pop_front() else {
        return Ok(Read::Nothing);
    };
    let out = end.take(site, frame)?;
    site.remember(other, &end.session, end.ended)?;
    put_frames(site, out, leaving)?;
    if is_broken_off(&end.ended) {
        peer.cut();
    }
    Ok(Read::Frame { end: end.ended })
}

/// Puts the frames that a step hands out behind those that leave.
fn put_frames(site: &Site, out: Out, leaving: &mut VecDeque<CheckedFrame>) -> Result<(), AllocError>
    ensures put { OnOk result (map frame_of (deque_items leaving.new) ≡ map frame_of (deque_items leaving.old)
        ++ frames_of (out_of (map entry_of (held_by site.now)) out)) }
    ensures under { OnOk result ((rule : RuleData) → AreMembers rule (held_by site.now)
        → All (IsFrameUnder rule) (deque_items leaving.old) → All (IsFrameUnder rule) (deque_items leaving.new)) }
{
    let Out {
        hello,
        send,
        turn,
        ..
    } = out;
    if let Some(hello) = hello {
        leaving.push_back(CheckedFrame::Hello(hello))?;
    }
    put_updates(site, send.as_slice(), leaving)?;
    if let Some(turn) = turn {
        leaving.push_back(CheckedFrame::Turn(turn))?;
    }
    Ok(())
}

/// Puts the updates at these positions behind the frames that leave.
fn put_updates(
    site: &Site,
    positions: &[u32],
    leaving: &mut VecDeque<CheckedFrame>,
) -> Result<(), AllocError>
    ensures put { OnOk result (map frame_of (deque_items leaving.new) ≡ map frame_of (deque_items leaving.old) ++ map
        Item (filter_map (slice_get (map entry_of (held_by site.now))) positions.now)) }
    ensures under { OnOk result ((rule : RuleData) → AreMembers rule (held_by site.now)
        → All (IsFrameUnder rule) (deque_items leaving.old) → All (IsFrameUnder rule) (deque_items leaving.new)) }
{
    'updates: for position in positions {
        if *position < site.store().len() {
            let update = site.copy_at(*position)?;
            leaving.push_back(CheckedFrame::Item(update))?;
        }
    }
    Ok(())
}

/// Whether the store of an end failed.
pub(crate) fn is_store(end: &Option<End>) -> bool
    ensures { result ≡ is_store end.now }
{
    match end {
        None => false,
        Some(End::Done) => false,
        Some(End::Peer(_)) => false,
        Some(End::Full) => false,
        Some(End::Store) => true,
    }
}

/// Whether an end ended other than done.
fn is_broken_off(end: &Option<End>) -> bool
    ensures { result ≡ is_broken_off end.now }
{
    match end {
        None => false,
        Some(End::Done) => false,
        Some(End::Peer(_)) => true,
        Some(End::Full) => true,
        Some(End::Store) => true,
    }
}
