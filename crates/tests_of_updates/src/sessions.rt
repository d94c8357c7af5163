//! Sessions as words: a letter for each frame that comes, and letters for what is answered.
//!
//! A frame is a letter of [`frame_for`]. What it is answered with is a word, and each word ends with a bar: `h` a
//! Hello, `i` an update, `f` a Turn that says that all is held, `n` one that asks, `t` one that does neither, `D` done,
//! `#` full, `!` a fault of the store, `v` another version, and the other faults of a peer by number.

ghost use Rattle.std.specs.Prelude.{◌≡◌, ◌≤◌, IfOk, length};
ghost use Rattle.std.specs.List.Sorted.{IsStrictlySortedBy};
ghost use Rattle.update_model.specs.Entry.{id_cmp};
ghost use Rattle.update_check.specs.Signed.{IsChecked};
ghost use Rattle.mem_holder.specs.Holders.{limits_of};
ghost use Rattle.sync_session.specs.Kept.{BelongsTo, IsFrameUnder};

use crate::signed::{DATABASE, PLAIN, rule, signed};
use mem_holder::MemHolder;
use session_rules::{End, MAX_ITEMS, PeerFault, Role};
use std::alloc::{AllocError, Global};
use sync_frames::{Hello, Turn};
use sync_session::{CheckedFrame, Out, Session};
use update_check::{CheckError, CheckFault, Checked, Holder, check};
use update_model::{ByteList, DbRule, IdList, Member, UpdateId};

/// An id that no update has.
const UNKNOWN: UpdateId = UpdateId([0x99; 32]);

/// No id, or this one.
fn ids(alloc: Global, id: Option<UpdateId>) -> Result<IdList, AllocError>
    ensures few { IfOk result (λ ids. length ids ≤ 1) }
    ensures rising { IfOk result (λ ids. IsStrictlySortedBy id_cmp ids) }
{
    match id {
        None => Ok(IdList::from_vec(Vec::new(alloc))),
        Some(id) => Ok(IdList::from_vec(Vec::from_slice(alloc, &[id])?)),
    }
}

/// A Hello with no or one head, nothing that is remembered, and a filter that has every id.
fn hello(alloc: Global, database: [u8; 32], head: Option<UpdateId>) -> Result<Hello, AllocError> {
    Ok(Hello::new(
        database,
        [2; 32],
        ids(alloc, head)?,
        ids(alloc, None)?,
        ByteList::from_vec(Vec::from_slice(alloc, &[0xff])?),
    ))
}

/// An update as a frame.
fn item(alloc: Global, rule: &DbRule, update: &Checked) -> Result<CheckedFrame, AllocError>
    requires { IsChecked rule.now update.now }
    ensures { IfOk result (IsFrameUnder rule.now) }
{
    Ok(CheckedFrame::Item(update.copy(alloc)?))
}

/// The frame that a letter stands for, where the holder of this rule is offered two updates.
fn frame_for(
    alloc: Global,
    rule: &DbRule,
    letter: u8,
    one: &Checked,
    other: &Checked,
) -> Result<CheckedFrame, AllocError>
    requires one { IsChecked rule.now one.now }
    requires other { IsChecked rule.now other.now }
    ensures { IfOk result (IsFrameUnder rule.now) }
{
    let database = if letter == b'd' { [0; 32] } else { DATABASE };
    let id = match letter {
        b'w' | b'u' => Some(one.id()),
        b'l' | b'x' => Some(UNKNOWN),
        _ => None,
    };
    match letter {
        b'h' | b'w' | b'l' | b'd' => Ok(CheckedFrame::Hello(hello(alloc, database, id)?)),
        b't' | b'u' | b'x' => Ok(CheckedFrame::Turn(Turn::asking(ids(alloc, id)?))),
        b'v' => Ok(CheckedFrame::OtherVersion(2)),
        b'i' => item(alloc, rule, one),
        b'j' => item(alloc, rule, other),
        b'b' => Ok(CheckedFrame::BadItem(CheckFault::BadSignature)),
        b'f' => Ok(CheckedFrame::Turn(Turn::all_held(alloc))),
        _ => Ok(CheckedFrame::BadFrame(7)),
    }
}

/// The letter for a Turn.
fn turn_letter(turn: &Turn) -> char {
    if turn.have {
        'f'
    } else if turn.needs.as_slice().is_empty() {
        't'
    } else {
        'n'
    }
}

/// The letter for an end.
fn end_letter(end: End) -> char {
    match end {
        End::Done => 'D',
        End::Full => '#',
        End::Store => '!',
        End::Peer(PeerFault::BadFrame(_)) => '1',
        End::Peer(PeerFault::WrongDatabase) => '2',
        End::Peer(PeerFault::BadUpdate(_)) => '3',
        End::Peer(PeerFault::Unanswered(_)) => '4',
        End::Peer(PeerFault::AskedUnknown(_)) => '5',
        End::Peer(PeerFault::AskedAgain(_)) => '6',
        End::Peer(PeerFault::Stalled) => '7',
        End::Peer(PeerFault::TakenBack) => '8',
        End::Peer(PeerFault::OutOfTurn) => '9',
        End::Peer(PeerFault::Version) => 'v',
    }
}

/// Writes the word for an answer.
fn write_answer(words: &mut String, out: &Out) -> Result<(), AllocError> {
    if out.hello.is_some() {
        words.push('h')?;
    }
    for _ in out.send.as_slice() {
        words.push('i')?;
    }
    if let Some(turn) = &out.turn {
        words.push(turn_letter(turn))?;
    }
    if let Some(end) = out.end {
        words.push(end_letter(end))?;
    }
    words.push('|')?;
    Ok(())
}

/// A session, and the words for what it has answered.
#[derive(Drop)]
struct Talk {
    session: Session,
    words: String,
}

/// Lets a session take a frame, and writes the word for what it answers.
fn hear(
    alloc: Global,
    talk: &mut Talk,
    holder: &mut MemHolder,
    frame: CheckedFrame,
) -> Result<(), AllocError>
    requires belongs { BelongsTo (limits_of holder.old.most) holder.old.rule talk.old.session holder.old.members }
    requires under { IsFrameUnder holder.old.rule frame }
    ensures belongs { BelongsTo (limits_of holder.new.most) holder.new.rule talk.new.session holder.new.members }
    ensures rule { holder.new.rule ≡ holder.old.rule }
{
    let out = talk.session.step(alloc, holder, frame)?;
    write_answer(&mut talk.words, &out)
}

/// Lets a session take frames.
fn hear_all(
    alloc: Global,
    talk: &mut Talk,
    holder: &mut MemHolder,
    frames: &[u8],
    one: &Checked,
    other: &Checked,
) -> Result<(), AllocError>
    requires belongs { BelongsTo (limits_of holder.old.most) holder.old.rule talk.old.session holder.old.members }
    requires one { IsChecked holder.old.rule one.now }
    requires other { IsChecked holder.old.rule other.now }
{
    'frames: for letter in frames {
        let frame = frame_for(alloc, holder.rule(), *letter, one, other)?;
        hear(alloc, talk, holder, frame)?;
    }
    Ok(())
}

/// What a new session of a holder answers to frames.
fn answers_to(
    alloc: Global,
    holder: &mut MemHolder,
    role: Role,
    frames: &[u8],
    one: &Checked,
    other: &Checked,
) -> Result<String, AllocError>
    requires one { IsChecked holder.old.rule one.now }
    requires other { IsChecked holder.old.rule other.now }
{
    let begun = Session::start(alloc, holder, role, DATABASE, [1; 32], ids(alloc, None)?)?;
    let mut talk = Talk {
        session: begun.0,
        words: String::new(alloc),
    };
    hear_all(alloc, &mut talk, holder, frames, one, other)?;
    Ok(talk.words)
}

/// A holder that frames come to. It may have two updates.
#[derive(Clone, Copy)]
enum Holding {
    /// It responds, and has the first update.
    Responds,
    /// It begins, and has nothing.
    Begins,
    /// So too, and it may have one update.
    BeginsSmall,
    /// So too, and its first commit fails.
    BeginsFailing,
}

/// A holder, what comes to it, what is then answered, and how many updates it has in the end.
type Row = (Holding, &'static str, &'static str, u32);

const ROWS: &[Row] = &[
    // what is asked for is sent once, and only what is there
    (Holding::Responds, "huf", "hf|if|D|", 1),
    (Holding::Responds, "huu", "hf|if|6|", 1),
    (Holding::Responds, "hux", "hf|if|5|", 1),
    (Holding::Responds, "hut", "hf|if|7|", 1),
    // what was asked for has to come, and who has all still has
    (Holding::Begins, "wfif", "|n||fD|", 1),
    (Holding::Begins, "wfit", "|n||8|", 0),
    (Holding::Begins, "wff", "|n|4|", 0),
    (Holding::Begins, "wfj", "|n|4|", 0),
    (Holding::Begins, "ltt", "|n|4|", 0),
    // each in its turn
    (Holding::Begins, "hf", "|fD|", 0),
    (Holding::Begins, "hh", "|9|", 0),
    (Holding::Begins, "hu", "|9|", 0),
    (Holding::Begins, "i", "9|", 0),
    (Holding::Begins, "d", "2|", 0),
    (Holding::Begins, "v", "v|", 0),
    (Holding::Begins, "hb", "|3|", 0),
    (Holding::Begins, "hz", "|1|", 0),
    // nothing is answered after the end
    (Holding::Begins, "dhf", "2|||", 0),
    // no room, and a fault of the store
    (Holding::BeginsSmall, "hijf", "|||#|", 0),
    (Holding::BeginsFailing, "hif", "||!|", 0),
];

/// The part that a holder has in a session.
fn role_of(holding: Holding) -> Role {
    match holding {
        Holding::Responds => Role::Responder,
        _ => Role::Initiator,
    }
}

/// A holder of this kind.
fn holder_for(
    alloc: Global,
    rule: &DbRule,
    holding: Holding,
    one: &Checked,
) -> Result<MemHolder, AllocError>
    requires { IsChecked rule.now one.now }
    ensures { IfOk result (λ holder. holder.rule ≡ rule.now) }
{
    let (most, failing) = match holding {
        Holding::BeginsSmall => (1, None),
        Holding::BeginsFailing => (2, Some(0)),
        _ => (2, None),
    };
    let mut holder = MemHolder::new(alloc, rule.copy(alloc)?, most, failing);
    let Holding::Responds = holding else {
        return Ok(holder);
    };
    let mut batch = Vec::new(alloc);
    batch.push(one.copy(alloc)?)?;
    match holder.commit(alloc, batch) {
        Ok(_) => Ok(holder),
        Err(_) => Err(AllocError),
    }
}

/// What a holder of this kind answers to frames, and how many updates it has then.
fn answered(
    alloc: Global,
    rule: &DbRule,
    holding: Holding,
    frames: &[u8],
    one: &Checked,
    other: &Checked,
) -> Result<(String, u32), AllocError>
    requires one { IsChecked rule.now one.now }
    requires other { IsChecked rule.now other.now }
{
    let mut holder = holder_for(alloc, rule, holding, one)?;
    let words = answers_to(alloc, &mut holder, role_of(holding), frames, one, other)?;
    Ok((words, holder.len()))
}

/// Whether each row is as it says.
fn are_so(alloc: Global, rule: &DbRule, one: &Checked, other: &Checked) -> Result<bool, AllocError>
    requires one { IsChecked rule.now one.now }
    requires other { IsChecked rule.now other.now }
{
    for (holding, frames, wanted, in_the_end) in ROWS {
        let (words, held) = answered(alloc, rule, *holding, frames.as_bytes(), one, other)?;
        if words.as_str() != *wanted || held != *in_the_end {
            return Ok(false);
        }
    }
    Ok(true)
}

/// The update of a seed, under a rule.
fn offered(alloc: Global, rule: &DbRule, seed: u8) -> Result<Checked, CheckError>
    ensures { IfOk result (λ update. IsChecked rule.now update) }
{
    let (bytes, _author) = signed(alloc, [seed, 0, 0], PLAIN)?;
    check(alloc, rule, bytes)
}

/// Whether each row is as it says, where two updates are offered.
fn is_answered(alloc: Global, rule: &DbRule) -> Result<bool, CheckError> {
    let one = offered(alloc, rule, 1)?;
    let other = offered(alloc, rule, 2)?;
    Ok(are_so(alloc, rule, &one, &other)?)
}

#[test]
fn answers_each_frame(rt: HostRuntime) {
    let rule = rule(rt.alloc());
    assert!(rt; matches!(is_answered(rt.alloc(), &rule), Ok(true)));
}

/// A Hello, and one update more than a turn may have.
fn too_many(alloc: Global) -> Result<Vec<u8>, AllocError> {
    let mut frames = Vec::from_slice(alloc, b"hi")?;
    for _ in 0..MAX_ITEMS {
        frames.push(b'i')?;
    }
    Ok(frames)
}

/// Whether 131,072 updates are a turn, and one more is not.
fn is_limited(alloc: Global, rule: &DbRule) -> Result<bool, CheckError> {
    let one = offered(alloc, rule, 1)?;
    let frames = too_many(alloc)?;
    let (words, held) = answered(alloc, rule, Holding::Begins, &frames, &one, &one)?;
    Ok(words.len() == 131_075 && words.ends_with("|9|") && held == 0)
}

#[test]
fn a_turn_has_so_many_updates(rt: HostRuntime) {
    let rule = rule(rt.alloc());
    assert!(rt; matches!(is_limited(rt.alloc(), &rule), Ok(true)));
}
