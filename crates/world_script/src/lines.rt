//! What a line says, form by form.

ghost use Rattle.std.specs.Prelude.{◌≡◌, ◌<◌, ◌≤◌, ◌^◌, length, option_map, IfOk, IfSome, MatchOption};
ghost use Rattle.std.specs.List.{list_all};
ghost use Rattle.text_words.specs.Hexadecimal.{is_lower_digit};
ghost use Rattle.world_script.specs.declared.line.Line.{Line as LineData};
ghost use Rattle.world_script.specs.Lines.{act_of as act_in, act_at as act_here, replica_at as replica_here};
ghost use Rattle.world_script.specs.Lines.{session_at as session_here, second_of as second_in, open_of as open_in};
ghost use Rattle.world_script.specs.Lines.{way_of as way_in, carry_of as carry_in, run_of as run_in, cut_of as cut_in};
ghost use Rattle.world_script.specs.Lines.{stop_of as stop_in, restart_of as restart_in, feed_of as feed_in};
ghost use Rattle.world_script.specs.Lines.{bytes_of as bytes_in, Makes, Says, SaysAfter, HasForm, IsPlace};

use crate::act::Act;
use crate::operations::operations_of;
use crate::place::Place;
use crate::words::{is_end, next_word, number_at, number_below};
use crate::{Event, Line, MAX_SESSIONS};
use hex::FromHexError;
use schema::Schema;
use std::alloc::{AllocError, Global};
use update_model::ByteList;

/// What a line says. It says nothing where it has no form that it may have at this place.
pub(crate) fn line_of(
    alloc: Global,
    schema: &Schema,
    place: Place,
    line: &[u8],
) -> Result<Option<Line>, AllocError>
    requires place { IsPlace place }
    requires short { length line.now < 2 ^ 63 }
    ensures found { IfOk result (λ found. MatchOption found ((said : LineData) → Says schema.now place line.now said
        → ⊥) (λ said. Says schema.now place line.now said)) }
    ensures form { IfOk result (λ found. IfSome found (λ said. HasForm said)) }
{
    match act_at(line) {
        Some((act, rest)) => said_after(alloc, schema, place, act, rest),
        None => Ok(None),
    }
}

/// What stands after a first word says.
fn said_after(
    alloc: Global,
    schema: &Schema,
    place: Place,
    act: Act,
    rest: &[u8],
) -> Result<Option<Line>, AllocError>
    requires place { IsPlace place }
    requires short { length rest.now < 2 ^ 63 }
    ensures found { IfOk result (λ found. MatchOption found ((said : LineData)
        → SaysAfter schema.now place act rest.now said → ⊥) (λ said. SaysAfter schema.now place act rest.now said)) }
    ensures form { IfOk result (λ found. IfSome found (λ said. HasForm said)) }
{
    match act {
        Act::Make => make_of(alloc, schema, place, rest),
        Act::Open => Ok(open_of(place, rest)),
        Act::Carry => Ok(carry_of(place, rest)),
        Act::Run => Ok(run_of(place, rest)),
        Act::Cut => Ok(cut_of(place, rest)),
        Act::Feed => feed_of(alloc, place, rest),
        Act::Stop => Ok(stop_of(place, rest)),
        Act::Restart => Ok(restart_of(place, rest)),
    }
}

/// What the first word of a line tells, and what stands after it.
fn act_at(line: &[u8]) -> Option<(Act, &[u8])>
    ensures { option_map (λ read. (read.0, read.1.now)) result ≡ act_here line.now }
{
    let (word, rest) = next_word(line);
    Some((act_of(word)?, rest))
}

/// What a line does whose first word is this.
fn act_of(word: &[u8]) -> Option<Act>
    ensures { result ≡ act_in word.now }
{
    if word == b"MAKE".as_slice() {
        Some(Act::Make)
    } else if word == b"OPEN".as_slice() {
        Some(Act::Open)
    } else if word == b"CARRY".as_slice() {
        Some(Act::Carry)
    } else if word == b"RUN".as_slice() {
        Some(Act::Run)
    } else if word == b"CUT".as_slice() {
        Some(Act::Cut)
    } else if word == b"FEED".as_slice() {
        Some(Act::Feed)
    } else if word == b"STOP".as_slice() {
        Some(Act::Stop)
    } else if word == b"RESTART".as_slice() {
        Some(Act::Restart)
    } else {
        None
    }
}

/// A replica that the world has, and what stands after its number.
fn replica_at(place: Place, rest: &[u8]) -> Option<(u32, &[u8])>
    requires { IsPlace place }
    ensures { option_map (λ read. (read.0, read.1.now)) result ≡ replica_here place rest.now }
{
    number_below(u64::from(place.replicas), rest)
}

/// A session that an earlier line opened, and what stands after its number.
fn session_at(place: Place, rest: &[u8]) -> Option<(u32, &[u8])>
    requires { IsPlace place }
    ensures { option_map (λ read. (read.0, read.1.now)) result ≡ session_here place rest.now }
{
    number_below(u64::from(place.opened), rest)
}

/// `MAKE r operation {; operation}`
fn make_of(
    alloc: Global,
    schema: &Schema,
    place: Place,
    rest: &[u8],
) -> Result<Option<Line>, AllocError>
    requires place { IsPlace place }
    requires short { length rest.now < 2 ^ 63 }
    ensures found { IfOk result (λ found. MatchOption found ((said : LineData) → Makes schema.now place rest.now said
        → ⊥) (λ said. Makes schema.now place rest.now said)) }
    ensures form { IfOk result (λ found. IfSome found (λ said. HasForm said)) }
{
    let Some((replica, text)) = replica_at(place, rest) else {
        return Ok(None);
    };
    match operations_of(alloc, schema, text)? {
        Some(ops) => Ok(Some(Line::One {
            line: place.number,
            event: Event::Make { replica, ops },
        })),
        None => Ok(None),
    }
}

/// `OPEN s a b`, where s is the next number, and b is `*` for a liar.
fn open_of(place: Place, rest: &[u8]) -> Option<Line>
    requires { IsPlace place }
    ensures said { result ≡ open_in place rest.now }
    ensures form { IfSome result (λ said. HasForm said) }
{
    let (session, rest) = number_below(u64::from(MAX_SESSIONS), rest)?;
    if session != place.opened {
        return None;
    }
    let (first, rest) = replica_at(place, rest)?;
    let (second, rest) = second_of(place, first, rest)?;
    if !is_end(rest) {
        return None;
    }
    Some(Line::One {
        line: place.number,
        event: Event::Start {
            session,
            first,
            second,
        },
    })
}

/// Whom a session is opened with: another replica, or a liar.
fn second_of(place: Place, first: u32, rest: &[u8]) -> Option<(Option<u32>, &[u8])>
    requires { IsPlace place }
    ensures { option_map (λ read. (read.0, read.1.now)) result ≡ second_in place first rest.now }
{
    let (word, after) = next_word(rest);
    if word == b"*".as_slice() {
        return Some((None, after));
    }
    let (second, after) = replica_at(place, rest)?;
    if second == first {
        return None;
    }
    Some((Some(second), after))
}

/// `CARRY s >` or `CARRY s <`
fn carry_of(place: Place, rest: &[u8]) -> Option<Line>
    requires { IsPlace place }
    ensures said { result ≡ carry_in place rest.now }
    ensures form { IfSome result (λ said. HasForm said) }
{
    let (session, rest) = session_at(place, rest)?;
    let (word, rest) = next_word(rest);
    let forward = way_of(word)?;
    if !is_end(rest) {
        return None;
    }
    Some(Line::One {
        line: place.number,
        event: Event::Carry { session, forward },
    })
}

/// Whether frames are carried forward.
fn way_of(word: &[u8]) -> Option<bool>
    ensures { result ≡ way_in word.now }
{
    if word == b">".as_slice() {
        Some(true)
    } else if word == b"<".as_slice() {
        Some(false)
    } else {
        None
    }
}

/// `RUN s`
fn run_of(place: Place, rest: &[u8]) -> Option<Line>
    requires { IsPlace place }
    ensures said { result ≡ run_in place rest.now }
    ensures form { IfSome result (λ said. HasForm said) }
{
    let (session, rest) = session_at(place, rest)?;
    if !is_end(rest) {
        return None;
    }
    Some(Line::Run {
        line: place.number,
        session,
    })
}

/// `CUT s`
fn cut_of(place: Place, rest: &[u8]) -> Option<Line>
    requires { IsPlace place }
    ensures said { result ≡ cut_in place rest.now }
    ensures form { IfSome result (λ said. HasForm said) }
{
    let (session, rest) = session_at(place, rest)?;
    if !is_end(rest) {
        return None;
    }
    Some(Line::One {
        line: place.number,
        event: Event::Cut { session },
    })
}

/// `STOP r n`
fn stop_of(place: Place, rest: &[u8]) -> Option<Line>
    requires { IsPlace place }
    ensures said { result ≡ stop_in place rest.now }
    ensures form { IfSome result (λ said. HasForm said) }
{
    let (replica, rest) = replica_at(place, rest)?;
    let (calls, rest) = number_below(1 << 32, rest)?;
    if !is_end(rest) {
        return None;
    }
    Some(Line::One {
        line: place.number,
        event: Event::Stop { replica, calls },
    })
}

/// `RESTART r choice`
fn restart_of(place: Place, rest: &[u8]) -> Option<Line>
    requires { IsPlace place }
    ensures said { result ≡ restart_in place rest.now }
    ensures form { IfSome result (λ said. HasForm said) }
{
    let (replica, rest) = replica_at(place, rest)?;
    let (choice, rest) = number_at(rest)?;
    if !is_end(rest) {
        return None;
    }
    Some(Line::One {
        line: place.number,
        event: Event::Restart { replica, choice },
    })
}

/// `FEED s hex`
fn feed_of(alloc: Global, place: Place, rest: &[u8]) -> Result<Option<Line>, AllocError>
    requires { IsPlace place }
    ensures said { IfOk result (λ found. found ≡ feed_in place rest.now) }
    ensures form { IfOk result (λ found. IfSome found (λ said. HasForm said)) }
{
    let Some((session, rest)) = session_at(place, rest) else {
        return Ok(None);
    };
    let (word, rest) = next_word(rest);
    if !is_end(rest) {
        return Ok(None);
    }
    match bytes_of(alloc, word)? {
        Some(bytes) => Ok(Some(Line::One {
            line: place.number,
            event: Event::Feed { session, bytes },
        })),
        None => Ok(None),
    }
}

/// The bytes that lower-case hexadecimal digits write, two for each byte, at least one.
fn bytes_of(alloc: Global, digits: &[u8]) -> Result<Option<ByteList>, AllocError>
    ensures { IfOk result (λ found. found ≡ bytes_in digits.now) }
{
    if digits.is_empty() || !are_lower_digits(digits) {
        return Ok(None);
    }
    match hex::decode(alloc, digits) {
        Ok(bytes) => Ok(Some(ByteList::from_vec(bytes))),
        Err(FromHexError::OutOfMemory) => Err(AllocError),
        Err(_) => Ok(None),
    }
}

fn are_lower_digits(digits: &[u8]) -> bool
    ensures { result ≡ list_all is_lower_digit digits.now }
{
    digits
        .iter()
        .all(|byte| matches!(*byte, b'0'..=b'9' | b'a'..=b'f'))
}
