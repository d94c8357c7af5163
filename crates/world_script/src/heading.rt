//! The line that says what world there is.

ghost use Rattle.std.specs.Prelude.{◌≡◌, ◌≤◌, IfSome, option_map};
ghost use Rattle.world_script.specs.Headings.{begins_world as is_world_line, heading_of as heading_in};
ghost use Rattle.world_script.specs.Headings.{lms_of as lms_in, ots_of as ots_in, replica_count as count_in};

use crate::MAX_REPLICAS;
use crate::words::{is_end, next_word, number_at, number_below};
use lm_ots::OtsType;
use lms_tree::LmsType;

/// What the line `WORLD` says.
#[derive(Clone, Copy)]
pub(crate) struct Heading {
    pub replicas: u32,
    pub lms: LmsType,
    pub ots: OtsType,
    pub number: u64,
}

/// Whether the first word of a line is `WORLD`.
pub(crate) fn begins_world(line: &[u8]) -> bool
    ensures { result ≡ is_world_line line.now }
{
    next_word(line).0 == b"WORLD".as_slice()
}

/// What a line says whose first word is `WORLD`.
pub(crate) fn heading_of(line: &[u8]) -> Option<Heading>
    ensures said { result ≡ heading_in line.now }
    ensures few { IfSome result (λ heading. heading.replicas ≤ MAX_REPLICAS) }
{
    let (_, rest) = next_word(line);
    let (replicas, rest) = replica_count(rest)?;
    let (height, rest) = next_word(rest);
    let lms = lms_of(height)?;
    let (width, rest) = next_word(rest);
    let ots = ots_of(width)?;
    let (number, rest) = number_at(rest)?;
    if !is_end(rest) {
        return None;
    }
    Some(Heading {
        replicas,
        lms,
        ots,
        number,
    })
}

/// The number of replicas that the next word writes, and what stands after it.
fn replica_count(rest: &[u8]) -> Option<(u32, &[u8])>
    ensures read { option_map (λ read. (read.0, read.1.now)) result ≡ count_in rest.now }
    ensures few { IfSome result (λ read. read.0 ≤ MAX_REPLICAS) }
{
    let (count, after) = number_below(u64::from(MAX_REPLICAS) + 1, rest)?;
    if count == 0 {
        return None;
    }
    Some((count, after))
}

/// The trees of this height.
fn lms_of(word: &[u8]) -> Option<LmsType>
    ensures { result ≡ lms_in word.now }
{
    if word == b"5".as_slice() {
        Some(LmsType::H5)
    } else if word == b"10".as_slice() {
        Some(LmsType::H10)
    } else if word == b"15".as_slice() {
        Some(LmsType::H15)
    } else {
        None
    }
}

/// The one-time signatures of this width.
fn ots_of(word: &[u8]) -> Option<OtsType>
    ensures { result ≡ ots_in word.now }
{
    if word == b"1".as_slice() {
        Some(OtsType::W1)
    } else if word == b"2".as_slice() {
        Some(OtsType::W2)
    } else if word == b"4".as_slice() {
        Some(OtsType::W4)
    } else if word == b"8".as_slice() {
        Some(OtsType::W8)
    } else {
        None
    }
}
