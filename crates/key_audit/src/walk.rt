//! What is found under each index of each key, in one walk over updates.

ghost use Rattle.std.specs.Prelude.{◌≡◌, List, Some, None, IfOk, OnOk, option_map, filter, if◌then◌else◌};
ghost use Rattle.std.specs.BTreeMap.{get};
ghost use Rattle.key_audit.specs.Pairs.{is_less, lesser, noted, pair_after, same_message};
ghost use Rattle.key_audit.specs.Walk.{is_by, one_time_cmp, pair_data};
ghost use Rattle.key_audit.specs.declared.one_time.OneTime.{OneTime as Name};

use crate::one_time::{OneTime, one_time_of};
use crate::reading::message_of;
use std::alloc::{AllocError, Global};
use std::cmp::Ordering;
use std::collections::BTreeMap;
use update_check::{Checked, Holder};
use update_model::Member;

/// Of the updates by a one-time key the one with the least id, and the one with the least id of those that say
/// something else.
#[derive(Drop)]
pub struct Pair<'a> {
    /// The least update.
    pub first: &'a Checked,
    /// The least of those whose message is not that of the first, where there are any.
    pub second: Option<&'a Checked>,
}

/// What is found of a holder's updates under each one-time key.
pub fn find_pairs<H: Holder>(
    alloc: Global,
    holder: &H,
) -> Result<BTreeMap<OneTime, Pair>, AllocError>
    ensures { IfOk result (λ found. (key : Name)
        → option_map pair_data (get one_time_cmp found key) ≡ pair_after None
        (filter (is_by key) (H.members holder.now))) }
{
    let mut found = BTreeMap::new(alloc);
    for position in 0..holder.len() {
        note(&mut found, holder.update_at(position))?;
    }
    Ok(found)
}

/// Takes one more update into account.
fn note<'a>(found: &mut BTreeMap<OneTime, Pair<'a>>, update: &'a Checked) -> Result<(), AllocError>
    ensures { OnOk result ((key : Name)
        → option_map pair_data (get one_time_cmp found.new key)
        ≡ (if is_by key update.now
        then Some (noted (option_map pair_data (get one_time_cmp found.old key)) update.now)
        else option_map pair_data (get one_time_cmp found.old key))) }
{
    let key = one_time_of(update);
    let pair = pair_with(found, &key, update);
    match found.insert(key, pair) {
        Ok(_) => Ok(()),
        Err(_) => Err(AllocError),
    }
}

/// The pair under a one-time key once one more update was seen.
fn pair_with<'a>(
    found: &BTreeMap<OneTime, Pair<'a>>,
    key: &OneTime,
    update: &'a Checked,
) -> Pair<'a>
    ensures { pair_data result ≡ noted (option_map pair_data (get one_time_cmp found.now key.now)) update.now }
{
    match found.get(key) {
        Some(before) => next_pair(before, update),
        None => Pair {
            first: update,
            second: None,
        },
    }
}

/// A pair once one more update was seen.
fn next_pair<'a>(pair: &Pair<'a>, update: &'a Checked) -> Pair<'a>
    ensures { pair_data result ≡ noted (Some (pair_data pair.now)) update.now }
{
    let same = same_message(update, pair.first);
    if is_less(update, pair.first) {
        return Pair {
            first: update,
            second: if same { pair.second } else { Some(pair.first) },
        };
    }
    Pair {
        first: pair.first,
        second: if same {
            pair.second
        } else {
            Some(lesser(pair.second, update))
        },
    }
}

/// The lesser of two updates by their ids.
fn lesser<'a>(before: Option<&'a Checked>, update: &'a Checked) -> &'a Checked
    ensures { result.now ≡ lesser (option_map (λ b. b.now) before.entry) update.now }
{
    match before {
        None => update,
        Some(other) => {
            if is_less(update, other) {
                update
            } else {
                other
            }
        }
    }
}

/// Whether the id of one update is below that of another.
fn is_less(a: &Checked, b: &Checked) -> bool
    ensures { result ≡ is_less a.now b.now }
{
    match a.id().cmp(&b.id()) {
        Ordering::Less => true,
        _ => false,
    }
}

/// Whether two updates have one message.
pub fn same_message(a: &Checked, b: &Checked) -> bool
    ensures { result ≡ same_message a.now b.now }
{
    message_of(a) == message_of(b)
}
