//! How many digits tell ids apart.

ghost use Rattle.std.specs.Prelude.{◌≡◌, IfOk, take};
ghost use Rattle.log_texts.specs.Digits.{are_apart, digits_of};
ghost use Rattle.table_text.specs.Names.{id_text};

use graph_drawing::push_short_id;
use std::alloc::{AllocError, Global};
use std::collections::BTreeMap;
use update_model::UpdateId;

/// The least number of digits from 8 to 63 that tells these ids apart, or else 64.
pub(crate) fn digits_of(alloc: Global, ids: &[UpdateId]) -> Result<usize, AllocError>
    ensures { IfOk result (λ digits. digits ≡ digits_of ids.now) }
{
    for digits in 8..64usize {
        if are_apart(alloc, digits, ids)? {
            return Ok(digits);
        }
    }
    Ok(64)
}

/// Whether no two of these ids begin with the same digits, so many.
fn are_apart(alloc: Global, digits: usize, ids: &[UpdateId]) -> Result<bool, AllocError>
    ensures { IfOk result (λ apart. apart ≡ are_apart digits ids.now) }
{
    let mut known: BTreeMap<Vec<u8>, ()> = BTreeMap::new(alloc);
    for position in (0..ids.len()).rev() {
        let start = start_of(alloc, digits, &ids[position])?;
        if known.contains_key(&start) {
            return Ok(false);
        }
        known.insert(start, ())?;
    }
    Ok(true)
}

/// The first digits of an id, so many.
fn start_of(alloc: Global, digits: usize, id: &UpdateId) -> Result<Vec<u8>, AllocError>
    ensures { IfOk result (λ start. start.items ≡ take digits (id_text id.now)) }
{
    let mut start = Vec::new(alloc);
    push_short_id(&mut start, digits, id)?;
    Ok(start)
}
