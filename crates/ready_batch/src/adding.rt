ghost use Rattle.std.specs.Prelude.{◌≡◌, ◌≢◌, ◌⊎◌, ◌<◌, ◌≤◌, ◌++◌, ◌∷◌, [], ℕ, List, Some, None, IfOk, OnOk, Contains};
ghost use Rattle.std.specs.Prelude.{length, map, set};
ghost use Rattle.update_model.specs.Batch.{IsTooMuch, store_limits};
ghost use Rattle.ready_batch.specs.Ready.{AddsReady, IsBehind};
ghost use Rattle.ready_batch.specs.Steps.{AreSlots, AllPlaced, AllStuck, IsAllOf, IsOverSome, KeepsSlots, AddsFrom};
ghost use Rattle.ready_batch.specs.Steps.{kept_of, left_at};

use crate::parked::{park, release};
use crate::tried::{Tried, try_member};
use crate::{AddFault, Candidate};
use hash_graph::Graph;
use std::alloc::{AllocError, Global};
use std::collections::BTreeMap;
use update_model::{MAX_MEMBERS, Member, UpdateId};

/// Adds each member of a batch that can be added in some order, and hands back the rest in the batch's order. A member
/// whose id is held is passed over.
///
/// [`AddFault::Full`] comes only where all of the batch that can be added would pass a limit of the graph, and
/// [`AddFault::Memory`] wherever memory runs out. After either, some of the batch may stand behind what was held.
pub fn add_ready<M: Candidate + Drop>(
    alloc: Global,
    graph: &mut Graph<M>,
    batch: Vec<M>,
) -> Result<Vec<M>, AddFault>
    ensures adds { IfOk result (λ waiting. AddsReady M.entry graph.old batch.items graph.new waiting.items) }
    ensures full { result ≡ Err AddFault.Full → IsTooMuch store_limits (map M.entry graph.old) (map M.entry batch.items) }

    // Whatever it answers, what was held stands in front, so that it can be cut back.
    ensures behind { IsBehind graph.old graph.new }
{
    let wave = all_places(alloc, batch.len())?;
    let mut slots = slots_of(alloc, batch)?;
    add_waves(alloc, graph, &mut slots, wave)?;
    graph.len(); // what was added is within the limits
    Ok(left_over(alloc, graph, slots)?)
}

/// Each place below this one.
fn all_places(alloc: Global, count: usize) -> Result<Vec<usize>, AllocError>
    ensures { IfOk result (λ places. (i : ℕ) → i < count → Contains places.items i) }
{
    let mut places = Vec::new(alloc);
    for place in 0..count {
        places.push(place)?;
    }
    Ok(places)
}

/// A place for each member.
fn slots_of<M: Drop>(alloc: Global, batch: Vec<M>) -> Result<Vec<Option<M>>, AllocError>
    ensures { IfOk result (λ slots. slots.items ≡ map Some batch.items) }
{
    let mut slots = Vec::new(alloc);
    for member in batch {
        slots.push(Some(member))?;
    }
    Ok(slots)
}

/// What is left in its place and is not held.
fn left_over<M: Member + Drop>(
    alloc: Global,
    graph: &Graph<M>,
    slots: Vec<Option<M>>,
) -> Result<Vec<M>, AllocError>
    ensures { IfOk result (λ waiting. waiting.items ≡ kept_of M.entry (map M.entry graph.now) slots.items) }
{
    let mut waiting = Vec::new(alloc);
    for slot in slots {
        if let Some(member) = slot {
            if graph.position(&member.id()).is_none() {
                waiting.push(member)?;
            }
        }
    }
    Ok(waiting)
}

/// Tries these members, and then, wave by wave, those that waited for what was added.
fn add_waves<M: Candidate + Drop>(
    alloc: Global,
    graph: &mut Graph<M>,
    slots: &mut Vec<Option<M>>,
    first: Vec<usize>,
) -> Result<(), AddFault>
    ensures slots { OnOk result (KeepsSlots M.entry graph.old slots.old.items graph.new slots.new.items) }
    ensures from { AddsFrom M.entry graph.old slots.old.items graph.new }
    ensures stuck { OnOk result ((batch : List M) → AreSlots M.entry (map M.entry graph.old) batch slots.old.items
        → IsAllOf first.items batch
        → AllStuck M.entry (map M.entry graph.new) batch slots.new.items) }
    ensures full { result ≡ Err AddFault.Full → IsOverSome M.entry graph.old slots.old.items graph.new }
    ensures behind { IsBehind graph.old graph.new }
{
    let mut parked = BTreeMap::new(alloc);
    let mut wave = first;
    'waves: while !wave.is_empty() {
        wave = add_wave(alloc, graph, slots, &mut parked, &wave)?;
    }
    Ok(())
}

/// Tries these members, and answers those that waited for what was added.
fn add_wave<M: Candidate + Drop>(
    alloc: Global,
    graph: &mut Graph<M>,
    slots: &mut Vec<Option<M>>,
    parked: &mut BTreeMap<UpdateId, Vec<usize>>,
    wave: &[usize],
) -> Result<Vec<usize>, AddFault>
    ensures slots { OnOk result (KeepsSlots M.entry graph.old slots.old.items graph.new slots.new.items) }
    ensures from { AddsFrom M.entry graph.old slots.old.items graph.new }
    ensures placed { IfOk result (λ next. (batch : List M) → AreSlots M.entry (map M.entry graph.old) batch
        slots.old.items
        → AllPlaced M.entry (map M.entry graph.old) batch slots.old.items parked.old wave.now
        → AllPlaced M.entry (map M.entry graph.new) batch slots.new.items parked.new next.items) }
    ensures further { IfOk result (λ next. (next.items ≡ []) ⊎ (length graph.old < length graph.new)) }
    ensures full { result ≡ Err AddFault.Full → IsOverSome M.entry graph.old slots.old.items graph.new }
    ensures behind { IsBehind graph.old graph.new }
    ensures few { OnOk result (length graph.new ≤ MAX_MEMBERS) }
{
    let mut next = Vec::new(alloc);
    'places: for place in wave {
        try_place(alloc, graph, slots, parked, &mut next, *place)?;
    }
    graph.len(); // what was added is within the limits
    Ok(next)
}

/// Tries the member at a place: it is added, or passed over since its id is held, or its place is noted under a
/// predecessor that is not held. What was noted under what is added is to be tried next.
fn try_place<M: Candidate + Drop>(
    alloc: Global,
    graph: &mut Graph<M>,
    slots: &mut Vec<Option<M>>,
    parked: &mut BTreeMap<UpdateId, Vec<usize>>,
    next: &mut Vec<usize>,
    place: usize,
) -> Result<(), AddFault>
    ensures slots { OnOk result (KeepsSlots M.entry graph.old slots.old.items graph.new slots.new.items) }
    ensures from { AddsFrom M.entry graph.old slots.old.items graph.new }
    ensures placed { OnOk result ((batch : List M) (others : List ℕ) → AreSlots M.entry (map M.entry graph.old) batch
        slots.old.items
        → AllPlaced M.entry (map M.entry graph.old) batch slots.old.items parked.old
        ((place ∷ others) ++ next.old.items)
        → AllPlaced M.entry (map M.entry graph.new) batch slots.new.items parked.new (others ++ next.new.items)) }
    ensures further { OnOk result ((next.new.items ≡ next.old.items) ⊎ (length graph.old < length graph.new)) }
    ensures full { result ≡ Err AddFault.Full → IsOverSome M.entry graph.old slots.old.items graph.new }
    ensures behind { IsBehind graph.old graph.new }
{
    let Some(member) = take_left(slots, place) else {
        return Ok(());
    };
    let found = member.found();
    match try_member(graph, member, found)? {
        Tried::Known => Ok(()),
        Tried::Added(id) => {
            let released = release(alloc, parked, &id);
            Ok(next.extend_from_slice(&released)?)
        }
        Tried::Lacks {
            mut member,
            id,
            found,
        } => {
            member.note(found);
            slots[place] = Some(member);
            Ok(park(alloc, parked, id, place)?)
        }
    }
}

/// Takes what is left at a place.
fn take_left<M: Drop>(slots: &mut Vec<Option<M>>, place: usize) -> Option<M>
    ensures left { result ≡ left_at slots.old.items place }
    ensures gone { slots.new.items ≡ set slots.old.items place None }
{
    if place >= slots.len() {
        return None;
    }
    slots[place].take()
}
