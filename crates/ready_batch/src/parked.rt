ghost use Rattle.std.specs.Prelude.{◌≡◌, ◌⊎◌, ℕ, OnOk, Contains, false};
ghost use Rattle.update_model.specs.declared.update_id.UpdateId.{UpdateId};
ghost use Rattle.update_model.specs.Entry.{same_id};
ghost use Rattle.ready_batch.specs.Steps.{IsParked};

use std::alloc::{AllocError, Global};
use std::collections::BTreeMap;
use update_model::UpdateId;

/// Notes a place under an id.
pub fn park(
    alloc: Global,
    parked: &mut BTreeMap<UpdateId, Vec<usize>>,
    id: UpdateId,
    place: usize,
) -> Result<(), AllocError>
    ensures noted { OnOk result (IsParked parked.new id place) }
    ensures kept { OnOk result ((q : UpdateId) (i : ℕ) → IsParked parked.old q i → IsParked parked.new q i) }
{
    let mut places = release(alloc, parked, &id);
    places.push(place)?;
    parked.insert(id, places)?;
    Ok(())
}

/// Takes the places that are noted under an id.
pub fn release(
    alloc: Global,
    parked: &mut BTreeMap<UpdateId, Vec<usize>>,
    id: &UpdateId,
) -> Vec<usize>
    ensures { (q : UpdateId) (i : ℕ) → IsParked parked.old q i
        → ((q ≡ id.now) × Contains result.items i) ⊎ ((same_id q id.now ≡ false) × IsParked parked.new q i) }
{
    match parked.remove(id) {
        Some(places) => places,
        None => Vec::new(alloc),
    }
}
