//! The map from ids beside an ordered map.
use crate::expecting::expect;
use crate::numbers::next;
use proof_rules::IdMap;
use std::alloc::{AllocError, Global};
use std::collections::BTreeMap;

/// An id that is small, or a little larger, or far.
fn some_id(seed: &mut u64) -> u64 {
    let number = next(seed);
    match next(seed) % 4 {
        0 => number % 40,
        1 => number % 3_000,
        2 => u64::MAX - number % 40,
        _ => 1_000_000_000 + number % 40,
    }
}

/// Whether both have the same under an id.
fn agree_at(map: &IdMap<u64>, ordered: &BTreeMap<u64, u64>, id: u64) -> bool {
    match (map.get(id), ordered.get(&id)) {
        (Some(found), Some(wanted)) => *found == *wanted,
        (None, None) => true,
        _ => false,
    }
}

/// Removes or inserts under a random id, and says whether both maps agree there and at another id.
fn agree_behind_turn(
    map: &mut IdMap<u64>,
    ordered: &mut BTreeMap<u64, u64>,
    seed: &mut u64,
    turn: u64,
) -> Result<bool, AllocError> {
    let id = some_id(seed);
    if next(seed) % 3 == 0 {
        map.remove(id);
        ordered.remove(&id);
    } else {
        map.insert(id, turn)?;
        ordered.insert(id, turn)?;
    }
    Ok(agree_at(map, ordered, id) && agree_at(map, ordered, some_id(seed)))
}

/// Whether both maps agree at each of these ids.
fn agree_at_all(map: &IdMap<u64>, ordered: &BTreeMap<u64, u64>, ids: &[u64]) -> bool {
    for id in ids {
        if !agree_at(map, ordered, *id) {
            return false;
        }
    }
    true
}

/// Whether both maps agree at each id of the ordered one.
fn agree_at_keys(map: &IdMap<u64>, ordered: &BTreeMap<u64, u64>) -> bool {
    for id in ordered.keys() {
        if !agree_at(map, ordered, *id) {
            return false;
        }
    }
    true
}

/// The first turn after which the maps disagree.
fn first_fault(
    map: &mut IdMap<u64>,
    ordered: &mut BTreeMap<u64, u64>,
) -> Result<Option<u64>, AllocError> {
    let mut seed = 11u64;
    for turn in 0..6_000u64 {
        if !agree_behind_turn(map, ordered, &mut seed, turn)? {
            return Ok(Some(turn));
        }
    }
    Ok(None)
}

/// Whether the maps agree at each id of the one.
fn agree_at_ids(
    alloc: Global,
    map: &IdMap<u64>,
    ordered: &BTreeMap<u64, u64>,
) -> Result<bool, AllocError> {
    let ids = map.ids(alloc)?;
    Ok(agree_at_all(map, ordered, &ids))
}

/// The first turn after which the maps disagree, and whether they agree at the ids of each then.
fn faults(
    alloc: Global,
    map: &mut IdMap<u64>,
    ordered: &mut BTreeMap<u64, u64>,
) -> Result<String, AllocError> {
    let fault = first_fault(map, ordered)?;
    let at_ids = agree_at_ids(alloc, map, ordered)?;
    let at_keys = agree_at_keys(map, ordered);
    format!(in alloc; "{fault:?} {at_ids} {at_keys}")
}

/// As `faults`, of maps that are empty at first.
fn faults_from_empty(alloc: Global) -> Result<String, AllocError> {
    let mut map = IdMap::new(alloc);
    let mut ordered = BTreeMap::new(alloc);
    faults(alloc, &mut map, &mut ordered)
}

#[test]
fn as_an_ordered_map(rt: HostRuntime) {
    expect(&rt, faults_from_empty(rt.alloc()), "None true true");
}
