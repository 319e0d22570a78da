//! The covered places: the targets and all places above them, in ascending order.
ghost use Rattle.std.specs.Prelude.{◌≡◌, ◌^◌, ◌<◌, true, false, IfOk, IsTrue, MatchBool, MatchOption, length};
ghost use Rattle.std.specs.List.Sorted.{IsNonDecreasing};
ghost use Rattle.forest_place.specs.declared.place.Place.{Place as Placed};
ghost use Rattle.forest_place.specs.Forest.{InForest};
ghost use Rattle.forest_place.specs.Places.{AreWithin, up};
ghost use Rattle.proof_shape.specs.Swept.{ArePositions, IsAdded, IsPushed, IsClimbed, ClimbsNext, NumberNext, IsSweep, IsSwept, AreFree};
ghost use Rattle.proof_shape.specs.Survey.{pos, is_top};

use forest_place::{Place, is_root, parent, place_of, position, rows};
use std::alloc::{AllocError, Global};

// Puts a place at the end, unless it stands there already. Whether it was put.
fn push_new(places: &mut Vec<Place>, place: Place) -> Result<bool, AllocError>
    ensures pushed { IfOk result (λ new. IsPushed places.old.items place places.new.items) }
    ensures added { IfOk result (λ new. MatchBool new (IsAdded places.old.items place places.new.items) (Unit {0})) }
{
    let len = places.len();
    if len > 0 && places[len - 1] == place {
        return Ok(false);
    }
    places.push(place)?;
    Ok(true)
}

// The place above one, unless that is a slot's root.
pub(crate) fn above(n: u64, place: Place) -> Option<Place>
    requires small { n < 2 ^ 40 }
    requires within { InForest n place.row place.off }
    ensures { MatchOption result (is_top n place ≡ true) (λ q. (is_top n place ≡ false) × (q ≡ up place) × InForest n q.row q.off) }
{
    if is_root(n, place) {
        None
    } else {
        Some(parent(place))
    }
}

// Puts the place above the one at an index at the end. Whether it was put.
fn push_parent(n: u64, places: &mut Vec<Place>, k: usize) -> Result<bool, AllocError>
    requires small { n < 2 ^ 40 }
    requires within { AreWithin n places.old.items }
    requires index { k < length places.old.items }
    ensures { IfOk result (λ new. IsClimbed n places.old.items k places.new.items) }
{
    let place = places[k];
    match above(n, place) {
        Some(next) => push_new(places, next),
        None => Ok(false),
    }
}

// The place that has a position.
fn place_at(n: u64, number: u64) -> Place
    requires small { n < 2 ^ 40 }
    requires some { (q : Placed) × InForest n q.row q.off × (pos n q ≡ number) }
    ensures within { InForest n result.row result.off }
    ensures is { pos n result ≡ number }
{
    match place_of(number, n) {
        Some(place) => place,
        None => Place { row: 0, off: 0 },
    }
}

// Whether the place above the one at an index comes next, and not the target at another.
fn climbs_next(n: u64, places: &[Place], k: usize, sorted: &[u64], j: usize) -> bool
    requires small { n < 2 ^ 40 }
    requires within { AreWithin n places.now }
    ensures { MatchBool result (ClimbsNext n places.now k sorted.now j) (NumberNext n places.now k sorted.now j) }
{
    if k >= places.len() {
        return false;
    }
    match above(n, places[k]) {
        Some(next) => j >= sorted.len() || position(next, n) <= sorted[j],
        None => true,
    }
}

/// Room that is taken at once beside that for the places of most lists.
const ROOM: usize = 40;

// For how many places memory is taken at once, where there are so many targets in a forest of so many rows. Of targets that are
// spread over it the lowest places above each are its own, up to where there are fewer places in a row than targets.
fn room_for(rows: u8, targets: usize) -> usize {
    if targets == 0 {
        return 0;
    }
    let own = (rows as usize + 2).saturating_sub(targets.ilog2() as usize);
    targets.saturating_mul(own).saturating_add(ROOM)
}

// All places at these positions and above them. Where the answer is true, no position is twice among these, or above another.
pub(crate) fn cover_of(
    alloc: Global,
    n: u64,
    sorted: &[u64],
) -> Result<(Vec<Place>, bool), AllocError>
    requires small { n < 2 ^ 40 }
    requires sorted { IsNonDecreasing sorted.now }
    requires places { ArePositions n sorted.now }
    ensures swept { IfOk result (λ v. IsSwept n sorted.now v.0.items) }
    ensures free { IfOk result (λ v. IsTrue v.1 → AreFree n sorted.now v.0.items (length sorted.now)) }
{
    let mut covered = Vec::with_capacity(alloc, room_for(rows(n), sorted.len()))?;
    let mut free = true;
    let mut k = 0;
    let mut j = 0;
    while k < covered.len() || j < sorted.len() {
        if climbs_next(n, &covered, k, sorted, j) {
            push_parent(n, &mut covered, k)?;
            k += 1;
        } else {
            let fresh = push_new(&mut covered, place_at(n, sorted[j]))?;
            free &= fresh;
            j += 1;
        }
    }
    Ok((covered, free))
}
