//! Where a list of places goes wrong.
ghost use Rattle.std.specs.Prelude.{◌≡◌, ◌≢◌, ℕ, ◌^◌, ◌+◌, ◌<◌, ◌||◌, true, false, IfOk, MatchOption, length, take};
ghost use Rattle.forest_place.specs.Places.{AreWithin, place_in};
ghost use Rattle.forest_model.specs.Cover.{HasShape, is_above};
ghost use Rattle.proof_shape.specs.Found.{AreLow, IsSoundLength, IsFirstEqual, IsFirstCrossing, IsFaultAt, crosses as is_crossing};
ghost use Rattle.proof_shape.specs.Shape.{HasTargetsBy, IsFaultBy};

use crate::ShapeFault;
use crate::locate::locate;
use crate::shape::is_shaped;
use forest_place::{Naming, Place};
use std::alloc::{AllocError, Global};

// How many places from the front have the shape of targets.
fn sound_length(alloc: Global, n: u64, places: &[Place]) -> Result<usize, AllocError>
    requires small { n < 2 ^ 40 }
    requires within { AreWithin n places.now }
    ensures { IfOk result (λ k. IsSoundLength n places.now k) }
{
    if is_shaped(alloc, n, places)? {
        return Ok(places.len());
    }
    let mut sound = 0;
    let mut faulty = places.len();
    while faulty - sound > 1 {
        let middle = sound + (faulty - sound) / 2;
        if is_shaped(alloc, n, &places[..middle])? {
            sound = middle;
        } else {
            faulty = middle;
        }
    }
    Ok(sound)
}

fn stands_above(p: Place, q: Place) -> bool
    requires { p.row < 40 }
    ensures { result ≡ is_above p q }
{
    q.row < p.row && q.off >> (p.row - q.row) == p.off
}

// Whether one of two places stands above the other.
fn crosses(p: Place, q: Place) -> bool
    requires one { p.row < 40 }
    requires other { q.row < 40 }
    ensures { result ≡ is_crossing p q }
{
    stands_above(p, q) || stands_above(q, p)
}

// The first place that equals the one at an index, before that index.
fn first_equal(places: &[Place], i: usize) -> Option<usize>
    requires { i < length places.now }
    ensures { MatchOption result ((k : ℕ) → k < i → place_in places.now k ≢ place_in places.now i) (IsFirstEqual places.now i) }
{
    for j in 0..i {
        if places[j] == places[i] {
            return Some(j);
        }
    }
    None
}

// The first place that stands above or beneath the one at an index. There is one before that index.
fn first_crossing(places: &[Place], i: usize) -> usize
    requires index { i < length places.now }
    requires low { AreLow places.now }
    requires some { ((k : ℕ) → k < i → is_crossing (place_in places.now i) (place_in places.now k) ≡ false) → ⊥ }
    ensures { IsFirstCrossing places.now i result }
{
    for j in 0..i {
        if crosses(places[i], places[j]) {
            return j;
        }
    }
    i
}

// What is wrong with the place at an index, where the places before it have the shape of targets.
fn fault_at(n: u64, places: &[Place], i: usize) -> ShapeFault
    requires small { n < 2 ^ 40 }
    requires within { AreWithin n places.now }
    requires few { length places.now < 2 ^ 32 }
    requires index { i < length places.now }
    requires sound { HasShape n (take i places.now) }
    requires wrong { HasShape n (take (i + 1) places.now) → ⊥ }
    ensures { IsFaultAt places.now i result }
{
    match first_equal(places, i) {
        Some(j) => ShapeFault::Repeated(i as u32, j as u32),
        None => ShapeFault::Beneath(i as u32, first_crossing(places, i) as u32),
    }
}

// What is wrong with numbers that are not those of targets.
pub(crate) fn fault_named(
    alloc: Global,
    naming: Naming,
    n: u64,
    numbers: &[u64],
) -> Result<ShapeFault, AllocError>
    requires small { n < 2 ^ 40 }
    requires few { length numbers.now < 2 ^ 32 }
    requires none { HasTargetsBy naming n numbers.now → ⊥ }
    ensures { IfOk result (IsFaultBy naming n numbers.now) }
{
    let places = locate(alloc, naming, n, numbers)?;
    let sound = sound_length(alloc, n, &places)?;
    if sound < places.len() {
        Ok(fault_at(n, &places, sound))
    } else {
        Ok(ShapeFault::Outside(sound as u32))
    }
}
