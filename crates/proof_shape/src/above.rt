//! Whether places stand above others.
ghost use Rattle.std.specs.Prelude.{◌≡◌, ℕ, ◌↔◌, ◌^◌, ◌<◌, IsTrue, false, true, MatchBool};
ghost use Rattle.std.specs.List.Sorted.{IsNonDecreasing};
ghost use Rattle.forest_place.specs.Forest.{InForest};
ghost use Rattle.forest_place.specs.Places.{has_place, AreWithin};
ghost use Rattle.proof_shape.specs.Shape.{has_number};
ghost use Rattle.proof_shape.specs.Found.{HasOneAbove, HasNoneAbove, IsPast};

use crate::order::contains;
use forest_place::{Place, is_root, parent, position};

// Whether a number is greater than all of an ascending list.
fn is_past(sorted: &[u64], number: u64) -> bool
    requires { IsNonDecreasing sorted.now }
    ensures { IsTrue result → IsPast sorted.now number }
{
    let len = sorted.len();
    len == 0 || sorted[len - 1] < number
}

// Whether a place above this one has a position of the list. Positions rise on the way up.
fn is_beneath_one(n: u64, place: Place, sorted: &[u64]) -> bool
    requires small { n < 2 ^ 40 }
    requires within { InForest n place.row place.off }
    requires sorted { IsNonDecreasing sorted.now }
    ensures { MatchBool result (HasOneAbove n sorted.now place) (HasNoneAbove n sorted.now place) }
{
    let mut above = place;
    while !is_root(n, above) {
        above = parent(above);
        let number = position(above, n);
        if is_past(sorted, number) {
            return false;
        }
        if contains(sorted, number) {
            return true;
        }
    }
    false
}

// Whether none of the places is beneath one that has a position of the list.
pub(crate) fn are_apart(n: u64, places: &[Place], sorted: &[u64]) -> bool
    requires small { n < 2 ^ 40 }
    requires within { AreWithin n places.now }
    requires sorted { IsNonDecreasing sorted.now }
    ensures { IsTrue result ↔ ((r o : ℕ) → has_place places.now r o ≡ true → HasNoneAbove n sorted.now (record { row = r; off = o })) }
{
    for place in places {
        if is_beneath_one(n, *place, sorted) {
            return false;
        }
    }
    true
}
