//! Ascending positions.
ghost use Rattle.std.specs.Prelude.{◌≡◌, ◌↔◌, ◌^◌, ◌<◌, IfOk, IsTrue, map};
ghost use Rattle.std.specs.List.Sorted.{IsNonDecreasing, IsStrictlyIncreasing, IsPermutation};
ghost use Rattle.forest_place.specs.Places.{AreWithin};
ghost use Rattle.forest_place.specs.Position.{positions_of as numbers_of};
ghost use Rattle.proof_shape.specs.Shape.{has_number};

use forest_place::{Place, position};
use std::alloc::{AllocError, Global};

// Whether a number is in an ascending list.
pub(crate) fn contains(sorted: &[u64], number: u64) -> bool
    requires { IsNonDecreasing sorted.now }
    ensures { result ≡ has_number sorted.now number }
{
    sorted.binary_search(&number).is_ok()
}

// Whether no number of an ascending list is twice in it.
pub(crate) fn rises(sorted: &[u64]) -> bool
    requires { IsNonDecreasing sorted.now }
    ensures { IsTrue result ↔ IsStrictlyIncreasing sorted.now }
{
    let mut i = 1;
    while i < sorted.len() {
        if sorted[i - 1] == sorted[i] {
            return false;
        }
        i += 1;
    }
    true
}

// The positions of places.
pub(crate) fn positions_of(alloc: Global, n: u64, places: &[Place]) -> Result<Vec<u64>, AllocError>
    requires small { n < 2 ^ 40 }
    requires within { AreWithin n places.now }
    ensures { IfOk result (λ v. v.items ≡ numbers_of n places.now) }
{
    let mut positions = Vec::with_capacity(alloc, places.len())?;
    for place in places {
        positions.push(position(*place, n))?;
    }
    Ok(positions)
}

// The positions of places in ascending order.
pub(crate) fn sorted_positions(
    alloc: Global,
    n: u64,
    places: &[Place],
) -> Result<Vec<u64>, AllocError>
    requires small { n < 2 ^ 40 }
    requires within { AreWithin n places.now }
    ensures sorted { IfOk result (λ v. IsNonDecreasing v.items) }
    ensures same { IfOk result (λ v. IsPermutation (numbers_of n places.now) v.items) }
{
    let mut positions = positions_of(alloc, n, places)?;
    positions.sort_unstable();
    Ok(positions)
}
