//! The places at and above others, from one sweep.
ghost use Rattle.std.specs.Prelude.{◌≡◌, ◌^◌, ◌<◌, IfOk, IsTrue, map};
ghost use Rattle.std.specs.List.Sorted.{IsNonDecreasing, IsStrictlyIncreasing, IsPermutation};
ghost use Rattle.forest_place.specs.Places.{AreWithin, up};
ghost use Rattle.forest_place.specs.Position.{positions_of as numbers_of};
ghost use Rattle.forest_model.specs.Cover.{HasShape};
ghost use Rattle.proof_shape.specs.Moves.{CoversTell};
ghost use Rattle.proof_shape.specs.Survey.{IsCoverOf};
ghost use Rattle.proof_shape.specs.Swept.{ArePositions};

use crate::cover::cover_of;
use crate::order::{positions_of, sorted_positions};
use forest_place::{Place, parent};
use std::alloc::{AllocError, Global};

// The places at and above these, whose positions are given in ascending order. Where the answer is true, these have the shape
// of targets.
pub(crate) fn covered_places(
    alloc: Global,
    n: u64,
    places: &[Place],
    sorted: &[u64],
) -> Result<(Vec<Place>, bool), AllocError>
    requires small { n < 2 ^ 40 }
    requires within { AreWithin n places.now }
    requires sorted { IsNonDecreasing sorted.now }
    requires same { IsPermutation (numbers_of n places.now) sorted.now }
    ensures covered { IfOk result (λ v. IsCoverOf n places.now v.0.items) }
    ensures shape { IfOk result (λ v. IsTrue v.1 → HasShape n places.now) }
{
    let (covered, free) = cover_of(alloc, n, sorted)?;
    Ok((covered, free))
}

// The positions of the places at and above these.
pub(crate) fn covered_positions(
    alloc: Global,
    n: u64,
    places: &[Place],
) -> Result<Vec<u64>, AllocError>
    requires small { n < 2 ^ 40 }
    requires within { AreWithin n places.now }
    ensures rises { IfOk result (λ v. IsStrictlyIncreasing v.items) }
    ensures places { IfOk result (λ v. ArePositions n v.items) }
    ensures tell { IfOk result (λ v. CoversTell n places.now v.items) }
{
    let sorted = sorted_positions(alloc, n, places)?;
    let (covered, _) = covered_places(alloc, n, places, &sorted)?;
    positions_of(alloc, n, &covered)
}

// The places right above these.
pub(crate) fn parents_of(alloc: Global, n: u64, places: &[Place]) -> Result<Vec<Place>, AllocError>
    requires small { n < 2 ^ 40 }
    requires within { AreWithin n places.now }
    ensures { IfOk result (λ v. v.items ≡ map up places.now) }
{
    let mut parents = Vec::with_capacity(alloc, places.len())?;
    for place in places {
        parents.push(parent(*place))?;
    }
    Ok(parents)
}
