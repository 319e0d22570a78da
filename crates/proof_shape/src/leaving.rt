//! What tells which places are gone.
ghost use Rattle.std.specs.Prelude.{◌≡◌, ◌⊎◌, ◌^◌, ◌<◌, ℕ, true, false, IfOk, MatchBool};
ghost use Rattle.std.specs.List.Sorted.{IsNonDecreasing, IsStrictlyIncreasing, IsPermutation};
ghost use Rattle.forest_place.specs.Places.{AreWithin};
ghost use Rattle.forest_place.specs.Position.{positions_of as numbers_of};
ghost use Rattle.forest_model.specs.Cover.{HasShape, need};
ghost use Rattle.proof_shape.specs.Shape.{has_number};
ghost use Rattle.proof_shape.specs.Moves.{HasNeighbours, AreApart, HasAll, HasPart, TellGone, CoversTell};
ghost use Rattle.proof_shape.specs.Swept.{ArePositions};

use crate::sweep::{covered_positions, parents_of};
use forest_place::Place;
use std::alloc::{AllocError, Global};

// Whether a number of an ascending list is right behind another of it.
fn have_neighbours(sorted: &[u64]) -> bool
    requires { IsNonDecreasing sorted.now }
    ensures { MatchBool result (HasNeighbours sorted.now) (AreApart sorted.now) }
{
    let mut i = 1;
    while i < sorted.len() {
        if sorted[i] - sorted[i - 1] == 1 {
            return true;
        }
        i += 1;
    }
    false
}

// Two lists of positions: the places that are gone are those of the first which are not of the second. Where no two
// targets, whose positions are given in ascending order, stand side by side, nothing is gone but them. Else it is what is covered, unless something
// is needed beneath.
pub(crate) fn gone_among(
    alloc: Global,
    n: u64,
    targets: &[Place],
    sorted: Vec<u64>,
    covered: &[u64],
    needed: &[Place],
) -> Result<(Vec<u64>, Vec<u64>), AllocError>
    requires small { n < 2 ^ 40 }
    requires within { AreWithin n targets.now }
    requires shape { HasShape n targets.now }
    requires sorted { IsNonDecreasing sorted.items }
    requires same { IsPermutation (numbers_of n targets.now) sorted.items }
    requires rises { IsStrictlyIncreasing covered.now }
    requires places { ArePositions n covered.now }
    requires tell { CoversTell n targets.now covered.now }
    requires needed { needed.now ≡ need n targets.now }
    ensures { IfOk result (λ v. TellGone n targets.now v.0.items v.1.items) }
{
    if have_neighbours(&sorted) {
        let above = parents_of(alloc, n, needed)?;
        let kept = covered_positions(alloc, n, &above)?;
        Ok((Vec::from_slice(alloc, covered)?, kept))
    } else {
        Ok((sorted, Vec::new(alloc)))
    }
}

// The last number of an ascending list that a part of it lacks, and 0 where it lacks none.
pub(crate) fn last_gone(covered: &[u64], kept: &[u64]) -> u64
    requires { HasPart covered.now kept.now }
    ensures lacked { ((has_number covered.now result ≡ true) × (has_number kept.now result ≡ false)) ⊎ (HasAll kept.now covered.now × (result ≡ 0)) }
    ensures past { (number : ℕ) → result < number → has_number covered.now number ≡ true → has_number kept.now number ≡ true }
{
    let mut i = covered.len();
    let mut j = kept.len();
    while i > 0 && j > 0 && covered[i - 1] == kept[j - 1] {
        i -= 1;
        j -= 1;
    }
    if i == 0 { 0 } else { covered[i - 1] }
}
