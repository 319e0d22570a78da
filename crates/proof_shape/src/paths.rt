//! Places that have the shape of targets, with those above them.
ghost use Rattle.std.specs.Prelude.{◌≡◌, ◌↔◌, ◌^◌, ◌<◌, IfOk, IfSome, IsTrue, MatchOption};
ghost use Rattle.forest_place.specs.Places.{AreWithin};
ghost use Rattle.forest_model.specs.Cover.{HasShape};
ghost use Rattle.proof_shape.specs.Moves.{ArePaths};
ghost use Rattle.proof_shape.specs.Shape.{AreTargetsBy, HasTargetsBy};

use crate::locate::locate;
use crate::order::sorted_positions;
use crate::shape::is_shaped;
use crate::sweep::covered_places;
use forest_place::{Naming, Place};
use std::alloc::{AllocError, Global};

// Targets, these and the places above them, and the positions of the targets in ascending order.
#[derive(Drop)]
pub(crate) struct Paths {
    pub targets: Vec<Place>,
    pub covered: Vec<Place>,
    pub sorted: Vec<u64>,
}

// Whether the places have the shape of targets. They have, where that is known.
fn has_shape(alloc: Global, n: u64, places: &[Place], known: bool) -> Result<bool, AllocError>
    requires small { n < 2 ^ 40 }
    requires within { AreWithin n places.now }
    requires known { IsTrue known → HasShape n places.now }
    ensures { IfOk result (λ b. IsTrue b ↔ HasShape n places.now) }
{
    if known {
        return Ok(true);
    }
    is_shaped(alloc, n, places)
}

// The paths of these places, where they have the shape of targets.
fn paths_over(alloc: Global, n: u64, places: Vec<Place>) -> Result<Option<Paths>, AllocError>
    requires small { n < 2 ^ 40 }
    requires within { AreWithin n places.items }
    ensures found { IfOk result (λ found. MatchOption found (HasShape n places.items → ⊥) (λ p. p.targets.items ≡ places.items)) }
    ensures paths { IfOk result (λ found. IfSome found (λ p. ArePaths n p.targets.items p.covered.items p.sorted.items)) }
{
    let sorted = sorted_positions(alloc, n, &places)?;
    let (covered, free) = covered_places(alloc, n, &places, &sorted)?;
    if !has_shape(alloc, n, &places, free)? {
        return Ok(None);
    }
    Ok(Some(Paths {
        targets: places,
        covered,
        sorted,
    }))
}

// The paths of the places that these numbers name, where they name targets.
pub(crate) fn paths_named(
    alloc: Global,
    naming: Naming,
    n: u64,
    numbers: &[u64],
) -> Result<Option<Paths>, AllocError>
    requires { n < 2 ^ 40 }
    ensures found { IfOk result (λ found. MatchOption found (HasTargetsBy naming n numbers.now → ⊥)
        (λ p. AreTargetsBy naming n numbers.now p.targets.items)) }
    ensures paths { IfOk result (λ found. IfSome found (λ p. ArePaths n p.targets.items p.covered.items p.sorted.items)) }
{
    let places = locate(alloc, naming, n, numbers)?;
    if places.len() < numbers.len() {
        return Ok(None);
    }
    paths_over(alloc, n, places)
}
