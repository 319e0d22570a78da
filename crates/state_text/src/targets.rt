//! Kept entries as targets.
ghost use Rattle.std.specs.Prelude.{◌≡◌, ◌<◌, ◌^◌, map, IfOk, MatchResult};
ghost use Rattle.forest_place.specs.Places.{AreWithin};
ghost use Rattle.forest_place.specs.Position.{positions_of as numbers_of};
ghost use Rattle.forest_model.specs.Cover.{HasShape};
ghost use Rattle.proof_shape.specs.Shape.{AreTargets, HasTargets};
ghost use Rattle.state_text.specs.Reading.{claims};

use crate::fault::StateFault;
use forest_place::{Place, position};
use proof_shape::Survey;
use std::alloc::Global;
use uo_base::NoMemory;

fn positions_of(alloc: Global, n: u64, places: &[Place]) -> Result<Vec<u64>, NoMemory>
    requires few { n < 2 ^ 40 }
    requires within { AreWithin n places.now }
    ensures { IfOk result (λ positions. positions.items ≡ numbers_of n places.now) }
{
    let mut positions = Vec::with_capacity(alloc, places.len())?;
    for i in 0..places.len() {
        positions.push(position(places[i], n))?;
    }
    Ok(positions)
}

// The targets at these positions, where they have shape.
fn targets_at(alloc: Global, n: u64, positions: &[u64]) -> Result<Survey, StateFault>
    requires { n < 2 ^ 40 }
    ensures { MatchResult result (λ t. (t.leaves ≡ n) × AreTargets n positions.now t.targets) (λ e. claims e (HasTargets n positions.now → ⊥)) }
{
    match Survey::of(alloc, n, positions)? {
        Some(targets) => Ok(targets),
        None => Err(StateFault::NotAState),
    }
}

/// These places as targets, where they have shape.
pub(crate) fn targets_of(alloc: Global, n: u64, places: &[Place]) -> Result<Survey, StateFault>
    requires few { n < 2 ^ 40 }
    requires within { AreWithin n places.now }
    ensures { MatchResult result (λ t. (t.leaves ≡ n) × (t.targets ≡ places.now) × HasShape n places.now)
        (λ e. claims e (HasShape n places.now → ⊥)) }
{
    let positions = positions_of(alloc, n, places)?;
    targets_at(alloc, n, &positions)
}
