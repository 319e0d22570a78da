//! Whether places have the shape of targets.
ghost use Rattle.std.specs.Prelude.{◌↔◌, ◌^◌, ◌<◌, IfOk, IsTrue};
ghost use Rattle.forest_place.specs.Places.{AreWithin};
ghost use Rattle.forest_model.specs.Cover.{HasShape};

use crate::above::are_apart;
use crate::order::{rises, sorted_positions};
use forest_place::Place;
use std::alloc::{AllocError, Global};

// Whether no two of the places are equal, and none stands above another.
pub(crate) fn is_shaped(alloc: Global, n: u64, places: &[Place]) -> Result<bool, AllocError>
    requires small { n < 2 ^ 40 }
    requires within { AreWithin n places.now }
    ensures { IfOk result (λ b. IsTrue b ↔ HasShape n places.now) }
{
    let sorted = sorted_positions(alloc, n, places)?;
    Ok(rises(&sorted) && are_apart(n, places, &sorted))
}
