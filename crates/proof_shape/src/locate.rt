//! The places of numbers.
ghost use Rattle.std.specs.Prelude.{◌^◌, ◌<◌, IfOk};
ghost use Rattle.proof_shape.specs.Found.{IsFront};

use forest_place::{Naming, Place};
use std::alloc::{AllocError, Global};

// The places of the numbers before the first that names none of the forest.
pub(crate) fn locate(
    alloc: Global,
    naming: Naming,
    n: u64,
    numbers: &[u64],
) -> Result<Vec<Place>, AllocError>
    requires { n < 2 ^ 40 }
    ensures { IfOk result (λ v. IsFront naming n numbers.now v.items) }
{
    let mut places = Vec::with_capacity(alloc, numbers.len())?;
    for number in numbers {
        match naming.place(*number, n) {
            Some(place) => places.push(place)?,
            None => return Ok(places),
        }
    }
    Ok(places)
}
