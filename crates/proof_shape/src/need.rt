//! The places whose digests a proof has to give.
ghost use Rattle.std.specs.Prelude.{◌≡◌, ◌↔◌, ◌^◌, ◌<◌, IfOk, IsTrue, length};
ghost use Rattle.forest_place.specs.Places.{AreWithin, place_in, IsNear};
ghost use Rattle.proof_shape.specs.Survey.{Rises, needed_beside as needed_near, needed_of as needed_in};

use forest_place::{Place, is_near, is_root, sibling};
use std::alloc::{AllocError, Global};

// The sibling of the covered place at an index, where it is needed.
fn needed_beside(n: u64, covered: &[Place], m: usize) -> Option<Place>
    requires small { n < 2 ^ 40 }
    requires within { AreWithin n covered.now }
    requires rises { Rises n covered.now }
    requires index { m < length covered.now }
    ensures { result ≡ needed_near n covered.now (place_in covered.now m) }
{
    let place = covered[m];
    if is_root(n, place) {
        return None;
    }
    let beside = sibling(place);
    if is_near(covered, m, beside) {
        None
    } else {
        Some(beside)
    }
}

// How many siblings are needed beside all covered places.
pub(crate) fn needed_count(n: u64, covered: &[Place]) -> usize
    requires small { n < 2 ^ 40 }
    requires within { AreWithin n covered.now }
    requires rises { Rises n covered.now }
    ensures { result ≡ length (needed_in n covered.now) }
{
    let mut count = 0;
    for i in 0..covered.len() {
        if needed_beside(n, covered, i).is_some() {
            count += 1;
        }
    }
    count
}

// The siblings that are needed beside all covered places, where there are so many.
pub(crate) fn needed_of(
    alloc: Global,
    n: u64,
    covered: &[Place],
    count: usize,
) -> Result<Vec<Place>, AllocError>
    requires small { n < 2 ^ 40 }
    requires within { AreWithin n covered.now }
    requires rises { Rises n covered.now }
    requires count { count ≡ length (needed_in n covered.now) }
    ensures { IfOk result (λ v. v.items ≡ needed_in n covered.now) }
{
    let mut needed = Vec::with_capacity(alloc, count)?;
    for m in 0..covered.len() {
        if let Some(place) = needed_beside(n, covered, m) {
            needed.push(place)?;
        }
    }
    Ok(needed)
}
