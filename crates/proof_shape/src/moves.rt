//! Where places move.
ghost use Rattle.std.specs.Prelude.{◌≡◌, List, ◌^◌, ◌+◌, ◌<◌, ◌≤◌, Some, IfSome};
ghost use Rattle.std.specs.List.Sorted.{IsNonDecreasing};
ghost use Rattle.forest_place.specs.declared.place.Place.{Place as Placed};
ghost use Rattle.forest_place.specs.Forest.{InForest};
ghost use Rattle.forest_model.specs.Deletion.{moved, child_place};
ghost use Rattle.proof_shape.specs.Moves.{gone_by, GoneTell};

use crate::cover::above;
use crate::order::contains;
use forest_place::{Place, child, position, sibling, side};

// Whether a place is gone, by the places at and above targets, and those at and above needed places.
fn is_gone(n: u64, covered: &[u64], kept: &[u64], place: Place) -> bool
    requires small { n < 2 ^ 40 }
    requires within { InForest n place.row place.off }
    requires covered { IsNonDecreasing covered.now }
    requires kept { IsNonDecreasing kept.now }
    ensures { result ≡ gone_by n covered.now kept.now place.row place.off }
{
    let number = position(place, n);
    contains(covered, number) && !contains(kept, number)
}

/// Where a child moves whose parent moves to a place: to that place where it is the only child that stays, else to the child
/// of that place at its side, which is 0 for the left one and 1 for the right one.
pub fn child_of(n: u64, goes: Place, alone: bool, side: u64) -> Place
    requires small { n < 2 ^ 40 }
    requires within { InForest n goes.row goes.off }
    requires row { 0 < goes.row }
    requires side { side < 2 }
    ensures is { Some result ≡ child_place alone side (Some goes) }
    ensures within { InForest n result.row result.off }
    ensures row { goes.row ≤ result.row + 1 }
{
    if alone { goes } else { child(goes, side) }
}

// Where a place moves. `None` where it is gone or beneath a target.
pub(crate) fn moved_from(n: u64, covered: &[u64], kept: &[u64], place: Place) -> Option<Place>
    requires small { n < 2 ^ 40 }
    requires within { InForest n place.row place.off }
    requires covered { IsNonDecreasing covered.now }
    requires kept { IsNonDecreasing kept.now }
    ensures is { (ts : List Placed) → GoneTell n ts covered.now kept.now → result ≡ moved n ts place.row place.off }
    ensures within { IfSome result (λ q. InForest n q.row q.off × (place.row ≤ q.row)) }
{
    if is_gone(n, covered, kept, place) {
        return None;
    }
    let Some(next) = above(n, place) else {
        return Some(place);
    };
    match moved_from(n, covered, kept, next) {
        Some(goes) => {
            let alone = is_gone(n, covered, kept, sibling(place));
            Some(child_of(n, goes, alone, side(place)))
        }
        None => None,
    }
}
