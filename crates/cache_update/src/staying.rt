//! Which places are seen to stay where they are, or to go with the place above them: neither they nor their siblings go. Each search begins
//! where another one ended.
ghost use Rattle.std.specs.Prelude.{◌≡◌, ◌<◌, ◌≤◌, ◌^◌, false, length};
ghost use Rattle.std.specs.Bool.{OnTrue, OnFalse};
ghost use Rattle.forest_place.specs.Forest.{InForest};
ghost use Rattle.forest_place.specs.Places.{place_in};
ghost use Rattle.forest_model.specs.Deletion.{is_gone};
ghost use Rattle.cache_update.specs.DeletionGoals.{BothStay, GoesWith, HasSibling, StandsBeneath};

use crate::known::covered_near;
use cache_model::is_same;
use forest_place::{Place, is_root, parent, sibling};
use proof_shape::Targets;

// Where the searches for one place ended, and those for the next one begin: of the place above it, of the place itself, and of the
// first leaf beneath it.
#[derive(Clone, Copy)]
pub(crate) struct Near {
    pub(crate) above: usize,
    pub(crate) here: usize,
    pub(crate) needed: usize,
}

// Whether the place is a leaf before an offset.
fn is_leaf_before(place: Place, off: u64) -> bool {
    place.row == 0 && place.off < off
}

// From an index back to where no leaf before the offset comes next.
fn leaf_back(needed: &[Place], near: usize, off: u64) -> usize {
    let mut at = near.min(needed.len());
    while at > 0 {
        if is_leaf_before(needed[at - 1], off) {
            return at;
        }
        at -= 1;
    }
    at
}

// How many needed leaves come before an offset, sought from an index on.
fn leaf_near(needed: &[Place], near: usize, off: u64) -> usize {
    let mut at = leaf_back(needed, near, off);
    while at < needed.len() {
        if !is_leaf_before(needed[at], off) {
            return at;
        }
        at += 1;
    }
    at
}

// Whether what stands at the index is beneath the place.
fn is_beneath(needed: &[Place], at: usize, place: Place) -> bool
    requires { place.row ≤ 40 }
    ensures { OnTrue result ((at < length needed.now) × StandsBeneath (place_in needed.now at) place) }
{
    if at >= needed.len() {
        return false;
    }
    let other = needed[at];
    other.row < place.row && other.off >> (place.row - other.row) == place.off
}

// The first leaf beneath the place.
fn first_leaf(n: u64, place: Place) -> u64
    requires small { n < 2 ^ 40 }
    requires within { InForest n place.row place.off }
    ensures { place.row ≤ 40 }
{
    place.off << place.row
}

// Whether the place is seen to stay: something beneath it is needed, or no target stands at or beneath it.
fn stays(targets: &Targets, near: Near, place: Place) -> (bool, Near)
    requires { InForest targets.now.leaves place.row place.off }
    ensures { OnTrue result.0 (is_gone targets.now.targets place.row place.off ≡ false) }
{
    let off = first_leaf(targets.leaves(), place);
    let needed = leaf_near(targets.needed(), near.needed, off);
    if is_beneath(targets.needed(), needed, place) {
        return (true, Near { needed, ..near });
    }
    let sought = covered_near(targets.survey(), near.here, place);
    let here = sought.1;
    (
        !sought.0,
        Near {
            needed,
            here,
            ..near
        },
    )
}

// Whether a target stands at or beneath the place above one. If not, neither the place nor its sibling goes.
fn covered_above(targets: &Targets, near: usize, place: Place) -> (bool, usize)
    requires { HasSibling targets.now.leaves place }
    ensures { OnFalse result.0 (BothStay targets.now.targets place) }
{
    covered_near(targets.survey(), near, parent(place))
}

// Whether the place and its sibling are seen to stay, each by itself.
fn each_stays(targets: &Targets, near: Near, place: Place) -> (bool, Near)
    requires { HasSibling targets.now.leaves place }
    ensures { OnTrue result.0 (BothStay targets.now.targets place) }
{
    let first = stays(targets, near, place);
    let second = stays(targets, first.1, sibling(place));
    (first.0 && second.0, second.1)
}

// Whether the place and its sibling are seen to stay.
fn both_stay(targets: &Targets, near: Near, place: Place) -> (bool, Near)
    requires { HasSibling targets.now.leaves place }
    ensures { OnTrue result.0 (BothStay targets.now.targets place) }
{
    let sought = covered_above(targets, near.above, place);
    let above = sought.1;
    if sought.0 {
        each_stays(targets, Near { above, ..near }, place)
    } else {
        (true, Near { above, ..near })
    }
}

// The place above one, where there is one, and neither the place nor its sibling is seen to go. It is sought from where other searches
// ended; and where the next ones are to begin.
fn staying_above(targets: &Targets, near: Near, place: Place) -> (Option<Place>, Near)
    requires { InForest targets.now.leaves place.row place.off }
    ensures { GoesWith targets.now place result.0 }
{
    if is_root(targets.leaves(), place) {
        return (None, near);
    }
    let next = parent(place);
    let seen = both_stay(targets, near, place);
    if seen.0 {
        (Some(next), seen.1)
    } else {
        (None, seen.1)
    }
}

// The same, where it was told for the last place. What is told for a place is told for its sibling, and so of two it is sought once.
pub(crate) fn staying_beside(
    targets: &Targets,
    near: Near,
    last: Place,
    staying: Option<Place>,
    place: Place,
) -> (Option<Place>, Near)
    requires within { InForest targets.now.leaves place.row place.off }
    requires last { GoesWith targets.now last staying }
    ensures { GoesWith targets.now place result.0 }
{
    if is_root(targets.leaves(), place) {
        return (None, near);
    }
    if is_same(sibling(place), last) {
        return (staying, near);
    }
    staying_above(targets, near, place)
}
