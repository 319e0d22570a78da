//! What is gone after a deletion, and where the covered places that stay go.
ghost use Rattle.std.specs.Prelude.{◌≡◌, ℕ, ◌+◌, ◌^◌, ◌<◌, ◌≤◌, false, List, Bool, length, set, Some, IfSome, IfOk};
ghost use Rattle.forest_place.specs.declared.place.Place.{Place as Placed};
ghost use Rattle.forest_place.specs.Forest.{InForest};
ghost use Rattle.forest_place.specs.Places.{place_in, AreWithin};
ghost use Rattle.forest_model.specs.Deletion.{child_place};
ghost use Rattle.proof_shape.specs.Survey.{is_top, Rises};
ghost use Rattle.proof_verify.specs.Destinations.{is_half_gone, is_source_gone, is_other_half_gone, IsHalfBefore, IsBefore, AreBefore};
ghost use Rattle.proof_verify.specs.Destinations.{AreMarked, AreDestinations};
ghost use Rattle.proof_verify.specs.PlaceSources.{AreLinked};

use crate::place_source::{Half, PlaceSource};
use forest_place::{Place, is_root, side};
use proof_shape::child_of;
use std::alloc::{AllocError, Global};

fn is_gone(gone: &[bool], half: Half) -> bool
    requires { IsHalfBefore (length gone.now) half }
    ensures { result ≡ is_half_gone gone.now half }
{
    match half {
        Half::Covered(i) => gone[i],
        Half::Needed(_) => false,
    }
}

fn are_gone(gone: &[bool], source: PlaceSource) -> bool
    requires { IsBefore (length gone.now) source }
    ensures { result ≡ is_source_gone gone.now source }
{
    match source {
        PlaceSource::Target(_) => true,
        PlaceSource::Halves(left, right) => is_gone(gone, left) && is_gone(gone, right),
    }
}

// Marks the covered places that are gone.
fn mark_gone(sources: &[PlaceSource], gone: &mut [bool])
    requires before { AreBefore sources.now }
    requires long { length gone.old ≡ length sources.now }
    ensures { AreMarked sources.now (length sources.now) gone.new }
{
    for i in 0..sources.len() {
        gone[i] = are_gone(gone, sources[i]);
    }
}

// Whether the other half of a place is gone than the one at a side.
fn is_other_gone(gone: &[bool], source: PlaceSource, side: u64) -> bool
    requires { IsBefore (length gone.now) source }
    ensures { result ≡ is_other_half_gone gone.now source side }
{
    match source {
        PlaceSource::Target(_) => false,
        PlaceSource::Halves(left, right) => is_gone(gone, if side == 0 { right } else { left }),
    }
}

// Where a place that is no root goes, by where the place above it goes.
fn destination_beneath(n: u64, above: Option<Place>, alone: bool, side: u64) -> Option<Place>
    requires small { n < 2 ^ 40 }
    requires within { IfSome above (λ q. InForest n q.row q.off × (0 < q.row)) }
    requires side { side < 2 }
    ensures is { result ≡ child_place alone side above }
    ensures within { IfSome result (λ q. InForest n q.row q.off × ((p : Placed) → above ≡ Some p → p.row ≤ q.row + 1)) }
{
    match above {
        Some(to) => Some(child_of(n, to, alone, side)),
        None => None,
    }
}

// Puts where a place goes, part by part: a whole place takes the gap behind its row along, and that through memory, for which the processor waits.
fn put(destinations: &mut [Option<Place>], i: usize, to: Option<Place>)
    requires { i < length destinations.old }
    ensures { destinations.new ≡ set destinations.old i to }
{
    match to {
        Some(Place { row, off }) => destinations[i] = Some(Place { row, off }),
        None => destinations[i] = None,
    }
}

// Where each covered place goes, from the roots downwards. None where it is gone.
fn fill_destinations(
    n: u64,
    covered: &[Place],
    sources: &[PlaceSource],
    parents: &[usize],
    gone: &[bool],
    destinations: &mut [Option<Place>],
)
    requires small { n < 2 ^ 40 }
    requires within { AreWithin n covered.now }
    requires rises { Rises n covered.now }
    requires sources { length sources.now ≡ length covered.now }
    requires parents { length parents.now ≡ length covered.now }
    requires gone { length gone.now ≡ length covered.now }
    requires destinations { length destinations.old ≡ length covered.now }
    requires linked { AreLinked n covered.now sources.now parents.now }
    ensures { AreDestinations n covered.now sources.now parents.now gone.now 0 destinations.new }
{
    let mut i = covered.len();
    while i > 0 {
        i -= 1;
        let place = covered[i];
        let to = if gone[i] {
            None
        } else if is_root(n, place) {
            Some(place)
        } else {
            let side = side(place);
            let above = parents[i];
            let alone = is_other_gone(gone, sources[above], side);
            destination_beneath(n, destinations[above], alone, side)
        };
        put(destinations, i, to);
    }
}

// Which covered places are gone.
fn gone_of(alloc: Global, sources: &[PlaceSource]) -> Result<Vec<bool>, AllocError>
    requires { AreBefore sources.now }
    ensures { IfOk result (λ v. AreMarked sources.now (length sources.now) v.items) }
{
    let mut gone = vec![in alloc; false; sources.len()]?;
    mark_gone(sources, &mut gone);
    Ok(gone)
}

// Where each covered place goes. None where it is gone.
pub(crate) fn destinations_of(
    alloc: Global,
    n: u64,
    covered: &[Place],
    sources: &[PlaceSource],
    parents: &[usize],
) -> Result<Vec<Option<Place>>, AllocError>
    requires small { n < 2 ^ 40 }
    requires within { AreWithin n covered.now }
    requires rises { Rises n covered.now }
    requires sources { length sources.now ≡ length covered.now }
    requires parents { length parents.now ≡ length covered.now }
    requires before { AreBefore sources.now }
    requires linked { AreLinked n covered.now sources.now parents.now }
    ensures { IfOk result (λ v. (gone : List Bool) × AreMarked sources.now (length sources.now) gone
        × AreDestinations n covered.now sources.now parents.now gone 0 v.items) }
{
    let gone = gone_of(alloc, sources)?;
    let mut destinations = vec![in alloc; None; covered.len()]?;
    fill_destinations(n, covered, sources, parents, &gone, &mut destinations);
    Ok(destinations)
}
