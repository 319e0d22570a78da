//! The new places of what stays above the targets.
ghost use Rattle.std.specs.Prelude.{◌≡◌, ℕ, ◌^◌, ◌<◌, length, Some, IfSome, IfOk, MatchOption};
ghost use Rattle.std.specs.List.Sorted.{IsNonDecreasingBy};
ghost use Rattle.forest_place.specs.declared.place.Place.{Place as Placed};
ghost use Rattle.forest_place.specs.Forest.{InForest};
ghost use Rattle.proof_verify.specs.Destinations.{destination_at};
ghost use Rattle.proof_verify.specs.NewPlaces.{numbered_place, IsInner, AreFoundPlaces, AreFirst, AreNew};
ghost use Rattle.proof_verify.specs.declared.new_place.NewPlace.{NewPlace as NewlyPlaced};

use crate::place_source::PlaceSource;
use forest_place::{Place, position};
use std::alloc::{AllocError, Global};

// A new place, its position, and the index of a covered place that goes there.
#[derive(Clone, Copy)]
pub(crate) struct NewPlace {
    pub number: u64,
    pub place: Place,
    pub from: usize,
}

// Where a covered place goes, unless it is a target or gone.
fn new_place_of(
    n: u64,
    source: &PlaceSource,
    destination: &Option<Place>,
    from: usize,
) -> Option<NewPlace>
    requires small { n < 2 ^ 40 }
    requires within { IfSome destination.now (λ q. InForest n q.row q.off) }
    ensures { MatchOption result ((q : Placed) → IsInner source.now → destination.now ≡ Some q → ⊥) (λ l. IsInner source.now
        × (destination.now ≡ Some l.place) × (l ≡ numbered_place n l.place from)) }
{
    match source {
        PlaceSource::Target(_) => None,
        PlaceSource::Halves(_, _) => match destination {
            // Part by part, without the gap behind the row.
            Some(Place { row, off }) => {
                let place = Place {
                    row: *row,
                    off: *off,
                };
                Some(NewPlace {
                    number: position(place, n),
                    place,
                    from,
                })
            }
            None => None,
        },
    }
}

// Where the covered places go that are no targets.
fn all_new_places(
    alloc: Global,
    n: u64,
    sources: &[PlaceSource],
    destinations: &[Option<Place>],
) -> Result<Vec<NewPlace>, AllocError>
    requires small { n < 2 ^ 40 }
    requires long { length destinations.now ≡ length sources.now }
    requires within { (i : ℕ) (q : Placed) → i < length sources.now → destination_at destinations.now i ≡ Some q → InForest n q.row q.off }
    ensures { IfOk result (λ v. AreFoundPlaces n sources.now destinations.now (length sources.now) v.items) }
{
    let mut new_places = Vec::with_capacity(alloc, sources.len())?;
    for from in 0..sources.len() {
        if let Some(new_place) = new_place_of(n, &sources[from], &destinations[from], from) {
            new_places.push(new_place)?;
        }
    }
    Ok(new_places)
}

// The same in ascending position.
fn sorted_new_places(
    alloc: Global,
    n: u64,
    sources: &[PlaceSource],
    destinations: &[Option<Place>],
) -> Result<Vec<NewPlace>, AllocError>
    requires small { n < 2 ^ 40 }
    requires long { length destinations.now ≡ length sources.now }
    requires within { (i : ℕ) (q : Placed) → i < length sources.now → destination_at destinations.now i ≡ Some q → InForest n q.row q.off }
    ensures new_places { IfOk result (λ v. AreFoundPlaces n sources.now destinations.now (length sources.now) v.items) }
    ensures sorted { IfOk result (λ v. IsNonDecreasingBy (λ (l : NewlyPlaced). l.number) v.items) }
{
    let mut new_places = all_new_places(alloc, n, sources, destinations)?;
    new_places.sort_by_key(|new_place| new_place.number)?;
    Ok(new_places)
}

// The first at each place.
fn first_new_places(alloc: Global, new_places: &[NewPlace]) -> Result<Vec<NewPlace>, AllocError>
    requires { IsNonDecreasingBy (λ (l : NewlyPlaced). l.number) new_places.now }
    ensures { IfOk result (λ v. AreFirst new_places.now (length new_places.now) v.items) }
{
    let mut firsts = Vec::with_capacity(alloc, new_places.len())?;
    for i in 0..new_places.len() {
        if i == 0 || new_places[i - 1].number < new_places[i].number {
            firsts.push(new_places[i])?;
        }
    }
    Ok(firsts)
}

// The new places of the covered places that are no targets, in ascending position and each once.
pub(crate) fn new_places_of(
    alloc: Global,
    n: u64,
    sources: &[PlaceSource],
    destinations: &[Option<Place>],
) -> Result<Vec<NewPlace>, AllocError>
    requires small { n < 2 ^ 40 }
    requires long { length destinations.now ≡ length sources.now }
    requires within { (i : ℕ) (q : Placed) → i < length sources.now → destination_at destinations.now i ≡ Some q → InForest n q.row q.off }
    ensures { IfOk result (λ v. AreNew n sources.now destinations.now v.items) }
{
    let new_places = sorted_new_places(alloc, n, sources, destinations)?;
    first_new_places(alloc, &new_places)
}
