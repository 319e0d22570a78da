//! The digests at many places, each from what stands right above it: so all of them take one walk down from the roots.
ghost use Rattle.std.specs.Prelude.{◌≡◌, ◌↔◌, ◌^◌, ◌<◌, ◌≤◌, length, map, None, IsTrue, MatchOption, IfOk};
ghost use Rattle.std.specs.Bool.{OnTrue};
ghost use Rattle.forest_place.specs.Forest.{InForest};
ghost use Rattle.forest_model.specs.Standing.{tree_at, digest_at as digest_at_of};
ghost use Rattle.live_forest.specs.Lookups.{AreAlike, IsPartAt, IsNodeAt, AreNodes, IsParentAt};
ghost use Rattle.live_forest.specs.Parts.{entries_in, AreParts};

use crate::seek::{part_at, smallest};
use crate::seen::{is_root, is_within, part_in};
use crate::store::Store;
use forest_place::{Place, child, parent, side};
use std::alloc::{AllocError, Global};
use uo_digest::{Digest, Digester};

// Whether one place comes before the place above another.
fn is_before_parent(place: Place, other: Place) -> bool {
    place.row <= other.row || (place.row - 1 == other.row && place.off < other.off / 2)
}

// Where the place above may stand in the list: back from an index, as far as one that is not passed.
fn back_to_parent(above: &[Place], low: usize, from: usize, place: Place) -> usize
    requires order { low ≤ from }
    requires within { from ≤ length above.now }
    ensures low { low ≤ result }
    ensures within { result ≤ from }
{
    let mut at = from;
    while at > low && !is_before_parent(above[at - 1], place) {
        at -= 1;
    }
    at
}

// The same on from an index.
fn on_to_parent(above: &[Place], from: usize, place: Place) -> usize {
    let mut at = from;
    while at < above.len() && is_before_parent(above[at], place) {
        at += 1;
    }
    at
}

// Whether the list has the place above at the index.
fn has_parent(store: &Store, n: u64, above: &[Place], at: usize, place: Place) -> bool
    requires small { length (entries_in n store.now) < 2 ^ 40 }
    requires room { n ≤ store.now.len }
    requires within { InForest (length (entries_in n store.now)) place.row place.off }
    ensures { OnTrue result (IsParentAt (length (entries_in n store.now)) above.now at place) }
{
    if is_root(store, n, place) || at >= above.len() {
        return false;
    }
    above[at] == parent(place)
}

// The part whose tree stands at a place of the forest: from the node above, where the list has that at the index, and else from the
// root down.
fn part_by(
    store: &Store,
    n: u64,
    above: &[Place],
    nodes: &[Option<Place>],
    at: usize,
    place: Place,
) -> Option<Place>
    requires small { length (entries_in n store.now) < 2 ^ 40 }
    requires room { n ≤ store.now.len }
    requires alike { AreAlike (entries_in n store.now) store.now }
    requires within { InForest (length (entries_in n store.now)) place.row place.off }
    requires told { AreNodes (entries_in n store.now) above.now nodes.now at }
    requires each { length nodes.now ≡ length above.now }
    ensures { MatchOption result (tree_at (entries_in n store.now) place.row place.off ≡ None) (λ p. IsPartAt (entries_in n store.now) place.row
        place.off p) }
{
    if !has_parent(store, n, above, at, place) {
        return part_at(store, n, place.row, place.off);
    }
    let Some(node) = nodes[at] else {
        return None;
    };
    if node.row == 0 {
        None
    } else {
        Some(child(node, side(place)))
    }
}

// The node that stands at a place, if one does.
fn node_by(
    store: &Store,
    n: u64,
    above: &[Place],
    nodes: &[Option<Place>],
    at: usize,
    place: Place,
) -> Option<Place>
    requires small { length (entries_in n store.now) < 2 ^ 40 }
    requires room { n ≤ store.now.len }
    requires alike { AreAlike (entries_in n store.now) store.now }
    requires told { AreNodes (entries_in n store.now) above.now nodes.now at }
    requires each { length nodes.now ≡ length above.now }
    ensures { IsNodeAt (entries_in n store.now) place.row place.off result }
{
    if !is_within(store, n, place) {
        return None;
    }
    match part_by(store, n, above, nodes, at, place) {
        None => None,
        Some(p) => Some(smallest(store, n, p.row, p.off)),
    }
}

// So many places, of which none is told.
fn untold(alloc: Global, len: usize) -> Result<Vec<Option<Place>>, AllocError>
    ensures { IfOk result (λ nodes. length nodes.items ≡ len) }
{
    let mut nodes = Vec::new(alloc);
    nodes.resize(len, None)?;
    Ok(nodes)
}

// The nodes that stand at these places, the last one first.
fn nodes_of(
    alloc: Global,
    store: &Store,
    n: u64,
    places: &[Place],
) -> Result<Vec<Option<Place>>, AllocError>
    requires small { length (entries_in n store.now) < 2 ^ 40 }
    requires room { n ≤ store.now.len }
    requires alike { AreAlike (entries_in n store.now) store.now }
    ensures each { IfOk result (λ nodes. length nodes.items ≡ length places.now) }
    ensures are { IfOk result (λ nodes. AreNodes (entries_in n store.now) places.now nodes.items 0) }
{
    let mut nodes = untold(alloc, places.len())?;
    let mut left = places.len();
    let mut at = places.len();
    while left > 0 {
        at = back_to_parent(places, left, at, places[left - 1]);
        let node = node_by(store, n, places, &nodes, at, places[left - 1]);
        left -= 1;
        nodes[left] = node;
    }
    Ok(nodes)
}

// The digest that stands at a place, if one does.
fn digest_by<D: Digester>(
    store: &Store,
    n: u64,
    above: &[Place],
    nodes: &[Option<Place>],
    at: usize,
    place: Place,
) -> Option<Digest>
    requires small { length (entries_in n store.now) < 2 ^ 40 }
    requires room { n ≤ store.now.len }
    requires right { AreParts D.digest_of (length (entries_in n store.now)) (entries_in n store.now) store.now }
    requires told { AreNodes (entries_in n store.now) above.now nodes.now 0 }
    requires each { length nodes.now ≡ length above.now }
    ensures { result ≡ digest_at_of D.digest_of (entries_in n store.now) place.row place.off }
{
    if !is_within(store, n, place) {
        return None;
    }
    match part_by(store, n, above, nodes, at, place) {
        None => None,
        Some(p) => part_in(store, n, p.row, p.off),
    }
}

// The digests that stand at places, each from what stands above it, where that is among the places `above`.
pub(crate) fn digests_of_places<D: Digester>(
    alloc: Global,
    store: &Store,
    n: u64,
    above: &[Place],
    places: &[Place],
) -> Result<Vec<Option<Digest>>, AllocError>
    requires small { length (entries_in n store.now) < 2 ^ 40 }
    requires room { n ≤ store.now.len }
    requires right { AreParts D.digest_of (length (entries_in n store.now)) (entries_in n store.now) store.now }
    ensures { IfOk result (λ digests. digests.items ≡ map (λ p. digest_at_of D.digest_of (entries_in n store.now) p.row p.off) places.now) }
{
    let nodes = nodes_of(alloc, store, n, above)?;
    let mut digests = Vec::with_capacity(alloc, places.len())?;
    let mut at = 0;
    for place in places {
        at = on_to_parent(above, at, *place);
        digests.push(digest_by::<D>(store, n, above, &nodes, at, *place))?;
    }
    Ok(digests)
}
