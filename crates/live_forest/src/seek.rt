//! Where parts of the entries stand in the forest, and which part stands at a place. Each is a walk up to the root of a slot and back.
ghost use Rattle.std.specs.Prelude.{◌≡◌, ◌+◌, ◌-◌, ◌*◌, ◌/◌, ◌%◌, ◌^◌, ◌<◌, ◌≤◌, [], length, is_some, None, MatchOption};
ghost use Rattle.std.specs.Bool.{OnTrue, OnFalse};
ghost use Rattle.forest_model.specs.Content.{content};
ghost use Rattle.forest_place.specs.Forest.{InForest, sibling_off};
ghost use Rattle.forest_model.specs.Standing.{tree_at, digest_at as digest_at_of};
ghost use Rattle.live_forest.specs.Lookups.{AreAlike, IsSmallest, IsPartAt};
ghost use Rattle.live_forest.specs.State.{leaf_number};
ghost use Rattle.live_forest.specs.Parts.{entries_in, kept, AreParts};

use crate::seen::{has_in, is_root, is_within, part_in};
use crate::store::Store;
use forest_place::{Place, child, parent, sibling, side};
use uo_digest::{Digest, Digester};

// The smallest part with the same tree.
pub(crate) fn smallest(store: &Store, n: u64, row: u8, off: u64) -> Place
    requires small { length (entries_in n store.now) < 2 ^ 40 }
    requires room { n ≤ store.now.len }
    requires alike { AreAlike (entries_in n store.now) store.now }
    requires within { InForest (length (entries_in n store.now)) row off }
    ensures { IsSmallest (entries_in n store.now) row off result }
{
    if row == 0 {
        return Place { row, off };
    }
    let on_left = has_in(store, n, row - 1, 2 * off);
    if !on_left {
        return smallest(store, n, row - 1, 2 * off + 1);
    }
    let on_right = has_in(store, n, row - 1, 2 * off + 1);
    if !on_right {
        return smallest(store, n, row - 1, 2 * off);
    }
    Place { row, off }
}

// The part whose tree stands at a place: goes up to the slot's root, and takes the halves on the way back.
pub(crate) fn part_at(store: &Store, n: u64, row: u8, off: u64) -> Option<Place>
    requires small { length (entries_in n store.now) < 2 ^ 40 }
    requires room { n ≤ store.now.len }
    requires alike { AreAlike (entries_in n store.now) store.now }
    requires within { InForest (length (entries_in n store.now)) row off }
    ensures { MatchOption result (tree_at (entries_in n store.now) row off ≡ None) (λ p. IsPartAt (entries_in n store.now) row off p) }
{
    if is_root(store, n, Place { row, off }) {
        let some = has_in(store, n, row, off);
        if !some {
            return None;
        }
        Some(Place { row, off })
    } else {
        match part_at(store, n, row + 1, off / 2) {
            None => None,
            Some(above) => {
                let node = smallest(store, n, above.row, above.off);
                if node.row == 0 {
                    None
                } else {
                    Some(child(node, side(Place { row, off })))
                }
            }
        }
    }
}

// A part above another one, and where that one stands beneath the place of this: so many rows deeper, and so far from the left of as many
// places as there are in that row.
#[derive(Clone, Copy)]
struct Ascent {
    part: Place,
    rows: u8,
    width: u64,
    left: u64,
}

impl Ascent {
    // The same from the part above, given whether something is live beside this one.
    fn risen(self, beside: bool) -> Ascent
        requires row { self.part.row < 40 }
        requires rows { self.rows < 40 }
        requires width { self.width < 2 ^ 40 }
        requires left { self.left < 2 ^ 40 }
        ensures part { result.part ≡ record { row = self.part.row + 1; off = self.part.off / 2 } }
        ensures deeper { OnTrue beside ((result.rows ≡ self.rows + 1) × (result.width ≡ self.width * 2)
            × (result.left ≡ self.left + self.part.off % 2 * self.width)) }
        ensures same { OnFalse beside ((result.rows ≡ self.rows) × (result.width ≡ self.width) × (result.left ≡ self.left)) }
    {
        let above = parent(self.part);
        if !beside {
            return Ascent {
                part: above,
                ..self
            };
        }
        Ascent {
            part: above,
            rows: self.rows + 1,
            width: self.width * 2,
            left: self.left + side(self.part) * self.width,
        }
    }
}

// Whether something is live in the part beside one.
fn has_sibling(store: &Store, n: u64, part: Place) -> bool
    requires small { length (entries_in n store.now) < 2 ^ 40 }
    requires room { n ≤ store.now.len }
    requires within { InForest (length (entries_in n store.now)) part.row (sibling_off part.off) }
    ensures { result ≡ is_some (kept (entries_in n store.now) store.now part.row (sibling_off part.off)) }
{
    let other = sibling(part);
    has_in(store, n, other.row, other.off)
}

// The place at which the tree of a part stands. On the way up no read waits for another.
pub(crate) fn place_from(store: &Store, n: u64, place: Place) -> Place
    requires small { length (entries_in n store.now) < 2 ^ 40 }
    requires room { n ≤ store.now.len }
    requires alike { AreAlike (entries_in n store.now) store.now }
    requires within { InForest (length (entries_in n store.now)) place.row place.off }
    requires some { kept (entries_in n store.now) store.now place.row place.off ≡ None → ⊥ }
    ensures stands { tree_at (entries_in n store.now) result.row result.off ≡ content (entries_in n store.now) place.row place.off }
    ensures within { InForest (length (entries_in n store.now)) result.row result.off }
{
    let mut ascent = Ascent {
        part: place,
        rows: 0,
        width: 1,
        left: 0,
    };
    'ascent: while !is_root(store, n, ascent.part) {
        ascent = ascent.risen(has_sibling(store, n, ascent.part));
    }
    Place {
        row: ascent.part.row - ascent.rows,
        off: ascent.part.off * ascent.width + ascent.left,
    }
}

// The digest at a place of the forest.
pub(crate) fn digest_of_place<D: Digester>(
    store: &Store,
    n: u64,
    row: u8,
    off: u64,
) -> Option<Digest>
    requires small { length (entries_in n store.now) < 2 ^ 40 }
    requires room { n ≤ store.now.len }
    requires right { AreParts D.digest_of (length (entries_in n store.now)) (entries_in n store.now) store.now }
    ensures { result ≡ digest_at_of D.digest_of (entries_in n store.now) row off }
{
    if !is_within(store, n, Place { row, off }) {
        return None;
    }
    match part_at(store, n, row, off) {
        None => None,
        Some(p) => part_in(store, n, p.row, p.off),
    }
}

// The number of the entry at a place of the forest.
pub(crate) fn number_of_place(store: &Store, n: u64, row: u8, off: u64) -> Option<u64>
    requires small { length (entries_in n store.now) < 2 ^ 40 }
    requires room { n ≤ store.now.len }
    requires alike { AreAlike (entries_in n store.now) store.now }
    ensures { result ≡ leaf_number (tree_at (entries_in n store.now) row off) }
{
    if !is_within(store, n, Place { row, off }) {
        return None;
    }
    match part_at(store, n, row, off) {
        None => None,
        Some(p) => {
            let q = smallest(store, n, p.row, p.off);
            if q.row == 0 { Some(q.off) } else { None }
        }
    }
}
