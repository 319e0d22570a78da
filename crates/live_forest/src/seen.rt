//! What the look-ups read: the parts of the first `n` entries.
ghost use Rattle.std.specs.Prelude.{◌≡◌, ◌↔◌, ◌/◌, ◌^◌, ◌<◌, ◌≤◌, length, IsTrue, true, false, MatchOption, is_some, option_copied};
ghost use Rattle.forest_place.specs.Forest.{InForest, is_slot, root_off, is_root as is_root_at, sibling_off};
ghost use Rattle.live_forest.specs.Lookups.{AreHeld};
ghost use Rattle.live_forest.specs.State.{is_live};
ghost use Rattle.live_forest.specs.Parts.{entries_in, kept};

use crate::store::Store;
use forest_place::{Place, root_place};
use uo_digest::Digest;

/// The digest that is kept for a part.
pub(crate) fn part_in(store: &Store, n: u64, row: u8, off: u64) -> Option<Digest>
    requires small { length (entries_in n store.now) < 2 ^ 40 }
    requires room { n ≤ store.now.len }
    requires within { InForest (length (entries_in n store.now)) row off }
    ensures { result ≡ kept (entries_in n store.now) store.now row off }
{
    store.part(n, row, off)
}

/// The digest that is kept for the part beside the one of a row that has a live entry, where it lies.
pub(crate) fn beside_in(store: &Store, n: u64, row: u8, number: u64) -> Option<&Digest>
    requires small { length (entries_in n store.now) < 2 ^ 40 }
    requires room { n ≤ store.now.len }
    requires held { AreHeld (entries_in n store.now) store.now }
    requires live { is_live (entries_in n store.now) number ≡ true }
    requires within { InForest (length (entries_in n store.now)) row (sibling_off (number / 2 ^ row)) }
    ensures { option_copied result ≡ kept (entries_in n store.now) store.now row (sibling_off (number / 2 ^ row)) }
{
    store.beside(n, row, number)
}

/// Whether something is kept for a part.
pub(crate) fn has_in(store: &Store, n: u64, row: u8, off: u64) -> bool
    requires small { length (entries_in n store.now) < 2 ^ 40 }
    requires room { n ≤ store.now.len }
    requires within { InForest (length (entries_in n store.now)) row off }
    ensures { result ≡ is_some (kept (entries_in n store.now) store.now row off) }
{
    store.has(n, row, off)
}

/// Whether a place of the forest is a slot's root.
pub(crate) fn is_root(store: &Store, n: u64, place: Place) -> bool
    requires small { length (entries_in n store.now) < 2 ^ 40 }
    requires room { n ≤ store.now.len }
    requires within { InForest (length (entries_in n store.now)) place.row place.off }
    ensures { result ≡ is_root_at (length (entries_in n store.now)) place.row place.off }
{
    forest_place::is_root(n, place)
}

/// Whether the forest has the place.
pub(crate) fn is_within(store: &Store, n: u64, place: Place) -> bool
    requires small { length (entries_in n store.now) < 2 ^ 40 }
    requires room { n ≤ store.now.len }
    ensures { IsTrue result ↔ InForest (length (entries_in n store.now)) place.row place.off }
{
    forest_place::is_within(n, place)
}

/// The root of a row, where the row is a slot.
pub(crate) fn root_in(store: &Store, n: u64, row: u8) -> Option<Place>
    requires small { length (entries_in n store.now) < 2 ^ 40 }
    requires room { n ≤ store.now.len }
    requires row { row < 40 }
    ensures { MatchOption result (is_slot (length (entries_in n store.now)) row ≡ false) (λ root. (is_slot (length (entries_in n store.now)) row ≡ true)
        × (root ≡ record { row = row; off = root_off (length (entries_in n store.now)) row })) }
{
    if forest_place::is_slot(n, row) {
        Some(root_place(row, n))
    } else {
        None
    }
}
