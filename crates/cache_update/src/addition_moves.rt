//! What an addition leaves where it stands: all that stands beneath no slot below the highest empty root that is joined.
ghost use Rattle.std.specs.Prelude.{◌≡◌, ◌+◌, ◌<◌, ◌≤◌, ◌^◌, true, false, length, All};
ghost use Rattle.std.specs.Bool.{OnFalse};
ghost use Rattle.forest_place.specs.Forest.{InForest};
ghost use Rattle.forest_model.specs.Addition.{all_slots};
ghost use Rattle.cache_model.specs.Cache.{raised};
ghost use Rattle.cache_model.specs.Lists.{AscendByPlace};
ghost use Rattle.cache_update.specs.Joins.{is_empty_of};
ghost use Rattle.cache_update.specs.AdditionMoves.{AreFull, stays as stays_of};

use crate::add::raise;
use forest_place::Place;
use forest_roots::Join;
use leaf_cache::index_of_place;
use uo_digest::Digest;

// How many joined slots there are up to the highest one whose root is empty.
pub(crate) fn rising_rows(joins: &[Join]) -> u8
    requires { length joins.now ≤ 40 }
    ensures within { result ≤ length joins.now }
    ensures full { AreFull joins.now result }
{
    let mut row = joins.len() as u8;
    while row > 0 {
        if joins[row as usize - 1].left.is_none() {
            return row;
        }
        row -= 1;
    }
    0
}

// Whether the place stands beneath no slot below a row.
fn stays(n: u64, top: u8, place: Place) -> bool
    requires { top ≤ 40 }
    ensures { result ≡ stays_of n top place }
{
    if place.row < top {
        place.off >> (top - place.row) < n >> top
    } else {
        true
    }
}

// Where what stands at the place goes, where no root is empty that is joined from a row on.
pub(crate) fn raise_below(n: u64, joins: &[Join], top: u8, place: Place) -> Place
    requires few { n < 2 ^ 40 }
    requires within { InForest n place.row place.off }
    requires slots { all_slots n (length joins.now) ≡ true }
    requires forty { length joins.now ≤ 40 }
    requires top { top ≤ length joins.now }
    requires full { AreFull joins.now top }
    ensures { result ≡ raised (is_empty_of joins.now) n (length joins.now) place.row place.off }
{
    if stays(n, top, place) {
        place
    } else {
        raise(n, joins, place)
    }
}

// Whether anything is held in a row from an offset on.
fn is_held_from(held: &[(Place, Digest)], row: u8, off: u64) -> bool
    requires ascends { AscendByPlace held.now }
    requires low { row < 40 }
    ensures { OnFalse result (All (λ x. x.0.row ≡ row → x.0.off < off) held.now) }
{
    let first = index_of_place(held, Place { row, off });
    let next = index_of_place(
        held,
        Place {
            row: row + 1,
            off: 0,
        },
    );
    first < next
}

// Whether anything is held beneath a slot below a row.
pub(crate) fn is_any_below(n: u64, top: u8, held: &[(Place, Digest)]) -> bool
    requires few { n < 2 ^ 40 }
    requires low { top ≤ 40 }
    requires ascends { AscendByPlace held.now }
    ensures { OnFalse result (All (λ x. stays_of n top x.0 ≡ true) held.now) }
{
    let mut row: u8 = 0;
    while row < top {
        if is_held_from(held, row, n >> top << (top - row)) {
            return true;
        }
        row += 1;
    }
    false
}
